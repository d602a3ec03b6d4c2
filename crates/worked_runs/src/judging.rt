//! A log judged row by row, and with its certificates.

ghost use Rattle.std.specs.Prelude.{◌≡◌, ◌<◌, ◌↔◌, [], ℕ, List, Option, IfOk, OnOk, IfSome, IsNone, IsTrue, slice_index};
ghost use Rattle.kt_spacetime.specs.declared.event.Event.{Event};
ghost use Rattle.kt_log_text.specs.Reading.{rows_unread};
ghost use Rattle.kt_log_text.specs.Texts.{IsLogText};
ghost use Rattle.kt_meaning.specs.Past.{past};
ghost use Rattle.kt_meaning.specs.Cuts.{IsOrphan, IsConsistent, permanent_cut};
ghost use Rattle.kt_walk.specs.WalkOf.{WalkOf};
ghost use Rattle.kt_meaning.specs.Passing.{IsPassed};
ghost use Rattle.worked_runs.specs.Walked.{IsWalkedText};

use crate::commands::{value_of, word};
use anyhow::Result;
use kt_base::{Memory, MsgNo, ProcNo};
use kt_chain::read_certs;
use kt_checker::{check, check_stream};
use kt_log_text::RowReader;
use kt_rules::Cut;
use kt_spacetime::{Certificate, SpaceTime, Verdict};
use kt_walk::Walk;
use std::alloc::Global;
use std::io::Read;
use std::rt::Files;
use std::{fs, io};

/// The walk of a stored log, which is legal.
fn walk_of<R: Read + Drop>(alloc: Global, text: R) -> Result<Walk>
    ensures { IfOk result (IsWalkedText (R.remaining text)) }
{
    let mut walk = Walk::new(alloc)?;
    let mut rows = RowReader::new(alloc, text)?;
    feed_all(&mut walk, &mut rows)?;
    Ok(walk)
}

/// Feeds a walk all rows of a text, of which none was read or fed.
fn feed_all<R: Read + Drop>(walk: &mut Walk, rows: &mut RowReader<R>) -> Result<()>
    requires unread { (text : Option (List ℕ)) × (rows.old ≡ rows_unread text) }
    requires unfed { WalkOf walk.old [] }
    ensures walked { (text : Option (List ℕ)) → rows.old ≡ rows_unread text
        → OnOk result (IsWalkedText text walk.new) }
{
    while let Some(row) = rows.next()? {
        walk.feed(&row)?;
    }
    Ok(())
}

/// The cut of the permanent positions.
fn permanent_cut(walk: &Walk) -> Cut
    ensures { (rows : List Event) (p : ℕ) → WalkOf walk.now rows → p < 64
        → slice_index result p ≡ permanent_cut (past rows) p }
{
    let mut cut = Cut::new([0; 64]);
    for number in 0..ProcNo::COUNT {
        let p = ProcNo::nth(number);
        cut.set(p, walk.permanent(p));
    }
    cut
}

/// A message that the permanent cut has as received and not as sent; None where that cut is consistent.
fn permanent_orphan(walk: &Walk) -> Option<MsgNo>
    ensures orphan { IfSome result (λ msg. (rows : List Event) → WalkOf walk.now rows
        → IsOrphan (past rows) (permanent_cut (past rows)) msg) }
    ensures none { (rows : List Event) → WalkOf walk.now rows
        → IsNone result ↔ IsConsistent (past rows) (permanent_cut (past rows)) }
{
    walk.orphan(&permanent_cut(walk))
}

/// Whether a stored log passes with these certificates.
fn passes<R: Read + Drop>(alloc: Global, text: R, certificates: &[Certificate]) -> Result<bool>
    ensures { IfOk result (λ yes. IfSome (rows_unread (R.remaining text)).left (λ records.
        (rows : List Event) → IsLogText records rows → IsTrue yes ↔ IsPassed rows certificates.now)) }
{
    let verdict = check_stream(alloc, text, certificates)?;
    Ok(is_yes(verdict))
}

/// Whether a log passes with these certificates.
pub(crate) fn log_passes(
    alloc: Global,
    log: &SpaceTime,
    certificates: &[Certificate],
) -> Result<bool, Memory>
    ensures { IfOk result (λ yes. IsTrue yes ↔ IsPassed log.now.rows certificates.now) }
{
    match check(alloc, log, certificates) {
        Ok(verdict) => Ok(is_yes(verdict)),
        Err(fault) => Err(fault),
    }
}

/// Whether an answer is a yes.
fn is_yes(verdict: Verdict) -> bool
    ensures { IsTrue result ↔ (verdict ≡ Verdict.Yes) }
{
    match verdict {
        Verdict::Yes => true,
        Verdict::No { .. } => false,
    }
}

// Shows how many rows there are, where processes 0 and 1 stand, and the orphan of the permanent cut, 0 for none.
fn show_places<R: Print>(rt: &R, walk: &Walk) -> io::Result<()> {
    let (p, q) = (ProcNo::nth(0), ProcNo::nth(1));
    let orphan = match permanent_orphan(walk) {
        Some(msg) => msg.get(),
        None => 0,
    };
    println!(rt;
        "{} rows; permanent {} of {}, {} of {}; orphan {orphan}",
        walk.rows(),
        walk.permanent(p),
        walk.length(p),
        walk.permanent(q),
        walk.length(q)
    )
}

/// Shows what a walk tells of a stored log.
pub(crate) fn show_walk<R: Files + Print + AllocGlobal>(rt: &R, log: &str) -> io::Result<()> {
    let text = fs::open(rt, log)?;
    match walk_of(rt.alloc(), text) {
        Ok(walk) => show_places(rt, &walk),
        Err(_) => println!(rt; "no walk"),
    }
}

// Shows what the checker says of a stored log with these certificates.
fn show_answer<R: Files + Print + AllocGlobal>(
    rt: &R,
    log: &str,
    certificates: &[Certificate],
) -> io::Result<()> {
    let text = fs::open(rt, log)?;
    match passes(rt.alloc(), text, certificates) {
        Ok(yes) => println!(rt; "passes: {yes}"),
        Err(_) => println!(rt; "no answer"),
    }
}

/// Shows what the checker says of a stored log with stored certificates.
pub(crate) fn show_passes<R: Files + Print + AllocGlobal>(rt: &R, files: &str) -> io::Result<()> {
    let text = fs::open(rt, word(files, 1))?;
    let certificates = value_of(read_certs(rt.alloc(), text))?;
    show_answer(rt, word(files, 0), certificates.as_slice())
}
