//! The line of messages that did not arrive.

ghost use Rattle.std.specs.Prelude.{◌≡◌, ◌≤◌, ◌<◌, ◌+◌, ◌^◌, ◌++◌, ◌∷◌, [], List, Some, true, false, length, OnOk, IfOk};
ghost use Rattle.kt_spacetime.specs.declared.event.Event.{Event};
ghost use Rattle.kt_meaning.specs.Past.{past};
ghost use Rattle.kt_meaning.specs.Legal.{IsLegal};
ghost use Rattle.kt_walk.specs.WalkOf.{WalkOf};
ghost use Rattle.kt_report.specs.Exact.{is_lost, lost_in};
ghost use Rattle.kt_report.specs.Lines.{losses_line};

use crate::words::{end_line, push_word};
use kt_base::{Memory, MsgNo};
use kt_rules::LegalFault;
use kt_spacetime::Event;
use kt_walk::Walk;
use std::alloc::Global;

/// How many messages are lost at the end of a legal log. Of another log nothing is said.
pub(crate) fn lost(alloc: Global, rows: &[Event]) -> Result<usize, Memory>
    requires { length rows.now ≤ 2 ^ 24 }
    ensures { IfOk result (λ lost. IsLegal rows.now → lost ≡ lost_in rows.now) }
{
    let walk = walk_along(alloc, rows)?;
    Ok(lost_after(&walk, rows))
}

// A walk along the rows of a legal log; along those of another up to the first that breaks a rule.
fn walk_along(alloc: Global, rows: &[Event]) -> Result<Walk, Memory>
    requires { length rows.now ≤ 2 ^ 24 }
    ensures { IfOk result (λ walk. IsLegal rows.now → WalkOf walk rows.now) }
{
    let mut walk = Walk::new(alloc)?;
    for place in 0..rows.len() {
        if !is_fed(&mut walk, &rows[place])? {
            return Ok(walk);
        }
    }
    Ok(walk)
}

// Whether a walk takes one more row, which breaks no rule then.
fn is_fed(walk: &mut Walk, row: &Event) -> Result<bool, Memory>
    requires few { walk.old.rows < 2 ^ 24 }
    ensures fed { IfOk result (λ is_legal. is_legal ≡ true → (rows : List Event) → WalkOf walk.old rows
        → IsLegal (rows ++ row.now ∷ []) × WalkOf walk.new (rows ++ row.now ∷ [])) }
    ensures broken { IfOk result (λ is_legal. is_legal ≡ false → (rows : List Event) → WalkOf walk.old rows
        → IsLegal (rows ++ row.now ∷ []) → ⊥) }
{
    match walk.feed(row) {
        Ok(()) => Ok(true),
        Err(LegalFault::Broken(..)) => Ok(false),
        Err(LegalFault::Memory) => Err(Memory),
    }
}

// How many messages are lost after the rows of a walk.
fn lost_after(walk: &Walk, rows: &[Event]) -> usize
    requires { length rows.now ≤ 2 ^ 24 }
    ensures { WalkOf walk.now rows.now → result ≡ lost_in rows.now }
{
    let mut lost: usize = 0;
    for place in 0..rows.len() {
        if is_lost(walk, place, rows[place]) {
            lost += 1;
        }
    }
    lost
}

// Whether the row at a place sent a message that is lost.
fn is_lost(walk: &Walk, place: usize, row: Event) -> bool
    requires { place < 2 ^ 24 }
    ensures { (rows : List Event) → WalkOf walk.now rows → result ≡ is_lost (past rows) (place + 1) (Some row) }
{
    match row {
        Event::Sent { p, to, .. } => walk.takes_in_transit(&Event::Received {
            p: to,
            from: p,
            msg: MsgNo::after(place),
        }),
        _ => false,
    }
}

/// Gathers the line of how many messages were lost, and how many dropped.
pub(crate) fn push_losses(text: &mut Vec<u8>, lost: usize, dropped: usize) -> Result<(), Memory>
    ensures { OnOk result (text.new.items ≡ text.old.items ++ losses_line lost dropped) }
{
    let mut digits = itoa::Buffer::new();
    let mut other_digits = itoa::Buffer::new();
    text.extend_from_slice(b"lost")?;
    push_word(text, digits.format(lost).as_bytes())?;
    push_word(text, b"dropped")?;
    push_word(text, other_digits.format(dropped).as_bytes())?;
    end_line(text)
}
