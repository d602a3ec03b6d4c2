//! The certificates of the log of a run.

ghost use Rattle.std.specs.Prelude.{◌≡◌, ◌≤◌, ◌^◌, [], ℕ, false, Some, All, IfOk, OnOk, length, take, slice_get};
ghost use Rattle.kt_spacetime.specs.declared.event.Event.{Event};
ghost use Rattle.kt_meaning.specs.Legal.{IsLegal};
ghost use Rattle.kt_chain.specs.Spelling.{HasShortChains, records_of};
ghost use Rattle.kt_chain.specs.Texts.{IsCertText};
ghost use Rattle.kt_meaning.specs.Certificates.{certificates};
ghost use Rattle.kt_meaning.specs.Decisions.{is_commit};
ghost use Rattle.kt_meaning.specs.Fitness.{HasNoChain};
ghost use Rattle.kt_certify.specs.Instances.{AreInstancesOf};
ghost use Rattle.kt_meaning.specs.Meant.{AreMeant};
ghost use Rattle.kt_walk.specs.WalkOf.{WalkOf};

use crate::pass::Pass;
use kt_base::Memory;
use kt_spacetime::{Certificate, Event, SpaceTime};
use std::alloc::Global;

/// The certificates of a log as `certify` makes them, where the log is legal and no member lacks a chain, as in the log of
/// each run. So nothing but want of memory ends it early.
///
/// A walk goes along the rows up to the last one that commits an instance. An aborted instance's certificate has no
/// members, so of the rows after that one only the instances are noted.
pub fn certificates_of_run(alloc: Global, log: &SpaceTime) -> Result<Vec<Certificate>, Memory>
    requires legal { IsLegal log.now.rows }
    requires chained { (k p : ℕ) → HasNoChain log.now.rows k p → ⊥ }
    // They are those of the log, and what it means.
    ensures certificates { IfOk result (λ list. list.items ≡ certificates log.now.rows) }
    ensures meant { IfOk result (λ list. AreMeant log.now.rows list.items) }
    // They can be written, and what is written says them.
    ensures short { IfOk result (λ list. All HasShortChains list.items) }
    ensures text { IfOk result (λ list. IsCertText (records_of list.items) list.items) }
{
    let rows = log.rows();
    let walked = rows_to_commit(rows);
    let mut pass = Pass::new(alloc)?;
    feed_all(&mut pass, &rows[..walked])?;
    note_from(&mut pass, rows, walked)?;
    pass.found()
}

// How many rows there are up to the last one that commits an instance; none where no row does.
fn rows_to_commit(rows: &[Event]) -> usize
    ensures within { result ≤ length rows.now }
    ensures last { (n : ℕ) (row : Event) → result ≤ n → slice_get rows.now n ≡ Some row → is_commit row ≡ false }
{
    for back in 0..rows.len() {
        let upto = rows.len() - back;
        if is_commit(&rows[upto - 1]) {
            return upto;
        }
    }
    0
}

// Whether a row commits an instance.
fn is_commit(row: &Event) -> bool
    ensures { result ≡ is_commit row.now }
{
    match *row {
        Event::Decided { commit, .. } => commit,
        _ => false,
    }
}

// Feeds rows of a legal log of which no member lacks a chain to a pass that has seen none.
fn feed_all(pass: &mut Pass, rows: &[Event]) -> Result<(), Memory>
    requires walk { WalkOf pass.old.walk [] }
    requires instances { AreInstancesOf [] pass.old.instances.items }
    requires legal { IsLegal rows.now }
    requires few { length rows.now ≤ 2 ^ 24 }
    ensures { OnOk result (AreInstancesOf rows.now pass.new.instances.items) }
{
    for row in rows {
        pass.feed_legal(row)?;
    }
    Ok(())
}

// Notes the rows from a place on, which commit no instance.
fn note_from(pass: &mut Pass, rows: &[Event], from: usize) -> Result<(), Memory>
    requires within { from ≤ length rows.now }
    requires legal { IsLegal rows.now }
    requires last { (n : ℕ) (row : Event) → from ≤ n → slice_get rows.now n ≡ Some row → is_commit row ≡ false }
    requires before { AreInstancesOf (take from rows.now) pass.old.instances.items }
    ensures { OnOk result (AreInstancesOf rows.now pass.new.instances.items) }
{
    for place in from..rows.len() {
        pass.note(&rows[place])?;
    }
    Ok(())
}
