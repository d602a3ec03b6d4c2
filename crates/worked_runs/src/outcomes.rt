//! What is left of a run, shown.

use crate::commands::value_of;
use kt_log_text::write_csv;
use kt_object::{Held, SlotBook};
use kt_plan::Told;
use kt_run::Outcome;
use std::io;

// Shows what a process holds.
fn show_held<R: Print>(rt: &R, held: &Held) -> io::Result<()> {
    match &held.present {
        Some(object) => print!(rt; "offers {}", object.offer())?,
        None => print!(rt; "down")?,
    }
    print!(rt;
        ", spares: {}, saved {:?}, tentative {:?}",
        held.spares.len(),
        held.depot.permanent(),
        held.depot.tentative()
    )
}

// Shows the numbers of the rows that a step told.
fn show_numbers<R: Print>(rt: &R, step: &Told) -> io::Result<()> {
    for (number, _event) in step.rows.iter().flatten() {
        print!(rt; " {}", number.get())?;
    }
    Ok(())
}

// Shows how many steps a process made, and the numbers of the rows that they told.
fn show_told<R: Print>(rt: &R, told: &[Told]) -> io::Result<()> {
    print!(rt; ", {} steps with the rows", told.len())?;
    for step in told {
        show_numbers(rt, step)?;
    }
    println!(rt; "")
}

// Shows what each process holds and was told.
fn show_processes<R: Print>(rt: &R, outcome: &Outcome) -> io::Result<()> {
    for (held, told) in outcome.objects.iter().zip(outcome.told.iter()) {
        show_held(rt, held)?;
        show_told(rt, told.as_slice())?;
    }
    Ok(())
}

/// Shows the log of a run, what each process holds and was told, and how many slots come free and are out while what it left
/// is there.
pub(crate) fn show_outcome<R: Print + AllocGlobal>(
    rt: &R,
    outcome: &Outcome,
    book: &mut SlotBook,
) -> io::Result<()> {
    value_of(write_csv(rt.alloc(), &outcome.log, &mut io::writer(rt)))?;
    show_processes(rt, outcome)?;
    let freed = book.collect();
    println!(rt;
        "{} processes, slots freed: {freed}, out: {}",
        outcome.objects.len(),
        book.out()
    )
}
