//! Runs over objects of one's own, one step after another and in threads.

use crate::commands::Host;
use crate::counter::{Count, Counter};
use crate::outcomes::show_outcome;
use kt_base::Memory;
use kt_object::{Cast, Object, SlotBook};
use kt_plan::Plan;
use kt_program::cast_of;
use kt_run::run;
use kt_threads::live;
use std::io;
use std::sync::Arc;
use std::sync::atomic::{AtomicU64, Ordering};

/// One step after another, or each process in a thread of its own.
#[derive(Drop)]
pub(crate) enum Way {
    Run,
    Live,
}

/// Runs a plan over these objects, one step after another, and shows what is left of it.
fn show_run<R: Host>(rt: &R, plan: &Plan, cast: Cast, book: &mut SlotBook) -> io::Result<()> {
    match run(rt.alloc(), plan, &[], cast) {
        Ok(outcome) => show_outcome(rt, &outcome, book),
        Err(fault) => println!(rt; "{fault:?}"),
    }
}

/// The same with a thread for each process.
pub(crate) fn show_live<R: Host>(
    rt: &R,
    plan: &Plan,
    cast: Cast,
    book: &mut SlotBook,
) -> io::Result<()> {
    match live(rt, rt.alloc(), plan, cast) {
        Ok(outcome) => show_outcome(rt, &outcome, book),
        Err(fault) => println!(rt; "{fault:?}"),
    }
}

/// Runs a plan over counters in one way, and shows what is left of it.
fn show_counters<R: Host>(
    rt: &R,
    way: &Way,
    plan: &Plan,
    book: &mut SlotBook,
    taken: &Count,
) -> io::Result<()> {
    let alloc = rt.alloc();
    let made = cast_of(alloc, plan, |_kind: u8| -> Result<Object, Memory> {
        let counter = Counter::new(book.open()?, Arc::try_clone(taken)?);
        Ok(Box::new(alloc, counter)?)
    });
    let Ok(cast) = made else {
        return Err(io::Error::from(io::ErrorKind::OutOfMemory));
    };
    match way {
        Way::Run => show_run(rt, plan, cast, book),
        Way::Live => show_live(rt, plan, cast, book),
    }
}

// Shows a run of a plan in one way; then which slots come free once nothing of it is left, and the count.
fn show_counted<R: Host>(
    rt: &R,
    way: &Way,
    plan: &Plan,
    book: &mut SlotBook,
    taken: &Count,
) -> io::Result<()> {
    show_counters(rt, way, plan, book, taken)?;
    let freed = book.collect();
    let count = taken.load(Ordering::SeqCst);
    println!(rt;
        "slots freed: {freed}, out: {}; taken in {count}",
        book.out()
    )
}

/// Shows a run of a plan over counters in one way, and which slots come free.
pub(crate) fn show_counters_of<R: Host>(rt: &R, way: &Way, plan: &Plan) -> io::Result<()> {
    let taken = Arc::new(rt.alloc(), AtomicU64::new(0))?;
    show_counted(rt, way, plan, &mut SlotBook::new(rt.alloc()), &taken)
}
