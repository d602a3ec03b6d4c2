//! The certificates and the reports of stored logs, and how much a walk of them holds.

use crate::cases::Case;
use crate::faults::{refused, value_of};
use crate::plain::show_answers;
use crate::texts::{Form, Text, show_written};
use crate::walks::feed;
use kt_certify::{StreamFault, certify_stream};
use kt_log_text::read_csv;
use kt_plan::Plan;
use kt_spacetime::SpaceTime;
use kt_walk::Walk;
use std::alloc::Global;
use std::io;

// How many messages a walk holds after each row of a log.
fn held_after_each(walk: &mut Walk, alloc: Global, log: &SpaceTime) -> io::Result<Vec<usize>> {
    let mut held = Vec::new(alloc);
    for row in log.rows() {
        value_of(feed(walk, row))?;
        held.push(walk.held())?;
    }
    Ok(held)
}

// The same of a stored legal log.
fn held_of(alloc: Global, text: &[u8]) -> io::Result<Vec<usize>> {
    match (Walk::new(alloc), read_csv(alloc, text)) {
        (Ok(mut walk), Ok(log)) => held_after_each(&mut walk, alloc, &log),
        _ => refused(),
    }
}

// Shows how many certificates a log has, what a walk of it holds, and its report.
fn show_legal<R: Print + AllocGlobal>(
    rt: &R,
    title: &str,
    text: &Text,
    count: usize,
) -> io::Result<()> {
    let held = held_of(rt.alloc(), text.bytes)?;
    println!(rt; "{title}: {count} certificates\n  held after each row: {held:?}")?;
    show_written(rt, text, b"")
}

// Shows why a log has no certificates, at how many calls a reader may fail even then, and what other readers say of it.
fn show_refused<R: Print + AllocGlobal>(
    rt: &R,
    title: &str,
    text: &Text,
    fault: StreamFault,
) -> io::Result<()> {
    let reads = text.count_read_faults(rt.alloc());
    println!(rt; "{title}: {fault}; {reads} reads may fail")?;
    show_answers(rt, text.bytes)
}

/// Shows of a stored log how many certificates it has as it is read, what a walk of it holds, and its report as of a run of
/// a plan; or why it has none.
pub(crate) fn show_certified<R: Print + AllocGlobal>(
    rt: &R,
    plan: &Plan,
    case: &Case,
) -> io::Result<()> {
    let (title, bytes) = (case.title, case.text);
    let form = Form::Report(plan);
    let text = Text { form, bytes };
    match certify_stream(rt.alloc(), bytes) {
        Ok(list) => show_legal(rt, title, &text, list.len()),
        Err(fault) => show_refused(rt, title, &text, fault),
    }
}
