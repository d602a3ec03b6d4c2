//! The plain reader: that no row and no cut of 2^20 rows takes time for each row; and, beside the checker, of stored logs.

use crate::faults::value_of;
use crate::walks::receive;
use kt_base::ProcNo;
use kt_checker::{check, check_stream};
use kt_histories::{Histories, legal};
use kt_log_text::read_csv;
use kt_rules::Cut;
use kt_spacetime::SpaceTime;
use std::io;

// After how many entries of a history a cut is looked at, and again.
const APART: usize = 256;

// How many cuts have an orphan that have some of one process's history, and the others whole, of messages round a ring of 64.
fn count_orphans(found: &Histories) -> u32 {
    let whole = found.length(ProcNo::nth(0));
    let mut count: u32 = 0;
    for step in 0..whole / APART {
        for number in 0..ProcNo::COUNT {
            let mut cut = Cut::new([whole; 64]);
            cut.set(ProcNo::nth(number), step.saturating_mul(APART));
            count = count.saturating_add(u32::from(found.first_orphan(&cut).is_some()));
        }
    }
    count
}

// Shows what is said of a log, and how many cuts of a legal one have an orphan.
fn show_judged<R: Print + AllocGlobal>(rt: &R, log: &SpaceTime) -> io::Result<()> {
    match legal(rt.alloc(), log) {
        Ok(()) => {
            let found = value_of(Histories::of(rt.alloc(), log, log.rows().len()))?;
            println!(rt; "  legal; cuts with an orphan: {}", count_orphans(&found))
        }
        Err(fault) => println!(rt; "  {fault}"),
    }
}

/// Shows what the plain reader says of messages round a ring, and of the log with a row more, which breaks a rule.
pub(crate) fn show_ring<R: Print + AllocGlobal>(rt: &R, log: &mut SpaceTime) -> io::Result<()> {
    show_judged(rt, log)?;
    value_of(receive(log, ProcNo::nth(1), ProcNo::nth(0), 1, 1))?;
    show_judged(rt, log)
}

/// Shows what the plain reader says of a stored log, and what both calls of the checker say of it without certificates.
pub(crate) fn show_answers<R: Print + AllocGlobal>(rt: &R, text: &[u8]) -> io::Result<()> {
    let log = value_of(read_csv(rt.alloc(), text))?;
    show_judged(rt, &log)?;
    let verdict = value_of(check(rt.alloc(), &log, &[]))?;
    let streamed = value_of(check_stream(rt.alloc(), text, &[]))?;
    println!(rt; "  checked: {verdict}, as a text: {streamed}")
}
