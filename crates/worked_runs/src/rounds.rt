//! Runs that are made again and again, and not shown.
//!
//! A line says how often, a command line that writes steps, log and certificates into `run.steps`, `run.log.csv` and
//! `run.cert.csv`, and behind ` / ` one that plays the run again and writes `again.log.csv` and `again.cert.csv`. `#` stands for
//! the number of the round, from 0 on.

use crate::commands::{Host, add_words, are_same};
use kt_program::{Done, Words, carry_out};
use std::alloc::{AllocError, Global};
use std::rt::Files;
use std::{fs, io};

// Does what a command line asks; whether a run came to its end, or a stored run passes.
fn is_done<R: Host>(rt: &R, line: &str, out: &mut Vec<u8>) -> bool {
    let mut words = Words::new(rt.alloc());
    if add_words(&mut words, line).is_err() {
        return false;
    }
    matches!(
        carry_out(rt, rt.alloc(), &words, false, out),
        Ok(Done::Played | Done::Judged(true))
    )
}

// Whether a log was written, and no checkpoint in it lacks a saved state.
fn is_saved<R: Files + AllocGlobal>(rt: &R, log: &str) -> bool {
    match fs::read_to_string(rt, log) {
        Ok(text) => !text.contains("nosave"),
        Err(_) => false,
    }
}

// Whether a run comes to its end, is the same when it is played again, saves each object, and passes.
fn is_well<R: Host>(rt: &R, run: &str, again: &str) -> bool {
    let (mut report, mut other) = (Vec::new(rt.alloc()), Vec::new(rt.alloc()));
    let check = "koo_toueg check run.log.csv run.cert.csv";
    is_done(rt, run, &mut report)
        && is_done(rt, again, &mut other)
        && report.as_slice() == other.as_slice()
        && is_done(rt, check, &mut other)
        && is_saved(rt, "run.log.csv")
        && are_same(rt, "run.log.csv", "again.log.csv")
        && are_same(rt, "run.cert.csv", "again.cert.csv")
}

// The command line of a round.
fn line_of(alloc: Global, run: &str, round: u32) -> Result<String, AllocError> {
    let round = format!(in alloc; "{round}")?;
    run.replace(alloc, '#', round.as_str())
}

// How many rounds are well.
fn well_of<R: Host>(rt: &R, run: &str, again: &str, times: u32) -> u32 {
    let mut well: u32 = 0;
    for round in 0..times {
        let is_counted = match line_of(rt.alloc(), run, round) {
            Ok(run) => is_well(rt, run.as_str(), again),
            Err(_) => false,
        };
        well = well.saturating_add(u32::from(is_counted));
    }
    well
}

/// Shows in how many rounds of a line the run passes, and is the same when it is played again.
pub(crate) fn show_rounds<R: Host>(rt: &R, line: &str) -> io::Result<()> {
    kt_run::even_draws();
    let (times, lines) = line.split_once(' ').unwrap_or(("1", line));
    let (run, again) = lines.split_once(" / ").unwrap_or((lines, ""));
    let well = well_of(rt, run, again, times.parse::<u32>().unwrap_or(1));
    println!(rt; "{well} pass, and are the same again")
}
