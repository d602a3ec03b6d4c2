//! Command lines of the program, and files that are compared.

use kt_base::Memory;
use kt_plan::{Plan, Step};
use kt_program::{Words, run_words};
use kt_scenario::{parse, parse_steps};
use std::io::Write;
use std::rt::Files;
use std::sync::Wait;
use std::thread::Threads;
use std::{fs, io};

/// What the program's commands need.
pub(crate) trait Host: Files + Threads + Wait + Sync + Print + AllocGlobal {}

impl<R: Files + Threads + Wait + Sync + Print + AllocGlobal> Host for R {}

/// What was answered, or that it was a fault.
pub(crate) fn value_of<T, E: Drop>(answer: Result<T, E>) -> io::Result<T> {
    match answer {
        Ok(value) => Ok(value),
        Err(_) => Err(io::Error::from(io::ErrorKind::Other)),
    }
}

/// The word of a line with this number, counted from 0; the empty one where there is none.
pub(crate) fn word(line: &str, number: usize) -> &str {
    line.split(' ').nth(number).unwrap_or("")
}

/// Adds the words of a command line, which stand behind single spaces.
pub(crate) fn add_words(words: &mut Words, line: &str) -> Result<(), Memory> {
    for word in line.split(' ') {
        words.push(word)?;
    }
    Ok(())
}

/// Does what a command line asks, writes the answer and a fault's line, and gives the exit status.
pub(crate) fn status_of<R: Host, O: Write, E: Write>(
    rt: &R,
    line: &str,
    out: &mut O,
    err: &mut E,
) -> u8 {
    let mut words = Words::new(rt.alloc());
    match add_words(&mut words, line) {
        Ok(()) => run_words(rt, rt.alloc(), &words, false, out, err),
        Err(_) => u8::MAX,
    }
}

/// Shows what the program writes of a command line to either stream, and its exit status.
pub(crate) fn show_command<R: Host>(rt: &R, line: &str) -> io::Result<()> {
    let status = status_of(rt, line, &mut io::writer(rt), &mut io::writer(rt));
    println!(rt; "status {status}")
}

/// The plan of the scenario in a file.
pub(crate) fn plan_in<R: Files + AllocGlobal>(rt: &R, name: &str) -> io::Result<Plan> {
    let text = fs::read(rt, name)?;
    value_of(parse(rt.alloc(), text.as_slice()))
}

/// The steps of a plan in a file; none for `-`, or for no name.
pub(crate) fn steps_in<R: Files + AllocGlobal>(
    rt: &R,
    name: &str,
    plan: &Plan,
) -> io::Result<Vec<Step>> {
    if name.is_empty() || name == "-" {
        return Ok(Vec::new(rt.alloc()));
    }
    let text = fs::read(rt, name)?;
    value_of(parse_steps(rt.alloc(), text.as_slice(), plan))
}

/// Whether two files have the same.
pub(crate) fn are_same<R: Files + AllocGlobal>(rt: &R, one: &str, other: &str) -> bool {
    match (fs::read(rt, one), fs::read(rt, other)) {
        (Ok(bytes), Ok(others)) => bytes.as_slice() == others.as_slice(),
        _ => false,
    }
}
