//! Runs of the program whose writers, or readers, fail at each of their calls in turn.
//!
//! A line says which one: `out` or `err`, and behind it a command line; or `log`, `cert`, `certify`, `draw`, `scenario` or
//! `steps`, and behind it the file that is read by the reader that fails, and another one.

use crate::commands::{Host, status_of, word};
use crate::streams::{FailingReader, Paper};
use kt_draw::{Span, draw_stream};
use kt_plan::Names;
use kt_program::{AppFault, ProgramFault, certify_bytes, check_bytes, read_scenario, read_steps};
use std::alloc::Global;
use std::rt::Files;
use std::{fs, io};

// More calls than a text here has bytes.
const MOST_CALLS: usize = 10_000;

// All rows.
const WHOLE: Span = Span {
    from: None,
    to: None,
};

// How a run ended: its exit status, the paper that failed at a call, and that of the other stream.
#[derive(Drop)]
struct Ended {
    status: u8,
    paper: Paper,
    other: Paper,
}

impl Ended {
    // Whether the status and what was handed over are the same.
    fn is_like(&self, run: &Ended) -> bool {
        self.status == run.status
            && self.paper.given() == run.paper.given()
            && self.other.given() == run.other.given()
    }
}

// Does what a command line asks where the writer of its answer, or of its fault's line, fails at a call.
fn end_at<R: Host>(rt: &R, stream: &str, line: &str, call: usize) -> Ended {
    let mut paper = Paper::new(rt.alloc(), call);
    let mut other = Paper::new(rt.alloc(), usize::MAX);
    let status = match stream {
        "err" => status_of(rt, line, &mut other, &mut paper),
        _ => status_of(rt, line, &mut paper, &mut other),
    };
    Ended {
        status,
        paper,
        other,
    }
}

// At how many calls, from the first one on, it ends as it does at that.
fn calls_alike<R: Host>(rt: &R, stream: &str, line: &str, first: &Ended) -> usize {
    for call in 0..MOST_CALLS {
        if !end_at(rt, stream, line, call).is_like(first) {
            return call;
        }
    }
    MOST_CALLS
}

// Shows how a command line ends at the calls that fail, and whether from then on it ends as where none does.
fn show_writes<R: Host>(rt: &R, stream: &str, line: &str) -> io::Result<()> {
    let first = end_at(rt, stream, line, 0);
    let count = calls_alike(rt, stream, line, &first);
    let whole = end_at(rt, stream, line, usize::MAX);
    let ends = end_at(rt, stream, line, count).is_like(&whole);
    let (status, given, told) = (first.status, first.paper.given(), first.other.text());
    println!(rt;
        "{count} calls that fail: status {status}, {} bytes, {told:?}; then as where none does: {ends}",
        given.len()
    )
}

// A fault of the program, if there is one.
fn of_program(fault: Option<AppFault>) -> Option<ProgramFault> {
    match fault {
        Some(fault) => Some(ProgramFault::App(fault)),
        None => None,
    }
}

// The fault where a log is drawn.
fn fault_of_picture(alloc: Global, log: FailingReader) -> Option<ProgramFault> {
    match draw_stream(alloc, log, &Names::new(alloc), WHOLE) {
        Ok(_) => None,
        Err(fault) => Some(ProgramFault::App(AppFault::from(fault))),
    }
}

// The fault where steps of a scenario are read.
fn fault_of_steps(alloc: Global, steps: FailingReader, scenario: &[u8]) -> Option<ProgramFault> {
    match read_scenario(alloc, scenario) {
        Ok(plan) => read_steps(alloc, steps, &plan).err(),
        Err(fault) => Some(fault),
    }
}

// The fault of what is done with a text where its reader fails at a call.
fn fault_at(
    alloc: Global,
    deed: &str,
    text: &[u8],
    other: &[u8],
    call: usize,
) -> Option<ProgramFault> {
    let reader = FailingReader::new(text, call);
    let mut out = Vec::new(alloc);
    match deed {
        "log" => of_program(check_bytes(alloc, reader, other, &mut out).err()),
        "cert" => of_program(check_bytes(alloc, other, reader, &mut out).err()),
        "certify" => of_program(certify_bytes(alloc, reader, &mut out).err()),
        "draw" => fault_of_picture(alloc, reader),
        "steps" => fault_of_steps(alloc, reader, other),
        _ => read_scenario(alloc, reader).err(),
    }
}

// At how many calls of a reader it is a read fault, one behind the other from the first one on.
fn read_faults(alloc: Global, deed: &str, text: &[u8], other: &[u8]) -> usize {
    for call in 0..MOST_CALLS {
        match fault_at(alloc, deed, text, other, call) {
            Some(fault) if fault.status() == 3 => {}
            _ => return call,
        }
    }
    MOST_CALLS
}

// Shows at how many calls of the reader of a file it is a read fault, and the fault at the next one.
fn show_reads<R: Files + Print + AllocGlobal>(rt: &R, deed: &str, files: &str) -> io::Result<()> {
    let text = fs::read(rt, word(files, 0))?;
    let other = fs::read(rt, word(files, 1))?;
    let faults = read_faults(rt.alloc(), deed, text.as_slice(), other.as_slice());
    let next = fault_at(rt.alloc(), deed, text.as_slice(), other.as_slice(), faults);
    println!(rt;
        "{faults} read faults of {} bytes, then {next:?}",
        text.len()
    )
}

/// Shows how the run of a line ends at each call of what fails.
pub(crate) fn show_failing<R: Host>(rt: &R, words: &str) -> io::Result<()> {
    let (stream, line) = words.split_once(' ').unwrap_or((words, ""));
    match stream {
        "out" | "err" => show_writes(rt, stream, line),
        _ => show_reads(rt, stream, line),
    }
}
