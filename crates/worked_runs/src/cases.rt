//! Runs over sums of which one has a trouble.
//!
//! A line says the files of the scenario and of the steps, `-` for none, the number of the object that has a trouble, counted
//! from 1 in the order of the processes, each with its spares behind it, 0 for all, and the trouble: the call, which one, and
//! its answer. Before it stands how the run is made: `play`, or `live`, with its texts; `meet` for a run in threads of which the
//! report alone is shown; `fail_played` or `fail_live` for one by writers that fail; `left` for what a run in threads leaves.
//! Behind `run` or `threads` stands the file of a scenario alone, which is run over counters; behind `miscast` two, of which the
//! first is run in threads over objects that the second asks for.

use crate::commands::{Host, plan_in, steps_in, word};
use crate::running::{Way, show_counters_of, show_live};
use crate::staged::{Meeting, Staged, Trouble};
use crate::streams::Paper;
use kt_base::Memory;
use kt_object::{Last, Object, SlotBook, SlotGuard, Sum};
use kt_plan::{Plan, Step};
use kt_program::{AppFault, cast_of, live_plan, play_plan};
use std::alloc::Global;
use std::cell::Cell;
use std::io;
use std::sync::Arc;

// More calls than a text of the runs has bytes.
const MOST_CALLS: usize = 10_000;

// A run: its plan, the steps given, the trouble of one of its objects, or of all for 0, and where two of them meet.
#[derive(Drop)]
struct Case<'a> {
    plan: &'a Plan,
    steps: &'a [Step],
    object: u64,
    trouble: Trouble,
    meeting: &'a Arc<Meeting, Global>,
}

impl Case<'_> {
    // The trouble of an object.
    fn trouble_of(&self, number: u64) -> Trouble {
        if self.object == 0 || self.object == number {
            self.trouble
        } else {
            Trouble::Absent
        }
    }

    // The object with this number, which holds this slot.
    fn object(&self, number: u64, guard: SlotGuard) -> Result<Staged, Memory> {
        Ok(Staged {
            sum: Sum::new(guard),
            number,
            trouble: self.trouble_of(number),
            meeting: Arc::try_clone(self.meeting)?,
            saves: Cell::new(0),
            restores: 0,
        })
    }
}

// The fault that a run ended with, if it had one; how many slots came free once it was over, and how many are out then.
#[derive(Clone, Copy)]
struct Ended {
    fault: Option<AppFault>,
    freed: usize,
    out: usize,
}

impl Ended {
    // Whether the run ended with a write fault, and no slot is out.
    fn is_of_writing(&self) -> bool {
        matches!(self.fault, Some(AppFault::Write)) && self.out == 0
    }
}

// What the log, the certificates and the report of a run are written on.
#[derive(Drop)]
struct Papers {
    log: Paper,
    cert: Paper,
    report: Paper,
}

// The call at which the paper with a number fails.
fn call_for(number: u8, text: u8, call: usize) -> usize {
    if number == text { call } else { usize::MAX }
}

impl Papers {
    // Papers of which that with this number fails at a call.
    fn new(alloc: Global, text: u8, call: usize) -> Papers {
        Papers {
            log: Paper::new(alloc, call_for(0, text, call)),
            cert: Paper::new(alloc, call_for(1, text, call)),
            report: Paper::new(alloc, call_for(2, text, call)),
        }
    }

    // Whether nothing was written of what comes later than the text with this number.
    fn is_blank_behind(&self, text: u8) -> bool {
        (text > 0 || self.cert.is_blank()) && (text > 1 || self.report.is_blank())
    }
}

// Makes a run over the objects of its case, one step after another or in threads.
fn run_staged<R: Host>(
    rt: &R,
    case: &Case,
    threads: bool,
    book: &mut SlotBook,
    papers: &mut Papers,
) -> Result<(), AppFault> {
    let alloc = rt.alloc();
    let mut made: u64 = 0;
    let cast = cast_of(alloc, case.plan, |_kind: u8| -> Result<Object, Memory> {
        made = made.saturating_add(1);
        Ok(Box::new(alloc, case.object(made, book.open()?)?)?)
    })?;
    let Papers { log, cert, report } = papers;
    if threads {
        live_plan(rt, alloc, case.plan, cast, log, cert, report)
    } else {
        play_plan(alloc, case.plan, case.steps, cast, log, cert, report)
    }
}

// Makes a run; how it ended.
fn end_of<R: Host>(rt: &R, case: &Case, threads: bool, papers: &mut Papers) -> Ended {
    let mut book = SlotBook::new(rt.alloc());
    let fault = run_staged(rt, case, threads, &mut book, papers).err();
    let freed = book.collect();
    let out = book.out();
    Ended { fault, freed, out }
}

// At how many calls the writer of a text can fail: at each the run ends with a write fault, no slot is out, and no later text
// is begun.
fn calls_that_fail<R: Host>(rt: &R, case: &Case, threads: bool, text: u8) -> usize {
    for call in 0..MOST_CALLS {
        let mut papers = Papers::new(rt.alloc(), text, call);
        match end_of(rt, case, threads, &mut papers) {
            Ended { fault: None, .. } => return call,
            ended if !ended.is_of_writing() || !papers.is_blank_behind(text) => return MOST_CALLS,
            _ => {}
        }
    }
    MOST_CALLS
}

// Shows at how many calls the writer of each text can fail.
fn show_calls<R: Host>(rt: &R, case: &Case, threads: bool) -> io::Result<()> {
    let log = calls_that_fail(rt, case, threads, 0);
    let cert = calls_that_fail(rt, case, threads, 1);
    let report = calls_that_fail(rt, case, threads, 2);
    println!(rt; "{log}, {cert} and {report} calls that fail")
}

// Shows the fault of a run, if it had one, how many slots came free and are out, and whether two objects met.
fn show_end<R: Print>(rt: &R, case: &Case, ended: Ended) -> io::Result<()> {
    let Ended { fault, freed, out } = ended;
    let met = case.meeting.both_seen();
    println!(rt; "fault: {fault:?}; slots freed: {freed}, out: {out}; met: {met}")
}

// Shows the texts of a run, and how it ended.
fn show_texts<R: Print>(rt: &R, case: &Case, ended: Ended, papers: &Papers) -> io::Result<()> {
    let Papers { log, cert, report } = papers;
    print!(rt; "{}{}{}", log.text(), cert.text(), report.text())?;
    show_end(rt, case, ended)
}

// Shows the report of a run, and how it ended.
fn show_report<R: Print>(rt: &R, case: &Case, ended: Ended, papers: &Papers) -> io::Result<()> {
    print!(rt; "{}", papers.report.text())?;
    show_end(rt, case, ended)
}

// Shows a run, with its texts where there is one order of its steps.
fn show_run<R: Host>(rt: &R, case: &Case, way: &str) -> io::Result<()> {
    let mut papers = Papers::new(rt.alloc(), 3, 0);
    let ended = end_of(rt, case, way != "play", &mut papers);
    match way {
        "meet" => show_report(rt, case, ended, &papers),
        _ => show_texts(rt, case, ended, &papers),
    }
}

// Shows how many slots come free and are out once a run is over.
fn show_slots<R: Print>(rt: &R, book: &mut SlotBook) -> io::Result<()> {
    let freed = book.collect();
    println!(rt; "slots freed: {freed}, out: {}", book.out())
}

// Runs the objects of a case in threads, and shows what is left.
fn show_left<R: Host>(rt: &R, case: &Case, book: &mut SlotBook) -> io::Result<()> {
    let (alloc, mut number) = (rt.alloc(), 0u64);
    let made = cast_of(alloc, case.plan, |_kind: u8| -> Result<Object, Memory> {
        number = number.saturating_add(1);
        Ok(Box::new(alloc, case.object(number, book.open()?)?)?)
    });
    let Ok(cast) = made else {
        return Err(io::Error::from(io::ErrorKind::OutOfMemory));
    };
    show_live(rt, case.plan, cast, book)?;
    show_slots(rt, book)
}

// Runs a plan in threads over the objects that another one asks for, and shows what is left.
fn show_miscast<R: Host>(rt: &R, plan: &Plan, other: &Plan, book: &mut SlotBook) -> io::Result<()> {
    let alloc = rt.alloc();
    let made = cast_of(alloc, other, |kind: u8| -> Result<Object, Memory> {
        let guard = book.open()?;
        match kind {
            1 => Ok(Box::new(alloc, Last::new(guard))?),
            _ => Ok(Box::new(alloc, Sum::new(guard))?),
        }
    });
    let Ok(cast) = made else {
        return Err(io::Error::from(io::ErrorKind::OutOfMemory));
    };
    show_live(rt, plan, cast, book)?;
    show_slots(rt, book)
}

// Shows the run of a line with this plan and these steps.
fn show_made<R: Host>(
    rt: &R,
    way: &str,
    line: &str,
    plan: &Plan,
    steps: &[Step],
) -> io::Result<()> {
    let meeting = Arc::new(rt.alloc(), Meeting::new())?;
    let at = word(line, 4).parse::<u64>().unwrap_or(0);
    let case = Case {
        plan,
        steps,
        object: word(line, 2).parse::<u64>().unwrap_or(0),
        trouble: Trouble::of_words(word(line, 3), at, word(line, 5)),
        meeting: &meeting,
    };
    match way {
        "fail_played" => show_calls(rt, &case, false),
        "fail_live" => show_calls(rt, &case, true),
        "left" => show_left(rt, &case, &mut SlotBook::new(rt.alloc())),
        _ => show_run(rt, &case, way),
    }
}

// Shows a run of a plan over the sums that a line says, made in this way.
fn show_staged<R: Host>(rt: &R, way: &str, line: &str, plan: &Plan) -> io::Result<()> {
    let steps = steps_in(rt, word(line, 1), plan)?;
    show_made(rt, way, line, plan, steps.as_slice())
}

// Shows a run of a plan over the objects that the other scenario of a line asks for.
fn show_other<R: Host>(rt: &R, line: &str, plan: &Plan) -> io::Result<()> {
    let other = plan_in(rt, word(line, 1))?;
    show_miscast(rt, plan, &other, &mut SlotBook::new(rt.alloc()))
}

// Shows a run of a plan, made in this way.
fn show_planned<R: Host>(rt: &R, way: &str, line: &str, plan: &Plan) -> io::Result<()> {
    match way {
        "run" => show_counters_of(rt, &Way::Run, plan),
        "threads" => show_counters_of(rt, &Way::Live, plan),
        "miscast" => show_other(rt, line, plan),
        _ => show_staged(rt, way, line, plan),
    }
}

/// Shows the run of a line, made in this way.
pub(crate) fn show_case<R: Host>(rt: &R, way: &str, line: &str) -> io::Result<()> {
    let plan = plan_in(rt, word(line, 0))?;
    show_planned(rt, way, line, &plan)
}
