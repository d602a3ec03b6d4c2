//! Runs of stored scenarios over objects that may refuse.
//!
//! A case is a scenario, steps, and a line of objects for each process, its spares last: a `last`, a `tail` or a `sum`; a number
//! for a sum that is saved so often; `form` and `lost` for one that can't be brought back, for its form or want of memory.

use crate::cases::{Case, next_piece};
use crate::faults::{refused, value_of};
use kt_base::{Memory, ProcNo};
use kt_log_text::write_csv;
use kt_object::{
    Cast, Held, Last, Object, Recoverable, RestoreFault, SaveFault, SlotBook, SlotGuard, Sum, Tail,
};
use kt_plan::{Plan, Step, Told};
use kt_run::{Outcome, run};
use kt_scenario::{parse, parse_steps};
use std::alloc::Global;
use std::cell::Cell;
use std::io;

// Of how many rows a log is no more shown.
const MANY: usize = 100;

// A sum that is saved so often, and may refuse to be brought back.
#[derive(Drop)]
struct Worn {
    sum: Sum,
    saves: Cell<u32>,
    refusal: Option<RestoreFault>,
}

impl Worn {
    // The sum that a word says.
    fn new(guard: SlotGuard, word: &str) -> Worn {
        let refusal = match word {
            "form" => Some(RestoreFault::Form),
            "lost" => Some(RestoreFault::Memory),
            _ => None,
        };
        Worn {
            sum: Sum::new(guard),
            saves: Cell::new(word.parse().unwrap_or(u32::MAX)),
            refusal,
        }
    }
}

impl Recoverable for Worn {
    ghost kind_of = { λ s. ⟦<Sum as Recoverable>⟧.kind_of s.sum };

    ghost value_of = { λ s. ⟦<Sum as Recoverable>⟧.value_of s.sum };

    ghost slot_of = { λ s. ⟦<Sum as Recoverable>⟧.slot_of s.sum };

    fn kind(&self) -> u8 {
        self.sum.kind()
    }

    fn apply(&mut self, from: ProcNo, body: i64) {
        self.sum.apply(from, body);
    }

    fn offer(&self) -> i64 {
        self.sum.offer()
    }

    fn save(&self, out: &mut Vec<u8>) -> Result<(), SaveFault> {
        let left = self.saves.get();
        if left == 0 {
            return Err(SaveFault::Unable);
        }
        self.saves.set(left - 1);
        self.sum.save(out)
    }

    fn restore(&mut self, saved: &[u8]) -> Result<(), RestoreFault> {
        match self.refusal {
            Some(fault) => Err(fault),
            None => self.sum.restore(saved),
        }
    }

    fn slot(&self) -> usize {
        self.sum.slot()
    }
}

// What is made by the words of lines, a line for each process.
fn made_by<O: Drop, F: FnMut(&str) -> Result<O, Memory>>(
    alloc: Global,
    lines: &str,
    mut make: F,
) -> Result<Vec<Vec<O>>, Memory>
    requires { (state : F) (word : _) → F.pre state word }
{
    let mut rows = Vec::new(alloc);
    for line in lines.lines() {
        let mut row = Vec::new(alloc);
        for word in line.split(' ') {
            row.push(make(word)?)?;
        }
        rows.push(row)?;
    }
    Ok(rows)
}

// Shows what a process was told, and what it holds.
fn show_process<R: Print + AllocGlobal>(rt: &R, told: &[Told], held: &Held) -> io::Result<()> {
    let mut rows = Vec::new(rt.alloc());
    for step in told {
        for (number, _row) in step.rows.iter().flatten() {
            rows.push(number.get())?;
        }
    }
    let present = match &held.present {
        Some(object) => Some((object.offer(), object.slot())),
        None => None,
    };
    println!(rt;
        "  told of rows {rows:?}; offer and slot {present:?}, spares {}, saved {:?}, tentative {:?}",
        held.spares.len(),
        held.depot.permanent(),
        held.depot.tentative()
    )
}

// Shows what is left of a run, how many rows there are where they are many.
fn show_outcome<R: Print + AllocGlobal>(rt: &R, outcome: &Outcome) -> io::Result<()> {
    if outcome.log.rows().len() > MANY {
        return println!(rt; "  {} rows", outcome.log.rows().len());
    }
    value_of(write_csv(rt.alloc(), &outcome.log, &mut io::writer(rt)))?;
    for (told, held) in outcome.told.iter().zip(outcome.objects.iter()) {
        show_process(rt, told.as_slice(), held)?;
    }
    Ok(())
}

// Shows which slots come free.
fn show_slots<R: Print>(rt: &R, book: &mut SlotBook) -> io::Result<()> {
    let (freed, out) = (book.collect(), book.out());
    println!(rt; "  slots freed {freed}, out {out}")
}

// Shows what is left of a run, and which slots come free while it is there; or why it came to no end.
fn show_run<R: Print + AllocGlobal>(
    rt: &R,
    plan: &Plan,
    steps: &[Step],
    cast: Cast,
    book: &mut SlotBook,
) -> io::Result<()> {
    match run(rt.alloc(), plan, steps, cast) {
        Ok(outcome) => {
            show_outcome(rt, &outcome)?;
            show_slots(rt, book)
        }
        Err(fault) => println!(rt; "  {fault:?}"),
    }
}

// Shows a run over new objects.
fn show_over<R: Print + AllocGlobal>(
    rt: &R,
    plan: &Plan,
    steps: &[Step],
    objects: &str,
    book: &mut SlotBook,
) -> io::Result<()> {
    let alloc = rt.alloc();
    let made = made_by(alloc, objects, |word: &str| -> Result<Object, Memory> {
        let guard = book.open()?;
        match word {
            "last" => Ok(Box::new(alloc, Last::new(guard))?),
            "tail" => Ok(Box::new(alloc, Tail::new(guard))?),
            _ => Ok(Box::new(alloc, Worn::new(guard, word))?),
        }
    });
    let cast = value_of(made)?;
    show_run(rt, plan, steps, cast, book)
}

// Shows a run of a plan with stored steps and objects, and which slots come free once nothing of it is left.
fn show_play<R: Print + AllocGlobal>(
    rt: &R,
    plan: &Plan,
    steps: &[u8],
    objects: &[u8],
) -> io::Result<()> {
    let objects = value_of(std::str::from_utf8(objects))?;
    let steps = value_of(parse_steps(rt.alloc(), steps, plan))?;
    let mut book = SlotBook::new(rt.alloc());
    show_over(rt, plan, steps.as_slice(), objects, &mut book)?;
    show_slots(rt, &mut book)
}

/// Shows the run of a case: what it leaves, and which slots come free.
pub(crate) fn show_plays<R: Print + AllocGlobal>(rt: &R, case: &Case) -> io::Result<()> {
    println!(rt; "{}", case.title)?;
    let Some((scenario, behind)) = next_piece(case.text) else {
        return refused();
    };
    let Some((steps, objects)) = next_piece(behind) else {
        return refused();
    };
    let plan = value_of(parse(rt.alloc(), scenario))?;
    show_play(rt, &plan, steps, objects)
}
