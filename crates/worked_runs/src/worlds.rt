//! Worlds at their limits, and how many parcels instances put.
//!
//! A line says the file of the scenario, what is shown, `end`, `tally` or `channels`, and what is limited with its number:
//! `rows 3` for a log of three rows at most, `labels 3` for labels that come after 3, `none 0` for neither. Behind `end` there
//! may stand the file of the steps that come first, `-` for none, and that of the log which is written.

use crate::commands::{plan_in, steps_in, value_of, word};
use kt_base::{InstNo, Label, Memory, ProcNo, RowNo};
use kt_core::{StepFault, World};
use kt_log_text::write_csv;
use kt_plan::{Give, Plan, Step};
use kt_spacetime::{Event, SpaceTime};
use std::alloc::Global;
use std::rt::Files;
use std::{fs, io};

// How many default steps are made at most.
const MOST: u32 = 100_000_000;

const GIVE: Give = Give {
    able: true,
    body: 0,
};

// Makes the default step; whether there was one, and why it was refused.
fn step_next(world: &mut World) -> Result<bool, StepFault> {
    match world.default_step() {
        Some(step) => match world.step(step, GIVE) {
            Ok(_) => Ok(true),
            Err(fault) => Err(fault),
        },
        None => Ok(false),
    }
}

// Makes default steps until there is none, or one is refused.
fn step_on(world: &mut World) -> Option<StepFault> {
    for _ in 0..MOST {
        match step_next(world) {
            Ok(true) => {}
            Ok(false) => return None,
            Err(fault) => return Some(fault),
        }
    }
    None
}

// Makes these steps, one behind the other; why one was refused.
fn make_all(world: &mut World, steps: &[Step]) -> Option<StepFault> {
    for step in steps {
        if let Err(fault) = world.step(*step, GIVE) {
            return Some(fault);
        }
    }
    None
}

// How many rows abort an instance.
fn aborts(rows: &[Event]) -> usize {
    rows.iter()
        .filter(|row| matches!(row, Event::Decided { commit: false, .. }))
        .count()
}

// Makes these steps, then default ones, until there is none or one is refused; why it was.
fn make_more(world: &mut World, steps: &[Step]) -> Option<StepFault> {
    match make_all(world, steps) {
        Some(fault) => Some(fault),
        None => step_on(world),
    }
}

// Makes these steps, then default ones, and shows how many rows there are then, how many of them abort, why a step was refused,
// if one was, and whether the world is at rest.
fn show_end<R: Print>(rt: &R, world: &mut World, steps: &[Step]) -> io::Result<()> {
    let fault = make_more(world, steps);
    let rows = world.log().rows();
    println!(rt;
        "{} rows, {} aborts, refused: {fault:?}, at rest: {}",
        rows.len(),
        aborts(rows),
        world.at_rest()
    )
}

// Writes a log into a file, where it has a name.
fn write_log<R: Files + AllocGlobal>(rt: &R, name: &str, log: &SpaceTime) -> io::Result<()> {
    if name.is_empty() {
        return Ok(());
    }
    let mut file = fs::create(rt, name)?;
    value_of(write_csv(rt.alloc(), log, &mut file))
}

// The steps that a line names.
fn steps_of<R: Files + AllocGlobal>(rt: &R, line: &str) -> io::Result<Vec<Step>> {
    let plan = plan_in(rt, word(line, 0))?;
    steps_in(rt, word(line, 4), &plan)
}

// Shows the end of a world by the steps and into the log that a line names.
fn show_end_of<R: Files + Print + AllocGlobal>(
    rt: &R,
    line: &str,
    world: &mut World,
) -> io::Result<()> {
    let steps = steps_of(rt, line)?;
    show_end(rt, world, steps.as_slice())?;
    write_log(rt, word(line, 5), world.log())
}

// Shows how many parcels the first instance of a world puts.
fn show_tally<R: Print>(rt: &R, world: &mut World) -> io::Result<()> {
    let fault = step_on(world);
    let Some(first) = InstNo::new(1) else {
        return Ok(());
    };
    let tally = world.tally(first);
    println!(rt;
        "{} asks, {} replies, {} decisions, refused: {fault:?}",
        tally.asks, tally.replies, tally.decisions
    )
}

// Shows how many parcels are in the channels of the first two processes, and in one of a process that is not there, at first
// and after each default step.
fn show_channels<R: Print>(rt: &R, world: &mut World) -> io::Result<()> {
    let (a, b, none) = (ProcNo::nth(0), ProcNo::nth(1), ProcNo::nth(63));
    for _ in 0..MOST {
        let (there, back) = (world.in_flight(a, b), world.in_flight(b, a));
        println!(rt; "in flight: {there}, {back}, {}", world.in_flight(a, none))?;
        if !matches!(step_next(world), Ok(true)) {
            break;
        }
    }
    Ok(())
}

// The world in which nothing of a plan is done, with this limit.
fn world_of(alloc: Global, plan: Plan, limited: &str, limit: u64) -> Result<World, Memory> {
    let rows = u32::try_from(limit).ok().and_then(RowNo::new);
    match (limited, rows, Label::new(limit)) {
        ("rows", Some(rows), _) => World::with_rows(alloc, plan, rows),
        ("labels", _, Some(used)) => World::with_labels(alloc, plan, used),
        _ => World::new(alloc, plan),
    }
}

// The world of a line.
fn world_in<R: Files + AllocGlobal>(rt: &R, line: &str) -> io::Result<World> {
    let plan = plan_in(rt, word(line, 0))?;
    let limit = word(line, 3).parse::<u64>().unwrap_or(0);
    value_of(world_of(rt.alloc(), plan, word(line, 2), limit))
}

// Shows what a line asks of its world.
fn show_asked<R: Files + Print + AllocGlobal>(
    rt: &R,
    line: &str,
    world: &mut World,
) -> io::Result<()> {
    match word(line, 1) {
        "channels" => show_channels(rt, world),
        "tally" => show_tally(rt, world),
        _ => show_end_of(rt, line, world),
    }
}

/// Shows the world of a line.
pub(crate) fn show_world<R: Files + Print + AllocGlobal>(rt: &R, line: &str) -> io::Result<()> {
    match world_in(rt, line) {
        Ok(mut world) => show_asked(rt, line, &mut world),
        Err(fault) => Err(fault),
    }
}
