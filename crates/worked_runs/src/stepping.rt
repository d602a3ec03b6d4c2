//! A world stepped by a loop of one's own, and a state that records the steps of a stored run.

ghost use Rattle.std.specs.Prelude.{◌≡◌, ◌≢◌, ◌↔◌, true, IfOk, IfErr, IsTrue};
ghost use Rattle.kt_core.specs.Worlds.{IsWorldAtRest};
ghost use Rattle.kt_meaning.specs.Promised.{IsCertified};

use crate::commands::{plan_in, steps_in, value_of, word};
use crate::judging::log_passes;
use anyhow::{Result, ensure};
use kt_base::ProcNo;
use kt_certify::certify;
use kt_core::{StepFault, World};
use kt_log_text::read_csv;
use kt_plan::{Give, Look, Plan, Step};
use kt_scenario::parse;
use kt_spacetime::{CertFault, Event, SpaceTime};
use kt_threads::State;
use std::alloc::Global;
use std::rt::Files;
use std::{fs, io};

// How many turns are taken at most.
const MOST: u32 = 1_000_000;

/// The log of a scenario, stepped to rest by turns.
fn stepped(alloc: Global, scenario: &[u8]) -> Result<SpaceTime>
    ensures { IfOk result (λ log. IsCertified log.rows) }
{
    let plan = parse(alloc, scenario)?;
    let mut world = World::new(alloc, plan)?;
    ensure!(step_by_turns(&mut world, MOST)?, "not at rest");
    Ok(world.into_log())
}

/// The processes make a step each by turns, until all is at rest or so many turns were taken; whether it is at rest.
fn step_by_turns(world: &mut World, most: u32) -> Result<bool, StepFault>
    ensures rest { IfOk result (λ rests. IsTrue rests ↔ IsWorldAtRest world.new) }
    ensures plan { world.new.agenda.plan ≡ world.old.agenda.plan }
    ensures fault { IfErr result (λ fault. fault ≢ StepFault.NotEnabled) }
{
    for turn in 0..most {
        if world.at_rest() {
            return Ok(true);
        }
        take_turn(world, ProcNo::nth((turn % 64) as u8))?;
    }
    Ok(world.at_rest())
}

/// A process makes its next step, where it has one.
fn take_turn(world: &mut World, p: ProcNo) -> Result<(), StepFault>
    ensures plan { world.new.agenda.plan ≡ world.old.agenda.plan }
    ensures fault { IfErr result (λ fault. fault ≢ StepFault.NotEnabled) }
{
    let Some(step) = world.next_step_of(p) else {
        return Ok(());
    };
    let give = give_for(world.look(&step));
    match world.act(step, give) {
        Ok(_acts) => Ok(()),
        Err(fault) => Err(fault),
    }
}

/// What a step is given here: an object can always be saved, and the body that it offers is 1.
fn give_for(look: Look) -> Give
    ensures able { look ≡ Look.NeedsSave → IsTrue result.able }
{
    Give {
        able: matches!(look, Look::NeedsSave),
        body: 1,
    }
}

/// Whether the checker says yes to a log and its own certificates: it always does.
fn gets_yes(alloc: Global, log: &SpaceTime) -> Result<bool, CertFault>
    requires certified { IsCertified log.now.rows }
    ensures yes { IfOk result (λ yes. IsTrue yes) }
    ensures fault { IfErr result (λ fault. fault ≡ CertFault.Memory) }
{
    let certificates = certify(alloc, log)?;
    let yes = log_passes(alloc, log, certificates.as_slice())?;
    Ok(yes)
}

/// Shows how many rows a log has, and whether the checker says yes to it and its own certificates.
pub(crate) fn show_log<R: Print + AllocGlobal>(rt: &R, log: &SpaceTime) -> io::Result<()>
    requires certified { IsCertified log.now.rows }
{
    let yes = value_of(gets_yes(rt.alloc(), log))?;
    println!(rt; "{} rows, passes: {yes}", log.rows().len())
}

/// Shows what a stored scenario comes to where its processes make their steps by turns.
pub(crate) fn show_stepped<R: Files + Print + AllocGlobal>(
    rt: &R,
    scenario: &str,
) -> io::Result<()> {
    let text = fs::read(rt, scenario)?;
    match stepped(rt.alloc(), text.as_slice()) {
        Ok(log) => show_log(rt, &log),
        Err(_) => println!(rt; "no log"),
    }
}

/// How many rows the recorded steps told, and how many of these are the next row of the stored log in their turn.
#[derive(Clone, Copy)]
struct Rows {
    told: usize,
    stored: usize,
}

// Records a step, and compares the rows that it tells with those of a stored log. A step that is refused tells none.
fn record(state: &mut State, step: &Step, log: &[Event], rows: &mut Rows) {
    if let Ok(made) = &state.make(*step, give_for(Look::NeedsSave)) {
        for (number, event) in made.told.rows.iter().flatten() {
            let is_stored = log.get(rows.told) == Some(event);
            rows.told = rows.told.saturating_add(1);
            if is_stored && number.get() as usize == rows.told {
                rows.stored = rows.stored.saturating_add(1);
            }
        }
    }
}

// Records steps in order, and shows what they tell beside a stored log, and the fault of one more step of the first process.
fn show_told<R: Print>(
    rt: &R,
    state: &mut State,
    steps: &[Step],
    log: &SpaceTime,
) -> io::Result<()> {
    let mut rows = Rows { told: 0, stored: 0 };
    for step in steps {
        record(state, step, log.rows(), &mut rows);
    }
    let first = Step::Do(ProcNo::nth(0));
    let fault = state.make(first, give_for(Look::Plain)).err();
    println!(rt;
        "{} rows told, {} as stored, one more step: {fault:?}",
        rows.told, rows.stored
    )
}

// Shows what a state of a plan tells that records these steps.
fn show_state<R: Print + AllocGlobal>(
    rt: &R,
    plan: Plan,
    steps: &[Step],
    log: &SpaceTime,
) -> io::Result<()> {
    match State::new(rt.alloc(), plan) {
        Ok(mut state) => show_told(rt, &mut state, steps, log),
        Err(_) => println!(rt; "no state"),
    }
}

// Shows what a state tells that records the stored steps of a run, beside its log.
fn show_beside<R: Files + Print + AllocGlobal>(
    rt: &R,
    line: &str,
    log: &SpaceTime,
) -> io::Result<()> {
    let plan = plan_in(rt, word(line, 0))?;
    let steps = steps_in(rt, word(line, 1), &plan)?;
    show_state(rt, plan, steps.as_slice(), log)
}

/// Shows the same of the files that a line names: a scenario, steps and a log.
pub(crate) fn show_recorded<R: Files + Print + AllocGlobal>(rt: &R, line: &str) -> io::Result<()> {
    let text = fs::read(rt, word(line, 2))?;
    match read_csv(rt.alloc(), text.as_slice()) {
        Ok(log) => show_beside(rt, line, &log),
        Err(_) => println!(rt; "no log"),
    }
}
