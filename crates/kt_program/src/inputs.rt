//! The texts that a run is made of, read and parsed.

ghost use Rattle.std.specs.Prelude.{◌≡◌, ◌++◌, ℕ, List, IfOk, IfErr, IsTrue};
ghost use Rattle.std.specs.Io.KnownBytes.{Consumes, IsAtEnd};
ghost use Rattle.kt_program.specs.declared.fault.ProgramFault.TheVariants as program;
ghost use Rattle.kt_program.specs.Inputs.{AreStepsOf, IsOfReading, IsRead, IsScenarioOf, IsScenarioRefusal, IsStepsRefusal};

use crate::fault::{AppFault, Failure, ProgramFault};
use crate::told::Told;
use kt_plan::{Plan, Step};
use kt_scenario::{ScenarioFault, StepsFault, parse, parse_steps};
use kt_text::Input;
use std::alloc::Global;
use std::io::{self, Read};

// How often a text is read from at most.
const MOST_READS: u32 = 134_217_728;

// How many bytes a scenario has at most, and how many a text of steps has.
const MOST_SCENARIO_BYTES: usize = 1_048_576;

const MOST_STEP_BYTES: usize = 67_108_864;

/// The plan of the scenario that a reader tells.
pub fn read_scenario<R: Read + Drop>(alloc: Global, reader: R) -> Result<Plan, ProgramFault>
    ensures plan { IfOk result (λ plan. IsScenarioOf (R.remaining reader) plan) }
    ensures fault { IfErr result (IsScenarioRefusal (R.remaining reader)) }
{
    match plan_of(alloc, &mut Input::new(reader, "")) {
        Ok(plan) => Ok(plan),
        Err(failure) => Err(failure.fault),
    }
}

/// The plan of the scenario that an input tells.
pub(crate) fn plan_of<R: Read>(alloc: Global, input: &mut Input<R>) -> Result<Plan, Failure>
    ensures plan { IfOk result (λ plan. IsScenarioOf (R.remaining input.old.source) plan) }
    ensures fault { IfErr result (λ failure. IsScenarioRefusal (R.remaining input.old.source) failure.fault) }
{
    let text = text_of(alloc, input, MOST_SCENARIO_BYTES)?;
    match parse(alloc, text.as_slice()) {
        Ok(plan) => Ok(plan),
        Err(fault) => match fault {
            ScenarioFault::Memory => Err(Failure::from(AppFault::Memory)),
            _ => Err(Failure {
                fault: ProgramFault::Scenario(fault),
                told: Told::line(input.name, text.as_slice(), fault.line(), None),
            }),
        },
    }
}

/// The steps of a plan's processes that a reader tells.
pub fn read_steps<R: Read + Drop>(
    alloc: Global,
    reader: R,
    plan: &Plan,
) -> Result<Vec<Step>, ProgramFault>
    ensures steps { IfOk result (λ steps. AreStepsOf (R.remaining reader) plan.now.names steps.items) }
    ensures fault { IfErr result (IsStepsRefusal (R.remaining reader) plan.now.names) }
{
    match steps_of(alloc, &mut Input::new(reader, ""), plan) {
        Ok(read) => Ok(read.steps),
        Err(failure) => Err(failure.fault),
    }
}

/// Steps that were read, and the text that says them.
#[derive(Drop)]
pub(crate) struct StepsRead {
    pub(crate) steps: Vec<Step>,
    pub(crate) text: Vec<u8>,
}

/// The steps of a plan's processes that an input tells.
pub(crate) fn steps_of<R: Read>(
    alloc: Global,
    input: &mut Input<R>,
    plan: &Plan,
) -> Result<StepsRead, Failure>
    ensures steps { IfOk result (λ read. AreStepsOf (R.remaining input.old.source) plan.now.names read.steps.items) }
    ensures fault { IfErr result (λ failure. IsStepsRefusal (R.remaining input.old.source) plan.now.names failure.fault) }
{
    let text = text_of(alloc, input, MOST_STEP_BYTES)?;
    match parse_steps(alloc, text.as_slice(), plan) {
        Ok(steps) => Ok(StepsRead { steps, text }),
        Err(fault) => match fault {
            StepsFault::Memory => Err(Failure::from(AppFault::Memory)),
            _ => Err(Failure {
                fault: ProgramFault::Steps(fault),
                told: Told::line(input.name, text.as_slice(), fault.line(), None),
            }),
        },
    }
}

// The text that an input tells, to its end; no more of it once it has more than so many bytes.
fn text_of<R: Read>(alloc: Global, input: &mut Input<R>, most: usize) -> Result<Vec<u8>, Failure>
    ensures text { IfOk result (λ text. IsRead most (R.remaining input.old.source) text.items) }
    ensures fault { IfErr result (λ failure. IsOfReading failure.fault) }
{
    let mut text = Vec::new(alloc);
    for _read in 0..MOST_READS {
        if read_piece(input, &mut text)? || text.len() > most {
            return Ok(text);
        }
    }
    Err(read_failure(input))
}

// Reads one piece of a text, and adds it; true where there is no more. A read that was interrupted is not the end.
fn read_piece<R: Read>(input: &mut Input<R>, text: &mut Vec<u8>) -> Result<bool, Failure>
    ensures piece { IfOk result (λ ended. (piece : List ℕ) × (text.new.items ≡ text.old.items ++ piece)
        × Consumes (R.remaining input.old.source) (R.remaining input.new.source) piece) }
    ensures end { IfOk result (λ ended. IsTrue ended → IsAtEnd (R.remaining input.new.source)) }
    ensures fault { IfErr result (λ failure. IsOfReading failure.fault) }
{
    let mut piece = [0; 4096];
    match input.read(&mut piece) {
        Ok(0) => Ok(true),
        Ok(count) => match text.extend_from_slice(&piece[..count]) {
            Ok(()) => Ok(false),
            Err(_) => Err(Failure::from(AppFault::Memory)),
        },
        Err(error) => match error.kind() {
            io::ErrorKind::Interrupted => Ok(false),
            _ => Err(read_failure(input)),
        },
    }
}

// A read of an input failed.
fn read_failure<R>(input: &Input<R>) -> Failure
    ensures { result.fault ≡ program.Read }
{
    Failure {
        fault: ProgramFault::Read,
        told: Told::read(input),
    }
}
