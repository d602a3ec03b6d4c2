//! Scenarios.

ghost use Rattle.std.specs.Prelude.{◌≡◌, ◌≢◌, ◌≤◌, ◌^◌, length, IfOk, IfErr};
ghost use Rattle.kt_scenario.specs.Draft.{said_of};
ghost use Rattle.kt_scenario.specs.Lines.{lines_of, Reads};
ghost use Rattle.kt_scenario.specs.Said.{nothing_said};
ghost use Rattle.kt_scenario.specs.Scenario.{IsScenario, IsFirstScenarioFault, Says, most_bytes};
ghost use Rattle.kt_scenario.specs.declared.fault.ScenarioFault.TheVariants as fault;

use crate::draft::{Draft, GUESSES, note_line};
use crate::fault::ScenarioFault;
use crate::words::split_line;
use kt_plan::{Names, Plan};
use std::alloc::Global;

// How many bytes a scenario has at most.
const MOST_BYTES: usize = 1_048_576;

/// The plan that a scenario says.
///
/// Lines are separated by LF, words by blanks. A line without words, and one that begins with `#`, says nothing. The
/// others are `object NAME KIND`, `send A B BODY`, `checkpoint A`, `rollback A`, `fail A` and `settle`.
///
/// Answers the first fault of the text: its length, at most 2^20 bytes, and then line by line.
pub fn parse(alloc: Global, text: &[u8]) -> Result<Plan, ScenarioFault>
    ensures found { IfOk result (λ plan. IsScenario text.now plan) }
    ensures fault { IfErr result (λ f. f ≢ ScenarioFault.Memory → IsFirstScenarioFault text.now f) }
{
    if text.len() > MOST_BYTES {
        return Err(ScenarioFault::TooLong);
    }
    let draft = read_lines(alloc, text)?;
    Ok(Plan {
        names: draft.names,
        kinds: draft.kinds,
        commands: draft.commands,
    })
}

// What the lines of a text say.
fn read_lines(alloc: Global, text: &[u8]) -> Result<Draft, ScenarioFault>
    requires { length text.now ≤ most_bytes }
    ensures found { IfOk result (λ draft. Reads Says nothing_said (lines_of text.now) (said_of draft)) }
    ensures fault { IfErr result (λ f. f ≢ ScenarioFault.Memory → IsFirstScenarioFault text.now f) }
{
    let mut draft = Draft {
        names: Names::new(alloc),
        kinds: Vec::new(alloc),
        commands: Vec::new(alloc),
        phase: 0,
        guesses: [0; GUESSES],
    };
    let mut left = Some(text);
    let mut number = 0;
    while let Some(text) = left {
        let (line, rest) = split_line(text);
        number += 1;
        if let Err(fault) = note_line(&mut draft, alloc, line) {
            return Err(fault.at(number));
        }
        left = rest;
    }
    Ok(draft)
}
