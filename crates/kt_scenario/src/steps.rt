//! Steps.

ghost use Rattle.std.specs.Prelude.{◌≡◌, ◌≢◌, ◌<◌, ◌≤◌, ◌∷◌, ◌++◌, [], IfOk, IfErr, OnOk, length};
ghost use Rattle.kt_scenario.specs.Lines.{words_of, SaysLine, IsWrongLine};
ghost use Rattle.kt_scenario.specs.Steps.{step_word_in, AreSteps, IsFirstStepFault, IsDo, IsTake, IsWrongDo, IsWrongTake, Adds, StepSays, IsWrongStep, most_steps};

use crate::fault::{StepLineFault, StepsFault};
use crate::words::{is_comment, next_word, one_word, split_line, two_words};
use kt_plan::{Names, Plan, Step};
use std::alloc::Global;

// How many bytes a text of steps has at most.
const MOST_BYTES: usize = 67_108_864;

// How many steps there are at most.
const MOST_STEPS: usize = 1_048_576;

/// The words that a line may begin with.
#[derive(Clone, Copy)]
pub(crate) enum StepWord {
    Do,
    Take,
}

// Which of the first words a word is.
fn step_word_in(word: &[u8]) -> Option<StepWord>
    ensures { result ≡ step_word_in word.now }
{
    if word == b"do".as_slice() {
        return Some(StepWord::Do);
    }
    if word == b"take".as_slice() {
        return Some(StepWord::Take);
    }
    None
}

// Adds a step at the end.
fn note_step(steps: &mut Vec<Step>, step: Step) -> Result<(), StepLineFault>
    ensures ok { OnOk result (Adds steps.old.items step steps.new.items) }
    ensures fault { IfErr result (λ f. f ≢ StepLineFault.Memory → (f ≡ StepLineFault.TooMany) × (most_steps ≤ length steps.old.items)) }
{
    if steps.len() >= MOST_STEPS {
        return Err(StepLineFault::TooMany);
    }
    steps.push(step)?;
    Ok(())
}

// Notes `do A`.
fn note_do(steps: &mut Vec<Step>, names: &Names, name: &[u8]) -> Result<(), StepLineFault>
    ensures ok { OnOk result (IsDo names.now steps.old.items name.now steps.new.items) }
    ensures fault { IfErr result (λ f. f ≢ StepLineFault.Memory → IsWrongDo names.now steps.old.items name.now f) }
{
    let Some(process) = names.number_of(name) else {
        return Err(StepLineFault::Unknown);
    };
    note_step(steps, Step::Do(process))
}

// Notes `take AT FROM`.
fn note_take(
    steps: &mut Vec<Step>,
    names: &Names,
    at: &[u8],
    from: &[u8],
) -> Result<(), StepLineFault>
    ensures ok { OnOk result (IsTake names.now steps.old.items at.now from.now steps.new.items) }
    ensures fault { IfErr result (λ f. f ≢ StepLineFault.Memory → IsWrongTake names.now steps.old.items at.now from.now f) }
{
    let Some(taker) = names.number_of(at) else {
        return Err(StepLineFault::Unknown);
    };
    let Some(sender) = names.number_of(from) else {
        return Err(StepLineFault::Unknown);
    };
    if taker == sender {
        return Err(StepLineFault::Itself);
    }
    note_step(
        steps,
        Step::Take {
            at: taker,
            from: sender,
        },
    )
}

// Notes what a line says.
fn note_line(steps: &mut Vec<Step>, names: &Names, line: &[u8]) -> Result<(), StepLineFault>
    ensures ok { OnOk result (SaysLine (StepSays names.now) steps.old.items line.now steps.new.items) }
    ensures fault { IfErr result (λ f. f ≢ StepLineFault.Memory → IsWrongLine (IsWrongStep names.now) steps.old.items line.now f) }
{
    let Some((first, rest)) = next_word(line) else {
        return Ok(());
    };
    if is_comment(first) {
        return Ok(());
    }
    match step_word_in(first) {
        Some(StepWord::Do) => {
            let name = one_word(rest).ok_or(StepLineFault::Words)?;
            note_do(steps, names, name)
        }
        Some(StepWord::Take) => {
            let (at, from) = two_words(rest).ok_or(StepLineFault::Words)?;
            note_take(steps, names, at, from)
        }
        None => Err(StepLineFault::Command),
    }
}

/// The steps that a text says, of processes of this plan.
///
/// Lines, words and comments are as in a scenario. The lines are `do A` and `take AT FROM`.
///
/// Answers the first fault of the text: its length, at most 2^26 bytes, and then line by line.
pub fn parse_steps(alloc: Global, text: &[u8], plan: &Plan) -> Result<Vec<Step>, StepsFault>
    ensures found { IfOk result (λ steps. AreSteps plan.now.names text.now steps.items) }
    ensures fault { IfErr result (λ f. f ≢ StepsFault.Memory → IsFirstStepFault plan.now.names text.now f) }
{
    if text.len() > MOST_BYTES {
        return Err(StepsFault::TooLong);
    }
    let mut steps = Vec::new(alloc);
    let mut left = Some(text);
    let mut number = 0;
    while let Some(text) = left {
        let (line, rest) = split_line(text);
        number += 1;
        if let Err(fault) = note_line(&mut steps, &plan.names, line) {
            return Err(fault.at(number));
        }
        left = rest;
    }
    Ok(steps)
}
