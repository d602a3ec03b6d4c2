//! Why a text was refused.

ghost use Rattle.std.specs.Prelude.{◌≡◌};
ghost use Rattle.kt_scenario.specs.declared.fault.LineFault.TheVariants as line;
ghost use Rattle.kt_scenario.specs.declared.fault.StepLineFault.TheVariants as step;
ghost use Rattle.kt_scenario.specs.declared.fault.ScenarioFault.TheVariants as scenario;
ghost use Rattle.kt_scenario.specs.declared.fault.StepsFault.TheVariants as steps;
ghost use Rattle.kt_scenario.specs.Faults.{fault_at, step_fault_at};

use kt_base::Memory;
use std::alloc::{AllocError, AllocFailed};
use thiserror::Error;

/// What is wrong in a line of a scenario.
#[derive(Clone, Copy)]
pub(crate) enum LineFault {
    Command,
    Words,
    Name,
    Twice,
    KindWord,
    TooManyObjects,
    Unknown,
    Itself,
    Number,
    TooManyCommands,
    Memory,
}

impl From<Memory> for LineFault {
    ghost from_gives = { λ _ f. f ≡ line.Memory };

    fn from(_fault: Memory) -> LineFault {
        LineFault::Memory
    }
}

impl<T: Drop> From<AllocFailed<T>> for LineFault {
    ghost from_gives = { λ _ f. f ≡ line.Memory };

    fn from(_fault: AllocFailed<T>) -> LineFault {
        LineFault::Memory
    }
}

/// What is wrong in a line of a text of steps.
#[derive(Clone, Copy)]
pub(crate) enum StepLineFault {
    Command,
    Words,
    Unknown,
    Itself,
    TooMany,
    Memory,
}

impl<T: Drop> From<AllocFailed<T>> for StepLineFault {
    ghost from_gives = { λ _ f. f ≡ step.Memory };

    fn from(_fault: AllocFailed<T>) -> StepLineFault {
        StepLineFault::Memory
    }
}

/// Why a scenario was refused: the first thing wrong, with its line. Lines are numbered from 1.
#[derive(Clone, Copy, Debug, Error)]
pub enum ScenarioFault {
    /// The text has more than 2^20 bytes.
    #[error("too long")]
    TooLong,
    /// The first word is none of the seven.
    #[error("line {0}: unknown command")]
    Command(usize),
    /// The line has another number of words than its first word asks.
    #[error("line {0}: wrong number of words")]
    Words(usize),
    /// A process can't be called so.
    #[error("line {0}: bad name")]
    Name(usize),
    /// An earlier line declared this name.
    #[error("line {0}: declared twice")]
    Twice(usize),
    /// There is no such kind of object.
    #[error("line {0}: unknown kind")]
    KindWord(usize),
    /// 64 objects were declared before.
    #[error("line {0}: too many objects")]
    TooManyObjects(usize),
    /// No earlier line declared this name.
    #[error("line {0}: unknown name")]
    Unknown(usize),
    /// A process would send to itself.
    #[error("line {0}: send to itself")]
    Itself(usize),
    /// The body is neither `.` nor a number within i64.
    #[error("line {0}: bad number")]
    Number(usize),
    /// 4,096 commands came before.
    #[error("line {0}: too many commands")]
    TooManyCommands(usize),
    /// There was no memory for the plan.
    #[error("memory")]
    Memory,
}

impl ScenarioFault {
    /// The number of the line that is refused, from 1; None where the fault is in no line.
    pub fn line(&self) -> Option<usize> {
        match self {
            ScenarioFault::TooLong | ScenarioFault::Memory => None,
            ScenarioFault::Command(line)
            | ScenarioFault::Words(line)
            | ScenarioFault::Name(line)
            | ScenarioFault::Twice(line)
            | ScenarioFault::KindWord(line)
            | ScenarioFault::TooManyObjects(line)
            | ScenarioFault::Unknown(line)
            | ScenarioFault::Itself(line)
            | ScenarioFault::Number(line)
            | ScenarioFault::TooManyCommands(line) => Some(*line),
        }
    }

    /// What a line has to be that is refused so, in words; empty where the fault's own text says it.
    pub fn expected(&self) -> &'static str {
        match self {
            ScenarioFault::Command(_) =>
                "a line begins with object, send, checkpoint, rollback, fail or settle",
            ScenarioFault::Words(_) =>
                "expected: object NAME KIND, send A B BODY, checkpoint A, rollback A, fail A or settle",
            ScenarioFault::Name(_) =>
                "a name has 1 to 16 of a to z, 0 to 9 and _, and begins with a letter",
            ScenarioFault::KindWord(_) => "a kind is sum, last or tail",
            ScenarioFault::Unknown(_) => "a name has an object line above the line that uses it",
            ScenarioFault::Number(_) =>
                "a body is . or a whole number of 64 bits, without a leading zero",
            ScenarioFault::TooManyObjects(_) => "a scenario has at most 64 objects",
            ScenarioFault::TooManyCommands(_) => "a scenario has at most 4096 commands",
            _ => "",
        }
    }
}

/// Why a text of steps was refused: the first thing wrong, with its line. Lines are numbered from 1.
#[derive(Clone, Copy, Debug, Error)]
pub enum StepsFault {
    /// The text has more than 2^26 bytes.
    #[error("too long")]
    TooLong,
    /// The first word is neither `do` nor `take`.
    #[error("line {0}: unknown command")]
    Command(usize),
    /// The line has another number of words than its first word asks.
    #[error("line {0}: wrong number of words")]
    Words(usize),
    /// The plan has no process of this name.
    #[error("line {0}: unknown name")]
    Unknown(usize),
    /// A process would take from itself.
    #[error("line {0}: take from itself")]
    Itself(usize),
    /// 2^20 steps came before.
    #[error("line {0}: too many steps")]
    TooMany(usize),
    /// There was no memory for the list of steps.
    #[error("memory")]
    Memory,
}

impl StepsFault {
    /// The number of the line that is refused, from 1; None where the fault is in no line.
    pub fn line(&self) -> Option<usize> {
        match self {
            StepsFault::TooLong | StepsFault::Memory => None,
            StepsFault::Command(line)
            | StepsFault::Words(line)
            | StepsFault::Unknown(line)
            | StepsFault::Itself(line)
            | StepsFault::TooMany(line) => Some(*line),
        }
    }

    /// What a line has to be that is refused so, in words; empty where the fault's own text says it.
    pub fn expected(&self) -> &'static str {
        match self {
            StepsFault::Command(_) | StepsFault::Words(_) => "expected: do A or take AT FROM",
            StepsFault::Unknown(_) => "no object line of the scenario has this name",
            _ => "",
        }
    }
}

impl LineFault {
    /// The fault of a scenario in whose line of this number it is.
    pub(crate) fn at(self, line: usize) -> ScenarioFault
        ensures { result ≡ fault_at self line }
    {
        match self {
            LineFault::Command => ScenarioFault::Command(line),
            LineFault::Words => ScenarioFault::Words(line),
            LineFault::Name => ScenarioFault::Name(line),
            LineFault::Twice => ScenarioFault::Twice(line),
            LineFault::KindWord => ScenarioFault::KindWord(line),
            LineFault::TooManyObjects => ScenarioFault::TooManyObjects(line),
            LineFault::Unknown => ScenarioFault::Unknown(line),
            LineFault::Itself => ScenarioFault::Itself(line),
            LineFault::Number => ScenarioFault::Number(line),
            LineFault::TooManyCommands => ScenarioFault::TooManyCommands(line),
            LineFault::Memory => ScenarioFault::Memory,
        }
    }
}

impl StepLineFault {
    /// The fault of a text of steps in whose line of this number it is.
    pub(crate) fn at(self, line: usize) -> StepsFault
        ensures { result ≡ step_fault_at self line }
    {
        match self {
            StepLineFault::Command => StepsFault::Command(line),
            StepLineFault::Words => StepsFault::Words(line),
            StepLineFault::Unknown => StepsFault::Unknown(line),
            StepLineFault::Itself => StepsFault::Itself(line),
            StepLineFault::TooMany => StepsFault::TooMany(line),
            StepLineFault::Memory => StepsFault::Memory,
        }
    }
}
