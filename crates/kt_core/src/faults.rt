//! Why a step is not made.

ghost use Rattle.std.specs.Prelude.{◌≡◌};
ghost use Rattle.kt_core.specs.declared.faults.StepFault.TheVariants as fault;

use kt_base::Memory;
use std::error::Error;
use std::fmt;

/// Why a step was not made. Its text is the fault's name.
#[derive(Clone, Copy, Debug, PartialEq, Eq)]
pub enum StepFault {
    /// The step is not enabled.
    NotEnabled,
    /// Fewer than four rows of the log's limit are left.
    LogFull,
    /// A message would be sent, and its sender's greatest label was given.
    LabelsSpent,
    /// There was no memory.
    Memory,
}

impl fmt::Display for StepFault {
    ghost use Rattle.std.specs.Prelude.{Some};
    ghost use Rattle.kt_core.specs.FaultTexts.{step_fault_text};

    ghost output = { λ fault. Some (step_fault_text fault) };

    fn fmt<W: fmt::Write>(&self, f: &mut fmt::Formatter<W>) -> fmt::Result {
        match self {
            StepFault::NotEnabled => write!(f, "NotEnabled"),
            StepFault::LogFull => write!(f, "LogFull"),
            StepFault::LabelsSpent => write!(f, "LabelsSpent"),
            StepFault::Memory => write!(f, "memory"),
        }
    }
}

impl Error for StepFault {}

impl From<Memory> for StepFault {
    ghost from_gives = { λ _ f. f ≡ fault.Memory };

    fn from(_fault: Memory) -> StepFault {
        StepFault::Memory
    }
}
