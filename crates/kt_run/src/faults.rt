//! Why a run ends before its time.

ghost use Rattle.std.specs.Prelude.{◌≡◌, Some};
ghost use Rattle.std.specs.Fmt.{DisplaysOnOk};
ghost use Rattle.kt_run.specs.declared.faults.RunFault.TheVariants as run;
ghost use Rattle.kt_run.specs.FaultTexts.{refused_step_text};
ghost use Rattle.kt_run.specs.Faults.{of_act, of_cast, of_step};

use kt_base::{Memory, ProcNo};
use kt_core::StepFault;
use kt_object::{ActFault, CastFault};
use std::fmt;

/// Why a run came to no end. Its text is the program's fault line, without the program's name.
#[derive(Clone, Copy, Debug)]
pub enum RunFault {
    /// There is another number of processes, or of one process's objects, than the plan asks for.
    CastSize,
    /// This process, the least one, has an object of another kind.
    CastKind(ProcNo),
    /// The object of this process could not be saved at first, or could not be restored from its saved state.
    Object(ProcNo),
    /// There was no memory for what this process was told.
    Journal(ProcNo),
    /// After so many steps, the next one was refused.
    Step(usize, StepFault),
    /// There was no memory.
    Memory,
}

impl RunFault {
    /// The fault of a step that is refused after so many.
    pub(crate) fn of_step(done: usize, fault: StepFault) -> RunFault
        ensures { result ≡ of_step done fault }
    {
        match fault {
            StepFault::Memory => RunFault::Memory,
            _ => RunFault::Step(done, fault),
        }
    }

    /// The fault of an act that a process could not do.
    pub(crate) fn of_act(p: ProcNo, fault: ActFault) -> RunFault
        ensures { result ≡ of_act p fault }
    {
        match fault {
            ActFault::Unfit | ActFault::Form => RunFault::Object(p),
            ActFault::Memory => RunFault::Memory,
        }
    }
}

impl From<Memory> for RunFault {
    ghost from_gives = { λ _ f. f ≡ run.Memory };

    fn from(_fault: Memory) -> RunFault {
        RunFault::Memory
    }
}

impl From<CastFault> for RunFault {
    ghost from_gives = { λ fault f. f ≡ of_cast fault };

    fn from(fault: CastFault) -> RunFault {
        match fault {
            CastFault::Size => RunFault::CastSize,
            CastFault::Kind(p) => RunFault::CastKind(p),
            CastFault::Object(p) => RunFault::Object(p),
            CastFault::Memory => RunFault::Memory,
        }
    }
}

impl fmt::Display for RunFault {
    ghost use Rattle.std.specs.Prelude.{Some};
    ghost use Rattle.kt_run.specs.FaultTexts.{run_fault_text};

    ghost output = { λ fault. Some (run_fault_text fault) };

    fn fmt<W: fmt::Write>(&self, f: &mut fmt::Formatter<W>) -> fmt::Result {
        match self {
            RunFault::CastSize => write!(f, "run: CastSize"),
            RunFault::CastKind(_) => write!(f, "run: CastKind"),
            RunFault::Object(_) => write!(f, "run: Object"),
            RunFault::Journal(_) => write!(f, "run: Journal"),
            RunFault::Step(done, fault) => write_step(f, *done, *fault),
            RunFault::Memory => write!(f, "memory"),
        }
    }
}

// A refused step: its number from 1 where it was not enabled, else why.
fn write_step<W: fmt::Write>(
    f: &mut fmt::Formatter<W>,
    done: usize,
    fault: StepFault,
) -> fmt::Result
    ensures { DisplaysOnOk W.write_str_gives f.old result (Some (refused_step_text done fault)) f.new }
{
    match fault {
        StepFault::NotEnabled => write!(f, "step {} not enabled", done.saturating_add(1)),
        StepFault::LogFull | StepFault::LabelsSpent | StepFault::Memory => write!(
            f,
            "run: {fault}"
        ),
    }
}
