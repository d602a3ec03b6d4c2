//! Why processes in threads end before their time.

ghost use Rattle.std.specs.Prelude.{◌≡◌, false};
ghost use Rattle.kt_threads.specs.declared.faults.LiveFault.TheVariants as live;
ghost use Rattle.kt_threads.specs.Faults.{is_of_no_thread, live_of_act, live_of_cast, live_of_spawning, live_of_step, live_stopped_at};

use crate::spawning::SpawnFault;
use kt_base::{Memory, ProcNo};
use kt_core::StepFault;
use kt_object::{ActFault, CastFault};
use std::alloc::AllocError;
use std::fmt;

/// Why processes in threads came to no end. Its text is the program's fault line, without the program's name.
#[derive(Clone, Copy, Debug, PartialEq, Eq)]
pub enum LiveFault {
    /// There is another number of processes, or of one process's objects, than the plan asks for.
    CastSize,
    /// This process, the least one, has an object of another kind.
    CastKind(ProcNo),
    /// The object of this process could not be saved at first, or could not be restored from its saved state.
    Object(ProcNo),
    /// There was no memory to note what a step asked of the object of this process. That takes none, so no run ends by this.
    Journal(ProcNo),
    /// A step was refused.
    Step(StepFault),
    /// A thread could not be started.
    Spawn,
    /// An act did not fit what its process holds; or what was made is not a run of the plan, ended at rest, of which each
    /// thread was told its own steps.
    Differ,
    /// There was no memory.
    Memory,
}

impl LiveFault {
    /// The fault of a step that is refused.
    pub(crate) fn of_step(fault: StepFault) -> LiveFault
        ensures fault { result ≡ live_of_step fault }
    {
        match fault {
            StepFault::Memory => LiveFault::Memory,
            _ => LiveFault::Step(fault),
        }
    }

    /// The fault of an act that a process could not do.
    pub(crate) fn of_act(p: ProcNo, fault: ActFault) -> LiveFault
        ensures fault { result ≡ live_of_act p fault }
    {
        match fault {
            ActFault::Unfit => LiveFault::Differ,
            ActFault::Form => LiveFault::Object(p),
            ActFault::Memory => LiveFault::Memory,
        }
    }

    /// Whether no thread ends by it: it says what is wrong with the objects that are given, or that a step could not be noted.
    pub(crate) fn is_of_no_thread(&self) -> bool
        ensures { result ≡ is_of_no_thread self.now }
    {
        matches!(
            self,
            LiveFault::CastSize | LiveFault::CastKind(_) | LiveFault::Journal(_)
        )
    }

    /// The process that it names, if it comes once all objects are saved at first.
    pub(crate) fn process(&self) -> Option<ProcNo>
        ensures { result ≡ live_stopped_at self.now }
    {
        match *self {
            LiveFault::Object(p) => Some(p),
            _ => None,
        }
    }
}

impl From<Memory> for LiveFault {
    ghost from_gives = { λ _ f. f ≡ live.Memory };

    fn from(_fault: Memory) -> LiveFault {
        LiveFault::Memory
    }
}

impl From<AllocError> for LiveFault {
    ghost from_gives = { λ _ f. f ≡ live.Memory };

    fn from(_fault: AllocError) -> LiveFault {
        LiveFault::Memory
    }
}

impl From<SpawnFault> for LiveFault {
    ghost from_gives = { λ fault f. (f ≡ live_of_spawning fault) × (is_of_no_thread f ≡ false) };

    fn from(fault: SpawnFault) -> LiveFault {
        match fault {
            SpawnFault::Memory => LiveFault::Memory,
            SpawnFault::Spawn => LiveFault::Spawn,
        }
    }
}

impl From<CastFault> for LiveFault {
    ghost from_gives = { λ fault f. f ≡ live_of_cast fault };

    fn from(fault: CastFault) -> LiveFault {
        match fault {
            CastFault::Size => LiveFault::CastSize,
            CastFault::Kind(p) => LiveFault::CastKind(p),
            CastFault::Object(p) => LiveFault::Object(p),
            CastFault::Memory => LiveFault::Memory,
        }
    }
}

impl fmt::Display for LiveFault {
    ghost use Rattle.std.specs.Prelude.{Some};
    ghost use Rattle.kt_threads.specs.FaultTexts.{live_fault_text};

    ghost output = { λ fault. Some (live_fault_text fault) };

    fn fmt<W: fmt::Write>(&self, f: &mut fmt::Formatter<W>) -> fmt::Result {
        match self {
            LiveFault::CastSize => write!(f, "run: CastSize"),
            LiveFault::CastKind(_) => write!(f, "run: CastKind"),
            LiveFault::Object(_) => write!(f, "run: Object"),
            LiveFault::Journal(_) => write!(f, "run: Journal"),
            LiveFault::Step(StepFault::Memory) | LiveFault::Memory => write!(f, "memory"),
            LiveFault::Step(fault) => write!(f, "run: {fault}"),
            LiveFault::Spawn => write!(f, "run: Spawn"),
            LiveFault::Differ => write!(f, "run: Differ"),
        }
    }
}
