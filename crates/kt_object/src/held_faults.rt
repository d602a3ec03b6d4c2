//! Why an act is not done.

use crate::faults::RestoreFault;
use kt_base::ProcNo;
use std::alloc::{AllocError, AllocFailed};
use thiserror::Error;

/// Why an act was not done: it does not fit what is held; the permanent state is none that the object takes; or there was no
/// memory.
#[derive(Clone, Copy, Debug, Error)]
pub enum ActFault {
    #[error("unfit")]
    Unfit,
    #[error("not a saved state of this kind")]
    Form,
    #[error("memory")]
    Memory,
}

impl From<RestoreFault> for ActFault {
    ghost use Rattle.std.specs.Prelude.{◌≡◌};
    ghost use Rattle.kt_object.specs.Faults.{of_restore};

    ghost from_gives = { λ fault f. f ≡ of_restore fault };

    fn from(fault: RestoreFault) -> ActFault {
        match fault {
            RestoreFault::Form => ActFault::Form,
            RestoreFault::Memory => ActFault::Memory,
        }
    }
}

/// Why objects are refused: there is another number of processes, or of one process's objects; a process has an object of
/// another kind; a process's object is not able to be saved; or there was no memory.
#[derive(Clone, Copy, Debug, Error)]
pub enum CastFault {
    #[error("another number of objects")]
    Size,
    #[error("an object of another kind")]
    Kind(ProcNo),
    #[error("an object that is not able to be saved")]
    Object(ProcNo),
    #[error("memory")]
    Memory,
}

impl From<AllocError> for CastFault {
    ghost use Rattle.std.specs.Prelude.{◌≡◌};
    ghost use Rattle.kt_object.specs.declared.held_faults.CastFault.TheVariants.{Memory};

    ghost from_gives = { λ _ fault. fault ≡ Memory };

    fn from(_fault: AllocError) -> CastFault {
        CastFault::Memory
    }
}

impl<T: Drop> From<AllocFailed<T>> for CastFault {
    ghost use Rattle.std.specs.Prelude.{◌≡◌};
    ghost use Rattle.kt_object.specs.declared.held_faults.CastFault.TheVariants.{Memory};

    ghost from_gives = { λ _ fault. fault ≡ Memory };

    fn from(_fault: AllocFailed<T>) -> CastFault {
        CastFault::Memory
    }
}
