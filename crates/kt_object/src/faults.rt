//! Why an object is not saved or restored.

ghost use Rattle.kt_object.specs.declared.faults.SaveFault.TheVariants.{Memory as OfSave};
ghost use Rattle.kt_object.specs.declared.faults.RestoreFault.TheVariants.{Memory as OfRestore};

use kt_base::Memory;
use std::alloc::AllocError;
use thiserror::Error;

/// Why an object was not saved: it is not able to now, or there was no memory.
#[derive(Clone, Copy, Debug, Error)]
pub enum SaveFault {
    #[error("not able to save")]
    Unable,
    #[error("memory")]
    Memory,
}

impl From<AllocError> for SaveFault {
    ghost use Rattle.std.specs.Prelude.{◌≡◌};
    ghost use Rattle.kt_object.specs.declared.faults.SaveFault.TheVariants.{Memory};

    ghost from_gives = { λ _ fault. fault ≡ Memory };

    fn from(_fault: AllocError) -> SaveFault {
        SaveFault::Memory
    }
}

/// Why an object was not restored: the bytes are no saved state of its kind, or there was no memory.
#[derive(Clone, Copy, Debug, Error)]
pub enum RestoreFault {
    #[error("not a saved state of this kind")]
    Form,
    #[error("memory")]
    Memory,
}
