//! Why bytes are not read.

ghost use Rattle.std.specs.Prelude.{◌≡◌};
ghost use Rattle.kt_node_text.specs.declared.fault.LoadFault.TheVariants as fault;

use kt_base::Memory;
use std::alloc::{AllocError, AllocFailed};
use thiserror::Error;

/// Why no node is read from bytes.
#[derive(Clone, Copy, Debug, Error)]
pub enum LoadFault {
    /// They are the text of no node.
    #[error("form")]
    Form,
    /// There was no memory.
    #[error("memory")]
    Memory,
}

impl From<Memory> for LoadFault {
    ghost from_gives = { λ _ f. f ≡ fault.Memory };

    fn from(_fault: Memory) -> LoadFault {
        LoadFault::Memory
    }
}

impl From<AllocError> for LoadFault {
    ghost from_gives = { λ _ f. f ≡ fault.Memory };

    fn from(_fault: AllocError) -> LoadFault {
        LoadFault::Memory
    }
}

impl<T: Drop> From<AllocFailed<T>> for LoadFault {
    ghost from_gives = { λ _ f. f ≡ fault.Memory };

    fn from(_fault: AllocFailed<T>) -> LoadFault {
        LoadFault::Memory
    }
}
