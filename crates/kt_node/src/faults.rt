//! Why a call is refused.

ghost use Rattle.kt_node.specs.declared.faults.ManagerFault.TheVariants as fault;
ghost use Rattle.std.specs.Prelude.{◌≡◌};

use kt_base::Memory;
use thiserror::Error;

/// Why a manager does not take a step. It is as it was.
#[derive(Clone, Copy, Debug, Error)]
pub enum ManagerFault {
    /// The other process is none of those that there are.
    #[error("unknown")]
    Unknown,
    /// The other process is itself.
    #[error("itself")]
    Itself,
    /// A send waits while the manager is in an open instance.
    #[error("waits")]
    Waits,
    /// An ask names an instance that its initiator is not in: this is no process, or the manager's own, which is not in it.
    #[error("not begun")]
    NotBegun,
    /// A message of this sender is held, and comes first.
    #[error("held first")]
    HeldFirst,
    /// No message of this sender is held that it could take now.
    #[error("holds none")]
    HoldsNone,
    /// All labels of messages were given.
    #[error("labels spent")]
    LabelsSpent,
    /// All counts of instances were given.
    #[error("counts spent")]
    CountsSpent,
    /// There was no memory.
    #[error("memory")]
    Memory,
}

impl From<Memory> for ManagerFault {
    ghost from_gives = { λ _ f. f ≡ fault.Memory };

    fn from(_fault: Memory) -> ManagerFault {
        ManagerFault::Memory
    }
}
