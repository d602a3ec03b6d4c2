//! Why a log is not legal, and whether a message comes after another.

ghost use Rattle.std.specs.Prelude.{◌≡◌};
ghost use Rattle.kt_rules.specs.Tests.{is_after};

use kt_base::{Memory, MsgNo, RowNo};
use kt_spacetime::Rule;
use thiserror::Error;

/// Why a log was not found legal.
#[derive(Clone, Copy, Debug, Error)]
pub enum LegalFault {
    /// This row is the first that breaks a rule, and this the least rule that it breaks.
    #[error("row {0} breaks rule {1}")]
    Broken(RowNo, Rule),
    /// There was no memory for the tables.
    #[error("memory")]
    Memory,
}

impl From<Memory> for LegalFault {
    ghost use Rattle.kt_rules.specs.declared.legality.LegalFault.TheVariants as fault;

    ghost from_gives = { λ _ f. f ≡ fault.Memory };

    fn from(_fault: Memory) -> LegalFault {
        LegalFault::Memory
    }
}

/// Whether a message comes after what was last: its number is greater, or there was none.
pub fn is_after(msg: MsgNo, last: Option<MsgNo>) -> bool
    ensures { result ≡ is_after msg last }
{
    match last {
        Some(last) => last.get() < msg.get(),
        None => true,
    }
}
