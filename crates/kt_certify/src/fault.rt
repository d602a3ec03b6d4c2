//! Why a log was not certified.

ghost use Rattle.std.specs.Prelude.{◌≡◌};

use kt_base::{InstNo, Memory, ProcNo};
use kt_log_text::LogFault;
use kt_spacetime::Unfit;
use thiserror::Error;

/// Why a stored log was not certified.
#[derive(Clone, Copy, Debug, PartialEq, Eq, Error)]
pub enum StreamFault {
    /// Its text was refused, or there was no memory.
    #[error(transparent)]
    Log(LogFault),
    /// It has no certificates.
    #[error(transparent)]
    Unfit(Unfit),
}

/// Why the chains of an instance were not all found.
#[derive(Clone, Copy)]
pub(crate) enum Stop {
    /// This process has none.
    NoChain(InstNo, ProcNo),
    /// There was no memory.
    Memory,
}

impl From<LogFault> for StreamFault {
    ghost use Rattle.kt_certify.specs.declared.fault.StreamFault.TheVariants as stream;

    ghost from_gives = { λ fault f. f ≡ stream.Log fault };

    fn from(fault: LogFault) -> StreamFault {
        StreamFault::Log(fault)
    }
}

impl From<Memory> for StreamFault {
    ghost use Rattle.kt_log_text.specs.declared.fault.LogFault.TheVariants as log;
    ghost use Rattle.kt_certify.specs.declared.fault.StreamFault.TheVariants as stream;

    ghost from_gives = { λ _ f. f ≡ stream.Log log.Memory };

    fn from(_fault: Memory) -> StreamFault {
        StreamFault::Log(LogFault::Memory)
    }
}

impl From<Memory> for Stop {
    ghost use Rattle.kt_certify.specs.declared.fault.Stop.TheVariants as stop;

    ghost from_gives = { λ _ f. f ≡ stop.Memory };

    fn from(_fault: Memory) -> Stop {
        Stop::Memory
    }
}
