//! Why a log has no certificates.

ghost use Rattle.std.specs.Prelude.{◌≡◌};
ghost use Rattle.kt_spacetime.specs.Unfit.{of_unfit};

use crate::rules::Rule;
use kt_base::{InstNo, Memory, ProcNo, RowNo};
use std::fmt;
use thiserror::Error;

/// Why a log was not certified.
#[derive(Clone, Copy, Debug, Error)]
pub enum CertFault {
    /// This row is the first that breaks a rule, and this the least rule that it breaks.
    #[error("row {0} breaks rule {1}")]
    BadLog(RowNo, Rule),
    /// A committed instance has a member, other than the initiator, that no message links with an earlier one.
    #[error("instance {0}: no chain for process {1}")]
    NoChain(InstNo, ProcNo),
    /// There was no memory.
    #[error("memory")]
    Memory,
}

/// Why a log has no certificates.
#[derive(Clone, Copy, Debug, PartialEq, Eq)]
pub enum Unfit {
    /// This row is the first that breaks a rule, and this the least rule that it breaks.
    BadLog(RowNo, Rule),
    /// This row is the first that commits an instance with a member, other than the initiator, that no message links with
    /// an earlier one, and this the first such member.
    NoChain(InstNo, RowNo, ProcNo),
}

impl fmt::Display for Unfit {
    ghost use Rattle.std.specs.Prelude.{Some};
    ghost use Rattle.kt_spacetime.specs.Unfit.{unfit_text};

    ghost output = { λ why. Some (unfit_text why) };

    fn fmt<W: fmt::Write>(&self, f: &mut fmt::Formatter<W>) -> fmt::Result {
        match self {
            Unfit::BadLog(row, rule) => write!(f, "no row {row} BadLog {rule}"),
            Unfit::NoChain(inst, row, process) => write!(
                f,
                "no instance {inst} row {row} process {process} NoChain"
            ),
        }
    }
}

impl std::error::Error for Unfit {}

impl From<Memory> for CertFault {
    ghost use Rattle.kt_spacetime.specs.declared.unfit.CertFault.TheVariants as fault;

    ghost from_gives = { λ _ f. f ≡ fault.Memory };

    fn from(_fault: Memory) -> CertFault {
        CertFault::Memory
    }
}

impl From<Unfit> for CertFault {
    ghost from_gives = { λ unfit f. f ≡ of_unfit unfit };

    fn from(unfit: Unfit) -> CertFault {
        match unfit {
            Unfit::BadLog(row, rule) => CertFault::BadLog(row, rule),
            Unfit::NoChain(inst, _row, process) => CertFault::NoChain(inst, process),
        }
    }
}
