//! Why a certificate text was refused.

ghost use Rattle.std.specs.Prelude.{◌≡◌};
ghost use Rattle.kt_text.specs.declared.fault.ReadFault.TheVariants as read;
ghost use Rattle.kt_chain.specs.declared.fault.CertTextFault.TheVariants as fault;

use kt_base::Memory;
use kt_text::ReadFault;
use std::alloc::AllocFailed;
use std::error::Error;
use std::fmt;

/// Why a certificate text was refused: the first thing wrong, with its record. Records are numbered from 1.
#[derive(Clone, Copy, Debug, PartialEq, Eq)]
pub enum CertTextFault {
    /// The reader failed.
    Read,
    /// There are more than 2^19 records.
    TooLong,
    /// A record has not five fields.
    Fields(u32),
    /// A field is not a word that may stand there.
    Word(u32),
    /// A field is not a number in its range, or not a list of such numbers.
    Number(u32),
    /// A member before any instance, of another instance than the last, or with another count of messages than it says.
    Place(u32),
    /// There was no memory for a record or for the list.
    Memory,
}

impl fmt::Display for CertTextFault {
    ghost use Rattle.std.specs.Prelude.{Some};
    ghost use Rattle.kt_chain.specs.FaultTexts.{certificate_fault_text};

    ghost output = { λ fault. Some (certificate_fault_text fault) };

    fn fmt<W: fmt::Write>(&self, f: &mut fmt::Formatter<W>) -> fmt::Result {
        match self {
            CertTextFault::Read => write!(f, "read fault"),
            CertTextFault::TooLong => write!(f, "certificate too long"),
            CertTextFault::Fields(record) => write!(f, "certificate record {record}: fields"),
            CertTextFault::Word(record) => write!(f, "certificate record {record}: word"),
            CertTextFault::Number(record) => write!(f, "certificate record {record}: number"),
            CertTextFault::Place(record) => write!(f, "certificate record {record}: place"),
            CertTextFault::Memory => write!(f, "memory"),
        }
    }
}

impl Error for CertTextFault {}

impl From<Memory> for CertTextFault {
    ghost from_gives = { λ _ f. f ≡ fault.Memory };

    fn from(_fault: Memory) -> CertTextFault {
        CertTextFault::Memory
    }
}

impl<T: Drop> From<AllocFailed<T>> for CertTextFault {
    ghost from_gives = { λ _ f. f ≡ fault.Memory };

    fn from(_fault: AllocFailed<T>) -> CertTextFault {
        CertTextFault::Memory
    }
}

impl From<ReadFault> for CertTextFault {
    ghost from_gives = { λ e f. (e ≡ read.Read → f ≡ fault.Read) × (e ≡ read.Memory → f ≡ fault.Memory) };

    fn from(fault: ReadFault) -> CertTextFault {
        match fault {
            ReadFault::Read => CertTextFault::Read,
            ReadFault::Memory => CertTextFault::Memory,
        }
    }
}
