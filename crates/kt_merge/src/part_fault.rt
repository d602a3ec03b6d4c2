//! Why a part's text was refused.

ghost use Rattle.std.specs.Prelude.{◌≡◌};
ghost use Rattle.kt_text.specs.declared.fault.ReadFault.TheVariants as read;
ghost use Rattle.kt_merge.specs.declared.part_fault.PartFault.TheVariants as fault;

use kt_base::Memory;
use kt_text::ReadFault;
use std::error::Error;
use std::fmt;

/// Why a part's text was refused: the first thing wrong, with its record. Records are numbered from 1.
#[derive(Clone, Copy, Debug)]
pub enum PartFault {
    /// The reader failed.
    Read,
    /// There are more records than 2^24 + 1.
    TooLong,
    /// A record has not six fields.
    Fields(u32),
    /// A field is not a word that may stand there.
    Word(u32),
    /// A field is not a number in its range, or not a name of the form that stands there.
    Number(u32),
    /// A clock is less than that of the record before.
    Clock(u32),
    /// A record is of another process.
    Process(u32),
    /// There was no memory for a record or for the list of rows.
    Memory,
}

impl fmt::Display for PartFault {
    ghost use Rattle.std.specs.Prelude.{Some};
    ghost use Rattle.kt_merge.specs.PartFaultTexts.{part_fault_text};

    ghost output = { λ fault. Some (part_fault_text fault) };

    fn fmt<W: fmt::Write>(&self, f: &mut fmt::Formatter<W>) -> fmt::Result {
        match self {
            PartFault::Read => write!(f, "read fault"),
            PartFault::TooLong => write!(f, "too many rows"),
            PartFault::Fields(number) => write!(f, "record {number}: fields"),
            PartFault::Word(number) => write!(f, "record {number}: word"),
            PartFault::Number(number) => write!(f, "record {number}: number"),
            PartFault::Clock(number) => write!(f, "record {number}: clock"),
            PartFault::Process(number) => write!(f, "record {number}: process"),
            PartFault::Memory => write!(f, "memory"),
        }
    }
}

impl Error for PartFault {}

impl From<Memory> for PartFault {
    ghost from_gives = { λ _ f. f ≡ fault.Memory };

    fn from(_fault: Memory) -> PartFault {
        PartFault::Memory
    }
}

impl From<ReadFault> for PartFault {
    ghost from_gives = { λ e f. (e ≡ read.Read → f ≡ fault.Read) × (e ≡ read.Memory → f ≡ fault.Memory) };

    fn from(fault: ReadFault) -> PartFault {
        match fault {
            ReadFault::Read => PartFault::Read,
            ReadFault::Memory => PartFault::Memory,
        }
    }
}
