//! Why a log's text was refused.

ghost use Rattle.std.specs.Prelude.{◌≡◌};
ghost use Rattle.kt_text.specs.declared.fault.ReadFault.TheVariants as read;
ghost use Rattle.kt_log_text.specs.declared.fault.LogFault.TheVariants as fault;

use kt_base::{Memory, RowNo};
use kt_text::ReadFault;
use std::error::Error;
use std::fmt;

/// Why a log's text was refused: the first thing wrong, with its row. Rows are numbered from 1, without the
/// record that names the format.
#[derive(Clone, Copy, Debug, PartialEq, Eq)]
pub enum LogFault {
    /// The reader failed.
    Read,
    /// There are more rows than the format allows: 2^20 in format 1, 2^24 in format 2.
    TooLong,
    /// The first record begins with `kt` and is not `kt,2,-,-`.
    Version,
    /// A row has not four fields.
    Fields(RowNo),
    /// A field is not a word that may stand there.
    Word(RowNo),
    /// A field is not a number in its range.
    Number(RowNo),
    /// There was no memory for a record or for the list of rows.
    Memory,
}

impl fmt::Display for LogFault {
    ghost use Rattle.std.specs.Prelude.{Some};
    ghost use Rattle.kt_log_text.specs.FaultTexts.{log_fault_text};

    ghost output = { λ fault. Some (log_fault_text fault) };

    fn fmt<W: fmt::Write>(&self, f: &mut fmt::Formatter<W>) -> fmt::Result {
        match self {
            LogFault::Read => write!(f, "read fault"),
            LogFault::TooLong => write!(f, "log too long"),
            LogFault::Version => write!(f, "log version"),
            LogFault::Fields(row) => write!(f, "log row {row}: fields"),
            LogFault::Word(row) => write!(f, "log row {row}: word"),
            LogFault::Number(row) => write!(f, "log row {row}: number"),
            LogFault::Memory => write!(f, "memory"),
        }
    }
}

impl Error for LogFault {}

impl From<Memory> for LogFault {
    ghost from_gives = { λ _ f. f ≡ fault.Memory };

    fn from(_fault: Memory) -> LogFault {
        LogFault::Memory
    }
}

impl From<ReadFault> for LogFault {
    ghost from_gives = { λ e f. (e ≡ read.Read → f ≡ fault.Read) × (e ≡ read.Memory → f ≡ fault.Memory) };

    fn from(fault: ReadFault) -> LogFault {
        match fault {
            ReadFault::Read => LogFault::Read,
            ReadFault::Memory => LogFault::Memory,
        }
    }
}
