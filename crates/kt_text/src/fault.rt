//! Why a text was not read or not written, whatever it says.

ghost use Rattle.std.specs.Prelude.{◌≡◌, if◌then◌else◌};
ghost use Rattle.csv.specs.Reading.{error_kind, is_io};
ghost use Rattle.kt_text.specs.declared.fault.ReadFault.TheVariants as read;
ghost use Rattle.kt_text.specs.declared.fault.WriteFault.TheVariants as write;

use kt_base::Memory;
use thiserror::Error;

/// Why there is no next record.
#[derive(Clone, Copy, Debug, Error)]
pub enum ReadFault {
    /// The reader failed.
    #[error("read fault")]
    Read,
    /// There was no memory for a record.
    #[error("memory")]
    Memory,
}

impl From<csv::Error> for ReadFault {
    ghost from_gives = { λ e f. f ≡ (if is_io (error_kind e) then read.Read else read.Memory) };

    fn from(error: csv::Error) -> ReadFault {
        if error.is_io_error() {
            ReadFault::Read
        } else {
            ReadFault::Memory
        }
    }
}

/// Why a text was not written. Part of it may be.
#[derive(Clone, Copy, Debug, Error)]
pub enum WriteFault {
    /// The writer failed.
    #[error("write fault")]
    Write,
    /// There was no memory for a piece of the text.
    #[error("memory")]
    Memory,
}

impl From<Memory> for WriteFault {
    ghost from_gives = { λ _ f. f ≡ write.Memory };

    fn from(_fault: Memory) -> WriteFault {
        WriteFault::Memory
    }
}
