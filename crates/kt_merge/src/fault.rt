//! Why parts were not merged.

ghost use Rattle.std.specs.Prelude.{◌≡◌};
ghost use Rattle.kt_text.specs.declared.fault.WriteFault.TheVariants as write;
ghost use Rattle.kt_merge.specs.declared.fault.MergeFault.TheVariants as merge;

use crate::part_fault::PartFault;
use kt_base::{Memory, ProcNo};
use kt_text::WriteFault;
use std::error::Error;
use std::fmt;

/// What is wrong with a row whose text is right.
#[derive(Clone, Copy, Debug)]
pub enum RowFault {
    /// The name that it gives is not the next one of its process.
    Name,
    /// It names a message that no row before it sent.
    NotSent,
    /// It names an instance that no row before it began.
    NotBegun,
    /// It would be row 2^24 + 1 of the log.
    TooManyRows,
    /// It begins instance 4,097.
    TooManyInstances,
}

impl fmt::Display for RowFault {
    ghost use Rattle.std.specs.Prelude.{Some};
    ghost use Rattle.kt_merge.specs.FaultTexts.{row_fault_words};

    ghost output = { λ fault. Some (row_fault_words fault) };

    fn fmt<W: fmt::Write>(&self, f: &mut fmt::Formatter<W>) -> fmt::Result {
        match self {
            RowFault::Name => write!(f, "name"),
            RowFault::NotSent => write!(f, "not sent"),
            RowFault::NotBegun => write!(f, "not begun"),
            RowFault::TooManyRows => write!(f, "too many rows"),
            RowFault::TooManyInstances => write!(f, "too many instances"),
        }
    }
}

/// Why parts were not merged: the first thing wrong in the order of the merged log, with its part.
///
/// A record whose text is wrong has no place in that order: it is met once the row before it in its part was taken.
#[derive(Clone, Copy, Debug)]
pub enum MergeFault {
    /// The writer failed.
    Write,
    /// There was no memory for a piece of the text, or for a number.
    Memory,
    /// The part of a process has a fault of its own.
    Part(ProcNo, PartFault),
    /// The row of a process in this record, counted from 1.
    Row(ProcNo, u32, RowFault),
}

impl fmt::Display for MergeFault {
    ghost use Rattle.std.specs.Prelude.{Some};
    ghost use Rattle.kt_merge.specs.FaultTexts.{merge_fault_text};

    ghost output = { λ fault. Some (merge_fault_text fault) };

    fn fmt<W: fmt::Write>(&self, f: &mut fmt::Formatter<W>) -> fmt::Result {
        match self {
            MergeFault::Write => write!(f, "write fault"),
            MergeFault::Memory => write!(f, "memory"),
            MergeFault::Part(part, fault) => write!(f, "part {part} {fault}"),
            MergeFault::Row(part, number, fault) => {
                write!(f, "part {part} record {number}: {fault}")
            }
        }
    }
}

impl Error for MergeFault {}

impl From<Memory> for MergeFault {
    ghost from_gives = { λ _ f. f ≡ merge.Memory };

    fn from(_fault: Memory) -> MergeFault {
        MergeFault::Memory
    }
}

impl From<WriteFault> for MergeFault {
    ghost from_gives = { λ e f. (e ≡ write.Write → f ≡ merge.Write) × (e ≡ write.Memory → f ≡ merge.Memory) };

    fn from(fault: WriteFault) -> MergeFault {
        match fault {
            WriteFault::Write => MergeFault::Write,
            WriteFault::Memory => MergeFault::Memory,
        }
    }
}
