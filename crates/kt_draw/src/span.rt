//! Which rows of a log are drawn, and why there is no picture of them.

ghost use Rattle.std.specs.Prelude.{◌≡◌, ◌≤◌, ◌<◌, ◌^◌, IfOk, IfErr};
ghost use Rattle.kt_log_text.specs.declared.fault.LogFault.TheVariants as log;
ghost use Rattle.kt_draw.specs.declared.span.DrawFault.TheVariants as draw;
ghost use Rattle.kt_draw.specs.Drawn.{HasRows, IsNoWindow, IsShort, first_row, last_row};
ghost use Rattle.kt_draw.specs.Followed.{last_wanted};

use kt_base::Memory;
use kt_log_text::LogFault;
use std::fmt;
use thiserror::Error;

/// How many rows a picture has at most.
const MOST_COLUMNS: usize = 4096;

/// The first and the last row that are to be drawn, by number from 1; where one is missing, the first or the last row that
/// there is.
#[derive(Clone, Copy)]
pub struct Span {
    pub from: Option<u32>,
    pub to: Option<u32>,
}

/// The number of the last row that is drawn of a log with so many rows, of which so many are read.
pub(crate) fn last_drawn(rows: usize, seen: usize, span: Span) -> Result<usize, PictureFault>
    requires { seen ≤ 2 ^ 25 }
    ensures last { IfOk result (λ last. last ≡ last_row seen span.to) }
    ensures rows { IfOk result (λ _. HasRows rows seen span) }
    ensures short { IfOk result (λ _. IsShort seen span) }
    ensures fault { IfErr result (IsNoWindow rows seen span) }
{
    let first = first_row(span.from);
    let last = match span.to {
        Some(to) if to as usize > rows => return Err(PictureFault::NoRows),
        Some(to) => seen.min(to as usize),
        None => seen,
    };
    if first == 0 || last < first {
        return Err(PictureFault::NoRows);
    }
    if last - first >= MOST_COLUMNS {
        return Err(PictureFault::TooLong);
    }
    Ok(last)
}

/// The last row that a picture may show where so many rows come before it.
pub(crate) fn last_wanted(before: usize, to: Option<u32>) -> usize
    requires { before < 2 ^ 32 }
    ensures exact { result ≡ last_wanted before to }
    ensures after { before ≤ result }
{
    let columns = match to {
        Some(to) => (to as usize).saturating_sub(before),
        None => MOST_COLUMNS,
    };
    before + columns.min(MOST_COLUMNS)
}

/// The first row that is drawn.
pub(crate) fn first_row(from: Option<u32>) -> usize
    ensures exact { result ≡ first_row from }
    ensures few { result < 2 ^ 32 }
{
    from.unwrap_or(1) as usize
}

/// Why there is no picture of rows of a log.
#[derive(Clone, Copy, Debug)]
pub enum PictureFault {
    /// There are no such rows: none is asked for, the log does not have them, or they come after one that breaks a rule.
    NoRows,
    /// There are more than 4,096 of them.
    TooLong,
}

impl fmt::Display for PictureFault {
    ghost use Rattle.std.specs.Prelude.{Some};
    ghost use Rattle.kt_draw.specs.Drawn.{picture_fault_text};

    ghost output = { λ fault. Some (picture_fault_text fault) };

    fn fmt<W: fmt::Write>(&self, f: &mut fmt::Formatter<W>) -> fmt::Result {
        match self {
            PictureFault::NoRows => write!(f, "no such rows"),
            PictureFault::TooLong => write!(f, "picture too long"),
        }
    }
}

impl std::error::Error for PictureFault {}

/// Why rows of a stored log were not drawn.
#[derive(Clone, Copy, Debug, Error)]
pub enum DrawFault {
    /// The log's text was refused, or there was no memory.
    #[error(transparent)]
    Log(LogFault),
    /// There is no picture of these rows.
    #[error(transparent)]
    Picture(PictureFault),
}

impl From<Memory> for DrawFault {
    ghost from_gives = { λ _ f. f ≡ draw.Log log.Memory };

    fn from(_fault: Memory) -> DrawFault {
        DrawFault::Log(LogFault::Memory)
    }
}

impl From<LogFault> for DrawFault {
    ghost from_gives = { λ fault f. f ≡ draw.Log fault };

    fn from(fault: LogFault) -> DrawFault {
        DrawFault::Log(fault)
    }
}

impl From<PictureFault> for DrawFault {
    ghost from_gives = { λ fault f. f ≡ draw.Picture fault };

    fn from(fault: PictureFault) -> DrawFault {
        DrawFault::Picture(fault)
    }
}
