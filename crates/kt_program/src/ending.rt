//! How the program ends: its exit status, and its fault line.

ghost use Rattle.std.specs.Prelude.{◌≡◌, OnOk, OnErr, IfSome};
ghost use Rattle.std.specs.Io.KnownBytes.{Appends};
ghost use Rattle.kt_text.specs.Writing.{WritesFront};
ghost use Rattle.kt_program.specs.Status.{done_status, ended_status, status_of};
ghost use Rattle.kt_program.specs.Faults.{fault_line};

use crate::fault::{Failure, ProgramFault};
use arrayvec::ArrayString;
use kt_text::WriteFault;
use kt_text::pieces::write_whole;
use std::fmt::{Display, Write as WriteText};
use std::io::Write;

/// How many bytes the line of a fault has at most.
const MAX_LINE: usize = 128;

/// What the program did.
#[derive(Clone, Copy)]
pub enum Done {
    /// It wrote the answer to a stored log; true for a yes.
    Judged(bool),
    /// It played a run and wrote its report.
    Played,
    /// It wrote the certificates of a stored log.
    Certified,
    /// It drew a stored log.
    Drawn,
    /// It wrote the log of parts.
    Merged,
    /// It wrote the help or the version that was asked for.
    Shown,
}

impl Done {
    /// The program's exit status: 0 done or yes, 1 no.
    pub fn status(self) -> u8
        ensures { result ≡ done_status self }
    {
        match self {
            Done::Judged(passed) => u8::from(!passed),
            Done::Played | Done::Certified | Done::Drawn | Done::Merged | Done::Shown => 0,
        }
    }
}

/// Ends the program: writes the line of a fault, and gives the exit status, whether the line could be written or not.
pub fn end<E: Write>(outcome: Result<Done, ProgramFault>, err: &mut E) -> u8
    ensures status { result ≡ status_of outcome }
    ensures quiet { OnOk outcome (E.contents err.new ≡ E.contents err.old) }
{
    match outcome {
        Ok(done) => end_told(false, Ok(done), err),
        Err(fault) => end_told(false, Err(Failure::from(fault)), err),
    }
}

/// Ends the program as `end` does, and writes below the line of a fault what is told of it, where that is asked.
pub(crate) fn end_told<E: Write>(asked: bool, outcome: Result<Done, Failure>, err: &mut E) -> u8
    ensures status { result ≡ ended_status outcome }
    ensures quiet { OnOk outcome (E.contents err.new ≡ E.contents err.old) }
{
    match outcome {
        Ok(done) => done.status(),
        Err(failure) => {
            if write_fault(err, failure.fault).is_ok() && asked {
                let _ = write!(err, "{failure}");
                let _ = err.flush();
            }
            failure.fault.status()
        }
    }
}

/// Writes the line of a fault: the program's name, the fault's words and a line feed. At a fault of the writer a front part of
/// it is written; a line of more than 128 bytes is none that there is room for, and nothing of it is written.
pub fn write_fault<W: Write, D: Display + Drop>(writer: &mut W, words: D) -> Result<(), WriteFault>
    ensures written { OnOk result (IfSome (D.output words)
        (λ text. Appends (W.contents writer.old) (W.contents writer.new) (fault_line text))) }
    ensures stopped { OnErr result (IfSome (D.output words)
        (λ text. WritesFront (W.contents writer.old) (W.contents writer.new) (fault_line text))) }
{
    let Some(line) = whole_line(words) else {
        return Err(WriteFault::Memory);
    };
    write_whole(line.as_bytes(), writer)
}

// The line of a fault with these words; None where it is longer than there is room for.
fn whole_line<D: Display + Drop>(words: D) -> Option<ArrayString<MAX_LINE>>
    ensures { IfSome result (λ line. IfSome (D.output words) (λ text. line.bytes ≡ fault_line text)) }
{
    let mut line = ArrayString::new();
    match writeln!(line, "koo_toueg: {words}") {
        Ok(()) => Some(line),
        Err(_) => None,
    }
}
