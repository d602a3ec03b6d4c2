//! Texts that are read and written again, also where a reader or a writer fails.

use crate::failing::{FailingReader, FailingWriter};
use crate::faults::refused;
use crate::merging::{BYTES_OF_PARTS, merge};
use kt_base::ProcNo;
use kt_certify::{StreamFault, certify, certify_stream};
use kt_chain::{CertTextFault, read_certs, write_certs};
use kt_log_text::{LogFault, read_csv, write_csv};
use kt_merge::{MergeFault, PartFault, read_part, write_part};
use kt_plan::Plan;
use kt_report::report;
use std::alloc::Global;
use std::fmt::{Debug, Display};
use std::io;
use std::io::Write;

// From how many bytes on a text is read and written in whole pieces, and from how many on it is only read.
const MANY: usize = 2_000;

const MOST: usize = 200_000;

/// What is written of a text: the log that it says, certificates, the report of a log as of a run of a plan, the part of a
/// process, or the log of parts.
#[derive(Clone, Copy)]
pub(crate) enum Form<'a> {
    Log,
    Certificates,
    Report(&'a Plan),
    Part(ProcNo),
    Parts,
}

/// A text, and what is written of it.
#[derive(Clone, Copy)]
pub(crate) struct Text<'a> {
    pub(crate) form: Form<'a>,
    pub(crate) bytes: &'a [u8],
}

// Each of the next four reads a text and writes it again; whether it is written.
fn write_log<W: Write>(alloc: Global, bytes: &[u8], writer: &mut W) -> bool {
    match read_csv(alloc, bytes) {
        Ok(log) => write_csv(alloc, &log, writer).is_ok(),
        Err(_) => false,
    }
}

fn write_certificates<W: Write>(alloc: Global, bytes: &[u8], writer: &mut W) -> bool {
    match read_certs(alloc, bytes) {
        Ok(list) => write_certs(alloc, list.as_slice(), writer).is_ok(),
        Err(_) => false,
    }
}

fn write_report<W: Write>(alloc: Global, plan: &Plan, bytes: &[u8], writer: &mut W) -> bool {
    let Ok(log) = read_csv(alloc, bytes) else {
        return false;
    };
    match certify(alloc, &log) {
        Ok(list) => report(alloc, plan, &log, list.as_slice(), writer).is_ok(),
        Err(_) => false,
    }
}

fn write_rows<W: Write>(alloc: Global, p: ProcNo, bytes: &[u8], writer: &mut W) -> bool {
    match read_part(alloc, bytes, p) {
        Ok(rows) => write_part(alloc, rows.as_slice(), writer).is_ok(),
        Err(_) => false,
    }
}

impl Text<'_> {
    // How many bytes are given or taken a call.
    fn bytes_a_call(&self) -> usize {
        match self.form {
            Form::Part(_) | Form::Parts => BYTES_OF_PARTS,
            _ if self.bytes.len() < MANY => 1,
            _ => MOST,
        }
    }

    // Reads the text and writes what it says; whether it is written.
    fn write_again<W: Write>(&self, alloc: Global, writer: &mut W) -> bool {
        match self.form {
            Form::Log => write_log(alloc, self.bytes, writer),
            Form::Certificates => write_certificates(alloc, self.bytes, writer),
            Form::Report(plan) => write_report(alloc, plan, self.bytes, writer),
            Form::Part(p) => write_rows(alloc, p, self.bytes, writer),
            Form::Parts => merge(alloc, self.bytes, usize::MAX, writer).is_ok(),
        }
    }

    // Whether it is a read fault where a reader fails at this call, of parts the reader of each.
    fn is_read_fault(&self, alloc: Global, call: usize) -> bool {
        let reader = FailingReader::new(self.bytes, self.bytes_a_call(), call);
        match self.form {
            Form::Log => read_csv(alloc, reader).err() == Some(LogFault::Read),
            Form::Certificates => read_certs(alloc, reader).err() == Some(CertTextFault::Read),
            Form::Report(_) => {
                certify_stream(alloc, reader).err() == Some(StreamFault::Log(LogFault::Read))
            }
            Form::Part(p) => matches!(read_part(alloc, reader, p), Err(PartFault::Read)),
            Form::Parts => matches!(
                merge(alloc, self.bytes, call, &mut Vec::new(alloc)),
                Err(MergeFault::Part(_, PartFault::Read))
            ),
        }
    }

    /// At how many calls in turn a reader may fail: each is a read fault.
    pub(crate) fn count_read_faults(&self, alloc: Global) -> usize {
        for call in 0..usize::MAX {
            if !self.is_read_fault(alloc, call) {
                return call;
            }
        }
        usize::MAX
    }

    // Whether a writer that fails at this call has no more then than a beginning of the whole.
    fn is_write_fault(&self, alloc: Global, whole: &[u8], call: usize) -> bool {
        let mut writer = FailingWriter::new(Vec::new(alloc), self.bytes_a_call(), call);
        !self.write_again(alloc, &mut writer) && whole.starts_with(writer.held())
    }

    // At how many calls in turn a writer may fail.
    fn count_write_faults(&self, alloc: Global, whole: &[u8]) -> usize {
        for call in 0..usize::MAX {
            if !self.is_write_fault(alloc, whole, call) {
                return call;
            }
        }
        usize::MAX
    }
}

// Shows at how many calls a reader and a writer of a text may fail, and what is written of it, if that is not what is
// expected.
fn show_whole<R: Print + AllocGlobal>(
    rt: &R,
    text: &Text,
    whole: &[u8],
    expected: &[u8],
) -> io::Result<()> {
    let reads = text.count_read_faults(rt.alloc());
    let writes = text.count_write_faults(rt.alloc(), whole);
    if whole == expected {
        return println!(rt; "  written as it stands; {reads} reads and {writes} writes may fail");
    }
    println!(rt; "  {reads} reads and {writes} writes may fail; written:")?;
    io::writer(rt).write_all(whole)
}

/// Shows what is written of a text, and at how many calls a reader and a writer may fail.
pub(crate) fn show_written<R: Print + AllocGlobal>(
    rt: &R,
    text: &Text,
    expected: &[u8],
) -> io::Result<()> {
    let mut whole = Vec::new(rt.alloc());
    if text.write_again(rt.alloc(), &mut whole) {
        show_whole(rt, text, whole.as_slice(), expected)
    } else {
        refused()
    }
}

/// Shows how much is read of a text, or why nothing is.
pub(crate) fn show_count<R: Print, C: Debug + Drop, F: Display + Drop>(
    rt: &R,
    title: &str,
    what: &str,
    count: Result<C, F>,
) -> io::Result<()> {
    match count {
        Ok(count) => println!(rt; "{title}: {count:?} {what}"),
        Err(fault) => println!(rt; "{title}: {fault}"),
    }
}

/// The same of the rows of a log or of certificates, and what is written of them, where the text is not too long.
pub(crate) fn show_text<R: Print + AllocGlobal, F: Display + Drop>(
    rt: &R,
    title: &str,
    text: &Text,
    count: Result<usize, F>,
) -> io::Result<()> {
    let what = match text.form {
        Form::Certificates => "certificates",
        _ => "rows",
    };
    let is_written = count.is_ok() && text.bytes.len() <= MOST;
    show_count(rt, title, what, count)?;
    if is_written {
        show_written(rt, text, text.bytes)
    } else {
        Ok(())
    }
}
