//! What is merged of stored parts, and the line of a fault.

ghost use Rattle.std.specs.Prelude.{◌≤◌, length, IfOk};
ghost use Rattle.kt_merge.specs.Merging.{ArePartsUnread};

use crate::cases::{Case, next_piece};
use crate::failing::FailingReader;
use crate::faults::refused;
use crate::texts::{Form, Text, show_written};
use kt_base::ProcNo;
use kt_merge::{Giver, MergeFault, Parts, merge_parts};
use std::alloc::Global;
use std::io;
use std::io::Write;

/// How many bytes of a part, and of a log that is merged, are given and taken a call.
pub(crate) const BYTES_OF_PARTS: usize = 30;

// The parts that these pieces are, at most 64; each reader fails at this call.
fn parts_of(
    alloc: Global,
    pieces: &[u8],
    fails_at: usize,
) -> Result<Parts<FailingReader<'_>>, MergeFault>
    ensures { IfOk result (λ parts. ArePartsUnread parts × (length parts ≤ 64)) }
{
    let mut parts = Parts::new(alloc);
    let mut left = pieces;
    for _ in 0..64 {
        if parts.count() >= 64 {
            break;
        }
        let Some((piece, behind)) = next_piece(left) else {
            break;
        };
        parts.push(alloc, FailingReader::new(piece, BYTES_OF_PARTS, fails_at))?;
        left = behind;
    }
    Ok(parts)
}

/// Merges the parts of these pieces, each of whose readers fails at this call.
pub(crate) fn merge<W: Write>(
    alloc: Global,
    pieces: &[u8],
    fails_at: usize,
    writer: &mut W,
) -> Result<(), MergeFault> {
    let mut parts = parts_of(alloc, pieces, fails_at)?;
    merge_parts(alloc, &mut parts, writer)
}

/// Shows whether the log of stored parts is the stored one, and each part is written as it was read.
pub(crate) fn show_merged<R: Print + AllocGlobal>(rt: &R, case: &Case) -> io::Result<()> {
    println!(rt; "{}", case.title)?;
    let Some((stored, bytes)) = next_piece(case.text) else {
        return refused();
    };
    let form = Form::Parts;
    show_written(rt, &Text { form, bytes }, stored)?;
    let mut left = bytes;
    for number in 0..ProcNo::COUNT {
        let Some((bytes, behind)) = next_piece(left) else {
            return Ok(());
        };
        let form = Form::Part(ProcNo::nth(number));
        show_written(rt, &Text { form, bytes }, bytes)?;
        left = behind;
    }
    Ok(())
}

// Which row gives the name for which a merge stopped, if it stopped for one.
fn giver_of(alloc: Global, parts: &mut Parts<FailingReader>) -> io::Result<String> {
    match parts.giver() {
        Giver::Last(p) => {
            let count = parts.reader(p).map_or(0, |reader| reader.count());
            Ok(format!(in alloc; ", part {p} record {count} gives it")?)
        }
        Giver::Nowhere => Ok(String::from_str(alloc, ", no part gives it")?),
        Giver::Unknown => Ok(String::new(alloc)),
    }
}

// Merges parts, and shows the fault that is met, and how much was written before.
fn show_stop<R: Print + AllocGlobal>(
    rt: &R,
    title: &str,
    parts: &mut Parts<FailingReader>,
) -> io::Result<()>
    requires unread { ArePartsUnread parts.old }
    requires few { length parts.old ≤ 64 }
{
    let mut log = Vec::new(rt.alloc());
    let merged = merge_parts(rt.alloc(), parts, &mut log);
    let giver = giver_of(rt.alloc(), parts)?;
    let bytes = log.len();
    match merged {
        Ok(()) => println!(rt; "{title}: {bytes} bytes are written"),
        Err(fault) => println!(rt; "{title}: {fault}{giver}; {bytes} bytes are written"),
    }
}

/// Shows the fault that is met in stored parts.
pub(crate) fn show_merge_fault<R: Print + AllocGlobal>(rt: &R, case: &Case) -> io::Result<()> {
    let Ok(mut parts) = parts_of(rt.alloc(), case.text, usize::MAX) else {
        return refused();
    };
    show_stop(rt, case.title, &mut parts)
}
