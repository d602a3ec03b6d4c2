//! Texts gathered and written piece by piece, so that memory for writing does not grow with the text.

ghost use Rattle.std.specs.Prelude.{◌≡◌, ◌≤◌, [], ◌∷◌, ◌++◌, length, take, IfOk, OnOk, OnErr};
ghost use Rattle.std.specs.Fmt.{decimal};
ghost use Rattle.std.specs.Io.KnownBytes.{Appends};
ghost use Rattle.kt_text.specs.Writing.{Sends, WritesFront};

use crate::fault::WriteFault;
use kt_base::Memory;
use std::alloc::Global;
use std::io::{ErrorKind, Write};

// A text goes out once this many bytes of it are gathered.
const PIECE: usize = 32_768;

// Most of what is gathered at once has no more bytes than this.
const SPARE: usize = 4_096;

/// A text of which nothing is gathered, with room for what is gathered before it goes out.
pub fn new_text(alloc: Global) -> Result<Vec<u8>, Memory>
    ensures { IfOk result (λ text. text.items ≡ []) }
{
    Ok(Vec::with_capacity(alloc, PIECE + SPARE)?)
}

/// Writes what is gathered, if it is 32 KiB or more; at a fault, a front part of it.
pub fn write_full<W: Write>(text: &mut Vec<u8>, writer: &mut W) -> Result<(), WriteFault>
    ensures sent { OnOk result (Sends (W.contents writer.old) (W.contents writer.new) text.old.items text.new.items []) }
    ensures stopped { OnErr result (WritesFront (W.contents writer.old) (W.contents writer.new)
        text.old.items) }
{
    if text.len() < PIECE {
        return Ok(());
    }
    write_piece(text, writer)
}

/// Writes what is gathered, and flushes the writer; at a fault, a front part of it is written.
pub fn write_rest<W: Write>(text: &mut Vec<u8>, writer: &mut W) -> Result<(), WriteFault>
    ensures written { OnOk result (Appends (W.contents writer.old) (W.contents writer.new) text.old.items) }
    ensures stopped { OnErr result (WritesFront (W.contents writer.old) (W.contents writer.new)
        text.old.items) }
{
    write_whole(text.as_slice(), writer)?;
    text.clear();
    Ok(())
}

/// Writes a text, and flushes the writer; at a fault, a front part of it is written.
pub fn write_whole<W: Write>(text: &[u8], writer: &mut W) -> Result<(), WriteFault>
    ensures written { OnOk result (Appends (W.contents writer.old) (W.contents writer.new) text.now) }
    ensures stopped { OnErr result (WritesFront (W.contents writer.old) (W.contents writer.new)
        text.now) }
{
    write_bytes(text, writer)?;
    match writer.flush() {
        Ok(()) => Ok(()),
        Err(_) => Err(WriteFault::Write),
    }
}

// Writes what is gathered, so that nothing is.
fn write_piece<W: Write>(text: &mut Vec<u8>, writer: &mut W) -> Result<(), WriteFault>
    ensures written { OnOk result (Appends (W.contents writer.old) (W.contents writer.new) text.old.items) }
    ensures taken { OnOk result (text.new.items ≡ []) }
    ensures stopped { OnErr result (WritesFront (W.contents writer.old) (W.contents writer.new)
        text.old.items) }
{
    write_bytes(text.as_slice(), writer)?;
    text.clear();
    Ok(())
}

// Writes these bytes; at a fault, a front part of them, which `write_all` does not promise.
fn write_bytes<W: Write>(bytes: &[u8], writer: &mut W) -> Result<(), WriteFault>
    ensures written { OnOk result (Appends (W.contents writer.old) (W.contents writer.new) bytes.now) }
    ensures stopped { OnErr result (WritesFront (W.contents writer.old) (W.contents writer.new)
        bytes.now) }
{
    let mut rest = bytes;
    for _ in 0..u64::MAX {
        if rest.is_empty() {
            return Ok(());
        }
        let count = write_some(rest, writer)?;
        rest = &rest[count..];
    }
    Err(WriteFault::Write)
}

// Writes some of these bytes in one call, and answers how many: none where the call was interrupted.
fn write_some<W: Write>(bytes: &[u8], writer: &mut W) -> Result<usize, WriteFault>
    ensures count { IfOk result (λ count. count ≤ length bytes.now) }
    ensures written { IfOk result (λ count. Appends (W.contents writer.old) (W.contents writer.new)
        (take count bytes.now)) }
    ensures stopped { OnErr result (Appends (W.contents writer.old) (W.contents writer.new) []) }
{
    match writer.write(bytes) {
        Ok(0) => Err(WriteFault::Write),
        Ok(count) => Ok(count),
        Err(error) if error.kind() == ErrorKind::Interrupted => Ok(0),
        Err(_) => Err(WriteFault::Write),
    }
}

/// Gathers a comma and a field.
pub fn push_field(text: &mut Vec<u8>, field: &[u8]) -> Result<(), Memory>
    ensures { OnOk result (text.new.items ≡ text.old.items ++ 44 ∷ field.now) }
{
    text.extend_from_slice(b",")?;
    text.extend_from_slice(field)?;
    Ok(())
}

// No number below 2^32 has more digits.
const DIGITS: usize = 16;

/// Gathers a mark and a number by its decimal digits.
#[inline(always)]
pub fn push_number(text: &mut Vec<u8>, mark: u8, number: u32) -> Result<(), Memory>
    ensures { OnOk result (text.new.items ≡ text.old.items ++ mark ∷ decimal number) }
{
    let mut bytes = [0; 2 * DIGITS];
    let start = itoa::write_digits(u64::from(number), &mut bytes, DIGITS) - 1;
    bytes[start] = mark;
    // So many bytes as are known beforehand are copied without a call; those after the number are taken off again.
    text.extend_from_slice(&bytes[start..start + DIGITS])?;
    text.truncate(text.len() - start);
    Ok(())
}
