//! The records of a text, one after another, as `csv` gives them.

ghost use Rattle.std.specs.Prelude.{◌≡◌, ◌<◌, [], true, false, option_map, IfOk, IfSome, OnErr};
ghost use Rattle.csv.specs.Reading.{has_failed};
ghost use Rattle.csv.specs.Records.{fields_of};
ghost use Rattle.kt_text.specs.Capped.{capped_left};
ghost use Rattle.kt_text.specs.Records.{ReadsOn, FieldsTaken, left_in, text_records};

use crate::capped::Capped;
use crate::fault::ReadFault;
use csv::{ByteRecord, Reader, ReaderBuilder};
use kt_base::Memory;
use std::alloc::Global;
use std::io::Read;

/// What reads the records of the text that this reader gives, up to the comma with which a record has more fields than
/// `width`; a byte order mark at its start says nothing.
///
/// It holds a buffer of 8 KiB: it is boxed, and made in a frame of its own, so that a caller's frame stays small.
#[inline(never)]
pub fn read_records<R: Read + Drop>(
    alloc: Global,
    reader: R,
    width: u32,
) -> Result<Box<Reader<Capped<R>>>, Memory>
    requires { 0 < width }
    ensures reads_on { IfOk result (λ r. ReadsOn r.value) }
    ensures text { IfOk result (λ r. left_in (capped_left R.remaining) r.value
        ≡ option_map (text_records width) (R.remaining reader)) }
{
    let records = ReaderBuilder::new()
        .has_headers(false)
        .flexible(true)
        .from_reader(alloc, Capped::new(reader, width));
    Ok(Box::new(alloc, records)?)
}

/// The next record into `current`, and whether there was one.
pub fn next_record<R: Read>(
    records: &mut Reader<R>,
    current: &mut ByteRecord,
) -> Result<bool, ReadFault>
    requires { ReadsOn records.old }
    ensures found { IfOk result (λ found. found ≡ true → ReadsOn records.new
        × FieldsTaken (left_in R.remaining records.old) (left_in R.remaining records.new) (fields_of current.new)) }
    ensures ended { IfOk result (λ found. found ≡ false
        → IfSome (left_in R.remaining records.old) (λ left. left ≡ [])) }
    // The reader underneath failed then, or memory.
    ensures failed { OnErr result (has_failed records.new ≡ true) }
{
    let found = records.read_byte_record(current)?;
    Ok(found)
}
