//! Parts read from their text.

ghost use Rattle.std.specs.Prelude.{◌≡◌, ◌≢◌, ◌<◌, ◌≤◌, ◌^◌, ◌+◌, ℕ, List, [], ◌∷◌, ◌++◌, length, Some, None, Ok, Err, IfOk, IfErr, IfSome, IfNone, OnSome, OnOk, true, false};
ghost use Rattle.csv.specs.Records.{fields_of};
ghost use Rattle.kt_text.specs.Records.{left_in, ReadsOn, FieldsTaken, text_records};
ghost use Rattle.kt_merge.specs.Spelling.{part_spelling};
ghost use Rattle.kt_merge.specs.Texts.{part_width, max_records, IsSpellable, IsPartFaultFrom, IsPartText, IsFirstPartFault, IsOfPartText};
ghost use Rattle.kt_merge.specs.declared.part_fault.PartFault.TheVariants as part_fault;
ghost use Rattle.kt_merge.specs.Progress.{IsMetBy};
ghost use Rattle.kt_merge.specs.Reading.{part_unread, part_records, IsPartUnread, StepsPart};

use crate::part_fault::PartFault;
use crate::part_rows::row_of;
use csv::{ByteRecord, Reader};
use kt_base::{Memory, ProcNo};
use kt_log_text::Record;
use kt_spacetime::ClockedRow;
use kt_text::Capped;
use kt_text::records::{next_record, read_records};
use std::alloc::Global;
use std::io::Read;
use std::marker::Model;

// How many records a part has at most: one more than a log has rows.
const MAX_RECORDS: u32 = 16_777_217;

// How many fields a record of a part has.
const PART_WIDTH: u32 = 6;

#[derive(Clone, Copy)]
enum Progress {
    Reading,
    Ended,
    Failed(PartFault),
}

// The six fields of a record.
#[inline(always)]
fn six_fields(current: &ByteRecord) -> Option<(&[u8], &[u8], &[u8], &[u8], &[u8], &[u8])>
    ensures found { IfSome result (λ f. fields_of current.now
        ≡ f.0.now ∷ f.1.now ∷ f.2.now ∷ f.3.now ∷ f.4.now ∷ f.5.now ∷ []) }
    ensures none { IfNone result (length (fields_of current.now) ≢ 6) }
{
    if current.len() != 6 {
        return None;
    }
    let time = current.get(0)?;
    let word = current.get(1)?;
    let first = current.get(2)?;
    let second = current.get(3)?;
    let third = current.get(4)?;
    let last = current.get(5)?;
    Some((time, word, first, second, third, last))
}

// The row that a record says, after `count` rows.
#[inline(always)]
fn row_in(current: &ByteRecord, count: u32) -> Result<ClockedRow, PartFault>
    requires { count ≤ max_records }
    ensures found { IfOk result (λ row. (fields_of current.now ≡ part_spelling row) × IsSpellable row
        × (count < max_records)) }
    ensures fault { IfErr result (λ e. (p clock : ℕ) (rest : List (List (List ℕ)))
        → IsPartFaultFrom p count clock (fields_of current.now ∷ rest) e) }
    ensures text { IfErr result IsOfPartText }
{
    if count >= MAX_RECORDS {
        return Err(PartFault::TooLong);
    }
    let number = count + 1;
    let Some((time, word, first, second, third, last)) = six_fields(current) else {
        return Err(PartFault::Fields(number));
    };
    match row_of(time, word, first, second, third, last) {
        Ok(row) => Ok(row),
        Err(fault) => Err(fault.at(number)),
    }
}

// The row that a record says, after `count` rows of a process, the last of this clock.
#[inline(always)]
fn own_row_in(
    current: &ByteRecord,
    process: ProcNo,
    count: u32,
    clock: u64,
) -> Result<ClockedRow, PartFault>
    requires { count ≤ max_records }
    ensures found { IfOk result (λ row. (fields_of current.now ≡ part_spelling row) × IsSpellable row
        × (count < max_records) × (clock ≤ row.clock) × (row.row.p ≡ process)) }
    ensures fault { IfErr result (λ e. (rest : List (List (List ℕ)))
        → IsPartFaultFrom process count clock (fields_of current.now ∷ rest) e) }
    ensures text { IfErr result IsOfPartText }
{
    let row = row_in(current, count)?;
    if row.clock < clock {
        return Err(PartFault::Clock(count + 1));
    }
    if row.row.p != process {
        return Err(PartFault::Process(count + 1));
    }
    Ok(row)
}

// The next row, after `count` rows of a process, the last of this clock.
#[inline(always)]
fn read_row<R: Read>(
    records: &mut Reader<R>,
    current: &mut ByteRecord,
    process: ProcNo,
    count: u32,
    clock: u64,
) -> Result<Option<ClockedRow>, PartFault>
    requires reading { ReadsOn records.old }
    requires count { count ≤ max_records }
    ensures row { IfOk result (λ o. IfSome o (λ row. FieldsTaken (left_in R.remaining records.old)
        (left_in R.remaining records.new) (part_spelling row) × IsSpellable row × (count < max_records)
        × (clock ≤ row.clock) × (row.row.p ≡ process))) }
    ensures reading { IfOk result (λ o. OnSome o (ReadsOn records.new)) }
    ensures ended { IfOk result (λ o. IfNone o (IfSome (left_in R.remaining records.old) (λ left. left ≡ []))) }
    ensures fault { IfErr result (λ e. IfSome (left_in R.remaining records.old)
        (λ left. IsPartFaultFrom process count clock left e)) }
    ensures met { IfErr result (IsMetBy records.new) }
{
    if !next_record(records, current)? {
        return Ok(None);
    }
    let row = own_row_in(current, process, count, clock)?;
    Ok(Some(row))
}

/// Reads a part's text row by row, in one pass, with one record's memory.
///
/// After a fault every later call answers the same fault; after the end every later call answers that there is no
/// row.
#[derive(Drop)]
pub struct PartReader<R: Read + Drop> {
    records: Box<Reader<Capped<R>>>,
    current: ByteRecord,
    process: ProcNo,
    count: u32,
    clock: u64,
    progress: Progress,
}

impl<R: Read + Drop> Model for PartReader<R> {
    ghost use Rattle.kt_merge.specs.Reading.{PartRead};

    ghost Value = { PartRead };

    ghost use Rattle.kt_merge.specs.Progress.{part_read, IsPartSetUp};

    ghost view = { part_read R.remaining };

    ghost invariant = { IsPartSetUp };
}

impl<R: Read + Drop> PartReader<R> {
    /// A reader of the part of a process that this reader gives, before its first row.
    pub fn new(alloc: Global, reader: R, process: ProcNo) -> Result<PartReader<R>, Memory>
        ensures { IfOk result (λ r. r ≡ part_unread process (R.remaining reader)) }
    {
        Ok(PartReader {
            records: read_records(alloc, reader, PART_WIDTH)?,
            current: ByteRecord::new(alloc),
            process,
            count: 0,
            clock: 0,
            progress: Progress::Reading,
        })
    }

    /// How many rows it gave, which is the number of the last one's record.
    pub fn count(&self) -> u32
        ensures value { result ≡ self.now.count }
        ensures few { result ≤ max_records }
    {
        self.count
    }

    /// The next row, None at the end of the text, or the first fault.
    #[inline(always)]
    pub fn next(&mut self) -> Result<Option<ClockedRow>, PartFault>
        ensures steps { StepsPart self.old self.new result }
        ensures done { self.old.ended ≡ true → (result ≡ Ok None) × (self.new ≡ self.old) }
        ensures failed { IfSome self.old.fault (λ fault. (result ≡ Err fault) × (self.new ≡ self.old)) }
    {
        match self.progress {
            Progress::Reading => {}
            Progress::Ended => return Ok(None),
            Progress::Failed(fault) => return Err(fault),
        }
        match read_row(
            &mut self.records,
            &mut self.current,
            self.process,
            self.count,
            self.clock,
        ) {
            Ok(Some(row)) => {
                self.count += 1;
                self.clock = row.clock;
                Ok(Some(row))
            }
            Ok(None) => {
                self.progress = Progress::Ended;
                Ok(None)
            }
            Err(fault) => {
                let kept = fault;
                self.progress = Progress::Failed(kept);
                Err(fault)
            }
        }
    }

    /// The record that was read last; `None` where there is no memory for it.
    pub fn record(&self) -> Option<Record> {
        match self.current.clone() {
            Ok(fields) => Some(Record {
                fields,
                end: self.records.position(),
            }),
            Err(_) => None,
        }
    }

    /// The reader underneath.
    pub fn source(&self) -> &R {
        &self.records.get_ref().source
    }
}

/// The rows of a process's part that a reader gives, or the first fault of the text: records in order, and in one record its
/// number of fields, then field by field, then its clock and its process.
pub fn read_part<R: Read + Drop>(
    alloc: Global,
    reader: R,
    process: ProcNo,
) -> Result<Vec<ClockedRow>, PartFault>
    ensures found { IfOk result (λ rows. IfSome (R.remaining reader)
        (λ bytes. IsPartText process (text_records part_width bytes) rows.items)) }
    ensures fault { IfErr result (λ e. IfSome (R.remaining reader)
        (λ bytes. IsFirstPartFault process (text_records part_width bytes) e)) }
{
    let mut part = PartReader::new(alloc, reader, process)?;
    rows_in(alloc, &mut part)
}

// The rows of a part of which none was read. But for memory, its reader has met its fault.
fn rows_in<R: Read + Drop>(
    alloc: Global,
    part: &mut PartReader<R>,
) -> Result<Vec<ClockedRow>, PartFault>
    requires unread { IsPartUnread part.old }
    ensures found { IfOk result (λ rows. IfSome part.old.left (λ text. IsPartText part.old.process text rows.items)) }
    ensures fault { IfErr result (λ e. IfSome part.old.left (λ text. IsFirstPartFault part.old.process text e)) }
    ensures met { IfErr result (λ e. e ≢ part_fault.Memory → part.new.fault ≡ Some e) }
{
    let mut rows = Vec::new(alloc);
    while let Some(row) = part.next()? {
        push_item(&mut rows, row)?;
    }
    Ok(rows)
}

// Adds an item at the end.
fn push_item<T: Drop>(items: &mut Vec<T>, item: T) -> Result<(), Memory>
    ensures { OnOk result (items.new.items ≡ items.old.items ++ item ∷ []) }
{
    items.push(item)?;
    Ok(())
}
