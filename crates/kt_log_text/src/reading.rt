//! Logs read from their text.

ghost use Rattle.std.specs.Prelude.{◌≡◌, ◌≢◌, ◌⊎◌, ◌<◌, ◌≤◌, ℕ, List, [], ◌∷◌, length, Some, None, Ok, Err, IfOk, IfErr, IfSome, IfNone, OnSome, MatchBool, true, false};
ghost use Rattle.csv.specs.Records.{fields_of};
ghost use Rattle.kt_spacetime.specs.Events.{IsRowInRange};
ghost use Rattle.kt_log_text.specs.Spelling.{spelling, max_rows, IsInFormat};
ghost use Rattle.kt_log_text.specs.Texts.{row_width, header, IsFormatRecord, IsUnmarked, IsOtherVersion, IsRowFault, IsFaultFrom, IsEndedFrom, IsLogText, IsFirstLogFault};
ghost use Rattle.kt_log_text.specs.Reading.{IsUnread, Steps, rows_unread};
ghost use Rattle.kt_text.specs.Records.{left_in, ReadsOn, text_records};
ghost use Rattle.kt_log_text.specs.Progress.{TakesFields, IsFormatOf, IsHeadFault, IsRowCount, ReadsRow};

use crate::fault::LogFault;
use crate::rows::{Format, event_of};
use csv::{ByteRecord, Position, Reader};
use kt_base::{Memory, RowNo};
use kt_spacetime::{Event, SpaceTime};
use kt_text::Capped;
use kt_text::records::{next_record, read_records};
use std::alloc::Global;
use std::io::Read;
use std::marker::Model;

// How many fields a row has.
const ROW_WIDTH: u32 = 4;

#[derive(Clone, Copy)]
enum Progress {
    Reading,
    Ended,
    Failed(LogFault),
}

// The four fields of a record.
#[inline(always)]
fn four_fields(current: &ByteRecord) -> Option<(&[u8], &[u8], &[u8], &[u8])>
    ensures found { IfSome result (λ f. fields_of current.now ≡ f.0.now ∷ f.1.now ∷ f.2.now ∷ f.3.now ∷ []) }
    ensures none { IfNone result (length (fields_of current.now) ≢ 4) }
{
    if current.len() != 4 {
        return None;
    }
    let word = current.get(0)?;
    let first = current.get(1)?;
    let second = current.get(2)?;
    let third = current.get(3)?;
    Some((word, first, second, third))
}

// Whether a record's first field is `kt`.
fn is_marked(current: &ByteRecord) -> bool
    ensures { MatchBool result (IsFormatRecord (fields_of current.now)) (IsUnmarked (fields_of current.now)) }
{
    let Some(word) = current.get(0) else {
        return false;
    };
    if word == b"kt".as_slice() {
        return true;
    }
    false
}

// Whether a record is the one that a text of format 2 begins with.
fn is_header(current: &ByteRecord) -> bool
    ensures { MatchBool result (fields_of current.now ≡ header) (fields_of current.now ≢ header) }
{
    let Some((word, version, second, third)) = four_fields(current) else {
        return false;
    };
    if word == b"kt".as_slice()
        && version == b"2".as_slice()
        && second == b"-".as_slice()
        && third == b"-".as_slice()
    {
        return true;
    }
    false
}

// What the first record of a text says of its format.
fn format_of(current: &ByteRecord) -> Result<Format, LogFault>
    ensures found { IfOk result (λ format. IsFormatOf format (fields_of current.now)) }
    ensures fault { IfErr result (λ e. (e ≡ LogFault.Version) × IsOtherVersion (fields_of current.now)) }
{
    if !is_marked(current) {
        return Ok(Format::One);
    }
    if !is_header(current) {
        return Err(LogFault::Version);
    }
    Ok(Format::Two)
}

// The row that a record says, after `count` rows.
#[inline(always)]
fn row_in(current: &ByteRecord, format: Format, count: u32) -> Result<Event, LogFault>
    requires { count ≤ max_rows format }
    ensures found { IfOk result (λ row. (spelling row ≡ fields_of current.now) × IsRowInRange row
        × IsInFormat format row × (count < max_rows format)) }
    ensures fault { IfErr result (λ e. (rest : List (List (List ℕ)))
        → IsRowFault format count (fields_of current.now ∷ rest) e) }
{
    if count >= format.max_rows() {
        return Err(LogFault::TooLong);
    }
    let row = RowNo::new(count + 1).unwrap();
    let Some((word, first, second, third)) = four_fields(current) else {
        return Err(LogFault::Fields(row));
    };
    match event_of(word, first, second, third, format) {
        Ok(event) => Ok(event),
        Err(fault) => Err(fault.at(row)),
    }
}

// The format of a text, once its first row's record was read; None for a text with no row.
fn begin<R: Read>(
    records: &mut Reader<R>,
    current: &mut ByteRecord,
) -> Result<Option<Format>, LogFault>
    requires { ReadsOn records.old }
    ensures found { IfOk result (λ o. IfSome o (λ format. ReadsOn records.new
        × TakesFields None format (left_in R.remaining records.old) (left_in R.remaining records.new) (fields_of current.new))) }
    ensures ended { IfOk result (λ o. IfNone o (IfSome (left_in R.remaining records.old) (IsEndedFrom None))) }
    ensures fault { IfErr result (λ e. IfSome (left_in R.remaining records.old) (λ left. IsHeadFault left e)) }
{
    if !next_record(records, current)? {
        return Ok(None);
    }
    match format_of(current)? {
        Format::One => Ok(Some(Format::One)),
        Format::Two => {
            if next_record(records, current)? {
                Ok(Some(Format::Two))
            } else {
                Ok(None)
            }
        }
    }
}

// The next row, after `count` rows.
#[inline(always)]
fn read_row<R: Read>(
    records: &mut Reader<R>,
    current: &mut ByteRecord,
    format: &mut Option<Format>,
    count: u32,
) -> Result<Option<Event>, LogFault>
    requires reading { ReadsOn records.old }
    requires count { IsRowCount format.old count }
    ensures row { IfOk result (λ o. IfSome o (λ row. ReadsRow format.old format.new count (left_in R.remaining records.old) (left_in R.remaining records.new) row)) }
    ensures reading { IfOk result (λ o. OnSome o (ReadsOn records.new)) }
    ensures ended { IfOk result (λ o. IfNone o (IfSome (left_in R.remaining records.old) (IsEndedFrom format.old))) }
    ensures fault { IfErr result (λ e. IfSome (left_in R.remaining records.old) (λ left. IsFaultFrom format.old count left e)) }
    ensures count { IsRowCount format.new count }
{
    let found = match *format {
        Some(found) => {
            if !next_record(records, current)? {
                return Ok(None);
            }
            found
        }
        None => {
            let Some(found) = begin(records, current)? else {
                return Ok(None);
            };
            *format = Some(found);
            found
        }
    };
    let event = row_in(current, found, count)?;
    Ok(Some(event))
}

/// A record of a text, as it was read.
#[derive(Drop)]
pub struct Record {
    /// Its fields, and where it begins.
    pub fields: ByteRecord,
    /// Where it ends.
    pub end: Position,
}

/// Reads a log's text row by row, in one pass, with one record's memory.
///
/// After a fault every later call answers the same fault; after the end every later call answers that there is no
/// row.
#[derive(Drop)]
pub struct RowReader<R: Read + Drop> {
    records: Box<Reader<Capped<R>>>,
    current: ByteRecord,
    // None before the first record was read.
    format: Option<Format>,
    count: u32,
    progress: Progress,
}

impl<R: Read + Drop> Model for RowReader<R> {
    ghost use Rattle.kt_log_text.specs.Reading.{RowsRead};

    ghost Value = { RowsRead };

    ghost use Rattle.kt_log_text.specs.Progress.{rows_read, IsSetUp};

    ghost view = { rows_read R.remaining };

    ghost invariant = { IsSetUp };
}

impl<R: Read + Drop> RowReader<R> {
    /// A reader of the log that this reader gives, before its first row.
    pub fn new(alloc: Global, reader: R) -> Result<RowReader<R>, Memory>
        ensures { IfOk result (λ r. r ≡ rows_unread (R.remaining reader)) }
    {
        Ok(RowReader {
            records: read_records(alloc, reader, ROW_WIDTH)?,
            current: ByteRecord::new(alloc),
            format: None,
            count: 0,
            progress: Progress::Reading,
        })
    }

    /// The next row, None at the end of the text, or the first fault.
    #[inline(always)]
    pub fn next(&mut self) -> Result<Option<Event>, LogFault>
        ensures steps { Steps self.old self.new result }
        ensures done { self.old.ended ≡ true → (result ≡ Ok None) × (self.new ≡ self.old) }
        ensures failed { IfSome self.old.fault (λ fault. (result ≡ Err fault) × (self.new ≡ self.old)) }
    {
        match self.progress {
            Progress::Reading => {}
            Progress::Ended => return Ok(None),
            Progress::Failed(fault) => return Err(fault),
        }
        match read_row(
            &mut self.records,
            &mut self.current,
            &mut self.format,
            self.count,
        ) {
            Ok(Some(event)) => {
                self.count += 1;
                Ok(Some(event))
            }
            Ok(None) => {
                self.progress = Progress::Ended;
                Ok(None)
            }
            Err(fault) => {
                let kept = fault;
                self.progress = Progress::Failed(kept);
                Err(fault)
            }
        }
    }

    /// The record that was read last; `None` where there is no memory for it.
    pub fn record(&self) -> Option<Record> {
        match self.current.clone() {
            Ok(fields) => Some(Record {
                fields,
                end: self.records.position(),
            }),
            Err(_) => None,
        }
    }

    /// The reader underneath.
    pub fn source(&self) -> &R {
        &self.records.get_ref().source
    }
}

/// The log of the rows that a reader gives, before its first row.
///
/// Answers the first fault of the text: rows in order, and in one row its number of fields, then field by field. The record
/// at which it was met stays with the reader.
pub fn read_rows<R: Read + Drop>(
    alloc: Global,
    rows: &mut RowReader<R>,
) -> Result<SpaceTime, LogFault>
    requires unread { IsUnread rows.old }
    ensures found { IfOk result (λ log. IfSome rows.old.left (λ text. IsLogText text log.rows)) }
    ensures fault { IfErr result (λ e. IfSome rows.old.left (λ text. IsFirstLogFault text e)) }
{
    let mut log = SpaceTime::new(alloc);
    while let Some(event) = rows.next()? {
        log.reserve(1)?;
        log.push_reserved(event);
    }
    Ok(log)
}

/// The log of a text, in format 1 or 2, as `read_rows` gives it of a reader of its rows.
pub fn read_csv<R: Read + Drop>(alloc: Global, reader: R) -> Result<SpaceTime, LogFault>
    ensures found { IfOk result (λ log. IfSome (R.remaining reader)
        (λ bytes. IsLogText (text_records row_width bytes) log.rows)) }
    ensures fault { IfErr result (λ e. IfSome (R.remaining reader)
        (λ bytes. IsFirstLogFault (text_records row_width bytes) e)) }
{
    let mut rows = RowReader::new(alloc, reader)?;
    read_rows(alloc, &mut rows)
}
