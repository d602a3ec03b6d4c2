//! What is told of parts that have no log, in words.

use crate::fault::{MergeFault, RowFault};
use crate::part_fault::PartFault;
use crate::text::Unmerged;
use kt_log_text::Record;
use kt_text::{FieldCount, Place, Shown, field_at, part_form};
use std::fmt;

/// A record of a part, as it was read.
#[derive(Clone, Copy)]
pub(crate) struct ToldRecord {
    place: Place,
    // Where in its text its second field begins and ends, which is its word.
    word: (usize, usize),
    fields: FieldCount,
}

impl ToldRecord {
    /// A record of a file.
    pub(crate) fn of(file: Shown, record: &Record) -> ToldRecord {
        let fields = &record.fields;
        let start = field_at(fields, 0).len().saturating_add(1);
        ToldRecord {
            place: Place::of(file, fields, record.end),
            word: (start, start.saturating_add(field_at(fields, 1).len())),
            fields: FieldCount {
                found: fields.len(),
                expected: 6,
            },
        }
    }
}

/// What is told of a fault of parts.
#[derive(Clone, Copy)]
pub(crate) enum Told {
    Nothing,
    /// The record that is wrong.
    Record(ToldRecord),
    /// The record of a row that names what a later row gives, and that row's.
    Early(Place, Place),
    /// The record of a row that names what no part gives.
    Lost(Place),
    /// The record of a row that names what no row before it gave; which one gives it is not known.
    Named(Place),
}

impl fmt::Display for Unmerged {
    fn fmt<W: fmt::Write>(&self, f: &mut fmt::Formatter<W>) -> fmt::Result {
        match &self.told {
            Told::Nothing => Ok(()),
            Told::Record(record) => write_record(f, &self.fault, record),
            Told::Named(place) => writeln!(f, "  {place}"),
            Told::Lost(place) => writeln!(f, "  {place}\n  no part has a row that gives this name"),
            Told::Early(place, giver) => writeln!(
                f,
                "  {place}\n  {giver}\n  the second row gives the name, and comes later: a row that takes something has a greater clock than the one that gave it"
            ),
        }
    }
}

// Writes a record that is wrong, and what was expected of it.
fn write_record<W: fmt::Write>(
    f: &mut fmt::Formatter<W>,
    fault: &MergeFault,
    record: &ToldRecord,
) -> fmt::Result {
    let form = part_form(record.place.text.part(record.word));
    writeln!(f, "  {}", record.place)?;
    match fault {
        MergeFault::Part(_, PartFault::Fields(_)) => {
            writeln!(f, "  {}\n  {form}", record.fields)
        }
        MergeFault::Part(_, PartFault::Clock(_)) => {
            f.write_str("  the clock is less than that of the record before\n")
        }
        MergeFault::Row(_, _, RowFault::TooManyRows | RowFault::TooManyInstances) => {
            f.write_str("  a log has at most 16777216 rows and 4096 instances\n")
        }
        _ => writeln!(f, "  {form}"),
    }
}
