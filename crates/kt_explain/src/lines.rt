//! The lines of what is told of an answer.

ghost use Rattle.std.specs.Prelude.{◌≡◌, ◌≤◌, ◌+◌, All, IfSome, IsTrue, length, take};
ghost use Rattle.kt_chain.specs.Spelling.{HasShortChains, certificate_records, records_of};

use crate::compared::{Compared, Differs};
use crate::explanation::Explanation;
use kt_base::{Memory, RowNo};
use kt_chain::write_certs;
use kt_log_text::push_fields;
use kt_spacetime::{Certificate, Event, SpaceTime};
use std::alloc::Global;
use std::fmt;

/// A file by its name, and on which lines of it, from 1, its records begin.
#[derive(Clone, Copy)]
pub struct Lines<'a> {
    pub name: &'a str,
    /// How many records it has.
    pub count: usize,
    /// Of each run of records that stand on lines next to one another the number of the first, from 0, and its line.
    pub runs: &'a [(usize, u64)],
}

/// What is told of an answer, as lines: the row that it names and where it stands, the facts, and the records that differ.
#[derive(Drop)]
pub struct Told<'a> {
    pub alloc: Global,
    pub log: &'a SpaceTime,
    pub certificates: &'a [Certificate],
    /// The row that the answer names.
    pub row: Option<RowNo>,
    pub explanation: &'a Explanation,
    /// The file of the log, of which the last records are the rows.
    pub rows: Lines<'a>,
    /// The file of the certificates.
    pub records: Lines<'a>,
}

impl fmt::Display for Told<'_> {
    fn fmt<W: fmt::Write>(&self, f: &mut fmt::Formatter<W>) -> fmt::Result {
        if let Some(number) = self.row {
            write_row(f, self.alloc, self.log.rows(), &self.rows, number)?;
        }
        write!(f, "{}", self.explanation)?;
        match self.explanation {
            Explanation::Compared(told) => write_records(
                f,
                self.alloc,
                self.certificates,
                &self.records,
                told,
            ),
            _ => Ok(()),
        }
    }
}

// Writes the row of this number, and where it stands.
fn write_row<W: fmt::Write>(
    f: &mut fmt::Formatter<W>,
    alloc: Global,
    rows: &[Event],
    lines: &Lines,
    number: RowNo,
) -> fmt::Result {
    let before = number.get() as usize - 1;
    let Some(row) = rows.get(before) else {
        return Ok(());
    };
    let mut text = Vec::new(alloc);
    if push_fields(&mut text, *row).is_err() {
        return Err(fmt::Error);
    }
    let Ok(row) = String::from_utf8_lossy(alloc, text.as_slice()) else {
        return Err(fmt::Error);
    };
    let others = lines.count.saturating_sub(rows.len());
    let (file, line) = (lines.name, line_of(lines, others + before));
    if line == u64::from(number.get()) {
        writeln!(f, "{file}:{line}: {row}")
    } else {
        writeln!(f, "{file}:{line}: {row} (row {number})")
    }
}

// The line of the record after so many others.
fn line_of(lines: &Lines, before: usize) -> u64 {
    let mut line = 0;
    for (first, start) in lines.runs {
        if *first <= before {
            line = start.saturating_add((before - *first) as u64);
        }
    }
    line
}

// Writes the records of an instance that differ: what the certificates have, and what the log means.
fn write_records<W: fmt::Write>(
    f: &mut fmt::Formatter<W>,
    alloc: Global,
    certificates: &[Certificate],
    lines: &Lines,
    told: &Compared,
) -> fmt::Result {
    let inst = told.inst;
    let (has, place) = match told.differs {
        Differs::Record(place, _) => (told.has, place),
        Differs::Second(second) => (Some(second), 0),
    };
    let here = record_text(alloc, certificates, has, place);
    let there = record_text(alloc, told.meant.as_slice(), told.means, place);
    let (Ok(here), Ok(there)) = (here, there) else {
        return Err(fmt::Error);
    };
    let number = match has {
        Some(index) if index < certificates.len() => record_number(certificates, index, place),
        _ => None,
    };
    match (here, number) {
        (Some(text), Some(number)) => {
            let line = line_of(lines, number.saturating_sub(1));
            writeln!(f, "{}:{line}: has {text}", lines.name)?;
        }
        (None, Some(_)) => writeln!(
            f,
            "the certificates have no more records of instance {inst}"
        )?,
        (_, None) => writeln!(f, "the certificates have no record of instance {inst}")?,
    }
    match (told.differs, there, told.means) {
        (Differs::Second(_), ..) => writeln!(f, "it is a second certificate of instance {inst}"),
        (_, Some(text), _) => writeln!(f, "the log means {text}"),
        (_, None, Some(_)) => writeln!(f, "the log means no more records of instance {inst}"),
        (_, None, None) => writeln!(f, "the log means none: no row decides instance {inst}"),
    }
}

// The record at a place of the certificate at an index: 0 for that of the instance, from 1 on for those of its members.
fn record_text(
    alloc: Global,
    certificates: &[Certificate],
    index: Option<usize>,
    place: usize,
) -> Result<Option<String>, Memory> {
    let Some(index) = index else {
        return Ok(None);
    };
    if index >= certificates.len() {
        return Ok(None);
    }
    let one = &certificates[index..index + 1];
    let mut text = Vec::new(alloc);
    if !are_short(one) || write_certs(alloc, one, &mut text).is_err() {
        return Err(Memory);
    }
    match text.as_slice().split(|byte| *byte == b'\n').nth(place) {
        Some([]) | None => Ok(None),
        Some(line) => Ok(Some(String::from_utf8_lossy(alloc, line)?)),
    }
}

// Whether no chain is too long to be written.
fn are_short(certificates: &[Certificate]) -> bool
    ensures { IsTrue result → All HasShortChains certificates.now }
{
    certificates.iter().all(|c| c.members.list().iter().all(|m| m.1.messages().len() <= 63))
}

// The number, from 1, of the record at a place of the certificate at an index, in the text of certificates.
fn record_number(certificates: &[Certificate], index: usize, place: usize) -> Option<usize>
    requires { index ≤ length certificates.now }
    ensures { IfSome result (λ number. number ≡ length (records_of (take index certificates.now)) + 1 + place) }
{
    let mut number: usize = 0;
    for before in 0..index {
        number = number.checked_add(records_in(&certificates[before]))?;
    }
    number.checked_add(1)?.checked_add(place)
}

// How many records a certificate has.
fn records_in(certificate: &Certificate) -> usize
    ensures { result ≡ length (certificate_records certificate.now) }
{
    certificate.members.list().len() + 1
}
