//! What a person is told of a fault, gathered where it is met.

use arrayvec::ArrayString;
use csv::{ByteRecord, Position};
use kt_log_text::Record;
use kt_merge::Unmerged;
use kt_promises::Hindrance;
use kt_text::{Input, Limit, Place, Shown, field_at, limit_of};
use std::alloc::Global;
use std::fmt::Write;
use std::io;

/// What is done with a file.
#[derive(Clone, Copy)]
pub enum Attempt {
    Open,
    Read,
    Make,
    Write,
}

/// A record of a log or of certificates, as it was read.
#[derive(Clone, Copy)]
pub struct ToldRecord {
    /// How many bytes its first field has.
    pub(crate) first: usize,
    /// How many fields it has.
    pub(crate) fields: usize,
    /// What a number of it goes beyond.
    pub(crate) beyond: Option<Limit>,
}

/// What a person is told of a fault, beside the fault itself.
#[derive(Clone, Copy)]
pub enum Told {
    /// Nothing.
    Nothing,
    /// What clap says of the words, line by line.
    Words([Shown; 3]),
    /// Two names of one file, as they were given.
    OneFile(Shown, Shown),
    /// What was done with a file in vain, its name, and the system's reason.
    Attempt(Attempt, Shown, Shown),
    /// A line of a text, and what stands in the way of the step that it says.
    Line(Place, Option<Hindrance>),
    /// A record of a log or of certificates.
    Record(Place, ToldRecord),
    /// The file of a log that has no certificates, and what is told of the row for which it has none: where it stands, and facts.
    Unfit(Shown, [Shown; 3]),
    /// Why parts have no log.
    Parts(Unmerged),
}

impl Told {
    /// What clap says of words, up to how the command is used, without its own `error:` and without a tip that does not hold
    /// here. Nothing where there is no memory for that.
    pub(crate) fn words(alloc: Global, error: &clap::Error) -> Told {
        let Ok(text) = format!(in alloc; "{error}") else {
            return Told::Nothing;
        };
        let mut lines = [Shown::new(); 3];
        let mut count = 0;
        for line in text.lines() {
            if count >= 3 || line.starts_with("Usage:") || line.starts_with("For more") {
                return Told::Words(lines);
            }
            if !line.is_empty() && !line.starts_with("  tip: to pass") {
                let line = line.strip_prefix("error: ").unwrap_or(line);
                lines[count] = Shown::of(line.as_bytes());
                count += 1;
            }
        }
        Told::Words(lines)
    }

    /// What is told of a read of an input that failed.
    pub(crate) fn read<R>(input: &Input<R>) -> Told {
        match input.why() {
            Some(error) => Told::attempt(Attempt::Read, input.name, error),
            None => Told::Nothing,
        }
    }

    /// One file by two names.
    pub(crate) fn one_file(first: &str, second: &str) -> Told {
        Told::OneFile(Shown::of(first.as_bytes()), Shown::of(second.as_bytes()))
    }

    /// What was done in vain with a file of this name, and the system's reason, without its number.
    pub(crate) fn attempt(attempt: Attempt, name: Shown, error: &io::Error) -> Told {
        let mut text: ArrayString<128> = ArrayString::new();
        let _ = write!(text, "{error}");
        let words = text.as_str();
        let reason = words
            .split_once(" (os error ")
            .map_or(words, |(reason, _number)| reason);
        Told::Attempt(attempt, name, Shown::of(reason.as_bytes()))
    }

    /// What is told of a row of this file, line by line.
    pub(crate) fn unfit(file: Shown, text: &str) -> Told {
        let mut lines = text.lines();
        let mut next = [Shown::new(); 3];
        for shown in &mut next {
            *shown = Shown::of(lines.next().unwrap_or("").as_bytes());
        }
        Told::Unfit(file, next)
    }

    /// The line of this number, from 1, of the text of a file, and what stands in the way of the step that it says.
    pub(crate) fn line(
        file: Shown,
        text: &[u8],
        number: Option<usize>,
        hindrance: Option<Hindrance>,
    ) -> Told {
        let Some(number) = number else {
            return Told::Nothing;
        };
        let mut lines = text.split(|byte| *byte == b'\n');
        let Some(line) = lines.nth(number.saturating_sub(1)) else {
            return Told::Nothing;
        };
        let place = Place {
            file,
            line: number as u64,
            text: Shown::of(line.strip_suffix(b"\r".as_slice()).unwrap_or(line)),
        };
        Told::Line(place, hindrance)
    }

    /// The step after so many others of a text of steps, and what stands in its way.
    pub(crate) fn step(
        file: Shown,
        text: &[u8],
        done: usize,
        hindrance: Option<Hindrance>,
    ) -> Told {
        let lines = text.split(|byte| *byte == b'\n').enumerate();
        let step = lines.filter(|(_, line)| has_words(line)).nth(done);
        let number = step.map(|(before, _line)| before.saturating_add(1));
        Told::line(file, text, number, hindrance)
    }

    /// The record of a file that was read last and ends here; messages have numbers up to this one.
    pub(crate) fn record(file: Shown, fields: &ByteRecord, end: Position, last: u32) -> Told {
        let record = ToldRecord {
            first: field_at(fields, 0).len(),
            fields: fields.len(),
            beyond: limit_of(fields, last),
        };
        Told::Record(Place::of(file, fields, end), record)
    }

    /// The record of a log in a file that says this row.
    pub(crate) fn row(file: Shown, record: &Record, row: u32) -> Told {
        let start = record.fields.position();
        let is_named = start.is_some_and(|start| start.record >= u64::from(row));
        let last = if is_named { 16_777_216 } else { 1_048_576 };
        Told::record(file, &record.fields, record.end, last)
    }
}

// Whether a line has words that are no comment.
fn has_words(line: &[u8]) -> bool {
    let mut bytes = line.iter();
    match bytes.find(|byte| !matches!(**byte, b' ' | b'\t')) {
        Some(first) => !matches!(*first, b'#' | b'\r'),
        None => false,
    }
}
