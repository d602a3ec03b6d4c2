//! Where in a text a record stands.

ghost use Rattle.std.specs.Prelude.{◌≡◌};

use crate::shown::Shown;
use csv::{ByteRecord, Position};
use std::fmt;

/// A line of a file, by its number, from 1, and what stands there: of a record its fields, joined by commas.
#[derive(Clone, Copy)]
pub struct Place {
    pub file: Shown,
    pub line: u64,
    pub text: Shown,
}

impl Place {
    /// Where a record of a file stands that ends here.
    pub fn of(file: Shown, fields: &ByteRecord, end: Position) -> Place
        ensures { result.file ≡ file }
    {
        Place {
            file,
            line: line_of(fields, end),
            text: joined(fields),
        }
    }
}

impl fmt::Display for Place {
    fn fmt<W: fmt::Write>(&self, f: &mut fmt::Formatter<W>) -> fmt::Result {
        write!(f, "{}:{}: {}", self.file, self.line, self.text)
    }
}

// The fields of a record joined by commas, as they are shown.
fn joined(fields: &ByteRecord) -> Shown {
    let mut text = Shown::new();
    for (place, field) in fields.iter().enumerate() {
        if place > 0 {
            text.push(b",");
        }
        text.push(field);
    }
    text
}

// The line of a text, from 1, at which a record begins that ends here. Lines end in a line feed, with or without a carriage
// return before it; empty lines before the record are none of it.
fn line_of(fields: &ByteRecord, end: Position) -> u64 {
    let Some(start) = fields.position() else {
        return 1;
    };
    let within = count_in(fields, b'\n');
    let last = end.line.saturating_sub(within);
    let feeds = last.saturating_sub(start.line);
    let others = end
        .byte
        .saturating_sub(start.byte)
        .saturating_sub(bytes_joined(fields))
        .saturating_sub(feeds);
    let ends_in_return = start.record > 0 && others % 2 == 1;
    if feeds == 0 || ends_in_return {
        last
    } else {
        last.saturating_sub(1)
    }
}

// How often the fields of a record have a byte.
fn count_in(fields: &ByteRecord, wanted: u8) -> u64 {
    fields
        .as_slice()
        .iter()
        .filter(|byte| **byte == wanted)
        .count() as u64
}

// How many bytes the fields of a record have, with a comma between each and the next one, and each quote written twice.
fn bytes_joined(fields: &ByteRecord) -> u64 {
    let commas = fields.len().saturating_sub(1) as u64;
    let bytes = fields.as_slice().len() as u64;
    bytes
        .saturating_add(commas)
        .saturating_add(count_in(fields, b'"'))
}
