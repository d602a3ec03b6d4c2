//! Long texts, told by lines that say what stands in them how often.
//!
//! `lines 3 x` tells of `x` and a line feed, three times, `bytes 3 x` of `x` alone; `|` is a line feed, `@` the time's number.

use crate::faults::value_of;
use std::alloc::Global;
use std::io;
use std::io::Write;

// Adds a piece, the time with this number.
fn add_piece(text: &mut Vec<u8>, piece: &str, time: u32) -> io::Result<()> {
    for byte in piece.bytes() {
        match byte {
            b'@' => write!(text, "{time}")?,
            b'|' => text.push(b'\n')?,
            _ => text.push(byte)?,
        }
    }
    Ok(())
}

// Adds what a line tells of.
fn add_told(text: &mut Vec<u8>, line: &str) -> io::Result<()> {
    let (word, rest) = line.split_once(' ').unwrap_or((line, ""));
    let (times, piece) = rest.split_once(' ').unwrap_or((rest, ""));
    let end = if word == "lines" { "\n" } else { "" };
    for time in 0..times.parse::<u32>().unwrap_or(0) {
        add_piece(text, piece, time.saturating_add(1))?;
        text.extend_from_slice(end.as_bytes())?;
    }
    Ok(())
}

/// The text that these lines tell of.
pub(crate) fn told(alloc: Global, lines: &[u8]) -> io::Result<Vec<u8>> {
    let mut text = Vec::new(alloc);
    for line in value_of(std::str::from_utf8(lines))?.lines() {
        add_told(&mut text, line)?;
    }
    Ok(text)
}
