//! Words of command lines as a system gives them, of which some are no texts, and of which there may be none.

ghost use Rattle.std.specs.Prelude.{◌≤◌, IfOk, length};

use crate::commands::Host;
use kt_program::{run, stand_ins};
use std::env::FillError;
use std::io;
use std::os::fd::AsRawFd;
use std::rt::Env;

// The words of a command line, what the environment has for hints, and whether a terminal shows what is told.
#[derive(Drop)]
struct Line<'a> {
    words: &'a [&'a [u8]],
    hints: Option<&'a [u8]>,
    terminal: bool,
}

// Copies a text to the start of a buffer, and tells its length.
fn fill(buf: &mut [u8], text: Option<&[u8]>) -> Result<usize, FillError>
    ensures { IfOk result (λ length_told. length_told ≤ length buf.new) }
{
    let Some(text) = text else {
        return Err(FillError::NotPresent);
    };
    if buf.len() < text.len() {
        return Err(FillError::TooLong);
    }
    buf[..text.len()].copy_from_slice(text);
    Ok(text.len())
}

impl Env for Line<'_> {
    fn arg(&self, i: usize, buf: &mut [u8]) -> Result<usize, FillError> {
        match self.words.get(i) {
            Some(word) => fill(buf, Some(*word)),
            None => fill(buf, None),
        }
    }

    fn var(&self, name: &str, buf: &mut [u8]) -> Result<usize, FillError> {
        if name == "KOO_TOUEG_HINTS" {
            return fill(buf, self.hints);
        }
        Err(FillError::NotPresent)
    }

    fn var_at(&self, _i: usize, _buf: &mut [u8]) -> Result<usize, FillError> {
        Err(FillError::NotPresent)
    }
}

// No word at all, words that are not UTF-8, and one that no terminal is to get as it is.
const LINES: [&[&[u8]]; 4] = [
    &[],
    &[b"koo_toueg", b"check", b"l\xff.csv", b"c.csv"],
    &[b"koo_toueg", b"--help", b"\xff"],
    &[b"koo_toueg", b"play", b"no\x1b such"],
];

// What the environment has for hints: they are told but for the text 0, and where it has none.
const HINTS: [Option<&[u8]>; 5] = [None, Some(b""), Some(b"0"), Some(b"1"), Some(b"yes")];

// Shows what the program writes to either stream, and its exit status.
fn show_line<R: Host>(rt: &R, line: &Line<'_>) -> io::Result<()>
where
    R::File: AsRawFd,
{
    let (mut out, mut err) = (io::writer(rt), io::writer(rt));
    let status = run(
        line,
        rt,
        rt.alloc(),
        &stand_ins(rt),
        line.terminal,
        &mut out,
        &mut err,
    );
    println!(rt; "status {status}")
}

/// Shows what the program writes, called with such words, and with such an environment.
pub(crate) fn show_words<R: Host>(rt: &R) -> io::Result<()>
where
    R::File: AsRawFd,
{
    for words in LINES {
        let (hints, terminal) = (None, true);
        show_line(
            rt,
            &Line {
                words,
                hints,
                terminal,
            },
        )?;
    }
    for hints in HINTS {
        let words: &[&[u8]] = &[b"koo_toueg", b"play"];
        let terminal = false;
        show_line(
            rt,
            &Line {
                words,
                hints,
                terminal,
            },
        )?;
    }
    Ok(())
}
