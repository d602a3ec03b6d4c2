//! The lines of a text that is read.

ghost use Rattle.std.specs.Prelude.{◌≡◌, []};

use std::alloc::Global;
use std::io;
use std::io::Read;

/// On which lines the records of a text begin that is read: of a log and of certificates without a fault on those that are not
/// empty, since none of their fields has the end of a line.
#[derive(Drop)]
pub struct RecordLines {
    /// How many records it has.
    pub count: usize,
    /// Of each run of records that stand on lines next to one another the number of the first, from 0, and its line, from 1.
    pub runs: Vec<(usize, u64)>,
    /// Whether there was no memory for a run.
    pub is_short: bool,
    line: u64,
    // The line after that of the last record.
    next: u64,
    is_within: bool,
}

impl RecordLines {
    /// Those of no text yet.
    pub fn new(alloc: Global) -> RecordLines
        ensures { result.runs.items ≡ [] }
    {
        RecordLines {
            count: 0,
            runs: Vec::new(alloc),
            is_short: false,
            line: 1,
            next: 0,
            is_within: false,
        }
    }

    // Goes on in the text. Carriage returns, line feeds and the bytes of a byte order mark begin no record.
    fn note(&mut self, bytes: &[u8]) {
        for byte in bytes {
            match byte {
                b'\n' => {
                    self.line = self.line.saturating_add(1);
                    self.is_within = false;
                }
                b'\r' => self.is_within = false,
                0xEF | 0xBB | 0xBF => {}
                _ => self.go_on(),
            }
        }
    }

    // A byte of a record, which begins here if none has begun on the line.
    fn go_on(&mut self) {
        if self.is_within {
            return;
        }
        self.is_within = true;
        if self.line != self.next {
            let is_noted = self.runs.push((self.count, self.line)).is_ok();
            self.is_short = self.is_short || !is_noted;
        }
        self.next = self.line.saturating_add(1);
        self.count = self.count.saturating_add(1);
    }
}

/// What is read, and on which lines its records begin.
#[derive(Drop)]
pub struct Numbered<R> {
    pub source: R,
    pub lines: RecordLines,
}

impl<R> Numbered<R> {
    /// This reader, before its first byte.
    pub fn new(alloc: Global, source: R) -> Numbered<R>
        ensures { result.source ≡ source }
    {
        Numbered {
            source,
            lines: RecordLines::new(alloc),
        }
    }
}

impl<R: Read> Read for Numbered<R> {
    ghost remaining = { λ numbered. R.remaining numbered.source };

    fn read(&mut self, buf: &mut [u8]) -> io::Result<usize> {
        match self.source.read(buf) {
            Ok(count) => {
                if let Some(bytes) = buf.get(..count) {
                    self.lines.note(bytes);
                }
                Ok(count)
            }
            Err(error) => Err(error),
        }
    }
}
