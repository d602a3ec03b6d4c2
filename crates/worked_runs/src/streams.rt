//! Readers and writers that fail, and readers of what is not stored.

use std::alloc::Global;
use std::cell::Cell;
use std::io;
use std::io::{Read, Write};

// How many calls were made, and which one fails.
#[derive(Drop)]
struct Calls {
    made: usize,
    fails_at: usize,
}

impl Calls {
    fn make(&mut self) -> io::Result<()> {
        let call = self.made;
        self.made = call.saturating_add(1);
        if call == self.fails_at {
            return Err(io::Error::from(io::ErrorKind::BrokenPipe));
        }
        Ok(())
    }
}

/// Gives a byte a call, and fails at one call.
#[derive(Drop)]
pub(crate) struct FailingReader<'a> {
    text: &'a [u8],
    calls: Calls,
}

impl FailingReader<'_> {
    pub(crate) fn new(text: &[u8], fails_at: usize) -> FailingReader<'_> {
        let calls = Calls { made: 0, fails_at };
        FailingReader { text, calls }
    }
}

impl Read for FailingReader<'_> {
    fn read(&mut self, buf: &mut [u8]) -> io::Result<usize> {
        self.calls.make()?;
        match (self.text.split_first(), buf.first_mut()) {
            (Some((byte, rest)), Some(place)) => {
                *place = *byte;
                self.text = rest;
                Ok(1)
            }
            _ => Ok(0),
        }
    }
}

/// Never gives anything, but is interrupted at each call, and counts the calls.
#[derive(Drop)]
pub(crate) struct InterruptedReader<'a> {
    pub(crate) calls: &'a Cell<u32>,
}

impl Read for InterruptedReader<'_> {
    fn read(&mut self, _buf: &mut [u8]) -> io::Result<usize> {
        self.calls.set(self.calls.get().saturating_add(1));
        Err(io::Error::from(io::ErrorKind::Interrupted))
    }
}

/// Gives what is left, then a row so often, and holds it once.
#[derive(Drop)]
pub(crate) struct RepeatingReader {
    pub(crate) left: &'static [u8],
    pub(crate) row: &'static [u8],
    pub(crate) times: u32,
}

impl Read for RepeatingReader {
    fn read(&mut self, buf: &mut [u8]) -> io::Result<usize> {
        if self.left.is_empty() && self.times > 0 {
            self.left = self.row;
            self.times -= 1;
        }
        let count = self.left.len().min(buf.len());
        buf[..count].copy_from_slice(&self.left[..count]);
        self.left = &self.left[count..];
        Ok(count)
    }
}

/// Takes a byte a call, and hands over what it took when it is flushed; it fails at one call, a flush too.
#[derive(Drop)]
pub(crate) struct Paper {
    taken: Vec<u8>,
    given: usize,
    calls: Calls,
}

impl Paper {
    /// A paper that fails at this call.
    pub(crate) fn new(alloc: Global, fails_at: usize) -> Paper {
        Paper {
            taken: Vec::new(alloc),
            given: 0,
            calls: Calls { made: 0, fails_at },
        }
    }

    /// Whether it was given nothing.
    pub(crate) fn is_blank(&self) -> bool {
        self.taken.is_empty()
    }

    /// What it has handed over.
    pub(crate) fn given(&self) -> &[u8] {
        let count = self.given.min(self.taken.len());
        &self.taken[..count]
    }

    /// The same as a text; the empty one where it is none.
    pub(crate) fn text(&self) -> &str {
        std::str::from_utf8(self.given()).unwrap_or("")
    }
}

impl Write for Paper {
    fn write(&mut self, buf: &[u8]) -> io::Result<usize> {
        self.calls.make()?;
        let count = buf.len().min(1);
        self.taken.extend_from_slice(&buf[..count])?;
        Ok(count)
    }

    fn flush(&mut self) -> io::Result<()> {
        self.calls.make()?;
        self.given = self.taken.len();
        Ok(())
    }
}
