//! A reader and a writer that fail at one call.

ghost use Rattle.std.specs.Prelude.{◌≤◌, IfOk};

use std::io;
use std::io::{Read, Write};

// How many bytes a call gives or takes at most, how many calls were made, and which one fails.
#[derive(Drop)]
struct Calls {
    most: usize,
    made: usize,
    fails_at: usize,
}

impl Calls {
    fn new(most: usize, fails_at: usize) -> Calls {
        let made = 0;
        Calls {
            most,
            made,
            fails_at,
        }
    }

    // Makes a call for so many bytes; how many it gives or takes.
    fn make(&mut self, bytes: usize) -> io::Result<usize>
        ensures { IfOk result (λ count. count ≤ bytes) }
    {
        let call = self.made;
        self.made = call.saturating_add(1);
        if call == self.fails_at {
            return Err(io::Error::from(io::ErrorKind::BrokenPipe));
        }
        Ok(bytes.min(self.most))
    }
}

/// Gives some bytes a call at most, and fails at one call.
#[derive(Drop)]
pub(crate) struct FailingReader<'a> {
    text: &'a [u8],
    calls: Calls,
}

impl FailingReader<'_> {
    pub(crate) fn new(text: &[u8], most: usize, fails_at: usize) -> FailingReader<'_> {
        let calls = Calls::new(most, fails_at);
        FailingReader { text, calls }
    }
}

impl Read for FailingReader<'_> {
    fn read(&mut self, buf: &mut [u8]) -> io::Result<usize> {
        let count = self.calls.make(buf.len().min(self.text.len()))?;
        buf[..count].copy_from_slice(&self.text[..count]);
        self.text = &self.text[count..];
        Ok(count)
    }
}

/// Takes some bytes a call at most, and fails at one call; a flush is a call.
#[derive(Drop)]
pub(crate) struct FailingWriter {
    held: Vec<u8>,
    calls: Calls,
}

impl FailingWriter {
    pub(crate) fn new(held: Vec<u8>, most: usize, fails_at: usize) -> FailingWriter {
        let calls = Calls::new(most, fails_at);
        FailingWriter { held, calls }
    }

    /// What it has taken.
    pub(crate) fn held(&self) -> &[u8] {
        self.held.as_slice()
    }
}

impl Write for FailingWriter {
    fn write(&mut self, buf: &[u8]) -> io::Result<usize> {
        let count = self.calls.make(buf.len())?;
        self.held.extend_from_slice(&buf[..count])?;
        Ok(count)
    }

    fn flush(&mut self) -> io::Result<()> {
        self.calls.make(0)?;
        Ok(())
    }
}
