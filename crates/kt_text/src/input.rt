//! What is read, by its name.

ghost use Rattle.std.specs.Prelude.{◌≡◌};

use crate::shown::Shown;
use std::io;
use std::io::Read;

/// What is read, the name that was given for it, and why a read of it failed.
#[derive(Drop)]
pub struct Input<R> {
    pub source: R,
    pub name: Shown,
    why: Option<io::Error>,
}

impl<R> Input<R> {
    /// A reader by this name.
    pub fn new(source: R, name: &str) -> Input<R>
        ensures { result.source ≡ source }
    {
        Input {
            source,
            name: Shown::of(name.as_bytes()),
            why: None,
        }
    }

    /// Why a read of it failed, where one did.
    pub fn why(&self) -> Option<&io::Error> {
        self.why.as_ref()
    }
}

impl<R: Read> Read for Input<R> {
    ghost remaining = { λ input. R.remaining input.source };

    fn read(&mut self, buf: &mut [u8]) -> io::Result<usize> {
        match self.source.read(buf) {
            Ok(count) => Ok(count),
            Err(error) => {
                self.why = Some(error);
                Err(error)
            }
        }
    }
}
