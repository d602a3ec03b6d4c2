//! Texts of others, as they are shown to a person.

ghost use Rattle.std.specs.Prelude.{◌≡◌, ◌≤◌, ◌+◌, ◌↔◌, IsTrue, length, min};

use std::fmt;

// How many bytes of a text are shown at most.
const MOST_SHOWN: usize = 200;

/// The front of a text of others, at most 200 bytes. It prints with each byte that is no printable ASCII character as `\xNN`.
#[derive(Clone, Copy)]
pub struct Shown {
    bytes: [u8; MOST_SHOWN],
    length: usize,
}

impl Shown {
    /// An empty text.
    pub fn new() -> Shown
        ensures { result.length ≡ 0 }
    {
        Shown {
            bytes: [0; MOST_SHOWN],
            length: 0,
        }
    }

    /// The front of this text.
    pub fn of(text: &[u8]) -> Shown
        ensures { result.length ≡ min 200 (length text.now) }
    {
        let mut shown = Shown::new();
        shown.push(text);
        shown
    }

    /// Whether there is nothing to show.
    pub fn is_empty(&self) -> bool
        ensures { IsTrue result ↔ self.now.length ≡ 0 }
    {
        self.length == 0
    }

    /// Its bytes from one place up to another; none where fewer are kept.
    pub fn part(&self, (start, end): (usize, usize)) -> &[u8] {
        self.bytes.get(start..end).unwrap_or(b"")
    }

    /// Adds a text at the end, as far as there is room.
    pub fn push(&mut self, text: &[u8])
        ensures { self.old.length ≤ 200 → self.new.length ≡ min 200 (self.old.length + length text.now) }
    {
        for byte in text {
            if self.length >= MOST_SHOWN {
                return;
            }
            self.bytes[self.length] = *byte;
            self.length += 1;
        }
    }
}

impl fmt::Display for Shown {
    fn fmt<W: fmt::Write>(&self, f: &mut fmt::Formatter<W>) -> fmt::Result {
        for byte in self.bytes.iter().take(self.length) {
            match byte {
                b' '..=b'~' => f.write_char(char::from(*byte))?,
                _ => write!(f, "\\x{byte:02X}")?,
            }
        }
        Ok(())
    }
}
