//! A text up to the comma with which a record of it has more fields than the widest of its format, where its line ends.

ghost use Rattle.std.specs.Prelude.{◌≡◌, ◌≤◌, ◌<◌, ◌++◌, ℕ, List, [], ◌∷◌, length, take, false, true};
ghost use Rattle.kt_text.specs.Capped.{capped_left, front, room_after, spot_after};
ghost use Rattle.kt_text.specs.declared.capped.Spot.TheVariants as spot;

use std::io;
use std::io::Read;

/// Where a text goes on, as far as a quote or a byte order mark tells.
#[derive(Clone, Copy)]
enum Spot {
    /// At its first byte.
    Start,
    /// After the first byte of a byte order mark.
    AfterOne,
    /// After the second byte of a byte order mark.
    AfterTwo,
    /// At the start of a field, or after a quote that may have ended a quoted part.
    Open,
    /// In a field, where a quote stands for itself.
    Plain,
    /// In a quoted part, where a comma or the end of a line stands for itself.
    Quoted,
}

impl Spot {
    // Where a text goes on after a byte.
    #[inline(always)]
    fn after(self, byte: u8) -> Spot
        ensures { result ≡ spot_after self byte }
    {
        match (self, byte) {
            (Spot::Quoted, b'"') => Spot::Open,
            (Spot::Quoted, _) => Spot::Quoted,
            (Spot::Start | Spot::Open, b'"') => Spot::Quoted,
            (Spot::Start, 0xEF) => Spot::AfterOne,
            (Spot::AfterOne, 0xBB) => Spot::AfterTwo,
            (Spot::AfterTwo, 0xBF) => Spot::Open,
            (_, b',' | b'\r' | b'\n') => Spot::Open,
            _ => Spot::Plain,
        }
    }
}

/// What reads a text up to the comma with which a record of it has more fields than `width`, and no further: there the
/// record's line ends.
#[derive(Drop)]
pub struct Capped<R> {
    pub source: R,
    width: u32,
    spot: Spot,
    // With how many commas more the record has too many fields.
    room: u32,
    is_over: bool,
}

impl<R> Capped<R> {
    /// This reader, before its first byte.
    pub fn new(source: R, width: u32) -> Capped<R>
        ensures source { result.source ≡ source }
        ensures width { result.width ≡ width }
        ensures room { result.room ≡ width }
        ensures spot { result.spot ≡ spot.Start }
        ensures going { result.is_over ≡ false }
    {
        Capped {
            source,
            width,
            spot: Spot::Start,
            room: width,
            is_over: false,
        }
    }

    // Ends the line, if there is room for it; says how many bytes that took.
    #[cold]
    fn end_line(&mut self, buf: &mut [u8]) -> usize
        requires over { self.old.room ≡ 0 }
        requires going { self.old.is_over ≡ false }
        ensures kept { length buf.new ≡ length buf.old }
        ensures few { result ≤ length buf.new }
        ensures none { result ≡ 0 → (self.new ≡ self.old) × (length buf.old ≡ 0) }
        ensures line { 0 < result → (take result buf.new ≡ 10 ∷ []) × (self.new.is_over ≡ true) }
    {
        if buf.is_empty() {
            return 0;
        }
        buf[0] = b'\n';
        self.is_over = true;
        1
    }

    // Goes on in the text by a byte.
    #[inline(always)]
    fn go_on(&mut self, byte: u8)
        requires { 0 < self.old.room }
        ensures spot { self.new.spot ≡ spot_after self.old.spot byte }
        ensures room { self.new.room ≡ room_after self.old.width self.old.spot self.old.room byte }
        ensures width { self.new.width ≡ self.old.width }
        ensures source { self.new.source ≡ self.old.source }
        ensures over { self.new.is_over ≡ self.old.is_over }
    {
        match (self.spot, byte) {
            (Spot::Quoted, _) => {}
            (_, b',') => self.room -= 1,
            (_, b'\r' | b'\n') => self.room = self.width,
            _ => {}
        }
        self.spot = self.spot.after(byte);
    }

    // How many of the bytes that come next are up to the comma that is too many; goes on by them.
    fn take_in(&mut self, bytes: &[u8]) -> usize
        ensures few { result ≤ length bytes.now }
        ensures front { (rest : List ℕ) → front self.old.width self.old.spot self.old.room (bytes.now ++ rest)
            ≡ take result bytes.now ++ front self.old.width self.new.spot self.new.room rest }
        ensures some { 0 < self.old.room → 0 < length bytes.now → 0 < result }
        ensures still { result ≡ 0 → self.new.room ≡ self.old.room }
        ensures width { self.new.width ≡ self.old.width }
        ensures source { self.new.source ≡ self.old.source }
        ensures over { self.new.is_over ≡ self.old.is_over }
    {
        let mut taken = 0;
        while taken < bytes.len() && self.room > 0 {
            self.go_on(bytes[taken]);
            taken += 1;
        }
        taken
    }
}

impl<R: Read> Read for Capped<R> {
    ghost remaining = { capped_left R.remaining };

    fn read(&mut self, buf: &mut [u8]) -> io::Result<usize> {
        if self.is_over {
            return Ok(0);
        }
        if self.room == 0 {
            return Ok(self.end_line(buf));
        }
        let count = self.source.read(buf)?;
        Ok(self.take_in(&buf[..count]))
    }
}
