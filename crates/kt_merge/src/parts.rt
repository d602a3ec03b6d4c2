//! The parts that are to be merged.

ghost use Rattle.std.specs.Prelude.{◌≡◌, ◌<◌, ◌≤◌, [], ◌∷◌, ◌++◌, length, OnOk, OnErr};
ghost use Rattle.kt_merge.specs.Reading.{part_unread};
ghost use Rattle.kt_merge.specs.Merging.{ArePartsUnread};

use crate::giver::Name;
use crate::reading::PartReader;
use kt_base::{Memory, ProcNo};
use kt_spacetime::ClockedRow;
use std::alloc::Global;
use std::io::Read;
use std::marker::Model;

/// Readers of the parts of processes 0, 1 and so on, the next row of each, as far as it was read, and the name that was missing
/// where a merge stopped.
#[derive(Drop)]
pub struct Parts<R: Read + Drop> {
    pub(crate) readers: Vec<PartReader<R>>,
    pub(crate) heads: Vec<Option<ClockedRow>>,
    pub(crate) missing: Option<Name>,
}

impl<R: Read + Drop> Model for Parts<R> {
    ghost use Rattle.std.specs.Prelude.{List};
    ghost use Rattle.kt_merge.specs.Reading.{PartRead};

    ghost Value = { List PartRead };

    ghost view = { λ p. p.readers.items };
}

impl<R: Read + Drop> Parts<R> {
    /// No parts. It takes no memory.
    pub fn new(alloc: Global) -> Parts<R>
        ensures none { result ≡ [] }
        ensures unread { ArePartsUnread result }
    {
        Parts {
            readers: Vec::new(alloc),
            heads: Vec::new(alloc),
            missing: None,
        }
    }

    /// How many parts there are.
    pub fn count(&self) -> usize
        ensures { result ≡ length self.now }
    {
        self.readers.len()
    }

    /// Adds the part of the next process, which this reader gives.
    pub fn push(&mut self, alloc: Global, reader: R) -> Result<(), Memory>
        requires { length self.old < 64 }
        ensures added { OnOk result (self.new ≡ self.old ++ part_unread (length self.old) (R.remaining reader) ∷ []) }
        ensures unread { OnOk result (ArePartsUnread self.old → ArePartsUnread self.new) }
        ensures err { OnErr result (self.new ≡ self.old) }
    {
        let process = ProcNo::nth(self.readers.len() as u8);
        let part = PartReader::new(alloc, reader, process)?;
        self.readers.push(part)?;
        Ok(())
    }
}
