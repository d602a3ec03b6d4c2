//! The rows of a log in memory.

ghost use Rattle.std.specs.Prelude.{◌≡◌, ◌<◌, ◌≤◌, ◌+◌, ◌^◌, [], ◌∷◌, ◌++◌, length, vec_len, vec_capacity, All, OnOk, OnErr};
ghost use Rattle.kt_spacetime.specs.Events.{IsRowInRange};

use crate::event::Event;
use kt_base::Memory;
use std::alloc::Global;
use std::marker::Model;

/// The rows of a log in order, numbered from 1, at most 2^24, with room set aside for some more.
#[derive(Drop)]
pub struct SpaceTime {
    rows: Vec<Event>,
    spare: usize,
}

impl Model for SpaceTime {
    ghost use Rattle.kt_spacetime.specs.Logs.{Log};

    ghost Value = { Log };

    ghost use Rattle.std.specs.Prelude.{◌≤◌, ◌+◌, ◌^◌, All, length, vec_len, vec_capacity};
    ghost use Rattle.kt_spacetime.specs.Logs.{IsLogKept};

    ghost view = { λ l. record { rows = l.rows.items; spare = l.spare } };

    ghost invariant = { λ l. IsLogKept l.rows l.spare };
}

impl SpaceTime {
    /// A log with no rows, and no room. It takes no memory.
    pub fn new(alloc: Global) -> SpaceTime
        ensures rows { result.rows ≡ [] }
        ensures spare { result.spare ≡ 0 }
    {
        SpaceTime {
            rows: Vec::new(alloc),
            spare: 0,
        }
    }

    /// The rows in order.
    pub fn rows(&self) -> &[Event]
        ensures rows { result.now ≡ self.now.rows }
        ensures in_range { All IsRowInRange result.now }
        ensures few { length result.now ≤ 2 ^ 24 }
    {
        self.rows.as_slice()
    }

    /// For how many more rows there is room.
    pub fn spare(&self) -> usize
        ensures { result ≡ self.now.spare }
    {
        self.spare
    }

    /// Makes room for at least this many more rows.
    #[inline(always)]
    pub fn reserve(&mut self, count: usize) -> Result<(), Memory>
        ensures rows { self.new.rows ≡ self.old.rows }
        ensures room { OnOk result (count ≤ self.new.spare) }
        ensures kept { self.old.spare ≤ self.new.spare }
        ensures err { OnErr result (self.new ≡ self.old) }
    {
        if self.spare < count {
            self.rows.reserve(count)?;
            self.spare = self.rows.capacity() - self.rows.len();
        }
        Ok(())
    }

    /// Adds a row at the end, in the room made before.
    #[inline(always)]
    pub fn push_reserved(&mut self, event: Event)
        requires room { 0 < self.old.spare }
        requires few { length self.old.rows < 2 ^ 24 }
        ensures rows { self.new.rows ≡ self.old.rows ++ event ∷ [] }
        ensures spare { self.new.spare + 1 ≡ self.old.spare }
    {
        self.spare -= 1;
        event.read_numbers();
        push_copy(&mut self.rows, &event);
    }
}

/// Adds a copy of an item at the end, in the room made before.
#[inline(always)]
fn push_copy<T: Copy>(items: &mut Vec<T>, item: &T)
    requires { vec_len items.old < vec_capacity items.old }
    ensures items { items.new.items ≡ items.old.items ++ item.now ∷ [] }
    ensures len { vec_len items.new ≡ vec_len items.old + 1 }
    ensures capacity { vec_capacity items.new ≡ vec_capacity items.old }
{
    items.push_reserved(*item);
}
