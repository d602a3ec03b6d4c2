//! One list of parcels.

ghost use Rattle.std.specs.Prelude.{◌≡◌, ◌<◌, ◌≤◌, ◌+◌, ◌-◌, [], ◌∷◌, ◌++◌, length, drop, slice_get, OnOk, OnErr, IfSome, IfNone};
ghost use Rattle.std.specs.Option.{option_copied};
ghost use Rattle.kt_fifo.specs.Queues.{has_parcel};
ghost use Rattle.kt_fifo.specs.Parcels.{without_above};

use crate::parcels::Parcel;
use kt_base::{Label, Memory};
use std::alloc::Global;
use std::collections::VecDeque;
use std::marker::Model;

/// A list of parcels, first in, first out, with room made beforehand.
#[derive(Drop)]
pub struct Fifo {
    parcels: VecDeque<Parcel>,
}

impl Model for Fifo {
    ghost use Rattle.std.specs.Prelude.{◌-◌};
    ghost use Rattle.std.specs.VecDeque.{deque_len, deque_capacity};
    ghost use Rattle.kt_fifo.specs.Queues.{Queue};

    ghost Value = { Queue };

    ghost view = { λ f. record { parcels = f.parcels.items; spare = deque_capacity f.parcels - deque_len f.parcels } };
}

impl Fifo {
    /// An empty list.
    pub(crate) fn new(alloc: Global) -> Fifo
        ensures { result.parcels ≡ [] }
    {
        Fifo {
            parcels: VecDeque::new(alloc),
        }
    }

    /// How many parcels there are.
    pub(crate) fn len(&self) -> usize
        ensures { result ≡ length self.now.parcels }
    {
        self.parcels.len()
    }

    /// Whether there is a parcel.
    pub(crate) fn has_parcel(&self) -> bool
        ensures { result ≡ has_parcel self.now.parcels }
    {
        !self.parcels.is_empty()
    }

    /// How many parcels more there is room for.
    pub(crate) fn spare(&self) -> usize
        ensures { result ≡ self.now.spare }
    {
        self.parcels.capacity() - self.parcels.len()
    }

    /// Makes room for that many parcels more.
    #[inline(always)]
    pub(crate) fn reserve(&mut self, count: usize) -> Result<(), Memory>
        ensures parcels { self.new.parcels ≡ self.old.parcels }
        ensures grows { self.old.spare ≤ self.new.spare }
        ensures ok { OnOk result (count ≤ self.new.spare) }
        ensures full { OnErr result (self.old.spare < count) }
    {
        if self.spare() < count {
            self.parcels.reserve(count)?;
        }
        Ok(())
    }

    /// Adds a parcel at the end, in room made beforehand.
    #[inline(always)]
    pub(crate) fn push_reserved(&mut self, parcel: Parcel)
        requires { 0 < self.old.spare }
        ensures { self.new ≡ record { parcels = self.old.parcels ++ parcel ∷ []; spare = self.old.spare - 1 } }
    {
        self.parcels.push_back_reserved(parcel);
    }

    /// Adds a parcel before all others, in room made beforehand.
    pub(crate) fn push_front_reserved(&mut self, parcel: Parcel)
        requires { 0 < self.old.spare }
        ensures { self.new ≡ record { parcels = parcel ∷ self.old.parcels; spare = self.old.spare - 1 } }
    {
        self.parcels.push_front_reserved(parcel);
    }

    /// The oldest parcel.
    pub(crate) fn front(&self) -> Option<&Parcel>
        ensures { option_copied result ≡ slice_get self.now.parcels 0 }
    {
        self.parcels.front()
    }

    /// The parcel at a place, the oldest at 0.
    pub(crate) fn get(&self, place: usize) -> Option<&Parcel>
        ensures { option_copied result ≡ slice_get self.now.parcels place }
    {
        self.parcels.get(place)
    }

    /// Takes the oldest parcel.
    pub(crate) fn pop(&mut self) -> Option<Parcel>
        ensures front { result ≡ slice_get self.old.parcels 0 }
        ensures parcels { self.new.parcels ≡ drop 1 self.old.parcels }
        ensures spare { self.new.spare ≡ self.old.spare + (length self.old.parcels - length self.new.parcels) }
    {
        self.parcels.pop_front()
    }

    /// Takes the newest parcel.
    pub(crate) fn pop_back(&mut self) -> Option<Parcel>
        ensures back { IfSome result (λ parcel. self.old.parcels ≡ self.new.parcels ++ parcel ∷ []) }
        ensures none { IfNone result ((self.old.parcels ≡ []) × (self.new.parcels ≡ [])) }
        ensures spare { self.new.spare ≡ self.old.spare + (length self.old.parcels - length self.new.parcels) }
    {
        self.parcels.pop_back()
    }

    /// Takes out the application messages with a greater label; the others keep their order.
    pub(crate) fn drop_above(&mut self, label: Label)
        ensures parcels { self.new.parcels ≡ without_above label self.old.parcels }
        ensures spare { self.new.spare ≡ self.old.spare + (length self.old.parcels - length self.new.parcels) }
    {
        self.parcels.retain(|parcel| parcel.stays(label));
    }

    /// Sets the other's parcels before its own, in room made beforehand, and leaves the other empty.
    pub(crate) fn put_before(&mut self, other: &mut Fifo)
        requires { length other.old.parcels ≤ self.old.spare }
        ensures parcels { self.new.parcels ≡ other.old.parcels ++ self.old.parcels }
        ensures spare { self.new.spare ≡ self.old.spare - length other.old.parcels }
        ensures emptied { other.new.parcels ≡ [] }
        ensures freed { other.new.spare ≡ other.old.spare + length other.old.parcels }
    {
        while let Some(parcel) = other.pop_back() {
            self.push_front_reserved(parcel);
        }
    }
}
