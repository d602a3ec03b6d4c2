//! The live history of a process, with what it has of one kind of deed.

ghost use Rattle.std.specs.Prelude.{◌≡◌, ◌≤◌, ◌<◌, ◌++◌, ◌∷◌, [], nat_le, find, length, drop, slice_get, option_to_list, OnOk, IfOk, IfNone, IsTrue, ◌↔◌, Some, None, ◌+◌};
ghost use Rattle.kt_spacetime.specs.declared.deeds.Deed.TheVariants as deed;
ghost use Rattle.kt_rules.specs.Lists.{last_of, NumbersRise, sent_in, received_in};

use crate::messages::Messages;
use kt_base::{Memory, MsgNo, ProcNo};
use kt_spacetime::Deed;
use std::alloc::Global;
use std::marker::Model;

/// How many processes there are at most.
const PROCESSES: usize = 64;

/// The sends and receives of a process, in order.
#[derive(Drop)]
pub(crate) struct History {
    deeds: Vec<Deed>,
    // By deed: how many sends there are before it.
    sends_before: Vec<usize>,
    sent: Messages,
    // By sender.
    received: Vec<Messages>,
}

impl Model for History {
    ghost use Rattle.std.specs.Prelude.{List};
    ghost use Rattle.kt_spacetime.specs.declared.deeds.Deed.{Deed};

    ghost Value = { List Deed };

    ghost use Rattle.kt_histories.specs.Sorted.{IsSorted};

    ghost view = { λ h. h.deeds.items };

    ghost invariant = { λ h. IsSorted h.deeds.items h.sends_before.items h.sent h.received.items };
}

impl History {
    /// The empty history.
    pub(crate) fn new(alloc: Global) -> Result<History, Memory>
        ensures { IfOk result (λ h. h ≡ []) }
    {
        let received = Messages::of_many(alloc, PROCESSES)?;
        Ok(History {
            deeds: Vec::new(alloc),
            sends_before: Vec::new(alloc),
            sent: Messages::new(alloc),
            received,
        })
    }

    /// How many deeds there are.
    pub(crate) fn len(&self) -> usize
        ensures { result ≡ length self.now }
    {
        self.deeds.len()
    }

    /// The deed at a place from 0.
    pub(crate) fn deed(&self, place: usize) -> Option<Deed>
        ensures { result ≡ slice_get self.now place }
    {
        self.deeds.get(place).copied()
    }

    /// Whether this deed is at a place from 0.
    pub(crate) fn has_at(&self, place: usize, deed: &Deed) -> bool
        ensures { IsTrue result ↔ (slice_get self.now place ≡ Some deed.now) }
    {
        match self.deed(place) {
            Some(there) => there == *deed,
            None => false,
        }
    }

    /// This place, counted from 1, where this deed is at it.
    pub(crate) fn place_if(&self, place: usize, deed: &Deed) -> Option<usize>
        ensures there { slice_get self.now place ≡ Some deed.now → result ≡ Some (place + 1) }
        ensures none { (slice_get self.now place ≡ Some deed.now → ⊥) → result ≡ None }
    {
        if place < self.deeds.len() && self.has_at(place, deed) {
            Some(place + 1)
        } else {
            None
        }
    }

    /// Adds a send at the end.
    pub(crate) fn send(&mut self, msg: MsgNo, to: ProcNo) -> Result<(), Memory>
        ensures { OnOk result (self.new ≡ self.old ++ deed.Sent msg to ∷ []) }
    {
        self.deeds.reserve(1)?;
        self.sends_before.reserve(1)?;
        let count = self.sent.len();
        self.sent.push(msg)?;
        self.sends_before.push_reserved(count);
        self.deeds.push_reserved(Deed::Sent { msg, to });
        Ok(())
    }

    /// Adds a receive at the end.
    pub(crate) fn receive(&mut self, msg: MsgNo, from: ProcNo) -> Result<(), Memory>
        ensures { OnOk result (self.new ≡ self.old ++ deed.Received msg from ∷ []) }
    {
        self.deeds.reserve(1)?;
        self.sends_before.reserve(1)?;
        let count = self.sent.len();
        self.received[from.get() as usize].push(msg)?;
        self.sends_before.push_reserved(count);
        self.deeds.push_reserved(Deed::Received { msg, from });
        Ok(())
    }

    /// Takes the last deed.
    pub(crate) fn pop(&mut self) -> Option<Deed>
        ensures last { self.old ≡ self.new ++ option_to_list result }
        ensures none { IfNone result (self.old ≡ []) }
    {
        let deed = self.deeds.pop()?;
        self.sends_before.pop();
        match deed {
            Deed::Sent { .. } => self.sent.pop(),
            Deed::Received { from, .. } => self.received[from.get() as usize].pop(),
        };
        Some(deed)
    }

    /// The last message received from this sender.
    pub(crate) fn last_received(&self, from: ProcNo) -> Option<MsgNo>
        ensures { result ≡ last_of (received_in from self.now) }
    {
        self.received[from.get() as usize].last()
    }

    /// The first message from this sender that is not before another one, where they rise.
    pub(crate) fn first_received_from(&self, from: ProcNo, msg: MsgNo) -> Option<MsgNo>
        ensures { NumbersRise (received_in from self.now) → result ≡ find (nat_le msg) (received_in from self.now) }
    {
        self.received[from.get() as usize].first_from(msg)
    }

    /// The first message that is sent past this many deeds.
    pub(crate) fn first_sent_past(&self, place: usize) -> Option<MsgNo>
        ensures { result ≡ slice_get (sent_in (drop place self.now)) 0 }
    {
        let count = number_at(&self.sends_before, place)?;
        self.sent.get(count)
    }
}

// The number at a place from 0.
fn number_at(numbers: &[usize], place: usize) -> Option<usize>
    ensures { result ≡ slice_get numbers.now place }
{
    numbers.get(place).copied()
}
