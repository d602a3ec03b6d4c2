//! The messages of one process that stand in the live history of another.

ghost use Rattle.std.specs.Prelude.{◌≡◌, ◌≤◌, ◌<◌, ◌+◌, ◌-◌, ◌++◌, ◌∷◌, [], ℕ, List, true, nat_lt, length, map, take, vec_len, vec_capacity, slice_get, slice_index, Some, None, OnOk, OnErr, IfSome};
ghost use Rattle.kt_spacetime.specs.declared.deeds.Deed.{Deed};
ghost use Rattle.kt_walk.specs.declared.queue.Arrival.{Arrival};
ghost use Rattle.kt_walk.specs.declared.received_from.Undone.{Undone};
ghost use Rattle.kt_meaning.specs.Past.{Past};
ghost use Rattle.kt_rules.specs.Lists.{NumbersRise, sent_in};
ghost use Rattle.kt_rules.specs.Orphans.{IsOrphanBetween, IsAtMost};
ghost use Rattle.kt_rules.specs.Standing.{IsInOrder};
ghost use Rattle.kt_walk.specs.Searching.{IsFoundPast};
ghost use Rattle.kt_walk.specs.Arrivals.{AreRisingArrivals, PartsAt, sent_at, received_at, undone_at, undo, AreInTurn, IsReceivedFrom, ShowsReceived, IsUncovered, is_empty};

use crate::queue::{Arrival, FEW, Queue};
use kt_base::{Memory, MsgNo, ProcNo};
use kt_rules::Cut;
use kt_rules::orphans::{earlier, if_wanted};
use std::alloc::Global;
use std::marker::Model;

/// A message in its receiver's live history, whose send was undone.
#[derive(Clone, Copy)]
pub(crate) struct Undone {
    pub(crate) msg: MsgNo,
    pub(crate) received: u32,
}

/// The messages of a sender that stand in a receiver's live history, but for those that both permanent parts have.
#[derive(Drop)]
pub(crate) struct ReceivedFrom {
    receiver: ProcNo,
    sender: ProcNo,
    // In the order of their sends, which is that of their receives.
    arrivals: Queue,
    // With room for all the arrivals.
    undone: Vec<Undone>,
}

impl Model for ReceivedFrom {
    ghost use Rattle.std.specs.Prelude.{◌+◌, ◌≤◌, length, vec_len, vec_capacity};
    ghost use Rattle.kt_walk.specs.Arrivals.{ReceivedParts};

    ghost Value = { ReceivedParts };

    ghost view = { λ c. record { receiver = c.receiver; sender = c.sender; arrivals = c.arrivals; undone = c.undone.items } };

    ghost invariant = { λ c. vec_len c.undone + length c.arrivals ≤ vec_capacity c.undone };
}

impl ReceivedFrom {
    /// No message.
    pub(crate) fn new(alloc: Global, receiver: ProcNo, sender: ProcNo) -> ReceivedFrom
        ensures { result ≡ record { receiver = receiver; sender = sender; arrivals = []; undone = [] } }
    {
        ReceivedFrom {
            receiver,
            sender,
            arrivals: Queue::new(alloc),
            undone: Vec::new(alloc),
        }
    }

    /// There are no messages.
    pub(crate) fn is_empty(&self) -> bool
        ensures { result ≡ is_empty self.now }
    {
        self.arrivals.len() == 0 && self.undone.is_empty()
    }

    /// One more message, the last one; unchanged where there is no memory.
    pub(crate) fn receive(&mut self, arrival: Arrival) -> Result<(), Memory>
        ensures ok { OnOk result (self.new ≡ record self.old { arrivals = self.old.arrivals ++ arrival ∷ [] }) }
        ensures err { OnErr result (self.new ≡ self.old) }
    {
        self.undone.reserve(self.arrivals.len() + 1)?;
        self.arrivals.push(arrival)?;
        Ok(())
    }

    /// Forgets the last arrival.
    pub(crate) fn forget_last(&mut self)
        ensures { self.new ≡ record self.old { arrivals = take (length self.old.arrivals - 1) self.old.arrivals } }
    {
        self.arrivals
            .truncate(self.arrivals.len().saturating_sub(1));
    }

    /// The process that receives.
    pub(crate) fn receiver(&self) -> ProcNo
        ensures { result ≡ self.now.receiver }
    {
        self.receiver
    }

    /// The process that sends.
    pub(crate) fn sender(&self) -> ProcNo
        ensures { result ≡ self.now.sender }
    {
        self.sender
    }

    /// Cuts the sender's history back.
    pub(crate) fn cut_sender(&mut self, place: usize)
        ensures receiver { self.new.receiver ≡ self.old.receiver }
        ensures sender { self.new.sender ≡ self.old.sender }
        ensures fewer { length self.new.arrivals ≤ length self.old.arrivals }
        ensures left { (k : ℕ) (a : Arrival) → slice_get self.new.arrivals k ≡ Some a
            → slice_get self.old.arrivals k ≡ Some a }
        ensures received_from { (received sent : List Deed) (i j : ℕ) → NumbersRise (sent_in sent) → j ≡ place
            → IsReceivedFrom self.old received sent i j → IsReceivedFrom self.new received (take place sent) i j }
    {
        let arrivals = self.arrivals.as_slice();
        let kept = count_sent_before(arrivals, place);
        undo_all(&mut self.undone, &arrivals[kept..]);
        self.arrivals.truncate(kept);
    }

    /// Keeps the first so many arrivals, and of those whose send was undone what is received before this place.
    pub(crate) fn forget_received(&mut self, kept: usize, place: usize)
        requires { kept ≤ length self.old.arrivals }
        ensures kept { self.new ≡ record self.old { arrivals = take kept self.old.arrivals; undone = take (length self.new.undone) self.old.undone } }
        ensures undone { AreInTurn self.old.undone → PartsAt undone_at self.old.undone place (length self.new.undone) }
    {
        self.arrivals.truncate(kept);
        let undone = count_undone_before(&self.undone, place);
        self.undone.truncate(undone);
    }

    /// The messages whose sends are live, in the order of their sends.
    pub(crate) fn arrivals(&self) -> &[Arrival]
        ensures { result.now ≡ self.now.arrivals }
    {
        self.arrivals.as_slice()
    }

    /// The messages whose sends were undone.
    pub(crate) fn undone(&self) -> &[Undone]
        ensures { result.now ≡ self.now.undone }
    {
        self.undone.as_slice()
    }

    /// Forgets what both permanent parts have, of these lengths by process.
    pub(crate) fn forget_permanent(&mut self, permanent: &[usize; 64])
        ensures receiver { self.new.receiver ≡ self.old.receiver }
        ensures sender { self.new.sender ≡ self.old.sender }
        ensures fewer { length self.new.arrivals ≤ length self.old.arrivals }
        ensures received_from { (received sent : List Deed) (i j : ℕ)
            → i ≤ slice_index permanent.now self.old.receiver → j ≤ slice_index permanent.now self.old.sender
            → IsReceivedFrom self.old received sent i j
            → IsReceivedFrom self.new received sent (slice_index permanent.now self.old.receiver) (slice_index permanent.now self.old.sender) }
        ensures none { AreRisingArrivals self.old.arrivals → IsUncovered permanent.now self.new }
    {
        let arrivals = self.arrivals.as_slice();
        let sent = count_sent_before(arrivals, permanent[self.sender.get() as usize]);
        let received = count_received_before(arrivals, permanent[self.receiver.get() as usize]);
        self.arrivals.skip(sent.min(received));
    }

    /// Gives back the room that the messages do not need, where there is room for more than a few.
    pub(crate) fn shrink(&mut self)
        ensures { self.new ≡ self.old }
    {
        self.arrivals.shrink();
        if self.undone.capacity() > FEW {
            let wanted = self.undone.len().saturating_add(self.arrivals.len());
            self.undone.shrink_to(wanted);
        }
    }

    /// The least message whose send is live that was sent at one place or later and received before another one.
    pub(crate) fn link(&self, sent: usize, received: usize) -> Option<MsgNo>
        ensures { AreRisingArrivals self.now.arrivals → IsFoundPast self.now.arrivals sent received result }
    {
        first_past(self.arrivals.as_slice(), sent, received)
    }

    /// The least message that is received within its receiver's part and not sent within its sender's.
    pub(crate) fn orphan(&self, cut: &Cut) -> Option<MsgNo>
        ensures orphan { IfSome result (λ msg. (s : Past) → IsInOrder s → ShowsReceived self.now s
            → IsOrphanBetween s (slice_index cut.now) self.now.receiver self.now.sender msg) }
        ensures least { (s : Past) (msg : ℕ) → s.permanent self.now.sender ≤ slice_index cut.now self.now.sender
            → ShowsReceived self.now s
            → IsOrphanBetween s (slice_index cut.now) self.now.receiver self.now.sender msg → IsAtMost result msg }
    {
        let received = cut.length(self.receiver);
        let sent = cut.length(self.sender);
        earlier(
            first_past(self.arrivals.as_slice(), sent, received),
            first_undone(&self.undone, received),
        )
    }
}

// Whether rising arrivals are sent at this place or later, all of them.
fn all_sent_from(arrivals: &[Arrival], place: usize) -> bool
    ensures { result ≡ true → AreRisingArrivals arrivals.now → PartsAt sent_at arrivals.now place 0 }
{
    match arrivals.first() {
        Some(first) => first.sent as usize >= place,
        None => true,
    }
}

// Whether rising arrivals are received at this place or later, all of them.
fn all_received_from(arrivals: &[Arrival], place: usize) -> bool
    ensures { result ≡ true → AreRisingArrivals arrivals.now → PartsAt received_at arrivals.now place 0 }
{
    match arrivals.first() {
        Some(first) => first.received as usize >= place,
        None => true,
    }
}

// How many of rising arrivals are sent before this place. It looks at the first one first.
fn count_sent_before(arrivals: &[Arrival], place: usize) -> usize
    ensures bound { result ≤ length arrivals.now }
    ensures parts { AreRisingArrivals arrivals.now → PartsAt sent_at arrivals.now place result }
{
    if all_sent_from(arrivals, place) {
        return 0;
    }
    arrivals.partition_point(
        |arrival: &Arrival| -> bool
            ensures { result ≡ nat_lt arrival.now.sent place }
        { (arrival.sent as usize) < place },
    )
}

// How many of rising arrivals are received before this place. It looks at the first one first.
pub(crate) fn count_received_before(arrivals: &[Arrival], place: usize) -> usize
    ensures bound { result ≤ length arrivals.now }
    ensures parts { AreRisingArrivals arrivals.now → PartsAt received_at arrivals.now place result }
{
    if all_received_from(arrivals, place) {
        return 0;
    }
    arrivals.partition_point(
        |arrival: &Arrival| -> bool
            ensures { result ≡ nat_lt arrival.now.received place }
        { (arrival.received as usize) < place },
    )
}

// Adds arrivals to what was undone, where there is room.
fn undo_all(undone: &mut Vec<Undone>, arrivals: &[Arrival])
    requires { vec_len undone.old + length arrivals.now ≤ vec_capacity undone.old }
    ensures items { undone.new.items ≡ undone.old.items ++ map undo arrivals.now }
    ensures len { vec_len undone.new ≡ vec_len undone.old + length arrivals.now }
    ensures capacity { vec_capacity undone.new ≡ vec_capacity undone.old }
{
    for arrival in arrivals {
        undone.push_reserved(Undone {
            msg: arrival.msg,
            received: arrival.received,
        });
    }
}

// How many of undone messages in order are received before this place.
pub(crate) fn count_undone_before(undone: &[Undone], place: usize) -> usize
    ensures bound { result ≤ length undone.now }
    ensures parts { AreInTurn undone.now → PartsAt undone_at undone.now place result }
{
    undone.partition_point(
        |message: &Undone| -> bool
            ensures { result ≡ nat_lt message.now.received place }
        { (message.received as usize) < place },
    )
}

// The first of rising arrivals that is not sent before one place, if it is received before another one.
fn first_past(arrivals: &[Arrival], sent: usize, received: usize) -> Option<MsgNo>
    ensures orphan { IfSome result (λ msg. AreRisingArrivals arrivals.now → (k : ℕ) × (a : Arrival)
        × (slice_get arrivals.now k ≡ Some a) × (a.msg ≡ msg) × (sent ≤ a.sent) × (a.received < received)) }
    ensures least { (k : ℕ) (a : Arrival) → AreRisingArrivals arrivals.now → slice_get arrivals.now k ≡ Some a
        → sent ≤ a.sent → a.received < received → IsAtMost result a.msg }
{
    let count = count_sent_before(arrivals, sent);
    let first = arrivals.get(count)?;
    if_wanted((first.received as usize) < received, first.msg)
}

// The least of what was undone that is received before this place: the first one, if it is.
fn first_undone(undone: &[Undone], place: usize) -> Option<MsgNo>
    ensures orphan { IfSome result (λ msg. (k : ℕ) × (u : Undone) × (slice_get undone.now k ≡ Some u)
        × (u.msg ≡ msg) × (u.received < place)) }
    ensures least { (k : ℕ) (u : Undone) → AreInTurn undone.now → slice_get undone.now k ≡ Some u
        → u.received < place → IsAtMost result u.msg }
{
    let first = undone.first()?;
    if_wanted((first.received as usize) < place, first.msg)
}
