//! The messages from one process to another that can still matter.

ghost use Rattle.std.specs.Prelude.{◌≡◌, ◌+◌, ◌^◌, ◌≤◌, ◌<◌, ◌++◌, ◌∷◌, [], ℕ, List, Bool, None, Some, true, length, take, remove, slice_get, slice_index, IfSome, IfNone, OnOk, OnErr};
ghost use Rattle.kt_spacetime.specs.declared.deeds.Deed.{Deed};
ghost use Rattle.kt_spacetime.specs.declared.deeds.Deed.TheVariants as deed;
ghost use Rattle.kt_meaning.specs.Past.{Past};
ghost use Rattle.kt_rules.specs.Lists.{NumbersRise, sent_in};
ghost use Rattle.kt_rules.specs.Orphans.{IsOrphanBetween, IsAtMost};
ghost use Rattle.kt_rules.specs.Standing.{IsInOrder};
ghost use Rattle.kt_walk.specs.TransitList.{AreInTransit, IsBySend};
ghost use Rattle.kt_walk.specs.LastReceived.{IsLastFrom};
ghost use Rattle.kt_walk.specs.declared.queue.Arrival.{Arrival};
ghost use Rattle.kt_walk.specs.Searching.{IsFoundPast};
ghost use Rattle.kt_walk.specs.Arrivals.{AreRisingArrivals, IsUncovered, ShowsReceived, cut_back};
ghost use Rattle.kt_walk.specs.Pairs.{but_for, count_of, is_idle, IsPairCutBack, IsPairCommitted, IsPairState, IsEachOnce, AreNotDropped, Grows};

use crate::in_transit::{InTransit, Sent};
use crate::last::{last_arrival, last_undone, latest};
use crate::opt_msg_no::OptMsgNo;
use crate::queue::Arrival;
use crate::received_from::{ReceivedFrom, count_received_before};
use kt_base::{Kind, Memory, MsgNo, ProcNo, ProcSet};
use kt_rules::Cut;
use std::alloc::Global;
use std::marker::Model;

// Puts messages back that are received no more.
pub(crate) fn put_all_back(in_transit: &mut InTransit, arrivals: &[Arrival])
    requires { length in_transit.old.messages + length arrivals.now ≤ in_transit.old.room }
    ensures count { length in_transit.new.messages ≡ length in_transit.old.messages + length arrivals.now }
    ensures room { in_transit.old.room ≤ in_transit.new.room }
    ensures in_transit { (receiver : ℕ) (sent : List Deed) (away : ℕ → Bool) → NumbersRise (sent_in sent)
        → AreInTransit in_transit.old.messages receiver sent away
        → AreRisingArrivals arrivals.now → ((k : ℕ) (a : Arrival) → slice_get arrivals.now k ≡ Some a
        → (slice_get sent a.sent ≡ Some (deed.Sent a.msg receiver)) × (away a.msg ≡ true))
        → AreInTransit in_transit.new.messages receiver sent (but_for arrivals.now away) }
{
    for arrival in arrivals.iter().rev() {
        in_transit.put_back(Sent {
            msg: arrival.msg,
            place: arrival.sent,
        });
    }
}

/// What is kept of the messages from one process to another.
#[derive(Drop)]
pub(crate) struct Pair {
    // Those received, but for those that both permanent parts have.
    pub(crate) received_from: ReceivedFrom,
    // Those in transit, with room for those received too.
    in_transit: InTransit,
    // What was received last, in the receiver's live history and in its permanent part.
    last: OptMsgNo,
    last_permanent: OptMsgNo,
}

impl Model for Pair {
    ghost use Rattle.std.specs.Prelude.{◌+◌, ◌≤◌, length};
    ghost use Rattle.kt_walk.specs.Pairs.{PairState};

    ghost Value = { PairState };

    ghost view = { λ p. record { received_from = p.received_from; in_transit = p.in_transit.messages; last = p.last; last_permanent = p.last_permanent } };

    ghost invariant = { λ p. length p.in_transit.messages + length p.received_from.arrivals ≤ p.in_transit.room };
}

impl Pair {
    /// No message.
    pub(crate) fn new(alloc: Global, receiver: ProcNo, sender: ProcNo) -> Pair
        ensures { result ≡ record { received_from = record { receiver = receiver; sender = sender; arrivals = []; undone = [] }; in_transit = []; last = None; last_permanent = None } }
    {
        Pair {
            received_from: ReceivedFrom::new(alloc, receiver, sender),
            in_transit: InTransit::new(alloc),
            last: OptMsgNo::of(None),
            last_permanent: OptMsgNo::of(None),
        }
    }

    /// There are no messages.
    pub(crate) fn is_idle(&self) -> bool
        ensures { result ≡ is_idle self.now }
    {
        self.received_from.is_empty() && self.in_transit.len() == 0
    }

    /// The least message that is received within its receiver's part and not sent within its sender's.
    pub(crate) fn orphan(&self, cut: &Cut) -> Option<MsgNo>
        ensures orphan { IfSome result (λ msg. (s : Past) → IsInOrder s → ShowsReceived self.now.received_from s
            → IsOrphanBetween s (slice_index cut.now) self.now.received_from.receiver self.now.received_from.sender msg) }
        ensures least { (s : Past) (msg : ℕ)
            → s.permanent self.now.received_from.sender ≤ slice_index cut.now self.now.received_from.sender
            → ShowsReceived self.now.received_from s
            → IsOrphanBetween s (slice_index cut.now) self.now.received_from.receiver self.now.received_from.sender msg → IsAtMost result msg }
    {
        self.received_from.orphan(cut)
    }

    /// The least message in both live histories that was sent at one place or later and received before another one.
    pub(crate) fn link(&self, sent: usize, received: usize) -> Option<MsgNo>
        ensures { AreRisingArrivals self.now.received_from.arrivals
            → IsFoundPast self.now.received_from.arrivals sent received result }
    {
        self.received_from.link(sent, received)
    }

    /// What was received last, in the live history.
    pub(crate) fn last(&self) -> Option<MsgNo>
        ensures { result ≡ self.now.last }
    {
        self.last.get()
    }

    /// One more message is sent; unchanged where there is no memory.
    pub(crate) fn send(&mut self, message: Sent) -> Result<(), Memory>
        ensures ok { OnOk result (self.new ≡ record self.old { in_transit = self.old.in_transit ++ message ∷ [] }) }
        ensures err { OnErr result (self.new ≡ self.old) }
    {
        self.in_transit
            .reserve(self.received_from.arrivals().len() + 1)?;
        self.in_transit.push(message);
        Ok(())
    }

    /// A message, if it is in transit, and its place among those that are.
    #[inline(always)]
    pub(crate) fn find(&self, msg: MsgNo) -> Option<(usize, Sent)>
        ensures found { IfSome result (λ r. (slice_get self.now.in_transit r.0 ≡ Some r.1) × (r.1.msg ≡ msg)) }
        ensures none { IfNone result (IsBySend self.now.in_transit → (k : ℕ) (w : Sent)
            → slice_get self.now.in_transit k ≡ Some w → w.msg ≡ msg → ⊥) }
    {
        // Most messages are received in their turn.
        if let Some(first) = self.in_transit.get(0) {
            if first.msg.get() == msg.get() {
                return Some((0, first));
            }
        }
        let index = self.in_transit.find(msg)?;
        let message = self.in_transit.get(index)?;
        Some((index, message))
    }

    /// The message at this place among those in transit is received; unchanged where there is no memory.
    pub(crate) fn receive(&mut self, index: usize, arrival: Arrival) -> Result<(), Memory>
        requires { index < length self.old.in_transit }
        ensures ok { OnOk result (self.new ≡ record self.old { received_from = record self.old.received_from { arrivals = self.old.received_from.arrivals ++ arrival ∷ [] }; in_transit = remove self.old.in_transit index; last = Some arrival.msg }) }
        ensures err { OnErr result (self.new ≡ self.old) }
    {
        let last = OptMsgNo::of(Some(arrival.msg));
        self.received_from.receive(arrival)?;
        let taken = self.in_transit.take(index);
        if taken.is_err() {
            self.received_from.forget_last();
            return taken;
        }
        self.last = last;
        Ok(())
    }

    /// The message at this place among those in transit is dropped; unchanged where there is no memory.
    pub(crate) fn drop_message(&mut self, index: usize) -> Result<(), Memory>
        requires { index < length self.old.in_transit }
        ensures ok { OnOk result (self.new ≡ record self.old { in_transit = remove self.old.in_transit index }) }
        ensures err { OnErr result (self.new ≡ self.old) }
    {
        self.in_transit.take(index)
    }

    /// Gives back the room that was needed, where there are no messages and it is room for more than a few.
    pub(crate) fn shrink(&mut self)
        ensures { self.new ≡ self.old }
    {
        if self.is_idle() {
            self.received_from.shrink();
            self.in_transit.shrink(self.received_from.arrivals().len());
        }
    }

    /// How many messages there are.
    pub(crate) fn count(&self) -> usize
        ensures { count_of self.now < 2 ^ 64 → result ≡ count_of self.now }
    {
        self.in_transit
            .len()
            .saturating_add(self.received_from.arrivals().len())
            .saturating_add(self.received_from.undone().len())
    }

    /// Forgets what both permanent parts have, once those of these members have grown to these lengths by process.
    fn forget_permanent(&mut self, members: ProcSet, permanent: &[usize; 64])
        ensures receiver { self.new.received_from.receiver ≡ self.old.received_from.receiver }
        ensures sender { self.new.received_from.sender ≡ self.old.received_from.sender }
        ensures pair_state { (received sent : List Deed) (dropped : ℕ → Bool) (i j : ℕ)
            → Grows members permanent.now self.old.received_from.receiver i
            → j ≤ slice_index permanent.now self.old.received_from.sender
            → IsPairState self.old received sent dropped i j
            → IsPairState self.new received sent dropped (slice_index permanent.now self.old.received_from.receiver) (slice_index permanent.now self.old.received_from.sender) }
        ensures none { AreRisingArrivals self.old.received_from.arrivals → IsUncovered permanent.now self.new.received_from }
    {
        self.last_permanent = OptMsgNo::of(self.last_in_permanent(members, permanent));
        self.received_from.forget_permanent(permanent);
    }

    // What was received last in the receiver's permanent part, once those of these members have grown to these lengths by
    // process: as before, where the receiver is none of them.
    fn last_in_permanent(&self, members: ProcSet, permanent: &[usize; 64]) -> Option<MsgNo>
        ensures { (received sent : List Deed) (dropped : ℕ → Bool) (i j : ℕ)
            → Grows members permanent.now self.now.received_from.receiver i
            → IsPairState self.now received sent dropped i j
            → IsLastFrom result self.now.received_from.sender (take (slice_index permanent.now self.now.received_from.receiver) received) }
    {
        let receiver = self.received_from.receiver();
        if !members.has(receiver) {
            return self.last_permanent.get();
        }
        self.last_before(permanent[receiver.get() as usize])
    }

    // What was received last before this place, which is not before the permanent part ends.
    fn last_before(&self, place: usize) -> Option<MsgNo>
        ensures { (received sent : List Deed) (dropped : ℕ → Bool) (i j : ℕ) → i ≤ place
            → IsPairState self.now received sent dropped i j
            → IsLastFrom result self.now.received_from.sender (take place received) }
    {
        let arrived = last_arrival(self.received_from.arrivals(), place);
        let undone = last_undone(self.received_from.undone(), place);
        latest(self.last_permanent.get(), latest(arrived, undone))
    }

    /// An instance of these members is committed, which leaves these permanent lengths.
    pub(crate) fn commit(&mut self, kind: Kind, members: ProcSet, permanent: &[usize; 64])
        ensures { IsPairCommitted kind members permanent.now self.old self.new }
    {
        match kind {
            Kind::Checkpoint => self.forget_permanent(members, permanent),
            Kind::Rollback => self.cut_back(members, permanent),
        }
    }

    /// Cuts the histories of these processes back to their permanent parts, of these lengths.
    fn cut_back(&mut self, members: ProcSet, lengths: &[usize; 64])
        ensures { IsPairCutBack members lengths.now self.old self.new }
    {
        self.cut_sender_back(members, lengths);
        self.cut_receiver_back(members, lengths);
    }

    // Cuts the sender's history back, if it is a member.
    fn cut_sender_back(&mut self, members: ProcSet, lengths: &[usize; 64])
        ensures receiver { self.new.received_from.receiver ≡ self.old.received_from.receiver }
        ensures sender { self.new.received_from.sender ≡ self.old.received_from.sender }
        ensures pair_state { (received sent : List Deed) (dropped : ℕ → Bool) (i j : ℕ) → NumbersRise (sent_in sent)
            → j ≡ slice_index lengths.now self.old.received_from.sender
            → IsPairState self.old received sent dropped i j
            → IsPairState self.new received (cut_back members lengths.now self.old.received_from.sender sent) dropped i j }
        ensures left { (k : ℕ) (a : Arrival) → slice_get self.new.received_from.arrivals k ≡ Some a
            → slice_get self.old.received_from.arrivals k ≡ Some a }
    {
        let sender = self.received_from.sender();
        if members.has(sender) {
            self.cut_sender(lengths[sender.get() as usize]);
        }
    }

    // Cuts the receiver's history back, if it is a member.
    fn cut_receiver_back(&mut self, members: ProcSet, lengths: &[usize; 64])
        ensures receiver { self.new.received_from.receiver ≡ self.old.received_from.receiver }
        ensures sender { self.new.received_from.sender ≡ self.old.received_from.sender }
        ensures pair_state { (received sent : List Deed) (dropped : ℕ → Bool) (i j : ℕ) → NumbersRise (sent_in sent)
            → IsEachOnce received → AreNotDropped self.old.received_from.sender received dropped
            → i ≡ slice_index lengths.now self.old.received_from.receiver
            → IsPairState self.old received sent dropped i j
            → IsPairState self.new (cut_back members lengths.now self.old.received_from.receiver received) sent dropped i j }
        ensures left { (k : ℕ) (a : Arrival) → slice_get self.new.received_from.arrivals k ≡ Some a
            → slice_get self.old.received_from.arrivals k ≡ Some a }
    {
        let receiver = self.received_from.receiver();
        if members.has(receiver) {
            self.cut_receiver(lengths[receiver.get() as usize]);
        }
    }

    /// Cuts the receiver's history back to its permanent part, of this length.
    fn cut_receiver(&mut self, place: usize)
        ensures receiver { self.new.received_from.receiver ≡ self.old.received_from.receiver }
        ensures sender { self.new.received_from.sender ≡ self.old.received_from.sender }
        ensures pair_state { (received sent : List Deed) (dropped : ℕ → Bool) (j : ℕ) → NumbersRise (sent_in sent)
            → IsEachOnce received → AreNotDropped self.old.received_from.sender received dropped
            → IsPairState self.old received sent dropped place j
            → IsPairState self.new (take place received) sent dropped place j }
        ensures left { (k : ℕ) (a : Arrival) → slice_get self.new.received_from.arrivals k ≡ Some a
            → slice_get self.old.received_from.arrivals k ≡ Some a }
    {
        let arrivals = self.received_from.arrivals();
        let kept = count_received_before(arrivals, place);
        put_all_back(&mut self.in_transit, &arrivals[kept..]);
        self.received_from.forget_received(kept, place);
        self.last = self.last_permanent;
    }

    /// Cuts the sender's history back.
    fn cut_sender(&mut self, place: usize)
        ensures receiver { self.new.received_from.receiver ≡ self.old.received_from.receiver }
        ensures sender { self.new.received_from.sender ≡ self.old.received_from.sender }
        ensures pair_state { (received sent : List Deed) (dropped : ℕ → Bool) (i j : ℕ) → NumbersRise (sent_in sent)
            → j ≡ place
            → IsPairState self.old received sent dropped i j
            → IsPairState self.new received (take place sent) dropped i j }
        ensures left { (k : ℕ) (a : Arrival) → slice_get self.new.received_from.arrivals k ≡ Some a
            → slice_get self.old.received_from.arrivals k ≡ Some a }
    {
        self.in_transit
            .truncate(self.in_transit.count_before(place));
        self.received_from.cut_sender(place);
    }
}
