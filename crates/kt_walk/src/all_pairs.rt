//! The messages of each pair of processes that can still matter.

ghost use Rattle.std.specs.Prelude.{◌≡◌, ◌≢◌, ◌≤◌, ◌<◌, ◌+◌, ◌*◌, ◌||◌, ℕ, List, None, Some, true, false, is_some, length, map, slice_get, slice_index, OnOk, OnErr, IfSome, IfNone};
ghost use Rattle.kt_spacetime.specs.declared.event.Event.TheVariants as event;
ghost use Rattle.kt_spacetime.specs.declared.deeds.Deed.TheVariants as deed;
ghost use Rattle.kt_meaning.specs.Past.{Past, start, after};
ghost use Rattle.std.specs.List.{list_all};
ghost use Rattle.kt_meaning.specs.Legal.{is_undelivered, is_later};
ghost use Rattle.kt_rules.specs.Tests.{is_after};
ghost use Rattle.kt_rules.specs.Orphans.{IsOrphanBetween, IsAtMost};
ghost use Rattle.kt_rules.specs.Standing.{IsInOrder, IsAllowed};
ghost use Rattle.kt_walk.specs.declared.in_transit.Sent.{Sent};
ghost use Rattle.kt_walk.specs.Searching.{IsFoundPast};
ghost use Rattle.kt_walk.specs.Arrivals.{IsByPair, ShowsReceived, RollsBack, MakesPermanent, KeepsPermanent};
ghost use Rattle.kt_base.specs.Sets.{has};
ghost use Rattle.kt_walk.specs.Peers.{is_in};
ghost use Rattle.kt_walk.specs.Pairs.{PairState, received_from_of, AreInUse, with_new, new_pair_state, IsPairCommitted, IsFitPast, IsEachOnce, AreNotDropped, ShowsPairs};

use crate::in_transit::Sent;
use crate::pair::Pair;
use crate::peers::Peers;
use crate::queue::Arrival;
use kt_base::{Kind, Memory, MsgNo, ProcNo, ProcSet};
use kt_rules::Cut;
use kt_rules::orphans::earlier;
use std::alloc::Global;
use std::marker::Model;

/// The messages that each process has sent to each other and that can still matter.
#[derive(Drop)]
pub(crate) struct Pairs {
    // By receiver and then by sender, up to the last one in which a message was sent.
    pub(crate) pairs: Vec<Pair>,
    // Those that have messages; others may be among them.
    pub(crate) used: Peers,
    // Those that came to have no messages, and may still have room.
    resting: Peers,
}

impl Model for Pairs {
    ghost use Rattle.std.specs.Prelude.{List, map};
    ghost use Rattle.kt_walk.specs.Arrivals.{IsByPair};
    ghost use Rattle.kt_base.specs.Sets.{has};
    ghost use Rattle.kt_walk.specs.Peers.{is_in};
    ghost use Rattle.kt_walk.specs.Pairs.{PairState, received_from_of, AreInUse, with_new};

    ghost Value = { List PairState };

    ghost view = { λ a. with_new a.pairs.items };

    ghost invariant = { λ a. IsByPair (map received_from_of (with_new a.pairs.items)) × AreInUse a.pairs.items a.used };
}

impl Pairs {
    /// No messages, before the first row. It takes no memory.
    pub(crate) fn new(alloc: Global) -> Pairs
        ensures { ShowsPairs result start }
    {
        Pairs {
            pairs: Vec::new(alloc),
            used: Peers::new(),
            resting: Peers::new(),
        }
    }

    /// A pair; None where no message was sent yet in it or in a later one.
    #[inline(always)]
    pub(crate) fn pair(&self, receiver: ProcNo, sender: ProcNo) -> Option<&Pair>
        ensures by_pair { IsByPair (map received_from_of self.now) }
        ensures some { IfSome result (λ v. slice_get self.now (receiver * 64 + sender) ≡ Some v.now) }
        ensures none { IfNone result (slice_get self.now (receiver * 64 + sender)
            ≡ Some (new_pair_state receiver sender)) }
        ensures receiver_in_range { receiver < 64 }
        ensures sender_in_range { sender < 64 }
    {
        self.pairs.get(index_of(receiver, sender))
    }

    /// A message, if it is in transit to this process, and its place among those that are.
    #[inline(always)]
    pub(crate) fn find(&self, p: ProcNo, from: ProcNo, msg: MsgNo) -> Option<(usize, Sent)>
        ensures is { (s : Past) → ShowsPairs self.now s → is_some result ≡ is_undelivered s p from msg }
        ensures found { IfSome result (λ r. (v : PairState) → slice_get self.now (p * 64 + from) ≡ Some v
            → (slice_get v.in_transit r.0 ≡ Some r.1)) }
        ensures number { IfSome result (λ r. r.1.msg ≡ msg) }
    {
        self.pair(p, from)?.find(msg)
    }

    /// What this process received last of the other one, in its live history.
    pub(crate) fn last(&self, p: ProcNo, from: ProcNo) -> Option<MsgNo>
        ensures is { (s : Past) (msg : ℕ) → ShowsPairs self.now s
            → list_all (is_later from msg) (s.live p) ≡ is_after msg result }
        ensures known { (v : PairState) → slice_get self.now (p * 64 + from) ≡ Some v → v.last ≡ result }
    {
        self.pair(p, from)?.last()
    }

    /// Whether there may be a message to this process from the other one; where there is none, `link` finds none.
    #[inline(always)]
    pub(crate) fn may_link(&self, p: ProcNo, from: ProcNo) -> bool
        ensures { result ≡ false → (sent received : ℕ) → (v : PairState)
            × (slice_get self.now (p * 64 + from) ≡ Some v) × IsFoundPast v.received_from.arrivals sent received None }
    {
        self.used.has(index_of(p, from))
    }

    /// The least message to this process from the other one in both live histories that was sent at one place or later
    /// and received before another one.
    pub(crate) fn link(
        &self,
        p: ProcNo,
        from: ProcNo,
        sent: usize,
        received: usize,
    ) -> Option<MsgNo>
        ensures { (s : Past) → ShowsPairs self.now s → (v : PairState) × (slice_get self.now (p * 64 + from) ≡ Some v)
            × IsFoundPast v.received_from.arrivals sent received result }
    {
        self.pair(p, from)?.link(sent, received)
    }

    /// A process, p, sends a message to another one; unchanged where there is no memory.
    pub(crate) fn send(&mut self, p: ProcNo, to: ProcNo, message: Sent) -> Result<(), Memory>
        ensures ok { OnOk result ((s : Past) (body : _) → ShowsPairs self.old s → IsFitPast s → p ≢ to
            → message.msg ≡ s.rows + 1 → message.place ≡ length (s.live p)
            → ShowsPairs self.new (after s (event.Sent p to body))) }
        ensures err { OnErr result (self.new ≡ self.old) }
    {
        let place = index_of(to, p);
        make_up_to(&mut self.pairs, place)?;
        self.pairs[place].send(message)?;
        self.used.add(place);
        Ok(())
    }

    /// A process, p, receives a message that is in transit to it, at this place among those that are; unchanged where
    /// there is no memory.
    pub(crate) fn receive(
        &mut self,
        p: ProcNo,
        from: ProcNo,
        index: usize,
        arrival: Arrival,
    ) -> Result<(), Memory>
        requires { (v : PairState) → slice_get self.old (p * 64 + from) ≡ Some v
            → slice_get v.in_transit index ≡ Some (record { msg = arrival.msg; place = arrival.sent }) }
        ensures ok { OnOk result ((s : Past) → ShowsPairs self.old s → IsFitPast s → IsInOrder s
            → IsAllowed s (event.Received p from arrival.msg) → arrival.received ≡ length (s.live p)
            → ShowsPairs self.new (after s (event.Received p from arrival.msg))) }
        ensures err { OnErr result (self.new ≡ self.old) }
    {
        let place = index_of(p, from);
        self.pairs[place].receive(index, arrival)
    }

    /// A process, p, drops a message that is in transit to it, at this place among those that are; unchanged where there
    /// is no memory.
    pub(crate) fn drop_message(
        &mut self,
        p: ProcNo,
        from: ProcNo,
        index: usize,
        message: Sent,
    ) -> Result<(), Memory>
        requires { (v : PairState) → slice_get self.old (p * 64 + from) ≡ Some v
            → slice_get v.in_transit index ≡ Some message }
        ensures ok { OnOk result ((s : Past) → ShowsPairs self.old s → IsFitPast s
            → ShowsPairs self.new (after s (event.Dropped p from message.msg))) }
        ensures err { OnErr result (self.new ≡ self.old) }
    {
        let place = index_of(p, from);
        let pair = &mut self.pairs[place];
        pair.drop_message(index)?;
        if pair.is_idle() {
            self.used.remove(place);
            self.resting.add(place);
        }
        Ok(())
    }

    /// The least orphan of a cut that keeps the permanent parts.
    pub(crate) fn orphan(&self, cut: &Cut) -> Option<MsgNo>
        ensures orphan { IfSome result (λ msg. (s : Past) → ShowsPairs self.now s → IsInOrder s → (p : ℕ) × (q : ℕ)
            × IsOrphanBetween s (slice_index cut.now) p q msg) }
        ensures least { (s : Past) (p q msg : ℕ) → ShowsPairs self.now s → KeepsPermanent s cut.now
            → IsOrphanBetween s (slice_index cut.now) p q msg → IsAtMost result msg }
    {
        least_orphan_of(&self.pairs, &self.used, cut)
    }

    /// The least orphan, of a cut that keeps the permanent parts, between two processes of which one is a member.
    pub(crate) fn orphan_among(&self, members: ProcSet, cut: &Cut) -> Option<MsgNo>
        ensures orphan { IfSome result (λ msg. (s : Past) → ShowsPairs self.now s → IsInOrder s → (p : ℕ) × (q : ℕ)
            × IsOrphanBetween s (slice_index cut.now) p q msg × ((has members p || has members q) ≡ true)) }
        ensures least { (s : Past) (p q msg : ℕ) → ShowsPairs self.now s → KeepsPermanent s cut.now
            → (has members p || has members q) ≡ true → IsOrphanBetween s (slice_index cut.now) p q msg
            → IsAtMost result msg }
    {
        least_orphan_of(&self.pairs, &self.used.of(members), cut)
    }

    /// Gives back the room of the pairs that came to have no messages at the last decision or after it, and have none
    /// now, where it is room for more than a few. Those that have messages at each decision keep it, so that it is not
    /// asked for again and again.
    pub(crate) fn shrink(&mut self)
        ensures { self.new ≡ self.old }
    {
        shrink_all(&mut self.pairs, &self.resting);
        self.resting = Peers::new();
    }

    /// A committed rollback cuts the members' histories back to the permanent lengths.
    pub(crate) fn roll_back(&mut self, members: ProcSet, permanent: &[usize; 64])
        ensures { (s : Past) (p k : ℕ) → ShowsPairs self.old s → ((q : ℕ) → IsEachOnce (s.live q))
            → ((q r : ℕ) → AreNotDropped r (s.live q) s.dropped) → IsInOrder s → RollsBack s k members permanent.now
            → ShowsPairs self.new (after s (event.Decided p k true)) }
    {
        commit_all(
            &mut self.pairs,
            &mut self.used,
            &mut self.resting,
            Kind::Rollback,
            members,
            permanent,
        );
    }

    /// A committed checkpoint of these members leaves these permanent lengths. Messages that both permanent parts have
    /// are forgotten.
    pub(crate) fn commit_checkpoint(&mut self, members: ProcSet, permanent: &[usize; 64])
        ensures { (s : Past) (p k : ℕ) → ShowsPairs self.old s → MakesPermanent s k members permanent.now
            → ShowsPairs self.new (after s (event.Decided p k true)) }
    {
        commit_all(
            &mut self.pairs,
            &mut self.used,
            &mut self.resting,
            Kind::Checkpoint,
            members,
            permanent,
        );
    }
}

/// The place of the pair of a receiver and a sender.
pub(crate) fn index_of(receiver: ProcNo, sender: ProcNo) -> usize
    ensures value { result ≡ receiver * 64 + sender }
    ensures receiver_in_range { receiver < 64 }
    ensures sender_in_range { sender < 64 }
{
    receiver.get() as usize * 64 + sender.get() as usize
}

// An instance of these members is committed, in each pair that has messages and a member. Those that come to have no
// messages are in use no more, and rest.
fn commit_all(
    pairs: &mut [Pair],
    used: &mut Peers,
    resting: &mut Peers,
    kind: Kind,
    members: ProcSet,
    permanent: &[usize; 64],
)
    requires by_pair { IsByPair (map received_from_of (with_new pairs.old)) }
    requires in_use { AreInUse pairs.old used.old }
    ensures count { length pairs.new ≡ length pairs.old }
    ensures each { (i : ℕ) (w : PairState) → slice_get pairs.new i ≡ Some w → (v : PairState)
        × (slice_get pairs.old i ≡ Some v) × IsPairCommitted kind members permanent.now v w }
    ensures in_use { AreInUse pairs.new used.new }
{
    let places = used.of(members);
    let mut next = 0;
    while let Some(place) = places.first_between(next, pairs.len()) {
        let pair = &mut pairs[place];
        pair.commit(kind, members, permanent);
        if pair.is_idle() {
            used.remove(place);
            resting.add(place);
        }
        next = place + 1;
    }
}

// Gives back the room of those of these pairs that have no messages.
fn shrink_all(pairs: &mut [Pair], places: &Peers)
    ensures { pairs.new ≡ pairs.old }
{
    let mut next = 0;
    while let Some(place) = places.first_between(next, pairs.len()) {
        pairs[place].shrink();
        next = place + 1;
    }
}

// The least orphan of the pairs at these places.
fn least_orphan_of(pairs: &[Pair], places: &Peers, cut: &Cut) -> Option<MsgNo>
    requires { length pairs.now ≤ 4096 }
    ensures orphan { IfSome result (λ msg. (k : ℕ) × (v : PairState) × (slice_get pairs.now k ≡ Some v)
        × (is_in places.now k ≡ true)
        × ((s : Past) → IsInOrder s → ShowsReceived v.received_from s
        → IsOrphanBetween s (slice_index cut.now) v.received_from.receiver v.received_from.sender msg)) }
    ensures least { (k : ℕ) (v : PairState) (s : Past) (msg : ℕ) → is_in places.now k ≡ true
        → slice_get pairs.now k ≡ Some v
        → s.permanent v.received_from.sender ≤ slice_index cut.now v.received_from.sender
        → ShowsReceived v.received_from s
        → IsOrphanBetween s (slice_index cut.now) v.received_from.receiver v.received_from.sender msg
        → IsAtMost result msg }
{
    let mut least = None;
    let mut next = 0;
    while let Some(place) = places.first_between(next, pairs.len()) {
        least = earlier(least, pairs[place].orphan(cut));
        next = place + 1;
    }
    least
}

// Makes the pairs up to this place, those that are not there yet.
#[inline(always)]
fn make_up_to(pairs: &mut Vec<Pair>, place: usize) -> Result<(), Memory>
    requires { place < 4096 }
    ensures same { with_new pairs.new.items ≡ with_new pairs.old.items }
    ensures made { OnOk result (place < length pairs.new.items) }
{
    for number in pairs.len()..place + 1 {
        let receiver = ProcNo::nth((number / 64) as u8);
        let sender = ProcNo::nth((number % 64) as u8);
        pairs.push(Pair::new(*pairs.allocator(), receiver, sender))?;
    }
    Ok(())
}
