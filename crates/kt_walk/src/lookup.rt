//! Messages are looked for among those of pairs of processes, and counted.

ghost use Rattle.std.specs.Prelude.{◌≡◌, ◌≤◌, ◌<◌, ◌^◌, ℕ, List, nat_lt, length, slice_get, Some, None, IfSome, IfNone};
ghost use Rattle.kt_spacetime.specs.declared.event.Event.{Event};
ghost use Rattle.kt_rules.specs.declared.traces.Trace.{Trace};
ghost use Rattle.kt_meaning.specs.Past.{past};
ghost use Rattle.kt_meaning.specs.Legal.{IsLegal};
ghost use Rattle.kt_walk.specs.TransitList.{IsBySend};
ghost use Rattle.kt_walk.specs.declared.queue.Arrival.{Arrival};
ghost use Rattle.kt_walk.specs.declared.received_from.Undone.{Undone};
ghost use Rattle.kt_walk.specs.Arrivals.{Has, AreRisingArrivals, PartsAt};
ghost use Rattle.kt_walk.specs.Pairs.{PairState, ShowsPairs};
ghost use Rattle.kt_walk.specs.TraceEntries.{entries_of, entries_of_all, number_of, trace_at};
ghost use Rattle.kt_walk.specs.Keeping.{kept_trace, held_of};

use crate::all_pairs::Pairs;
use crate::pair::Pair;
use crate::queue::Arrival;
use crate::received_from::Undone;
use kt_base::{MsgNo, ProcNo};
use kt_rules::Trace;

impl Pair {
    /// What is kept of a message, if there is one of this number.
    pub(crate) fn trace(&self, msg: MsgNo) -> Option<Trace>
        ensures found { IfSome result (λ t. Has (entries_of self.now) (msg, t)) }
        ensures none { IfNone result (IsBySend self.now.in_transit → AreRisingArrivals self.now.received_from.arrivals
            → (t : Trace) → Has (entries_of self.now) (msg, t) → ⊥) }
    {
        if let Some((_, message)) = self.find(msg) {
            return Some(self.trace_with(Some(message.place as usize + 1), None));
        }
        if let Some(arrival) = find_arrival(self.received_from.arrivals(), msg) {
            let sent = arrival.sent as usize + 1;
            return Some(self.trace_with(Some(sent), Some(arrival.received as usize + 1)));
        }
        let undone = find_undone(self.received_from.undone(), msg)?;
        Some(self.trace_with(None, Some(undone.received as usize + 1)))
    }

    /// The places of the send and the receive of a message that both live histories have, counted from 1.
    pub(crate) fn places(&self, msg: MsgNo) -> Option<(usize, usize)>
        ensures found { IfSome result (λ r. Has (entries_of self.now) (msg, trace_at self.now.received_from r)) }
        ensures none { IfNone result (AreRisingArrivals self.now.received_from.arrivals → (sent received : ℕ)
            → Has (entries_of self.now) (msg, trace_at self.now.received_from (sent, received)) → ⊥) }
    {
        let arrival = find_arrival(self.received_from.arrivals(), msg)?;
        Some((arrival.sent as usize + 1, arrival.received as usize + 1))
    }

    // A message with these places.
    fn trace_with(&self, sent: Option<usize>, received: Option<usize>) -> Trace
        ensures { result ≡ record { from = self.now.received_from.sender; to = self.now.received_from.receiver; sent = sent; received = received } }
    {
        Trace {
            from: self.received_from.sender(),
            to: self.received_from.receiver(),
            sent,
            received,
        }
    }
}

impl Pairs {
    /// The places, counted from 1, of the send and the receive of a message from one process to another that is kept and
    /// that both live histories have.
    pub(crate) fn places(&self, from: ProcNo, to: ProcNo, msg: MsgNo) -> Option<(usize, usize)>
        ensures found { IfSome result (λ r. (rows : List Event) → IsLegal rows → ShowsPairs self.now (past rows)
            → kept_trace rows msg ≡ Some (record { from = from; to = to; sent = Some r.0; received = Some r.1 })) }
        ensures none { IfNone result ((rows : List Event) (sent received : ℕ) → IsLegal rows
            → ShowsPairs self.now (past rows)
            → kept_trace rows msg ≡ Some (record { from = from; to = to; sent = Some sent; received = Some received }) → ⊥) }
    {
        self.pair(to, from)?.places(msg)
    }

    /// What is kept of a message.
    pub(crate) fn trace(&self, msg: MsgNo) -> Option<Trace>
        ensures { (rows : List Event) → IsLegal rows → ShowsPairs self.now (past rows) → result ≡ kept_trace rows msg }
    {
        first_trace(&self.pairs, msg)
    }

    /// How many messages are kept.
    pub(crate) fn count(&self) -> usize
        ensures { (rows : List Event) → IsLegal rows → ShowsPairs self.now (past rows) → held_of rows < 2 ^ 64
            → result ≡ held_of rows }
    {
        count_all(&self.pairs)
    }
}

// What is kept of a message by all pairs.
fn first_trace(pairs: &[Pair], msg: MsgNo) -> Option<Trace>
    ensures found { IfSome result (λ t. (i : ℕ) × (v : PairState) × (slice_get pairs.now i ≡ Some v)
        × Has (entries_of v) (msg, t)) }
    ensures none { IfNone result ((i : ℕ) (v : PairState) (t : Trace) → slice_get pairs.now i ≡ Some v
        → IsBySend v.in_transit → AreRisingArrivals v.received_from.arrivals → Has (entries_of v) (msg, t) → ⊥) }
{
    for pair in pairs {
        let found = pair.trace(msg);
        if found.is_some() {
            return found;
        }
    }
    None
}

// How many messages all pairs have.
fn count_all(pairs: &[Pair]) -> usize
    ensures { length (entries_of_all pairs.now) < 2 ^ 64 → result ≡ length (entries_of_all pairs.now) }
{
    let mut count: usize = 0;
    for pair in pairs {
        count = count.saturating_add(pair.count());
    }
    count
}

// How many of rising arrivals have lower numbers.
fn count_below(arrivals: &[Arrival], msg: MsgNo) -> usize
    ensures bound { result ≤ length arrivals.now }
    ensures parts { AreRisingArrivals arrivals.now → PartsAt number_of arrivals.now msg result }
{
    arrivals.partition_point(
        |arrival: &Arrival| -> bool
            ensures { result ≡ nat_lt arrival.now.msg msg }
        { arrival.msg.get() < msg.get() },
    )
}

// The one of rising arrivals that has this number.
fn find_arrival(arrivals: &[Arrival], msg: MsgNo) -> Option<Arrival>
    ensures found { IfSome result (λ a. Has arrivals.now a × (a.msg ≡ msg)) }
    ensures none { IfNone result (AreRisingArrivals arrivals.now → (k : ℕ) (a : Arrival) → slice_get arrivals.now k ≡ Some a
        → a.msg ≡ msg → ⊥) }
{
    let arrival = arrivals.get(count_below(arrivals, msg)).copied()?;
    if arrival.msg.get() == msg.get() {
        Some(arrival)
    } else {
        None
    }
}

// The message of this number among those whose sends were undone.
fn find_undone(undone: &[Undone], msg: MsgNo) -> Option<Undone>
    ensures found { IfSome result (λ u. Has undone.now u × (u.msg ≡ msg)) }
    ensures none { IfNone result ((k : ℕ) (u : Undone) → slice_get undone.now k ≡ Some u → u.msg ≡ msg → ⊥) }
{
    for message in undone {
        if message.msg.get() == msg.get() {
            return Some(*message);
        }
    }
    None
}
