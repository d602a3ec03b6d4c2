//! What the rules demand of a message: that it is undelivered, and comes after what was received and dropped before.

ghost use Rattle.std.specs.Prelude.{◌≡◌, ◌↔◌, IsTrue, None};
ghost use Rattle.kt_meaning.specs.Past.{Past, past, after};
ghost use Rattle.kt_meaning.specs.Legal.{IsLegal, broken_rule};
ghost use Rattle.kt_histories.specs.Breaches.{IsLastDropped};

use crate::breach::Breach;
use crate::breach::before::Before;
use crate::finding::{Sought, last_number};
use kt_base::{MsgNo, ProcNo};
use kt_rules::{Trace, is_after};
use kt_spacetime::Event;

impl Before<'_> {
    ghost use Rattle.std.specs.Prelude.{◌≡◌, not, true, ℕ, IfNone, IfSome};
    ghost use Rattle.std.specs.List.{list_all};
    ghost use Rattle.kt_meaning.specs.Past.{past};
    ghost use Rattle.kt_meaning.specs.Legal.{is_later};
    ghost use Rattle.kt_histories.specs.Breaches.{KnowsBefore, IsJudged, IsLatestFrom};
    ghost use Rattle.kt_histories.specs.Demands.{has_sent, has_received};

    /// The sender has sent the process the message, and the send was not undone.
    pub fn sent(&self, p: ProcNo, from: ProcNo, msg: MsgNo) -> Option<Breach>
        requires before { KnowsBefore self.now }
        ensures { IsJudged self.now.rows.now (λ s. has_sent s from p msg) result }
    {
        let Some(trace) = self.histories.trace(msg) else {
            return Some(Breach::NotSent(msg));
        };
        if !is_between(&trace, from, p) {
            return Some(Breach::SentBetween(msg, trace.from, trace.to));
        }
        match trace.sent {
            Some(_) => None,
            None => Some(Breach::Undone(msg, from, p)),
        }
    }

    /// The process has not received the message.
    pub fn not_received(&self, p: ProcNo, from: ProcNo, msg: MsgNo) -> Option<Breach>
        requires before { KnowsBefore self.now }
        ensures { IsJudged self.now.rows.now (λ s. not (has_received s p from msg)) result }
    {
        if !self.has_received(p, from, msg) {
            return None;
        }
        let row = last_number(self.rows, &Sought::Received(p, from, msg))?;
        Some(Breach::Received(p, from, msg, row))
    }

    // Whether the process received the message, as its live history has it.
    fn has_received(&self, p: ProcNo, from: ProcNo, msg: MsgNo) -> bool
        requires before { KnowsBefore self.now }
        ensures { result ≡ has_received (past self.now.rows.now) p from msg }
    {
        let Some(trace) = self.histories.trace(msg) else {
            return false;
        };
        if !is_between(&trace, from, p) {
            return false;
        }
        trace.received.is_some()
    }

    /// The message was not dropped.
    pub fn not_dropped(&self, msg: MsgNo) -> Option<Breach>
        requires before { KnowsBefore self.now }
        ensures { IsJudged self.now.rows.now (λ s. not (s.dropped msg)) result }
    {
        let row = last_number(self.rows, &Sought::Dropped(msg))?;
        Some(Breach::Dropped(msg, row))
    }

    /// The process has received no later message of the sender.
    pub fn after_received(&self, p: ProcNo, from: ProcNo, msg: MsgNo) -> Option<Breach>
        requires before { KnowsBefore self.now }
        ensures { IsJudged self.now.rows.now (λ s. list_all (is_later from msg) (s.live p)) result }
    {
        let latest = self.latest_received(p, from)?;
        if is_after(msg, Some(latest)) {
            return None;
        }
        let row = last_number(self.rows, &Sought::Received(p, from, latest))?;
        Some(Breach::ReceivedLater(p, from, latest, row))
    }

    /// The latest message of the sender that the process received.
    pub fn latest_received(&self, p: ProcNo, from: ProcNo) -> Option<MsgNo>
        requires before { KnowsBefore self.now }
        ensures latest { IfSome result (IsLatestFrom from ((past self.now.rows.now).live p)) }
        ensures none { IfNone result ((m : ℕ) → has_received (past self.now.rows.now) p from m ≡ true → ⊥) }
    {
        let mut latest = None;
        for place in 0..self.rows.len() {
            let msg = MsgNo::after(place);
            if self.has_received(p, from, msg) {
                latest = Some(msg);
            }
        }
        latest
    }

    /// The process has dropped no later message of the sender since it is down.
    pub fn after_dropped(&self, p: ProcNo, from: ProcNo, msg: MsgNo) -> Option<Breach>
        requires before { KnowsBefore self.now }
        ensures { IsJudged self.now.rows.now (λ s. list_all (is_later from msg) (s.dropped_since p)) result }
    {
        let dropped = last_dropped(self.rows, p, from);
        if self.histories.is_up(p) {
            return None;
        }
        let last = dropped?;
        if is_after(msg, Some(last)) {
            return None;
        }
        let row = last_number(self.rows, &Sought::Dropped(last))?;
        Some(Breach::DroppedLater(p, from, last, row))
    }
}

// Whether a message goes from the one process to the other.
fn is_between(trace: &Trace, from: ProcNo, to: ProcNo) -> bool
    ensures { IsTrue result ↔ ((trace.now.from ≡ from) × (trace.now.to ≡ to)) }
{
    trace.from == from && trace.to == to
}

// The last message of the sender that a process dropped since its last failure.
fn last_dropped(rows: &[Event], p: ProcNo, from: ProcNo) -> Option<MsgNo>
    requires legal { IsLegal rows.now }
    ensures { IsLastDropped (past rows.now) p from result }
{
    let mut last = None;
    for place in 0..rows.len() {
        last = last_dropped_after(last, p, from, &rows[place]);
    }
    last
}

// The last message of the sender that a process dropped since its last failure, after one more row.
fn last_dropped_after(last: Option<MsgNo>, p: ProcNo, from: ProcNo, row: &Event) -> Option<MsgNo>
    ensures { (s : Past) → broken_rule s row.now ≡ None → IsLastDropped s p from last
        → IsLastDropped (after s row.now) p from result }
{
    match *row {
        Event::Failed { p: q } => { if q == p { None } else { last } }
        Event::Dropped {
            p: q,
            from: sender,
            msg,
        } => {
            if q == p && sender == from {
                Some(msg)
            } else {
                last
            }
        }
        _ => last,
    }
}
