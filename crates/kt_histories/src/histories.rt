//! Live histories and positions after the first rows of a log.

ghost use Rattle.std.specs.Prelude.{◌≡◌, ◌≤◌, ◌<◌, ◌+◌, ◌^◌, ◌++◌, ◌∷◌, [], ℕ, List, length, vec_len, take, IfOk, OnOk};
ghost use Rattle.kt_spacetime.specs.declared.event.Event.{Event};
ghost use Rattle.kt_meaning.specs.Past.{Past, past};
ghost use Rattle.kt_meaning.specs.Legal.{IsLegal, is_undelivered};

use crate::replay::Replay;
use crate::tables::Message;
use kt_base::{InstNo, Kind, Memory, MsgNo, ProcNo};
use kt_rules::Trace;
use kt_spacetime::{Deed, Event, SpaceTime};
use std::alloc::Global;

/// The live histories and positions after the first rows of a legal log.
///
/// They keep no rows. Where they stand for some rows, their answers are what these rows say.
#[derive(Drop)]
pub struct Histories {
    pub(crate) replay: Replay,
}

impl Histories {
    ghost use Rattle.kt_histories.specs.HistoriesOf.{HistoriesOf};
    ghost use Rattle.kt_rules.specs.Traces.{trace_of, place_of};

    /// Those after the first `upto` rows.
    pub fn of(alloc: Global, log: &SpaceTime, upto: usize) -> Result<Histories, Memory>
        requires legal { IsLegal log.now.rows }
        requires upto { upto ≤ length log.now.rows }
        ensures { IfOk result (λ h. HistoriesOf h (take upto log.now.rows)) }
    {
        let mut replay = Replay::new(alloc)?;
        for row in &log.rows()[..upto] {
            replay.add(row)?;
        }
        Ok(Histories { replay })
    }

    /// One more row, which breaks no rule of a legal log. At an error they stand for nothing.
    pub fn add(&mut self, row: &Event) -> Result<(), Memory>
        requires few { vec_len self.old.replay.messages < 2 ^ 24 }
        ensures { OnOk result ((rows : List Event) → HistoriesOf self.old rows → IsLegal (rows ++ row.now ∷ [])
            → HistoriesOf self.new (rows ++ row.now ∷ [])) }
    {
        self.replay.add(row)
    }

    /// Whether a process is up.
    pub fn is_up(&self, p: ProcNo) -> bool
        ensures { (rows : List Event) → HistoriesOf self.now rows → result ≡ (past rows).up p }
    {
        self.replay.process(p).up
    }

    /// The open instance that a process is in; None where it is in none.
    pub fn open_in(&self, p: ProcNo) -> Option<InstNo>
        ensures { (rows : List Event) → HistoriesOf self.now rows → result ≡ (past rows).open_in p }
    {
        self.replay.process(p).open_in
    }

    /// Whether a message was sent to a process by this sender and is live, and neither received, as the live history has it,
    /// nor dropped.
    pub fn is_undelivered(&self, p: ProcNo, from: ProcNo, msg: MsgNo) -> bool
        ensures { (rows : List Event) → HistoriesOf self.now rows → result ≡ is_undelivered (past rows) p from msg }
    {
        self.replay.is_undelivered(p, from, msg)
    }

    /// Whether an instance was committed; None where it is not decided.
    pub fn decision(&self, inst: InstNo) -> Option<bool>
        ensures { (rows : List Event) → HistoriesOf self.now rows → result ≡ (past rows).decision inst }
    {
        self.replay.instance(inst)?.decision
    }

    /// The length of a process's live history.
    pub fn length(&self, p: ProcNo) -> usize
        ensures { (rows : List Event) → HistoriesOf self.now rows → result ≡ length ((past rows).live p) }
    {
        self.replay.process(p).history.len()
    }

    /// A process's permanent position.
    pub fn permanent(&self, p: ProcNo) -> usize
        ensures { (rows : List Event) → HistoriesOf self.now rows → result ≡ (past rows).permanent p }
    {
        self.replay.process(p).permanent
    }

    /// The new position of a process in an instance; None where it has no `took` row of it.
    pub fn position(&self, inst: InstNo, p: ProcNo) -> Option<usize>
        ensures { (rows : List Event) → HistoriesOf self.now rows → result ≡ (past rows).new inst p }
    {
        self.replay.instance(inst)?.position(p)
    }

    /// A message and its places; None where these rows have no such message.
    pub fn trace(&self, msg: MsgNo) -> Option<Trace>
        ensures { (rows : List Event) → HistoriesOf self.now rows → result ≡ trace_of rows msg }
    {
        let Some(message) = self.replay.message(msg) else {
            return None;
        };
        let sent = self.replay.sent_place(msg, &message);
        let received = self.replay.received_place(msg, &message);
        Some(Trace {
            from: message.from,
            to: message.to,
            sent,
            received,
        })
    }
}

impl Replay {
    ghost use Rattle.kt_spacetime.specs.declared.deeds.Deed.TheVariants as deed;
    ghost use Rattle.kt_histories.specs.Standing.{ShowsPast, message_at};
    ghost use Rattle.kt_rules.specs.Traces.{place_of};

    // The place of a message's send in its sender's history, counted from 1.
    pub(crate) fn sent_place(&self, msg: MsgNo, message: &Message) -> Option<usize>
        ensures { (s : Past) → ShowsPast self.now s → message_at self.now.messages.items msg ≡ Some message.now
            → result ≡ place_of (deed.Sent msg message.now.to) (s.live message.now.from) }
    {
        let to = message.to;
        let process = self.process(message.from);
        process
            .history
            .place_if(message.sent, &Deed::Sent { msg, to })
    }

    // The place of a message's receive in its receiver's history, counted from 1.
    pub(crate) fn received_place(&self, msg: MsgNo, message: &Message) -> Option<usize>
        ensures { (s : Past) → ShowsPast self.now s → message_at self.now.messages.items msg ≡ Some message.now
            → result ≡ place_of (deed.Received msg message.now.from) (s.live message.now.to) }
    {
        let Some(place) = message.received else {
            return None;
        };
        let from = message.from;
        let process = self.process(message.to);
        process
            .history
            .place_if(place, &Deed::Received { msg, from })
    }
}
