//! The messages that are in transit from one process to another before a row.

ghost use Rattle.std.specs.Prelude.{◌≡◌, ◌≤◌, ◌<◌, ◌+◌, ◌^◌, ◌++◌, ◌∷◌, if◌then◌else◌, [], ℕ, List, OnOk};
ghost use Rattle.kt_histories.specs.Breaches.{ShowsWaiting};

use crate::breach::before::Before;
use crate::words::{Count, Message, Process, say};
use kt_base::{Memory, MsgNo, ProcNo};
use kt_spacetime::Event;
use std::alloc::Global;
use std::fmt;

// How many of the messages are named.
const MOST_NAMED: usize = 8;

/// The messages of a sender to a process that are in transit, and the latest one that was received.
#[derive(Drop)]
pub struct Waiting {
    pub from: ProcNo,
    pub to: ProcNo,
    /// How many are in transit.
    pub count: usize,
    /// The least eight of them.
    pub least: Vec<MsgNo>,
    /// The latest one that the process received, as its live history has it.
    pub received: Option<MsgNo>,
}

impl fmt::Display for Waiting {
    fn fmt<W: fmt::Write>(&self, f: &mut fmt::Formatter<W>) -> fmt::Result {
        let between = "in transit from process # to process # before this row:";
        say(f, between, &[Process(self.from), Process(self.to)])?;
        if self.least.is_empty() {
            f.write_str(" none")?;
        }
        for msg in &self.least {
            say(f, " #", &[Message(*msg)])?;
        }
        if self.count > self.least.len() {
            say(f, " and more, # in all", &[Count(self.count)])?;
        }
        match self.received {
            Some(msg) => say(f, "; received last: #\n", &[Message(msg)]),
            None => f.write_str("; received: none\n"),
        }
    }
}

impl Waiting {
    // One more message, which is in transit if so it is.
    fn note(&mut self, is_waiting: bool, msg: MsgNo) -> Result<(), Memory>
        requires few { self.old.count < 2 ^ 24 }
        ensures noted { OnOk result ((list : List ℕ) → ShowsWaiting self.old list
            → ShowsWaiting self.new (if is_waiting then list ++ msg ∷ [] else list)) }
        ensures count { OnOk result (self.new.count ≤ self.old.count + 1) }
        ensures from { OnOk result (self.new.from ≡ self.old.from) }
        ensures to { OnOk result (self.new.to ≡ self.old.to) }
        ensures received { OnOk result (self.new.received ≡ self.old.received) }
    {
        if !is_waiting {
            return Ok(());
        }
        self.count += 1;
        if self.count > MOST_NAMED {
            return Ok(());
        }
        self.least.push(msg)?;
        Ok(())
    }
}

impl Before<'_> {
    ghost use Rattle.std.specs.Prelude.{IfOk};
    ghost use Rattle.kt_histories.specs.Breaches.{KnowsBefore};
    ghost use Rattle.kt_histories.specs.Breaches.{IsWaiting, IsWaitingAt};

    /// What is in transit between the two processes of a row that takes a message.
    pub fn waiting_at(&self, alloc: Global, row: &Event) -> Result<Option<Waiting>, Memory>
        requires before { KnowsBefore self.now }
        ensures { IfOk result (IsWaitingAt self.now.rows.now row.now) }
    {
        match *row {
            Event::Received { p, from, .. } => Ok(Some(self.waiting(alloc, p, from)?)),
            Event::Dropped { p, from, .. } => Ok(Some(self.waiting(alloc, p, from)?)),
            _ => Ok(None),
        }
    }

    // What is in transit to the process from that one.
    fn waiting(&self, alloc: Global, p: ProcNo, from: ProcNo) -> Result<Waiting, Memory>
        requires before { KnowsBefore self.now }
        ensures { IfOk result (IsWaiting self.now.rows.now from p) }
    {
        let mut waiting = Waiting {
            from,
            to: p,
            count: 0,
            least: Vec::new(alloc),
            received: self.latest_received(p, from),
        };
        for place in 0..self.rows.len() {
            let msg = MsgNo::after(place);
            let is_waiting = self.histories.is_undelivered(p, from, msg);
            waiting.note(is_waiting, msg)?;
        }
        Ok(waiting)
    }
}
