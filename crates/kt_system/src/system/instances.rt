//! Instances begun, joined and closed.

ghost use Rattle.std.specs.Prelude.{◌≡◌, ◌<◌, ◌≤◌, ◌+◌, ◌^◌, ℕ, true, slice_index_or, length};
ghost use Rattle.kt_base.specs.Sets.{has};
ghost use Rattle.kt_process.specs.ProcessStates.{is_ready};
ghost use Rattle.kt_system.specs.Systems.{state_of, room_to, HasBack, CanJoin, CanClose, KeepsRoom, UsesRoom};
ghost use Rattle.std.specs.Prelude.{Bool, [], ◌++◌};
ghost use Rattle.kt_fifo.specs.declared.parcels.Parcel.TheVariants as parcel;
ghost use Rattle.kt_tables.specs.Peers.{IsCohort};
ghost use Rattle.kt_machine.specs.Seen.{Seen};
ghost use Rattle.kt_machine.specs.ListChanges.{with_parcel, with_decisions, with_asks_where};
ghost use Rattle.kt_machine.specs.SeenClosing.{seen_deciding, seen_closing};
ghost use Rattle.kt_process.specs.Shown.{goes_on};
ghost use Rattle.kt_machine.specs.Values.{closing};
ghost use Rattle.kt_system.specs.Shown.{ShowsState, IsInside, lists_closed, joined_row, asking_and_settling};
ghost use Rattle.kt_manager.specs.ShownActs.{act_shown, acts_shown, acts_joining, acts_going_on};
ghost use Rattle.kt_system.specs.Tallies.{TalliesPut};
ghost use Rattle.kt_system.specs.Keeps.{KeepsInPart};

use super::System;
use crate::kept::{restore, trim};
use crate::puts::{put_asks, put_decisions};
use kt_base::{InstNo, Kind, ProcNo, ProcSet};
use kt_fifo::Parcel;
use kt_plan::Act;
use kt_process::{Asks, Then};
use kt_spacetime::Event;

impl System {
    /// What becomes of the lists of parcels kept and held for a process when it closes its instance: by a commit a
    /// checkpoint's go that were received before it, and a rollback's are held again; by an abort all stays.
    fn settle_kept(&mut self, p: ProcNo, commit: bool)
        requires p { p < self.old.size }
        requires back { is_ready (state_of self.old p).side ≡ true → HasBack self.old p }
        ensures rows { self.new.rows ≡ self.old.rows }
        ensures keeps { KeepsRoom self.old self.new }
        ensures tallies { TalliesPut [] self.old self.new }
        ensures shows { (v : Seen) → ShowsState self.old v → IsInside self.old p → ShowsState self.new (lists_closed v p commit) }
    {
        if !commit {
            return;
        }
        let process = &self.processes[p.index()];
        if process.is_ready() {
            restore(&mut self.held, &mut self.kept, process, p);
            return;
        }
        let marks = process.marks();
        if marks.len() == self.size {
            trim(&mut self.kept, p, marks);
        }
    }

    /// A process tells a decision to each of a set.
    fn tell(&mut self, p: ProcNo, inst: InstNo, commit: bool, set: ProcSet)
        requires p { p < self.old.size }
        requires within { (q : ℕ) → has set q ≡ true → q < self.old.size }
        requires room { (q : ℕ) → has set q ≡ true → 1 ≤ room_to self.old p q }
        ensures size { self.new.size ≡ self.old.size }
        ensures rows { self.new.rows ≡ self.old.rows }
        ensures tallies { TalliesPut [] self.old self.new }
        ensures shows { (v : Seen) → ShowsState self.old v → ShowsState self.new (record v { channel = with_decisions v.channel p inst commit (has set) }) }
    {
        put_decisions(&mut self.channels, p, inst, commit, set);
        self.count(inst, 0, 0, set.count());
    }

    /// A process closes the instance that it is in, and tells the decision to those that it asked. What is to be done to
    /// its saved states and its object is answered.
    pub(super) fn close(&mut self, p: ProcNo, inst: InstNo, commit: bool) -> Act
        requires p { p < self.old.size }
        requires spare { 1 ≤ self.old.rows.spare }
        requires few { length self.old.rows.rows < 2 ^ 24 }
        requires room { CanClose self.old p }
        ensures keeps { KeepsInPart 1 [] self.old self.new }
        ensures shows { (v : Seen) → ShowsState self.old v → IsInside self.old p → ShowsState self.new (seen_closing v p inst commit) }
        ensures acts { act_shown result ≡ closing (is_ready (state_of self.old p).side) commit }
    {
        let was_ready = self.is_ready(p);
        self.settle_kept(p, commit);
        let set = self.leave(p, commit);
        self.tell(p, inst, commit, set);
        self.write(Event::Closed { p, inst });
        closing_act(was_ready, commit)
    }

    /// A process that has joined an instance asks these, and goes on. What is to be done to its saved states and its
    /// object is answered.
    pub(super) fn join(
        &mut self,
        p: ProcNo,
        inst: InstNo,
        kind: Kind,
        asks: &Asks,
        goes: Then,
    ) -> [Act; 2]
        requires p { p < self.old.size }
        requires spare { 3 ≤ self.old.rows.spare }
        requires few { length self.old.rows.rows + 3 ≤ 2 ^ 24 }
        requires room { CanJoin self.old p asks.now goes }
        ensures keeps { KeepsInPart 3 [] self.old self.new }
        ensures shows { (v : Seen) (test : ℕ → Bool) (label : ℕ → ℕ) → ShowsState self.old v → IsCohort asks.now test label → goes ≡ goes_on (v.states p).part → (v.states p).part.willing ≡ true → IsInside self.old p →
            ShowsState self.new (asking_and_settling v p inst kind test label) }
        ensures acts { acts_shown result ≡ acts_joining kind ++ acts_going_on (is_ready (state_of self.old p).side) goes }
    {
        self.ask(p, inst, kind, asks);
        self.write(joining_row(p, inst, kind));
        let first = joining_act(kind);
        match goes {
            Then::Wait => [first, Act::Nothing],
            Then::Answer(to) => {
                self.reply(p, to, inst, true);
                [first, Act::Nothing]
            }
            Then::Commit => {
                let second = self.decide(p, inst, true);
                two_acts(first, second)
            }
        }
    }

    /// A process asks these.
    fn ask(&mut self, p: ProcNo, inst: InstNo, kind: Kind, asks: &Asks)
        requires p { p < self.old.size }
        requires within { (j : ℕ) → j < length asks.now → (slice_index_or asks.now j (0, 0)).0 < self.old.size }
        requires room { (j : ℕ) → j < length asks.now → 2 ≤ room_to self.old p (slice_index_or asks.now j (0, 0)).0 }
        ensures rows { self.new.rows ≡ self.old.rows }
        ensures uses { UsesRoom self.old self.new p }
        ensures tallies { TalliesPut [] self.old self.new }
        ensures shows { (v : Seen) (test : ℕ → Bool) (label : ℕ → ℕ) → ShowsState self.old v → IsCohort asks.now test label → ShowsState self.new (record v { channel = with_asks_where v.channel p inst kind test label }) }
    {
        let asks = asks.list();
        put_asks(&mut self.channels, p, inst, kind, asks);
        self.count(inst, asks.len().min(64) as u32, 0, 0);
    }

    /// An initiator decides its instance, and closes it.
    pub(super) fn decide(&mut self, p: ProcNo, inst: InstNo, commit: bool) -> Act
        requires p { p < self.old.size }
        requires spare { 2 ≤ self.old.rows.spare }
        requires few { length self.old.rows.rows + 2 ≤ 2 ^ 24 }
        requires room { CanClose self.old p }
        ensures keeps { KeepsInPart 2 [] self.old self.new }
        ensures shows { (v : Seen) → ShowsState self.old v → IsInside self.old p → ShowsState self.new (seen_closing (seen_deciding v p inst commit) p inst commit) }
        ensures acts { act_shown result ≡ closing (is_ready (state_of self.old p).side) commit }
    {
        self.write(Event::Decided { p, inst, commit });
        self.close(p, inst, commit)
    }

    /// A process replies to one that asked it.
    #[inline(always)]
    pub(super) fn reply(&mut self, p: ProcNo, to: ProcNo, inst: InstNo, willing: bool)
        requires p { p < self.old.size }
        requires to { to < self.old.size }
        requires room { 1 ≤ room_to self.old p to }
        ensures size { self.new.size ≡ self.old.size }
        ensures rows { self.new.rows ≡ self.old.rows }
        ensures tallies { TalliesPut [] self.old self.new }
        ensures shows { (v : Seen) → ShowsState self.old v → ShowsState self.new (record v { channel = with_parcel v.channel p to (parcel.Reply inst willing) }) }
    {
        self.put(p, to, Parcel::Reply { inst, willing });
        self.count(inst, 0, 1, 0);
    }
}

/// Two acts in order, nothing last.
fn two_acts(first: Act, second: Act) -> [Act; 2]
    ensures { acts_shown result ≡ act_shown first ++ act_shown second }
{
    match first {
        Act::Nothing => [second, Act::Nothing],
        _ => [first, second],
    }
}

/// The row of a process that joins an instance.
fn joining_row(p: ProcNo, inst: InstNo, kind: Kind) -> Event
    ensures { result ≡ joined_row kind p inst }
{
    match kind {
        Kind::Checkpoint => Event::Took { p, inst },
        Kind::Rollback => Event::Ready { p, inst },
    }
}

/// What a process that joins does to its saved states.
fn joining_act(kind: Kind) -> Act
    ensures { act_shown result ≡ acts_joining kind }
{
    match kind {
        Kind::Checkpoint => Act::Keep,
        Kind::Rollback => Act::Nothing,
    }
}

/// What a process that closes an instance does to its saved states and its object.
fn closing_act(was_ready: bool, commit: bool) -> Act
    ensures { act_shown result ≡ closing was_ready commit }
{
    match (was_ready, commit) {
        (true, true) => Act::Restore,
        (true, false) => Act::Nothing,
        (false, true) => Act::Promote,
        (false, false) => Act::Discard,
    }
}
