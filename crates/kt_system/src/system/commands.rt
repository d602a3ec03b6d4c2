//! Commands that begin an instance, and asks to take part in one.

ghost use Rattle.std.specs.Prelude.{◌≡◌, ◌<◌, ◌≤◌, ◌+◌, ◌^◌, ℕ, true, IfOk, IfSome, IfNone, length};
ghost use Rattle.kt_base.specs.Sets.{has};
ghost use Rattle.kt_base.specs.declared.words.Kind.TheVariants as kind;
ghost use Rattle.kt_process.specs.Turns.{peers_of, joins_by};
ghost use Rattle.kt_system.specs.Systems.{state_of, room_to, CanCarryOut, KeepsParcels, IsSameSystem, LogGrows};
ghost use Rattle.std.specs.Prelude.{[], Bool, false, Some, drop, OnOk};
ghost use Rattle.kt_fifo.specs.Channels.{channel};
ghost use Rattle.kt_system.specs.Kept.{kept_of};
ghost use Rattle.kt_protocol.specs.States.{Begin as BeginStep};
ghost use Rattle.kt_process.specs.Shown.{mark_of};
ghost use Rattle.kt_machine.specs.Seen.{Seen};
ghost use Rattle.kt_machine.specs.Transition.{transition, seen_ask};
ghost use Rattle.kt_meaning.specs.Past.{is_rollback_kind};
ghost use Rattle.kt_process.specs.ProcessStates.{is_ready};
ghost use Rattle.kt_machine.specs.SeenActs.{seen_acts, seen_acts_asked};
ghost use Rattle.kt_system.specs.Shown.{ShowsState, JoinsAs, with_instance, begun_as, answered_as, with_cause};
ghost use Rattle.kt_manager.specs.Turns.{begin_verb};
ghost use Rattle.kt_manager.specs.ShownActs.{acts_shown, acts_carried_out};
ghost use Rattle.kt_system.specs.Tallies.{TalliesPut, front};
ghost use Rattle.kt_system.specs.Keeps.{CanStep, KeepsInPart, KeepsInStep};

use super::System;
use super::messages::NO_ACTS;
use crate::kept::marks_of;
use kt_base::{Cause, InstNo, Kind, Label, Memory, ProcNo, ProcSet, Verb};
use kt_plan::Act;
use kt_process::Action;
use kt_spacetime::Event;
use std::alloc::Global;

impl System {
    /// The number of the instance that begins next; None once all were given.
    fn next_inst(&self) -> Option<InstNo>
        ensures some { IfSome result (λ inst. inst ≡ self.now.begun + 1) }
        ensures none { IfNone result (4096 ≤ self.now.begun) }
    {
        InstNo::new(self.begun + 1)
    }

    /// A process begins a checkpoint, or refuses.
    pub fn begin_checkpoint(
        &mut self,
        alloc: Global,
        p: ProcNo,
        able: bool,
        acts: &mut [Act; 2],
    ) -> Result<(), Memory>
        requires p { p < self.old.size }
        requires few { length self.old.rows.rows + 4 ≤ 2 ^ 24 }
        ensures keeps { KeepsInStep result [] self.old self.new }
        ensures shows { (v : Seen) → ShowsState self.old v → self.old.begun < 4096 → OnOk result (ShowsState self.new (transition v (BeginStep p false able))) }
        ensures acts { (v : Seen) → ShowsState self.old v → self.old.begun < 4096 → OnOk result (acts_shown acts.new ≡ seen_acts v (BeginStep p false able)) }
        ensures spent { 4096 ≤ self.old.begun → IsSameSystem self.new self.old }
        ensures spent_acts { 4096 ≤ self.old.begun → OnOk result (acts_shown acts.new ≡ []) }
    {
        let Some(inst) = self.next_inst() else {
            *acts = NO_ACTS;
            return Ok(());
        };
        let targets = self.process(p).peers(Kind::Checkpoint);
        self.make_room(p, targets)?;
        let marks = self.marks(alloc, p)?;
        let action = self.tell_to_save(p, able, inst, marks)?;
        self.begin(p, inst, Kind::Checkpoint, action, acts);
        Ok(())
    }

    /// A process begins a rollback, or refuses.
    pub fn begin_rollback(&mut self, p: ProcNo, acts: &mut [Act; 2]) -> Result<(), Memory>
        requires p { p < self.old.size }
        requires few { length self.old.rows.rows + 4 ≤ 2 ^ 24 }
        ensures keeps { KeepsInStep result [] self.old self.new }
        ensures shows { (v : Seen) (able : Bool) → ShowsState self.old v → self.old.begun < 4096 → OnOk result (ShowsState self.new (transition v (BeginStep p true able))) }
        ensures acts { (v : Seen) (able : Bool) → ShowsState self.old v → self.old.begun < 4096 → OnOk result (acts_shown acts.new ≡ seen_acts v (BeginStep p true able)) }
        ensures spent { 4096 ≤ self.old.begun → IsSameSystem self.new self.old }
        ensures spent_acts { 4096 ≤ self.old.begun → OnOk result (acts_shown acts.new ≡ []) }
    {
        let Some(inst) = self.next_inst() else {
            *acts = NO_ACTS;
            return Ok(());
        };
        let targets = self.process(p).peers(Kind::Rollback);
        self.make_room(p, targets)?;
        self.make_room_back(p)?;
        let action = self.tell_to_roll(p, inst)?;
        self.begin(p, inst, Kind::Rollback, action, acts);
        Ok(())
    }

    /// How many parcels are kept for a process, by sender.
    fn marks(&self, alloc: Global, p: ProcNo) -> Result<Vec<usize>, Memory>
        requires { p < self.now.size }
        ensures length { IfOk result (λ marks. length marks.items ≡ self.now.size) }
        ensures marks { IfOk result (λ marks. mark_of marks.items ≡ kept_of (channel self.now.kept) p) }
    {
        marks_of(alloc, &self.kept, p)
    }

    /// An instance begins.
    fn open(&mut self, p: ProcNo, inst: InstNo, kind: Kind)
        requires spare { 1 ≤ self.old.rows.spare }
        requires few { length self.old.rows.rows < 2 ^ 24 }
        ensures count { length self.new.rows.rows ≡ length self.old.rows.rows + 1 }
        ensures spare { self.new.rows.spare + 1 ≡ self.old.rows.spare }
        ensures keeps { KeepsParcels self.old self.new }
        ensures grows { LogGrows 1 self.old self.new }
        ensures tallies { TalliesPut [] self.old self.new }
        ensures shows { (v : Seen) → ShowsState self.old v → ShowsState self.new (with_instance v p inst kind) }
    {
        self.begun = inst.get();
        self.log.push_reserved(Event::Began { p, inst, kind });
    }

    /// What follows from a command to begin an instance.
    fn begin(&mut self, p: ProcNo, inst: InstNo, kind: Kind, action: Action, acts: &mut [Act; 2])
        requires p { p < self.old.size }
        requires spare { 4 ≤ self.old.rows.spare }
        requires few { length self.old.rows.rows + 4 ≤ 2 ^ 24 }
        requires room { CanCarryOut self.old p action }
        ensures keeps { KeepsInPart 4 [] self.old self.new }
        ensures shows { (v : Seen) (test : ℕ → Bool) (label : ℕ → ℕ) → ShowsState self.old v → JoinsAs self.old v p test label action → ShowsState self.new (begun_as v p inst kind test label action) }
        ensures acts { acts_shown acts.new ≡ acts_carried_out kind (is_ready (state_of self.old p).side) action }
    {
        match action {
            Action::Refuse(cause) => {
                self.refuse(p, verb_of(kind), cause);
                *acts = NO_ACTS;
            }
            Action::Join { ask, goes } => {
                self.open(p, inst, kind);
                let told = self.join(p, inst, kind, &ask, goes);
                *acts = told;
            }
            Action::Nothing | Action::Reply { .. } | Action::Settle { .. } => *acts = NO_ACTS,
        }
    }

    /// To whom a process may put a parcel after an ask: to the asker, and to those that it asks if it joins.
    fn targets(&self, at: ProcNo, from: ProcNo, kind: Kind, joins: bool) -> ProcSet
        requires at { at < self.now.size }
        requires from { from < self.now.size }
        ensures from { has result from ≡ true }
        ensures asks { joins ≡ true → (q : ℕ) → peers_of (state_of self.now at).tables kind q ≡ true → has result q ≡ true }
        ensures within { (q : ℕ) → has result q ≡ true → q < self.now.size }
    {
        if joins {
            return self.process(at).peers(kind).with(from);
        }
        ProcSet::empty().with(from)
    }

    /// A process takes an ask to take part in a checkpoint, which it joins.
    #[inline(never)]
    fn join_to_save(
        &mut self,
        alloc: Global,
        at: ProcNo,
        from: ProcNo,
        inst: InstNo,
        label: Label,
        able: bool,
        acts: &mut [Act; 2],
    ) -> Result<(), Memory>
        requires can { CanStep self.old at from }
        requires joins { joins_by (state_of self.old at) kind.Checkpoint able from label ≡ true }
        requires tables { (state_of self.old at).tables.processes ≡ self.old.size }
        ensures keeps { KeepsInStep result (front self.old at from) self.old self.new }
        ensures shows { (v : Seen) → ShowsState self.old v → OnOk result (ShowsState self.new (seen_ask v at from able inst false label (drop 1 (v.channel from at)))) }
        ensures acts { (v : Seen) → ShowsState self.old v → OnOk result (acts_shown acts.new ≡ seen_acts_asked v at from able inst false label) }
    {
        let targets = self.targets(at, from, Kind::Checkpoint, true);
        self.make_room(at, targets)?;
        let marks = self.marks(alloc, at)?;
        let action = self.ask_to_save(at, able, from, inst, label, marks)?;
        self.pop(at, from);
        self.answer(at, from, inst, Kind::Checkpoint, action, acts);
        Ok(())
    }

    /// A process takes an ask to take part in a checkpoint.
    #[inline(always)]
    pub(super) fn take_ask_to_save(
        &mut self,
        alloc: Global,
        at: ProcNo,
        from: ProcNo,
        inst: InstNo,
        label: Label,
        able: bool,
        acts: &mut [Act; 2],
    ) -> Result<(), Memory>
        requires can { CanStep self.old at from }
        ensures keeps { KeepsInStep result (front self.old at from) self.old self.new }
        ensures shows { (v : Seen) → ShowsState self.old v → OnOk result (ShowsState self.new (seen_ask v at from able inst false label (drop 1 (v.channel from at)))) }
        ensures acts { (v : Seen) → ShowsState self.old v → OnOk result (acts_shown acts.new ≡ seen_acts_asked v at from able inst false label) }
    {
        let Some(action) = self.answer_to_save(at, able, from, inst, label) else {
            return self.join_to_save(alloc, at, from, inst, label, able, acts);
        };
        self.make_room(at, ProcSet::empty().with(from))?;
        self.pop(at, from);
        self.answer(at, from, inst, Kind::Checkpoint, action, acts);
        Ok(())
    }

    /// A process takes an ask to take part in a rollback.
    fn take_ask_to_roll(
        &mut self,
        at: ProcNo,
        from: ProcNo,
        inst: InstNo,
        label: Label,
        acts: &mut [Act; 2],
    ) -> Result<(), Memory>
        requires can { CanStep self.old at from }
        ensures keeps { KeepsInStep result (front self.old at from) self.old self.new }
        ensures shows { (v : Seen) (able : Bool) → ShowsState self.old v → OnOk result (ShowsState self.new (seen_ask v at from able inst true label (drop 1 (v.channel from at)))) }
        ensures acts { (v : Seen) (able : Bool) → ShowsState self.old v → OnOk result (acts_shown acts.new ≡ seen_acts_asked v at from able inst true label) }
    {
        let joins = self.process(at).joins_rollback(from, label);
        let targets = self.targets(at, from, Kind::Rollback, joins);
        self.make_room(at, targets)?;
        let action = self.ask_to_roll(at, from, inst, label)?;
        self.pop(at, from);
        self.answer(at, from, inst, Kind::Rollback, action, acts);
        Ok(())
    }

    /// What follows from an ask.
    #[inline(always)]
    fn answer(
        &mut self,
        at: ProcNo,
        from: ProcNo,
        inst: InstNo,
        kind: Kind,
        action: Action,
        acts: &mut [Act; 2],
    )
        requires at { at < self.old.size }
        requires from { from < self.old.size }
        requires spare { 4 ≤ self.old.rows.spare }
        requires few { length self.old.rows.rows + 4 ≤ 2 ^ 24 }
        requires reply { 2 ≤ room_to self.old at from }
        requires room { CanCarryOut self.old at action }
        ensures keeps { KeepsInPart 4 [] self.old self.new }
        ensures shows { (v : Seen) (test : ℕ → Bool) (label : ℕ → ℕ) → ShowsState self.old v → JoinsAs self.old v at test label action → ShowsState self.new (answered_as v at from inst kind test label action) }
        ensures acts { acts_shown acts.new ≡ acts_carried_out kind (is_ready (state_of self.old at).side) action }
    {
        match action {
            Action::Reply {
                to: _to,
                willing,
                cause,
            } => {
                self.reply(at, from, inst, willing);
                self.say_why(at, inst, cause);
                *acts = NO_ACTS;
            }
            Action::Join { ask, goes } => {
                let told = self.join(at, inst, kind, &ask, goes);
                *acts = told;
            }
            Action::Nothing | Action::Refuse(_) | Action::Settle { .. } => *acts = NO_ACTS,
        }
    }

    /// The row of a process that is unwilling, where there is a cause.
    fn say_why(&mut self, p: ProcNo, inst: InstNo, cause: Option<Cause>)
        requires spare { 1 ≤ self.old.rows.spare }
        requires few { length self.old.rows.rows < 2 ^ 24 }
        ensures keeps { KeepsInPart 1 [] self.old self.new }
        ensures shows { (v : Seen) → ShowsState self.old v → ShowsState self.new (with_cause v p inst cause) }
    {
        if let Some(cause) = cause {
            self.write(Event::Unwilling { p, inst, cause });
        }
    }

    /// A process takes an ask.
    pub(super) fn take_ask(
        &mut self,
        alloc: Global,
        at: ProcNo,
        from: ProcNo,
        inst: InstNo,
        kind: Kind,
        label: Label,
        able: bool,
        acts: &mut [Act; 2],
    ) -> Result<(), Memory>
        requires can { CanStep self.old at from }
        ensures keeps { KeepsInStep result (front self.old at from) self.old self.new }
        ensures shows { (v : Seen) → ShowsState self.old v → OnOk result (ShowsState self.new (seen_ask v at from able inst (is_rollback_kind (Some kind)) label (drop 1 (v.channel from at)))) }
        ensures acts { (v : Seen) → ShowsState self.old v → OnOk result (acts_shown acts.new ≡ seen_acts_asked v at from able inst (is_rollback_kind (Some kind)) label) }
    {
        match kind {
            Kind::Checkpoint => self.take_ask_to_save(alloc, at, from, inst, label, able, acts),
            Kind::Rollback => self.take_ask_to_roll(at, from, inst, label, acts),
        }
    }
}

/// The command that begins an instance of a kind.
fn verb_of(kind: Kind) -> Verb
    ensures { result ≡ begin_verb kind }
{
    match kind {
        Kind::Checkpoint => Verb::Checkpoint,
        Kind::Rollback => Verb::Rollback,
    }
}
