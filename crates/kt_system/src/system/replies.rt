//! Replies and decisions, and a parcel of any kind.

ghost use Rattle.std.specs.Prelude.{◌≡◌, ◌<◌, ◌≤◌, ◌+◌, ◌^◌, ℕ, true, length};
ghost use Rattle.kt_system.specs.Systems.{state_of, CanGoOn};
ghost use Rattle.std.specs.Prelude.{Bool, [], drop, OnOk, ◌==◌, ◌∷◌};
ghost use Rattle.kt_tables.specs.Calls.{Speaks};
ghost use Rattle.kt_protocol.specs.States.{Take as TakeStep};
ghost use Rattle.kt_machine.specs.Transition.{transition, seen_front, seen_take};
ghost use Rattle.kt_process.specs.declared.actions.Action.TheVariants as what;
ghost use Rattle.kt_machine.specs.Seen.{Seen};
ghost use Rattle.kt_process.specs.ProcessStates.{is_ready};
ghost use Rattle.kt_machine.specs.SeenActs.{seen_acts, seen_acts_replied, seen_acts_decided, seen_acts_taking, seen_acts_taking_held};
ghost use Rattle.kt_system.specs.Shown.{ShowsState, IsInside, gone_on, after_reply_taken, after_decision_taken};
ghost use Rattle.kt_manager.specs.ShownActs.{acts_shown, acts_gone_on};
ghost use Rattle.kt_system.specs.Tallies.{front, taken_off};
ghost use Rattle.kt_system.specs.Keeps.{CanStep, KeepsInPart, KeepsInStep};

use super::System;
use super::messages::{Message, NO_ACTS};
use kt_base::{InstNo, Memory, ProcNo};
use kt_fifo::Parcel;
use kt_plan::Act;
use kt_process::Action;
use std::alloc::Global;

impl System {
    /// A process takes a reply: the last one that it awaits is followed by its own reply, or by the decision.
    fn take_reply(
        &mut self,
        at: ProcNo,
        from: ProcNo,
        inst: InstNo,
        willing: bool,
        acts: &mut [Act; 2],
    ) -> Result<(), Memory>
        requires can { CanStep self.old at from }
        ensures keeps { KeepsInStep result (front self.old at from) self.old self.new }
        ensures shows { (v : Seen) → ShowsState self.old v → OnOk result (ShowsState self.new (after_reply_taken v at from inst willing (drop 1 (v.channel from at)))) }
        ensures acts { (v : Seen) → ShowsState self.old v → OnOk result (acts_shown acts.new ≡ seen_acts_replied v at willing) }
    {
        let targets = self.process(at).partners();
        self.make_room(at, targets)?;
        self.make_room_back_if_ready(at)?;
        self.pop(at, from);
        let action = self.hear_reply(at, willing);
        self.go_on(at, inst, &action, acts);
        Ok(())
    }

    /// What follows from a reply.
    fn go_on(&mut self, p: ProcNo, inst: InstNo, action: &Action, acts: &mut [Act; 2])
        requires p { p < self.old.size }
        requires spare { 2 ≤ self.old.rows.spare }
        requires few { length self.old.rows.rows + 2 ≤ 2 ^ 24 }
        requires room { CanGoOn self.old p action.now }
        ensures keeps { KeepsInPart 2 [] self.old self.new }
        ensures shows { (v : Seen) → ShowsState self.old v → ((commit : Bool) (tell : ℕ) → action.now ≡ what.Settle commit tell → IsInside self.old p) → ShowsState self.new (gone_on v p inst action.now) }
        ensures acts { acts_shown acts.new ≡ acts_gone_on (is_ready (state_of self.old p).side) action.now }
    {
        match action {
            Action::Reply {
                to,
                willing,
                cause: _cause,
            } => {
                self.reply(p, *to, inst, *willing);
                *acts = NO_ACTS;
            }
            Action::Settle {
                commit,
                tell: _tell,
            } => {
                let told = [self.decide(p, inst, *commit), Act::Nothing];
                *acts = told;
            }
            Action::Nothing | Action::Refuse(_) | Action::Join { .. } => *acts = NO_ACTS,
        }
    }

    /// Whether a process is in this instance.
    pub(super) fn is_in(&self, p: ProcNo, inst: InstNo) -> bool
        requires { p < self.now.size }
        ensures inside { result ≡ true → IsInside self.now p }
        ensures shows { (v : Seen) → ShowsState self.now v → result ≡ ((v.states p).inst == inst) }
    {
        match self.in_inst(p) {
            Some(current) => current.get() == inst.get(),
            None => false,
        }
    }

    /// A process takes a decision: in that instance it closes it; else it ignores the decision.
    fn take_decision(
        &mut self,
        at: ProcNo,
        from: ProcNo,
        inst: InstNo,
        commit: bool,
        acts: &mut [Act; 2],
    ) -> Result<(), Memory>
        requires can { CanStep self.old at from }
        ensures keeps { KeepsInStep result (front self.old at from) self.old self.new }
        ensures shows { (v : Seen) → ShowsState self.old v → OnOk result (ShowsState self.new (after_decision_taken v at from inst commit (drop 1 (v.channel from at)))) }
        ensures acts { (v : Seen) → ShowsState self.old v → OnOk result (acts_shown acts.new ≡ seen_acts_decided v at inst commit) }
    {
        if !self.is_in(at, inst) {
            self.pop(at, from);
            *acts = NO_ACTS;
            return Ok(());
        }
        let targets = self.process(at).asked();
        self.make_room(at, targets)?;
        self.make_room_back_if_ready(at)?;
        self.pop(at, from);
        let told = [self.close(at, inst, commit), Act::Nothing];
        *acts = told;
        Ok(())
    }

    /// A process takes the front of a channel.
    fn take_front(
        &mut self,
        alloc: Global,
        at: ProcNo,
        from: ProcNo,
        able: bool,
        acts: &mut [Act; 2],
    ) -> Result<(), Memory>
        requires can { CanStep self.old at from }
        ensures keeps { KeepsInStep result (front self.old at from) self.old self.new }
        ensures shows { (v : Seen) → ShowsState self.old v → Speaks (((seen_front v at from able (v.channel from at)).states at).calls) → OnOk result (ShowsState self.new (seen_front v at from able (v.channel from at))) }
        ensures acts { (v : Seen) → ShowsState self.old v → OnOk result (acts_shown acts.new ≡ seen_acts_taking v at from able (v.channel from at)) }
    {
        let Some(parcel) = self.channels.front(from, at).copied() else {
            *acts = NO_ACTS;
            return Ok(());
        };
        match parcel {
            Parcel::App { label, msg, body } => {
                self.take_message(at, from, Message { label, msg, body }, acts)
            }
            Parcel::Ask { inst, kind, label } => {
                self.take_ask(alloc, at, from, inst, kind, label, able, acts)
            }
            Parcel::Reply { inst, willing } => self.take_reply(at, from, inst, willing, acts),
            Parcel::Decide { inst, commit } => self.take_decision(at, from, inst, commit, acts),
        }
    }

    /// A process takes the first message of another process that is held for it.
    fn take_held(
        &mut self,
        at: ProcNo,
        from: ProcNo,
        parcel: Parcel,
        acts: &mut [Act; 2],
    ) -> Result<(), Memory>
        requires can { CanStep self.old at from }
        ensures keeps { KeepsInStep result [] self.old self.new }
        ensures shows { (v : Seen) (able : Bool) → ShowsState self.old v → v.held from at ≡ parcel ∷ drop 1 (v.held from at) →
            Speaks (((seen_take v at from able (v.held from at)).states at).calls) → OnOk result (ShowsState self.new (seen_take v at from able (v.held from at))) }
        ensures acts { (v : Seen) (able : Bool) → ShowsState self.old v → v.held from at ≡ parcel ∷ drop 1 (v.held from at) →
            OnOk result (acts_shown acts.new ≡ seen_acts_taking_held v at from able (v.held from at)) }
    {
        match parcel {
            Parcel::App { label, msg, body } => {
                self.accept(at, from, Message { label, msg, body }, true, acts)
            }
            Parcel::Ask { .. } | Parcel::Reply { .. } | Parcel::Decide { .. } => {
                *acts = NO_ACTS;
                Ok(())
            }
        }
    }

    /// A process takes the next parcel from another one: the first message that is held, where it is in no rollback, else
    /// the front of the channel. Whether its object can be saved counts where it is asked to take a checkpoint.
    #[inline(always)]
    pub fn take(
        &mut self,
        alloc: Global,
        at: ProcNo,
        from: ProcNo,
        able: bool,
        acts: &mut [Act; 2],
    ) -> Result<(), Memory>
        requires can { CanStep self.old at from }
        ensures keeps { KeepsInStep result (taken_off self.old at from) self.old self.new }
        ensures shows { (v : Seen) → ShowsState self.old v → Speaks (((transition v (TakeStep at from able)).states at).calls) → OnOk result (ShowsState self.new (transition v (TakeStep at from able))) }
        ensures acts { (v : Seen) → ShowsState self.old v → OnOk result (acts_shown acts.new ≡ seen_acts v (TakeStep at from able)) }
    {
        match self.held_parcel(at, from) {
            Some(parcel) => self.take_held(at, from, parcel, acts),
            None => self.take_front(alloc, at, from, able, acts),
        }
    }
}
