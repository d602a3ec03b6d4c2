//! Application messages, and failures.

ghost use Rattle.std.specs.Prelude.{◌≡◌, ◌<◌, ◌≤◌, ◌+◌, ◌-◌, ◌^◌, true, length};
ghost use Rattle.kt_system.specs.Systems.{state_of};
ghost use Rattle.std.specs.Prelude.{[], ◌∷◌, ◌++◌, false, drop, OnOk, if◌then◌else◌};
ghost use Rattle.kt_fifo.specs.declared.parcels.Parcel.TheVariants as parcel;
ghost use Rattle.kt_tables.specs.Calls.{received, Speaks};
ghost use Rattle.kt_protocol.specs.States.{Send as SendStep, Fail as FailStep};
ghost use Rattle.kt_machine.specs.Seen.{Seen};
ghost use Rattle.kt_machine.specs.ListChanges.{with_rest};
ghost use Rattle.kt_machine.specs.SeenMessages.{seen_refusal, seen_arrival, seen_holding};
ghost use Rattle.kt_machine.specs.Transition.{transition, is_seen_ready};
ghost use Rattle.kt_machine.specs.SeenActs.{seen_acts, seen_acts_arriving};
ghost use Rattle.kt_system.specs.Shown.{ShowsState, channel_without, held_without};
ghost use Rattle.kt_manager.specs.ShownActs.{acts_shown};
ghost use Rattle.kt_system.specs.Tallies.{TalliesPut, front};
ghost use Rattle.kt_system.specs.Keeps.{CanStep, KeepsInPart, KeepsInStep};

use super::System;
use kt_base::{Cause, Label, Memory, MsgNo, ProcNo, Verb};
use kt_fifo::Parcel;
use kt_plan::Act;
use kt_spacetime::Event;

/// An application message: its label, its number and its body.
#[derive(Clone, Copy)]
pub(super) struct Message {
    pub(super) label: Label,
    pub(super) msg: MsgNo,
    pub(super) body: i64,
}

impl Message {
    /// The parcel that it is in channels.
    fn parcel(&self) -> Parcel
        ensures { result ≡ parcel.App self.now.label self.now.msg self.now.body }
    {
        Parcel::App {
            label: self.label,
            msg: self.msg,
            body: self.body,
        }
    }
}

/// Nothing to be done to an object.
pub(super) const NO_ACTS: [Act; 2] = [Act::Nothing, Act::Nothing];

impl System {
    /// A process sends a message to another one; where its object is down, it refuses. That it may send, and that its
    /// labels are not spent, was tested before.
    pub fn send(
        &mut self,
        p: ProcNo,
        to: ProcNo,
        body: i64,
        acts: &mut [Act; 2],
    ) -> Result<(), Memory>
        requires can { CanStep self.old p to }
        requires left { (state_of self.old p).up ≡ true → (state_of self.old p).used < 2 ^ 48 - 1 }
        ensures keeps { KeepsInStep result [] self.old self.new }
        ensures shows { (v : Seen) → ShowsState self.old v → (v.states p).inst ≡ 0 → (to ≡ p → ⊥) → Speaks (((transition v (SendStep p to body)).states p).calls) → OnOk result (ShowsState self.new (transition v (SendStep p to body))) }
        ensures acts { (v : Seen) → OnOk result (acts_shown acts.new ≡ seen_acts v (SendStep p to body)) }
    {
        self.make_room_to(p, to)?;
        if !self.is_up(p) {
            self.refuse(p, Verb::Send, Cause::Down);
            *acts = NO_ACTS;
            return Ok(());
        }
        let msg = MsgNo::after(self.log.rows().len());
        let label = self.note_sent(p, to);
        self.put(p, to, Parcel::App { label, msg, body });
        self.write(Event::Sent { p, to, body });
        *acts = NO_ACTS;
        Ok(())
    }

    /// A process's object fails; where it is down already, the process refuses.
    pub fn fail(&mut self, p: ProcNo, acts: &mut [Act; 2]) -> Result<(), Memory>
        requires p { p < self.old.size }
        requires few { length self.old.rows.rows + 4 ≤ 2 ^ 24 }
        ensures keeps { KeepsInStep result [] self.old self.new }
        ensures shows { (v : Seen) → ShowsState self.old v → OnOk result (ShowsState self.new (transition v (FailStep p))) }
        ensures acts { (v : Seen) → ShowsState self.old v → OnOk result (acts_shown acts.new ≡ seen_acts v (FailStep p)) }
    {
        self.make_room_for_rows()?;
        if !self.is_up(p) {
            self.refuse(p, Verb::Fail, Cause::Down);
            *acts = NO_ACTS;
            return Ok(());
        }
        self.put_down(p);
        self.write(Event::Failed { p });
        let told = [Act::Drop, Act::Nothing];
        *acts = told;
        Ok(())
    }

    /// A command is refused.
    pub(super) fn refuse(&mut self, p: ProcNo, verb: Verb, cause: Cause)
        requires spare { 1 ≤ self.old.rows.spare }
        requires few { length self.old.rows.rows < 2 ^ 24 }
        ensures keeps { KeepsInPart 1 [] self.old self.new }
        ensures shows { (v : Seen) → ShowsState self.old v → ShowsState self.new (seen_refusal v p verb cause) }
    {
        self.write(Event::Refused { p, verb, cause });
    }

    /// A process takes a message from the front of a channel: it holds it where it is in a rollback.
    pub(super) fn take_message(
        &mut self,
        at: ProcNo,
        from: ProcNo,
        message: Message,
        acts: &mut [Act; 2],
    ) -> Result<(), Memory>
        requires can { CanStep self.old at from }
        ensures keeps { KeepsInStep result (front self.old at from) self.old self.new }
        ensures shows { (v : Seen) → ShowsState self.old v → (is_seen_ready v at ≡ false → (v.states at).up ≡ true → Speaks ((v.states at).calls ++ received from message.label ∷ [])) →
            OnOk result (ShowsState self.new (if is_seen_ready v at then seen_holding v at from (parcel.App message.label message.msg message.body) (drop 1 (v.channel from at))
            else seen_arrival v (with_rest v.channel from at (drop 1 (v.channel from at))) v.held at from message.label message.msg message.body)) }
        ensures acts { (v : Seen) → ShowsState self.old v → OnOk result (acts_shown acts.new ≡ (if is_seen_ready v at then [] else seen_acts_arriving v at from message.body)) }
    {
        if self.is_ready(at) {
            self.held.reserve_many(from, at, 1)?;
            self.pop(at, from);
            self.held.push_reserved(from, at, message.parcel());
            *acts = NO_ACTS;
            return Ok(());
        }
        self.accept(at, from, message, false, acts)
    }

    /// A message goes from the front of the channel or of the held list.
    fn remove(&mut self, at: ProcNo, from: ProcNo, is_held: bool)
        requires at { at < self.old.size }
        requires from { from < self.old.size }
        ensures size { self.new.size ≡ self.old.size }
        ensures kept { self.new.kept ≡ self.old.kept }
        ensures rows { self.new.rows ≡ self.old.rows }
        ensures tallies { TalliesPut (if is_held then [] else front self.old at from) self.old self.new }
        ensures shows { (v : Seen) → ShowsState self.old v → ShowsState self.new (record v { channel = channel_without is_held v at from; held = held_without is_held v at from }) }
    {
        if is_held {
            self.held.pop(from, at);
        } else {
            self.channels.pop(from, at);
        }
    }

    /// A message that was in the channel, or held, is received and kept; where the object is down, it is dropped.
    pub(super) fn accept(
        &mut self,
        at: ProcNo,
        from: ProcNo,
        message: Message,
        is_held: bool,
        acts: &mut [Act; 2],
    ) -> Result<(), Memory>
        requires can { CanStep self.old at from }
        ensures keeps { KeepsInStep result (if is_held then [] else front self.old at from) self.old self.new }
        ensures shows { (v : Seen) → ShowsState self.old v → ((v.states at).up ≡ true → Speaks ((v.states at).calls ++ received from message.label ∷ [])) →
            OnOk result (ShowsState self.new (seen_arrival v (channel_without is_held v at from) (held_without is_held v at from) at from message.label message.msg message.body)) }
        ensures acts { (v : Seen) → ShowsState self.old v → OnOk result (acts_shown acts.new ≡ seen_acts_arriving v at from message.body) }
    {
        self.make_room_for_rows()?;
        let msg = message.msg;
        if !self.is_up(at) {
            self.remove(at, from, is_held);
            self.write(Event::Dropped { p: at, from, msg });
            *acts = NO_ACTS;
            return Ok(());
        }
        self.kept.reserve_many(from, at, 1)?;
        self.remove(at, from, is_held);
        self.note_received(at, from, message.label);
        self.kept.push_reserved(from, at, message.parcel());
        self.write(Event::Received { p: at, from, msg });
        let body = message.body;
        let told = [Act::Apply { from, body }, Act::Nothing];
        *acts = told;
        Ok(())
    }
}
