//! One thing each that a step does to a system, in room made before.

ghost use Rattle.std.specs.Prelude.{◌≡◌, ◌<◌, ◌≤◌, ◌+◌, ◌^◌, ◌++◌, ◌∷◌, [], ℕ, true, OnOk, length};
ghost use Rattle.kt_base.specs.Sets.{has};
ghost use Rattle.kt_process.specs.ProcessStates.{is_ready};
ghost use Rattle.kt_system.specs.Systems.{state_of, room_to, HasBack, HasRoomFor, KeepsParcels, KeepsStates, KeepsRoom, GivesRoom, IsSameSystem};
ghost use Rattle.std.specs.Prelude.{drop};
ghost use Rattle.kt_fifo.specs.Channels.{channel};
ghost use Rattle.kt_machine.specs.Seen.{Seen};
ghost use Rattle.kt_machine.specs.ListChanges.{with_parcel, with_rest};
ghost use Rattle.kt_system.specs.Shown.{ShowsState, with_row};
ghost use Rattle.kt_system.specs.Tallies.{TalliesPut, AreCounted, front};

use super::System;
use crate::rooms::{make_room, make_room_back, make_room_to};
use kt_base::{InstNo, Memory, ProcNo, ProcSet};
use kt_fifo::Parcel;
use kt_spacetime::Event;

impl System {
    /// One row more.
    pub(super) fn write(&mut self, event: Event)
        requires spare { 1 ≤ self.old.rows.spare }
        requires few { length self.old.rows.rows < 2 ^ 24 }
        ensures rows { self.new.rows.rows ≡ self.old.rows.rows ++ event ∷ [] }
        ensures count { length self.new.rows.rows ≡ length self.old.rows.rows + 1 }
        ensures spare { self.new.rows.spare + 1 ≡ self.old.rows.spare }
        ensures keeps { KeepsParcels self.old self.new }
        ensures tallies { TalliesPut [] self.old self.new }
        ensures shows { (v : Seen) → ShowsState self.old v → ShowsState self.new (with_row v event) }
    {
        self.log.push_reserved(event);
    }

    /// One parcel more in a channel.
    #[inline(always)]
    pub(super) fn put(&mut self, p: ProcNo, to: ProcNo, parcel: Parcel)
        requires p { p < self.old.size }
        requires to { to < self.old.size }
        requires room { 1 ≤ room_to self.old p to }
        ensures rows { self.new.rows ≡ self.old.rows }
        ensures keeps { KeepsStates self.old self.new }
        ensures channels { channel self.new.channels ≡ with_parcel (channel self.old.channels) p to parcel }
        ensures tallies { self.new.put ≡ self.old.put }
        ensures shows { (v : Seen) → ShowsState self.old v → ShowsState self.new (record v { channel = with_parcel v.channel p to parcel }) }
    {
        self.channels.push_reserved(p, to, parcel);
    }

    /// The front of a channel goes.
    #[inline(always)]
    pub(super) fn pop(&mut self, at: ProcNo, from: ProcNo)
        requires at { at < self.old.size }
        requires from { from < self.old.size }
        ensures rows { self.new.rows ≡ self.old.rows }
        ensures held { self.new.held ≡ self.old.held }
        ensures gives { GivesRoom self.old self.new }
        ensures tallies { TalliesPut (front self.old at from) self.old self.new }
        ensures shows { (v : Seen) → ShowsState self.old v → ShowsState self.new (record v { channel = with_rest v.channel from at (drop 1 (v.channel from at)) }) }
    {
        self.channels.pop(from, at);
    }

    /// So many asks, replies and decisions of an instance were put.
    pub(super) fn count(&mut self, inst: InstNo, asks: u32, replies: u32, decisions: u32)
        ensures rows { self.new.rows ≡ self.old.rows }
        ensures keeps { KeepsParcels self.old self.new }
        ensures tallies { AreCounted inst asks replies decisions self.old self.new }
        ensures shows { (v : Seen) → ShowsState self.old v → ShowsState self.new v }
    {
        let Some(tally) = self.tallies.get_mut(inst.index()) else {
            return;
        };
        tally.asks = tally.asks.saturating_add(asks);
        tally.replies = tally.replies.saturating_add(replies);
        tally.decisions = tally.decisions.saturating_add(decisions);
    }

    /// Room for four rows.
    pub(super) fn make_room_for_rows(&mut self) -> Result<(), Memory>
        ensures same { IsSameSystem self.new self.old }
        ensures count { length self.new.rows.rows ≡ length self.old.rows.rows }
        ensures ok { OnOk result (4 ≤ self.new.rows.spare) }
        ensures keeps { KeepsParcels self.old self.new }
    {
        self.log.reserve(4)
    }

    /// Room for four rows, and for two parcels to each of these processes.
    #[inline(always)]
    pub(super) fn make_room(&mut self, p: ProcNo, targets: ProcSet) -> Result<(), Memory>
        requires p { p < self.old.size }
        requires within { (q : ℕ) → has targets q ≡ true → q < self.old.size }
        ensures same { IsSameSystem self.new self.old }
        ensures count { length self.new.rows.rows ≡ length self.old.rows.rows }
        ensures spare { OnOk result (4 ≤ self.new.rows.spare) }
        ensures parcels { OnOk result (HasRoomFor self.new p targets) }
        ensures gives { GivesRoom self.old self.new }
    {
        self.log.reserve(4)?;
        make_room(&mut self.channels, p, targets, 2)
    }

    /// Room for four rows, and for a parcel to a process.
    pub(super) fn make_room_to(&mut self, p: ProcNo, to: ProcNo) -> Result<(), Memory>
        requires p { p < self.old.size }
        requires to { to < self.old.size }
        ensures same { IsSameSystem self.new self.old }
        ensures count { length self.new.rows.rows ≡ length self.old.rows.rows }
        ensures spare { OnOk result (4 ≤ self.new.rows.spare) }
        ensures parcel { OnOk result (1 ≤ room_to self.new p to) }
        ensures gives { GivesRoom self.old self.new }
    {
        self.log.reserve(4)?;
        make_room_to(&mut self.channels, p, to, 1)
    }

    /// Room to hold all parcels that are kept for a process.
    pub(super) fn make_room_back(&mut self, p: ProcNo) -> Result<(), Memory>
        requires { p < self.old.size }
        ensures same { IsSameSystem self.new self.old }
        ensures rows { self.new.rows ≡ self.old.rows }
        ensures back { OnOk result (HasBack self.new p) }
        ensures keeps { KeepsRoom self.old self.new }
    {
        make_room_back(&mut self.held, &self.kept, p)
    }

    /// Room to hold all parcels that are kept for a process, where that is in a rollback.
    #[inline(always)]
    pub(super) fn make_room_back_if_ready(&mut self, p: ProcNo) -> Result<(), Memory>
        requires { p < self.old.size }
        ensures same { IsSameSystem self.new self.old }
        ensures rows { self.new.rows ≡ self.old.rows }
        ensures back { OnOk result (is_ready (state_of self.old p).side ≡ true → HasBack self.new p) }
        ensures keeps { KeepsRoom self.old self.new }
    {
        if self.is_ready(p) {
            return self.make_room_back(p);
        }
        Ok(())
    }
}
