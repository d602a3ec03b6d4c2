//! What can be read of a system.

ghost use Rattle.std.specs.Prelude.{◌≡◌, ◌<◌, ◌≤◌, ◌^◌, ◌-◌, ◌↔◌, ◌&&◌, [], ℕ, true, false, IsTrue, IfSome, IfNone, length, is_none};
ghost use Rattle.std.specs.List.{list_all};
ghost use Rattle.std.specs.Option.{option_copied};
ghost use Rattle.kt_base.specs.declared.words.Kind.TheVariants as kind;
ghost use Rattle.kt_fifo.specs.Channels.{channel};
ghost use Rattle.kt_process.specs.ProcessStates.{ProcessState, part_of_side, is_ready, inst_of, IsNumbered};
ghost use Rattle.kt_process.specs.Turns.{joins_by};
ghost use Rattle.kt_system.specs.Systems.{state_of};
ghost use Rattle.kt_system.specs.Takes.{is_held};
ghost use Rattle.kt_system.specs.Reads.{tally_of, awaited_of, held_parcel, next_parcel, can_take, saves_by, would_save, IsQuietSystem};

use super::{System, Tally};
use kt_base::{InstNo, Kind, Label, ProcNo};
use kt_fifo::{Channels, Parcel};
use kt_process::Process;
use kt_spacetime::SpaceTime;

impl System {
    /// How many processes there are: each process that a call names is below this number.
    pub fn processes(&self) -> usize
        ensures processes { result ≡ self.now.size }
        ensures few { result ≤ 64 }
        ensures numbered { (p : ℕ) → p < self.now.size → IsNumbered (part_of_side (state_of self.now p).side) }
    {
        self.channels.processes()
    }

    /// The log.
    pub fn log(&self) -> &SpaceTime
        ensures { result.now ≡ self.now.rows }
    {
        &self.log
    }

    /// The log alone.
    pub fn into_log(self) -> SpaceTime
        ensures { result ≡ self.rows }
    {
        self.log
    }

    /// The instance that a process is in.
    pub fn in_inst(&self, p: ProcNo) -> Option<InstNo>
        requires { p < self.now.size }
        ensures inst { result ≡ inst_of (state_of self.now p).side }
        ensures numbered { IsNumbered (part_of_side (state_of self.now p).side) }
    {
        self.process(p).in_inst()
    }

    /// Whether a process's object is up.
    pub fn is_up(&self, p: ProcNo) -> bool
        requires { p < self.now.size }
        ensures { result ≡ (state_of self.now p).up }
    {
        self.process(p).is_up()
    }

    /// How many replies a process awaits in the instance that it is in; 0 where it is in none.
    pub fn awaited(&self, p: ProcNo) -> u32
        requires { p < self.now.size }
        ensures { result ≡ awaited_of (part_of_side (state_of self.now p).side) }
    {
        match self.process(p).part() {
            Some(part) => part.awaited(),
            None => 0,
        }
    }

    /// Whether a process is in a rollback.
    pub fn is_ready(&self, p: ProcNo) -> bool
        requires { p < self.now.size }
        ensures ready { result ≡ is_ready (state_of self.now p).side }
        ensures numbered { IsNumbered (part_of_side (state_of self.now p).side) }
    {
        self.process(p).is_ready()
    }

    /// Whether the greatest label of a process was given, so that it can't send any more.
    pub fn is_spent(&self, p: ProcNo) -> bool
        requires { p < self.now.size }
        ensures { IsTrue result ↔ (2 ^ 48 - 1 ≤ (state_of self.now p).used) }
    {
        self.process(p).is_spent()
    }

    /// How many parcels are in the channel from one process to another; 0 where one of them is not there.
    pub fn in_flight(&self, from: ProcNo, to: ProcNo) -> usize
        ensures { result ≡ length (channel self.now.channels from to) }
    {
        let processes = self.channels.processes();
        if from.index() < processes && to.index() < processes {
            self.channels.len(from, to)
        } else {
            0
        }
    }

    /// How many asks, replies and decisions of an instance were put into channels.
    pub fn tally(&self, inst: InstNo) -> Tally
        ensures { result ≡ tally_of self.now inst }
    {
        match self.tallies.get(inst.index()) {
            Some(tally) => *tally,
            None => Tally {
                asks: 0,
                replies: 0,
                decisions: 0,
            },
        }
    }

    /// Whether a process takes what is held for it: it is in no rollback, and something is held. Mostly nothing is held for
    /// any process, which is asked first.
    #[tactic(auto, using(crate::proofs::Saving::ready_held))]
    pub(super) fn takes_held(&self, at: ProcNo) -> bool
        requires { at < self.now.size }
        ensures some { result ≡ true → is_ready (state_of self.now at).side ≡ false }
        ensures none { result ≡ false → (from : ℕ) → is_held self.now at from ≡ false }
        ensures numbered { IsNumbered (part_of_side (state_of self.now at).side) }
    {
        let _count = self.processes();
        if self.holds_none() {
            return false;
        }
        !self.is_ready(at)
    }

    /// The first parcel of another process that is held for this one, where it is in no rollback.
    pub(super) fn held_parcel(&self, at: ProcNo, from: ProcNo) -> Option<Parcel>
        requires at { at < self.now.size }
        requires from { from < self.now.size }
        ensures parcel { result ≡ held_parcel self.now at from }
        ensures numbered { IsNumbered (part_of_side (state_of self.now at).side) }
    {
        if !self.takes_held(at) {
            return None;
        }
        self.held.front(from, at).copied()
    }

    /// The parcel that a process would take next from another one: the first that is held, where it is in no rollback,
    /// else the front of the channel.
    #[tactic(auto, using(crate::proofs::Saving::next_unheld, crate::proofs::Saving::next_held, crate::proofs::Saving::next_sent))]
    fn next_front(&self, at: ProcNo, from: ProcNo) -> Option<&Parcel>
        requires at { at < self.now.size }
        requires from { from < self.now.size }
        ensures { option_copied result ≡ next_parcel self.now at from }
    {
        if !self.takes_held(at) {
            return self.channels.front(from, at);
        }
        match self.held.front(from, at) {
            Some(parcel) => Some(parcel),
            None => self.channels.front(from, at),
        }
    }

    /// Whether a process can take a parcel of another one.
    pub fn can_take(&self, at: ProcNo, from: ProcNo) -> bool
        requires at { at < self.now.size }
        requires from { from < self.now.size }
        ensures { result ≡ can_take self.now at from }
    {
        self.senders(at).has(from) || self.held_senders(at).has(from)
    }

    /// Whether a process may take a tentative checkpoint, if its object can be saved: its object is up, and it is in no
    /// instance.
    fn may_save(&self, p: ProcNo) -> bool
        requires { p < self.now.size }
        ensures { result ≡ ((state_of self.now p).up && is_none (inst_of (state_of self.now p).side)) }
    {
        self.is_up(p) && self.in_inst(p).is_none()
    }

    /// Whether the next parcel from another process makes this one take its tentative checkpoint, if its object can be
    /// saved.
    #[inline(always)]
    #[tactic(auto, using(crate::proofs::Saving::no_save))]
    pub fn would_save(&self, at: ProcNo, from: ProcNo) -> bool
        requires at { at < self.now.size }
        requires from { from < self.now.size }
        ensures { result ≡ would_save self.now at from }
    {
        if !self.may_save(at) {
            return false;
        }
        match self.next_front(at, from) {
            Some(parcel) => saves_by(self.process(at), from, parcel),
            None => false,
        }
    }

    /// Whether no process is in an instance.
    fn all_outside(&self) -> bool
        ensures { result ≡ list_all (λ (x : ProcessState). is_none (inst_of x.side)) self.now.states }
    {
        self.processes
            .iter()
            .all(|process| process.in_inst().is_none())
    }

    /// Whether no parcel is in a channel or held, and no process in an instance.
    pub fn is_quiet(&self) -> bool
        ensures { IsTrue result ↔ IsQuietSystem self.now }
    {
        is_empty(&self.channels) && is_empty(&self.held) && self.all_outside()
    }
}

/// Whether no parcel is in any list.
pub(super) fn is_empty(channels: &Channels) -> bool
    ensures { IsTrue result ↔ ((p q : ℕ) → channel channels.now p q ≡ []) }
{
    channels.receivers().first().is_none()
}

/// Whether a parcel makes a process take its tentative checkpoint, if its object can be saved.
fn saves_by(process: &Process, from: ProcNo, parcel: &Parcel) -> bool
    requires { from < process.now.tables.processes }
    ensures { result ≡ saves_by process.now from parcel.now }
{
    let Some(label) = label_of_ask_to_save(parcel) else {
        return false;
    };
    process.joins_checkpoint(true, from, label)
}

/// The label of an ask to take part in a checkpoint, if a parcel is one.
fn label_of_ask_to_save(parcel: &Parcel) -> Option<Label>
    ensures some { IfSome result (λ label. (x : ProcessState) → (from : ℕ) → saves_by x from parcel.now ≡ joins_by x kind.Checkpoint true from label) }
    ensures none { IfNone result ((x : ProcessState) → (from : ℕ) → saves_by x from parcel.now ≡ false) }
{
    match parcel {
        Parcel::Ask { kind, label, .. } => match kind {
            Kind::Checkpoint => Some(*label),
            Kind::Rollback => None,
        },
        Parcel::App { .. } | Parcel::Reply { .. } | Parcel::Decide { .. } => None,
    }
}
