//! Instances begun, joined and closed.

ghost use Rattle.std.specs.Prelude.{◌≡◌, ◌<◌, ◌+◌, ◌^◌, ◌&&◌, not, is_some, if◌then◌else◌, true, Some, Bool, OnOk, OnErr};
ghost use Rattle.kt_meaning.specs.Past.{is_rollback_kind};
ghost use Rattle.kt_manager.specs.Nodes.{NodeState};
ghost use Rattle.kt_node.specs.Inputs.{Begin};
ghost use Rattle.kt_manager.specs.NodeSteps.{is_in};
ghost use Rattle.kt_node.specs.NodeSteps.{node_after, taking, awaits, heeds};
ghost use Rattle.kt_manager.specs.Managers.{awaited_by};
ghost use Rattle.kt_manager.specs.declared.parcels.NodeParcel.TheVariants as put;
ghost use Rattle.kt_node.specs.Managers.{HasGuards, ShowsNode, IsSameManager, core_of};
ghost use Rattle.kt_node.specs.Effects.{IsDone};
ghost use Rattle.kt_node.specs.Faults.{fault_at, IsRefusedAs};
ghost use Rattle.kt_node.specs.Begins.{begins, begun_guards, joined_guards};

use super::{Manager, sound};
use crate::faults::ManagerFault;
use kt_base::{Kind, Memory, ProcNo, ProcSet};
use kt_manager::{Ask, Effects, is_one};
use kt_spacetime::{Count, InstName};
use std::alloc::Global;

impl Manager {
    /// It begins an instance of a kind, or refuses: in an instance, and a checkpoint where its object can't be saved.
    pub fn begin(
        &mut self,
        alloc: Global,
        kind: Kind,
        able: bool,
        out: &mut Effects,
    ) -> Result<(), ManagerFault>
        ensures done { (y : NodeState) → ShowsNode self.old y → OnOk result
            (IsDone self.new out.new (node_after y (Begin (is_rollback_kind (Some kind)) able))) }
        ensures refused { (y : NodeState) → ShowsNode self.old y →
            IsRefusedAs (fault_at y (Begin (is_rollback_kind (Some kind)) able)) result }
        ensures err { OnErr result (IsSameManager self.new self.old) }
        ensures out { OnErr result (out.new ≡ out.old) }
    {
        let Some(count) = Count::new(self.begun + 1) else {
            return Err(ManagerFault::CountsSpent);
        };
        let inst = InstName {
            initiator: self.core.me(),
            count,
        };
        let begins = self.begins(kind, able);
        let begun = self.core.begin(alloc, &inst, kind, able, out);
        sound(&self.core);
        begun?;
        self.note_begun(begins);
        Ok(())
    }

    /// One instance more was begun, if so, and joined.
    fn note_begun(&mut self, begins: bool)
        requires { self.old.begun + 1 < 2 ^ 48 }
        ensures size { self.new.size ≡ self.old.size }
        ensures core { core_of self.new ≡ core_of self.old }
        ensures guards { (y : NodeState) → HasGuards self.old y →
            HasGuards self.new (if begins then begun_guards y else y) }
    {
        if !begins {
            return;
        }
        self.begun += 1;
        self.answered = ProcSet::empty();
    }

    /// Where it was in no instance and is in one by now, it has joined that, and nobody has replied in it.
    fn note_joined(&mut self, was_in: bool)
        ensures size { self.new.size ≡ self.old.size }
        ensures core { core_of self.new ≡ core_of self.old }
        ensures guards { (y : NodeState) → HasGuards self.old y →
            HasGuards self.new
            (if not was_in && is_some self.old.inst then joined_guards y else y) }
    {
        if was_in || self.core.in_inst().is_none() {
            return;
        }
        self.answered = ProcSet::empty();
    }

    /// Whether it begins an instance of a kind where it is told to.
    fn begins(&self, kind: Kind, able: bool) -> bool
        ensures { (y : NodeState) → ShowsNode self.now y →
            result ≡ begins y.inst y (is_rollback_kind (Some kind)) able }
    {
        self.core.in_inst().is_none()
            && match kind {
                Kind::Checkpoint => able && self.core.is_up(),
                Kind::Rollback => true,
            }
    }

    /// Another process asks it to take part in an instance.
    pub(super) fn take_ask(
        &mut self,
        alloc: Global,
        from: ProcNo,
        ask: &Ask,
        able: bool,
        out: &mut Effects,
    ) -> Result<(), Memory>
        requires { from < self.old.size }
        ensures done { (y : NodeState) → ShowsNode self.old y →
            OnOk result (IsDone self.new out.new
            (taking y from able (put.Ask ask.now.inst ask.now.kind ask.now.label))) }
        ensures err { OnErr result (IsSameManager self.new self.old) }
        ensures out { OnErr result (out.new ≡ out.old) }
    {
        let was_in = self.core.in_inst().is_some();
        let taken = self.core.take_ask(alloc, from, ask, able, out);
        sound(&self.core);
        taken?;
        self.asks[from.index()] = Some(ask.inst);
        self.note_joined(was_in);
        Ok(())
    }

    /// A reply comes: it counts where it is awaited, and the last one is followed by its own reply, or by the decision.
    pub(super) fn take_reply(
        &mut self,
        from: ProcNo,
        inst: &InstName,
        willing: bool,
        out: &mut Effects,
    )
        ensures { (y : NodeState) (able : Bool) → ShowsNode self.old y →
            IsDone self.new out.new (taking y from able (put.Reply inst.now willing)) }
    {
        if !self.awaits(from, inst) {
            out.clear();
            return;
        }
        self.answered = self.answered.with(from);
        self.core.take_reply(inst, willing, out);
        sound(&self.core);
    }

    /// Whether it is in this instance, and awaits a reply of a process.
    fn awaits(&self, from: ProcNo, inst: &InstName) -> bool
        ensures inside { result ≡ true → is_in self.now.inst inst.now ≡ true }
        ensures some { result ≡ true → 0 < awaited_by (core_of self.now) }
        ensures node { (y : NodeState) → ShowsNode self.now y → result ≡ awaits y from inst.now }
    {
        self.core.is_in(inst)
            && self.core.awaited() != 0
            && self.core.process().asked().has(from)
            && !self.answered.has(from)
    }

    /// A decision comes: that of its instance closes it, where another began it, all have replied, and it comes of who asked it
    /// last to join.
    pub(super) fn take_decision(
        &mut self,
        from: ProcNo,
        inst: &InstName,
        commit: bool,
        out: &mut Effects,
    )
        ensures { (y : NodeState) (able : Bool) → ShowsNode self.old y →
            IsDone self.new out.new (taking y from able (put.Decide inst.now commit)) }
    {
        if !self.heeds(from, inst) {
            out.clear();
            return;
        }
        self.core.take_decision(inst, commit, out);
        sound(&self.core);
    }

    /// Whether it is in this instance, which another process began, awaits nobody, and was asked last by this one to join it.
    fn heeds(&self, from: ProcNo, inst: &InstName) -> bool
        ensures inside { result ≡ true → is_in self.now.inst inst.now ≡ true }
        ensures node { (y : NodeState) → ShowsNode self.now y → result ≡ heeds y from inst.now }
    {
        let asked = match &self.asks[from.index()] {
            Some(name) => is_one(name, inst),
            None => false,
        };
        self.core.is_in(inst)
            && asked
            && inst.initiator.get() != self.core.me().get()
            && self.core.awaited() == 0
    }
}
