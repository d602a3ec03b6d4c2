//! What a step needs of the object.

ghost use Rattle.std.specs.Prelude.{◌≡◌, ◌<◌, ◌&&◌, ℤ, Bool, true, is_none};
ghost use Rattle.kt_manager.specs.Nodes.{NodeState};
ghost use Rattle.kt_node.specs.Inputs.{Send, Begin, Held, Comes};
ghost use Rattle.kt_node.specs.NodeLooks.{asks_to_save, would_save};
ghost use Rattle.kt_node.specs.Managers.{ShowsNode};
ghost use Rattle.kt_node.specs.Faults.{stranger, parcel_fault, fault_at};
ghost use Rattle.kt_node.specs.Looks.{input_of, look_of};

use super::Manager;
use crate::inputs::Input;
use kt_base::{Kind, ProcNo};
use kt_manager::NodeParcel;
use kt_plan::Look;
use kt_spacetime::Count;

impl Manager {
    /// What the step at an input needs of its object: that this is saved, or nothing; idle where there is no step.
    pub fn look(&self, input: &Input) -> Look
        ensures { (y : NodeState) → ShowsNode self.now y →
            result ≡ look_of y (input_of true input.now) }
    {
        if !self.may_step(input) {
            return Look::Idle;
        }
        if self.would_save(input) {
            Look::NeedsSave
        } else {
            Look::Plain
        }
    }

    /// Whether it does not refuse an input, but for want of memory.
    fn may_step(&self, input: &Input) -> bool
        ensures { (y : NodeState) → ShowsNode self.now y →
            result ≡ is_none (fault_at y (input_of true input.now)) }
    {
        match input {
            Input::Send { to, .. } => self.may_send(*to),
            Input::Begin(_) => self.may_begin(),
            Input::Fail => true,
            Input::Redeliver(from) => self.may_take_held(*from),
            Input::Deliver { from, envelope } => self.may_take(*from, &envelope.parcel),
        }
    }

    /// Whether an input makes it take a checkpoint, if its object can be saved.
    fn would_save(&self, input: &Input) -> bool
        ensures { (y : NodeState) → ShowsNode self.now y →
            is_none (fault_at y (input_of true input.now)) ≡ true →
            result ≡ would_save y (input_of true input.now) }
    {
        match input {
            Input::Begin(Kind::Checkpoint) => self.core.may_save(),
            Input::Deliver { from, envelope } => self.saves_at(*from, &envelope.parcel),
            Input::Begin(Kind::Rollback) | Input::Send { .. } | Input::Fail | Input::Redeliver(_) =>
                false,
        }
    }

    /// Whether a parcel of a process makes it take a checkpoint, if its object can be saved.
    fn saves_at(&self, from: ProcNo, parcel: &NodeParcel) -> bool
        ensures { (y : NodeState) → ShowsNode self.now y → from < y.processes →
            result ≡ ((is_none y.inst && y.up) && asks_to_save y from parcel.now) }
    {
        match *parcel {
            NodeParcel::Ask {
                kind: Kind::Checkpoint,
                label,
                ..
            } => from.index() < self.size() && self.core.saves_at(from, label),
            _ => false,
        }
    }

    /// Whether another process is there.
    fn is_other(&self, q: ProcNo) -> bool
        ensures within { result ≡ true → q < self.now.size }
        ensures other { (y : NodeState) → ShowsNode self.now y → result ≡ is_none (stranger y q) }
    {
        q.index() < self.size() && q.get() != self.me().get()
    }

    /// Whether it may send to a process.
    fn may_send(&self, to: ProcNo) -> bool
        ensures { (y : NodeState) (body : ℤ) → ShowsNode self.now y →
            result ≡ is_none (fault_at y (Send to body)) }
    {
        let is_spent = self.core.is_up() && self.core.process().is_spent();
        self.is_other(to) && self.core.in_inst().is_none() && !is_spent
    }

    /// Whether a count is left for an instance that it begins.
    fn may_begin(&self) -> bool
        ensures { (y : NodeState) (roll able : Bool) → ShowsNode self.now y →
            result ≡ is_none (fault_at y (Begin roll able)) }
    {
        Count::new(self.begun + 1).is_some()
    }

    /// Whether it may take a message that it holds of a process.
    fn may_take_held(&self, from: ProcNo) -> bool
        ensures { (y : NodeState) → ShowsNode self.now y →
            result ≡ is_none (fault_at y (Held from)) }
    {
        self.is_other(from) && !self.is_in_rollback() && self.holds_first(from)
    }

    /// Whether it may take a parcel of a process.
    fn may_take(&self, from: ProcNo, parcel: &NodeParcel) -> bool
        ensures { (y : NodeState) (able : Bool) → ShowsNode self.now y →
            result ≡ is_none (fault_at y (Comes from able parcel.now)) }
    {
        self.is_other(from) && (self.is_in_rollback() || !self.holds(from)) && self.may_hear(parcel)
    }

    /// Whether a parcel is no ask, or one to join an instance that its initiator is in.
    pub(super) fn may_hear(&self, parcel: &NodeParcel) -> bool
        ensures { (y : NodeState) → ShowsNode self.now y →
            result ≡ is_none (parcel_fault y parcel.now) }
    {
        match parcel {
            NodeParcel::Ask { inst, .. } => {
                inst.initiator.index() < self.size()
                    && (inst.initiator.get() != self.me().get() || self.core.is_in(inst))
            }
            _ => true,
        }
    }
}
