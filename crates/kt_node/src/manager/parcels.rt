//! Any parcel.

ghost use Rattle.std.specs.Prelude.{◌≡◌, true, OnOk, OnErr, IsErrOf};
ghost use Rattle.kt_manager.specs.Nodes.{NodeState};
ghost use Rattle.kt_node.specs.Inputs.{Comes};
ghost use Rattle.kt_node.specs.NodeSteps.{node_after};
ghost use Rattle.kt_node.specs.Managers.{ShowsNode, IsSameManager};
ghost use Rattle.kt_node.specs.Effects.{IsDone};
ghost use Rattle.kt_node.specs.Links.{IsSpoken};
ghost use Rattle.kt_node.specs.Faults.{fault_at, wants_memory, IsRefusedAs};
ghost use Rattle.kt_node.specs.declared.faults.ManagerFault.TheVariants as fault;

use super::Manager;
use crate::faults::ManagerFault;
use kt_base::ProcNo;
use kt_manager::{Ask, Effects, NodeParcel};
use std::alloc::Global;

impl Manager {
    /// A parcel of another process comes. Whether its object can be saved counts where it is asked to take a checkpoint.
    pub fn take(
        &mut self,
        alloc: Global,
        from: ProcNo,
        able: bool,
        parcel: &NodeParcel,
        out: &mut Effects,
    ) -> Result<(), ManagerFault>
        ensures done { (y : NodeState) → ShowsNode self.old y →
            IsSpoken y from able parcel.now →
            OnOk result (IsDone self.new out.new (node_after y (Comes from able parcel.now))) }
        ensures refused { (y : NodeState) → ShowsNode self.old y →
            IsRefusedAs (fault_at y (Comes from able parcel.now)) result }
        ensures memory { (y : NodeState) → ShowsNode self.old y →
            IsErrOf result fault.Memory → wants_memory y (Comes from able parcel.now) ≡ true }
        ensures err { OnErr result (IsSameManager self.new self.old) }
        ensures out { OnErr result (out.new ≡ out.old) }
    {
        self.meet(from)?;
        if !self.is_in_rollback() && self.holds(from) {
            return Err(ManagerFault::HeldFirst);
        }
        if !self.may_hear(parcel) {
            return Err(ManagerFault::NotBegun);
        }
        match *parcel {
            NodeParcel::App { label, body } => Ok(self.take_message(from, label, body, out)?),
            NodeParcel::Ask { inst, kind, label } => {
                Ok(self.take_ask(alloc, from, &Ask { inst, kind, label }, able, out)?)
            }
            NodeParcel::Reply { inst, willing } => {
                self.take_reply(from, &inst, willing, out);
                Ok(())
            }
            NodeParcel::Decide { inst, commit } => {
                self.take_decision(from, &inst, commit, out);
                Ok(())
            }
        }
    }
}
