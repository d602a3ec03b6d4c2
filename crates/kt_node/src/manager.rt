//! A manager with its guards: what it holds, and what can be read of it.

ghost use Rattle.std.specs.Prelude.{◌≡◌, ◌<◌, ◌≤◌, ◌&&◌, ◌↔◌, not, ℕ, true, false, Some, None, IsTrue, IfOk, IfErr, IfSome, IfNone, OnOk, IsErrOf};
ghost use Rattle.kt_manager.specs.Nodes.{NodeState, is_in_rollback};
ghost use Rattle.kt_node.specs.Nets.{opening_net, has_some};
ghost use Rattle.kt_manager.specs.Messages.{has_some as has_item};
ghost use Rattle.kt_manager.specs.Inboxes.{held_of};
ghost use Rattle.kt_manager.specs.Managers.{IsSoundManager as IsSoundCore, size_of, is_rolling};
ghost use Rattle.kt_node.specs.Managers.{IsSoundManager, ShowsNode, core_of};
ghost use Rattle.kt_node.specs.ManagerParts.{state_of};
ghost use Rattle.kt_node.specs.OwnParts.{HasOwnPart};
ghost use Rattle.kt_node.specs.Faults.{stranger};
ghost use Rattle.kt_node.specs.declared.faults.ManagerFault.TheVariants as fault;

use crate::faults::ManagerFault;
use kt_base::{Label, Memory, ProcNo, ProcSet};
use kt_manager::{Inbox, Manager as Core, ManagerParts as CoreParts};
use kt_process::Process;
use kt_spacetime::{Count, InstName};
use std::alloc::Global;
use std::marker::Model;

mod instances;
mod looks;
mod messages;
mod parcels;

/// One process's manager, by names of its own, which takes no parcel that is not due.
#[derive(Drop)]
pub struct Manager {
    core: Core,
    begun: u64,
    asks: [Option<InstName>; 64],
    answered: ProcSet,
}

/// What a manager is made of, as it has it.
#[derive(Drop)]
pub struct ManagerParts {
    pub me: ProcNo,
    pub process: Process,
    pub inst: Option<InstName>,
    pub begun: u64,
    pub inbox: Inbox,
    pub asks: [Option<InstName>; 64],
    pub answered: ProcSet,
}

impl Model for Manager {
    ghost use Rattle.kt_node.specs.Managers.{ManagerState, IsSoundManager};

    ghost Value = { ManagerState };

    ghost view = { λ m. record { size = m.core.process.tables.processes; me = m.core.me; process = m.core.process; inst = m.core.inst; begun = m.begun; inbox = m.core.inbox; asks = m.asks; answered = m.answered } };

    ghost invariant = { λ m. IsSoundManager (record { size = m.core.process.tables.processes; me = m.core.me; process = m.core.process; inst = m.core.inst; begun = m.begun; inbox = m.core.inbox; asks = m.asks; answered = m.answered }) };
}

impl Manager {
    /// The manager of a process among so many, at most 64, that is up and has done nothing; its labels go on after this one.
    pub fn new(alloc: Global, me: ProcNo, processes: usize, used: Label) -> Result<Manager, Memory>
        requires me { me < processes }
        requires few { processes ≤ 64 }
        ensures shows { IfOk result (λ m. ShowsNode m ((opening_net processes used).nodes me)) }
    {
        let core = Core::new(alloc, me, processes, used)?;
        let _size = core.size();
        Ok(Manager {
            core,
            begun: 0,
            asks: [None; 64],
            answered: ProcSet::empty(),
        })
    }

    /// A manager of these parts; None where they do not belong together.
    pub fn of(parts: ManagerParts) -> Option<Manager>
        ensures some { IfSome result (λ m. m ≡ state_of parts) }
        ensures fits { IfSome result (λ m. HasOwnPart m) }
        ensures none { IfNone result (IsSoundManager (state_of parts) × HasOwnPart (state_of parts) → ⊥) }
    {
        if parts.begun > Count::MAX {
            return None;
        }
        let (begun, answered) = (parts.begun, parts.answered);
        let asks = parts.asks;
        let core = Core::of(CoreParts {
            me: parts.me,
            process: parts.process,
            inst: parts.inst,
            inbox: parts.inbox,
        })?;
        let _size = core.size();
        Some(Manager {
            core,
            begun,
            asks,
            answered,
        })
    }

    /// How many processes there are, at most 64.
    pub fn size(&self) -> usize
        ensures size { result ≡ self.now.size }
        ensures few { result ≤ 64 }
    {
        self.core.size()
    }

    /// Which process it is of.
    pub fn me(&self) -> ProcNo
        ensures me { result ≡ self.now.me }
        ensures within { result < self.now.size }
    {
        self.core.me()
    }

    /// Its process.
    pub fn process(&self) -> &Process
        ensures process { result.now ≡ self.now.process }
        ensures sound { IsSoundManager self.now }
    {
        self.core.process()
    }

    /// How many instances it began.
    pub fn begun_count(&self) -> u64
        ensures { result ≡ self.now.begun }
    {
        self.begun
    }

    /// Its messages of each other process: those that it keeps of what it received past its permanent checkpoint, and those
    /// that it holds while it is in a rollback.
    pub fn inbox(&self) -> &Inbox
        ensures inbox { result.now ≡ self.now.inbox }
        ensures sound { IsSoundManager self.now }
    {
        self.core.inbox()
    }

    /// By process: the instance that its last ask named.
    pub fn asks(&self) -> &[Option<InstName>; 64]
        ensures { result.now ≡ self.now.asks }
    {
        &self.asks
    }

    /// Who has replied in the instance at hand.
    pub fn answered(&self) -> ProcSet
        ensures { result ≡ self.now.answered }
    {
        self.answered
    }

    /// The open instance that it is in.
    pub fn in_inst(&self) -> Option<InstName>
        ensures { result ≡ self.now.inst }
    {
        self.core.in_inst()
    }

    /// Whether its object is up.
    pub fn is_up(&self) -> bool
        ensures { result ≡ self.now.process.up }
    {
        self.core.is_up()
    }

    /// Whether it is in a rollback.
    pub fn is_in_rollback(&self) -> bool
        ensures state { result ≡ is_rolling (core_of self.now) }
        ensures node { (y : NodeState) → ShowsNode self.now y → result ≡ is_in_rollback y }
    {
        self.core.is_in_rollback()
    }

    /// Whether it holds something of a process.
    fn holds(&self, from: ProcNo) -> bool
        ensures state { result ≡ has_item (held_of self.now.inbox from) }
        ensures node { (y : NodeState) → ShowsNode self.now y → result ≡ has_some (y.held from) }
    {
        self.core.holds(from)
    }

    /// Whether it could take something now that it holds of a process.
    pub(crate) fn holds_next(&self, from: ProcNo) -> bool
        ensures { (y : NodeState) → ShowsNode self.now y →
            result ≡ (not (is_in_rollback y) && has_some (y.held from)) }
    {
        !self.is_in_rollback() && self.holds(from)
    }

    /// The least process of which it holds something that it could take now.
    pub fn next_held(&self) -> Option<ProcNo>
        ensures some { IfSome result (λ q. (y : NodeState) → ShowsNode self.now y →
            (is_in_rollback y ≡ false) × (has_some (y.held q) ≡ true)) }
        ensures none { IfNone result ((y : NodeState) (q : ℕ) → ShowsNode self.now y →
            is_in_rollback y ≡ false → has_some (y.held q) ≡ false) }
        ensures least { IfSome result (λ q. (y : NodeState) (p : ℕ) → ShowsNode self.now y →
            p < q → has_some (y.held p) ≡ false) }
    {
        if self.is_in_rollback() {
            return None;
        }
        self.core.inbox().holds().first()
    }

    /// Whether another process is there.
    fn meet(&self, q: ProcNo) -> Result<(), ManagerFault>
        ensures within { OnOk result (q < self.now.size) }
        ensures ok { OnOk result ((y : NodeState) → ShowsNode self.now y → stranger y q ≡ None) }
        ensures err { IfErr result (λ f. (y : NodeState) → ShowsNode self.now y →
            stranger y q ≡ Some f) }
        ensures memory { IsErrOf result fault.Memory → ⊥ }
    {
        if q.index() >= self.size() {
            return Err(ManagerFault::Unknown);
        }
        if q.get() == self.me().get() {
            return Err(ManagerFault::Itself);
        }
        Ok(())
    }
}

/// A manager that is guarded is sound, and of at most 64 processes.
fn sound(core: &Core)
    ensures few { size_of core.now ≤ 64 }
    ensures sound { IsSoundCore core.now }
{
    let _size = core.size();
    let _inbox = core.inbox();
}
