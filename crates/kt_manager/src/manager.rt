//! A manager: what it holds, and what can be read of it.

ghost use Rattle.std.specs.Prelude.{◌≡◌, ◌<◌, ◌≤◌, ◌&&◌, ◌↔◌, ◌∷◌, [], true, drop, is_none, IsTrue, IfOk, IfSome, IfNone};
ghost use Rattle.kt_process.specs.ProcessStates.{inst_of};
ghost use Rattle.kt_machine.specs.CallTests.{must_take};
ghost use Rattle.kt_manager.specs.declared.parcels.NodeParcel.TheVariants as sent;
ghost use Rattle.kt_manager.specs.Messages.{has_some};
ghost use Rattle.kt_manager.specs.Inboxes.{held_of};
ghost use Rattle.kt_manager.specs.Nodes.{NodeState, opening_node, is_in_rollback};
ghost use Rattle.kt_manager.specs.NodeSteps.{is_in, is_one};
ghost use Rattle.kt_manager.specs.Managers.{IsSoundManager, ShowsManager, size_of, is_rolling, number_for, awaited_by};
ghost use Rattle.kt_manager.specs.ManagerParts.{state_of};
ghost use Rattle.kt_manager.specs.OwnParts.{HasOwnPart};

use crate::inbox::Inbox;
use kt_base::{InstNo, Label, Memory, ProcNo, ProcSet};
use kt_process::Process;
use kt_spacetime::{Count, InstName};
use std::alloc::Global;
use std::marker::Model;

mod instances;
mod messages;
mod own_part;

pub use instances::Ask;
use own_part::has_own_part;

/// One process's manager.
#[derive(Drop)]
pub struct Manager {
    me: ProcNo,
    process: Process,
    inst: Option<InstName>,
    inbox: Inbox,
}

/// What a manager is made of, as it has it.
#[derive(Drop)]
pub struct ManagerParts {
    pub me: ProcNo,
    pub process: Process,
    pub inst: Option<InstName>,
    pub inbox: Inbox,
}

impl Model for Manager {
    ghost use Rattle.kt_manager.specs.Managers.{ManagerState, IsSoundManager};

    ghost Value = { ManagerState };

    ghost view = { λ m. record { me = m.me; process = m.process; inst = m.inst; inbox = m.inbox } };

    ghost invariant = { λ m. IsSoundManager (record { me = m.me; process = m.process; inst = m.inst; inbox = m.inbox }) };
}

impl Manager {
    /// The manager of a process among so many, at most 64, that is up and has done nothing; its labels go on after this one.
    pub fn new(alloc: Global, me: ProcNo, processes: usize, used: Label) -> Result<Manager, Memory>
        requires me { me < processes }
        requires few { processes ≤ 64 }
        ensures shows { IfOk result (λ m. ShowsManager m (opening_node processes me used)) }
    {
        Ok(Manager {
            me,
            process: Process::new(alloc, processes, used)?,
            inst: None,
            inbox: Inbox::new(alloc, processes)?,
        })
    }

    /// A manager of these parts; None where they do not belong together.
    pub fn of(parts: ManagerParts) -> Option<Manager>
        ensures some { IfSome result (λ m. m ≡ state_of parts) }
        ensures fits { IfSome result (λ m. HasOwnPart m) }
        ensures none { IfNone result (IsSoundManager (state_of parts) × HasOwnPart (state_of parts) → ⊥) }
    {
        if !are_sound(&parts) {
            return None;
        }
        if !has_own_part(&parts) {
            return None;
        }
        Some(Manager {
            me: parts.me,
            process: parts.process,
            inst: parts.inst,
            inbox: parts.inbox,
        })
    }

    /// How many processes there are, at most 64.
    pub fn size(&self) -> usize
        ensures size { result ≡ size_of self.now }
        ensures few { result ≤ 64 }
    {
        self.process.tables().processes()
    }

    /// Which process it is of.
    pub fn me(&self) -> ProcNo
        ensures me { result ≡ self.now.me }
        ensures within { result < size_of self.now }
    {
        self.me
    }

    /// Its process.
    pub fn process(&self) -> &Process
        ensures process { result.now ≡ self.now.process }
        ensures sound { IsSoundManager self.now }
    {
        &self.process
    }

    /// Its messages of each other process: those that it keeps of what it received past its permanent checkpoint, and those
    /// that it holds while it is in a rollback.
    pub fn inbox(&self) -> &Inbox
        ensures inbox { result.now ≡ self.now.inbox }
        ensures sound { IsSoundManager self.now }
    {
        &self.inbox
    }

    /// The open instance that it is in.
    pub fn in_inst(&self) -> Option<InstName>
        ensures { result ≡ self.now.inst }
    {
        self.inst
    }

    /// Whether its object is up.
    pub fn is_up(&self) -> bool
        ensures { result ≡ self.now.process.up }
    {
        self.process.is_up()
    }

    /// Whether it is in a rollback.
    pub fn is_in_rollback(&self) -> bool
        ensures state { result ≡ is_rolling self.now }
        ensures node { (y : NodeState) → ShowsManager self.now y → result ≡ is_in_rollback y }
    {
        self.inst.is_some() && self.process.is_ready()
    }

    /// Whether it is in this instance.
    pub fn is_in(&self, inst: &InstName) -> bool
        ensures { result ≡ is_in self.now.inst inst.now }
    {
        match &self.inst {
            Some(name) => is_one(name, inst),
            None => false,
        }
    }

    /// How many replies it awaits.
    pub fn awaited(&self) -> u32
        ensures awaited { result ≡ awaited_by self.now }
        ensures node { (y : NodeState) → ShowsManager self.now y → result ≡ y.part.awaited }
    {
        match self.process.part() {
            Some(part) => part.awaited(),
            None => 0,
        }
    }

    /// Whether it holds something of a process.
    pub fn holds(&self, from: ProcNo) -> bool
        ensures { result ≡ has_some (held_of self.now.inbox from) }
    {
        self.inbox.holds().has(from)
    }

    /// The first message that it holds of a process: its label and its body.
    pub fn first_held(&self, from: ProcNo) -> Option<(Count, i64)>
        requires { from < size_of self.now }
        ensures held { IfSome result (λ m. has_some (held_of self.now.inbox from) ≡ true) }
        ensures some { IfSome result (λ m. (y : NodeState) → ShowsManager self.now y →
            y.held from ≡ sent.App m.0 m.1 ∷ drop 1 (y.held from)) }
        ensures none { IfNone result ((y : NodeState) → ShowsManager self.now y →
            y.held from ≡ []) }
    {
        match self.inbox.first_held(from) {
            Some(item) => Some((item.label, item.body)),
            None => None,
        }
    }

    /// The number by which its process knows an instance.
    fn number_for(&self, inst: &InstName) -> InstNo
        ensures { result ≡ number_for self.now.inst inst.now }
    {
        match &self.inst {
            Some(name) => {
                if is_one(name, inst) {
                    here()
                } else {
                    elsewhere()
                }
            }
            None => here(),
        }
    }

    /// Whether it is in no instance, and its object is up.
    pub fn may_save(&self) -> bool
        ensures process { result ≡
            (is_none (inst_of self.now.process.side) && self.now.process.up) }
        ensures node { (y : NodeState) → ShowsManager self.now y →
            result ≡ (is_none y.inst && y.up) }
    {
        self.process.in_inst().is_none() && self.process.is_up()
    }

    /// Whether an ask of a process to join a checkpoint with this label makes it take one, if its object can be saved.
    pub fn saves_at(&self, from: ProcNo, label: Label) -> bool
        requires { from < size_of self.now }
        ensures { (y : NodeState) → ShowsManager self.now y →
            result ≡ ((is_none y.inst && y.up) && must_take y.calls from label) }
    {
        self.may_save() && self.process.joins_checkpoint(true, from, label)
    }
}

/// Whether these parts belong together.
fn are_sound(parts: &ManagerParts) -> bool
    ensures { IsTrue result ↔ IsSoundManager (state_of parts.now) }
{
    let size = parts.process.tables().processes();
    parts.me.index() < size && parts.inbox.processes() == size
}

/// Whether a name is that of another instance too.
pub fn is_one(name: &InstName, inst: &InstName) -> bool
    ensures { result ≡ is_one name.now inst.now }
{
    name.initiator.get() == inst.initiator.get() && name.count.get() == inst.count.get()
}

/// The instance that it is in, or may join now, as its process counts.
fn here() -> InstNo
    ensures { result ≡ 1 }
{
    InstNo::new(1).unwrap()
}

/// Any other one.
fn elsewhere() -> InstNo
    ensures { result ≡ 2 }
{
    InstNo::new(2).unwrap()
}
