//! Why a node takes no step, in numbers.

ghost use Rattle.std.specs.Prelude.{◌≡◌, ◌≢◌, ◌≤◌};
ghost use Rattle.koo_toueg_c.specs.NodeNumbers.{expected_number, manager_number, refusal_number, refusal_status};
ghost use Rattle.koo_toueg_c.specs.declared.node.refusal.Refusal.TheVariants as refusal;

use kt_base::Memory;
use kt_node::{ManagerFault, NodeFault};
use kt_node_text::LoadFault;

/// Why a node takes no step, or there is none.
#[derive(Clone, Copy)]
pub(crate) enum Refusal {
    /// The bytes are those of no node.
    State,
    /// The numbers mean no input.
    Input,
    /// The node refuses the input.
    Node(NodeFault),
    /// There was no memory.
    Memory,
}

impl From<LoadFault> for Refusal {
    ghost use Rattle.koo_toueg_c.specs.NodeNumbers.{of_load};

    ghost from_gives = { λ f r. r ≡ of_load f };

    fn from(fault: LoadFault) -> Refusal {
        match fault {
            LoadFault::Form => Refusal::State,
            LoadFault::Memory => Refusal::Memory,
        }
    }
}

impl From<NodeFault> for Refusal {
    ghost from_gives = { λ f r. r ≡ refusal.Node f };

    fn from(fault: NodeFault) -> Refusal {
        Refusal::Node(fault)
    }
}

impl From<Memory> for Refusal {
    ghost from_gives = { λ _ r. r ≡ refusal.Memory };

    fn from(_fault: Memory) -> Refusal {
        Refusal::Memory
    }
}

impl Refusal {
    /// The status: 2 refused input, 4 want of memory.
    pub(crate) fn status(&self) -> u32
        ensures exact { result ≡ refusal_status self.now }
        ensures refused { 2 ≤ result }
        ensures few { result ≤ 4 }
        ensures other { result ≢ 3 }
    {
        match self {
            Refusal::Memory | Refusal::Node(NodeFault::Manager(ManagerFault::Memory)) => 4,
            _ => 2,
        }
    }

    /// Its number.
    pub(crate) fn number(&self) -> u32
        ensures { result ≡ refusal_number self.now }
    {
        match self {
            Refusal::State => 1,
            Refusal::Input => 2,
            Refusal::Node(NodeFault::Manager(fault)) => manager_number(fault),
            Refusal::Node(NodeFault::ClockSpent) => 10,
            Refusal::Node(NodeFault::Gap(_)) => 11,
            Refusal::Memory => 12,
            Refusal::Node(NodeFault::Astray) => 13,
            Refusal::Node(NodeFault::Leap) => 14,
            Refusal::Node(NodeFault::Stale) => 15,
        }
    }

    /// The number of the parcel that has to come first, or 0.
    pub(crate) fn expected(&self) -> u64
        ensures { result ≡ expected_number self.now }
    {
        match self {
            Refusal::Node(NodeFault::Gap(expected)) => *expected,
            _ => 0,
        }
    }
}

fn manager_number(fault: &ManagerFault) -> u32
    ensures { result ≡ manager_number fault.now }
{
    match fault {
        ManagerFault::Unknown => 3,
        ManagerFault::Itself => 4,
        ManagerFault::Waits => 5,
        ManagerFault::HeldFirst => 6,
        ManagerFault::HoldsNone => 7,
        ManagerFault::LabelsSpent => 8,
        ManagerFault::CountsSpent => 9,
        ManagerFault::Memory => 12,
        ManagerFault::NotBegun => 16,
    }
}
