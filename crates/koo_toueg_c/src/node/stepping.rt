//! Steps of a node that is bytes.

ghost use Rattle.std.specs.Prelude.{◌≡◌, ◌≤◌, ◌-◌, ◌^◌, max, true, IfOk, IfErr, IsErrOf};
ghost use Rattle.kt_manager.specs.Nodes.{NodeState};
ghost use Rattle.kt_node.specs.Faults.{fault_at, wants_memory};
ghost use Rattle.kt_node.specs.Links.{IsMetAs, IsParcelRefusedAs, IsStep, IsUntaken, ShowsLinks};
ghost use Rattle.kt_node.specs.Looks.{clock_of, input_of, meeting_at};
ghost use Rattle.kt_node.specs.Managers.{ShowsNode};
ghost use Rattle.kt_node.specs.declared.faults.ManagerFault.TheVariants as of_manager;
ghost use Rattle.kt_node.specs.declared.node.NodeFault.TheVariants as fault;
ghost use Rattle.koo_toueg_c.specs.Nodes.{IsNoStep, IsTaken, SavesNode, TakesInOrder};

use crate::node::input::KtInput;
use crate::node::refusal::Refusal;
use kt_base::Memory;
use kt_node::{Input, Node, NodeFault, Output, Taken};
use kt_node_text::{load, save};
use std::alloc::Global;

/// A step that was made: the node after it, and the bytes of this.
#[derive(Drop)]
pub(crate) struct Step {
    pub(crate) node: Node,
    pub(crate) bytes: Vec<u8>,
}

/// The bytes of a node.
pub(crate) fn bytes_of(alloc: Global, node: &Node) -> Result<Vec<u8>, Memory>
    ensures { IfOk result (λ bytes. SavesNode bytes.items node.now) }
{
    let mut bytes = Vec::new(alloc);
    save(node, &mut bytes)?;
    Ok(bytes)
}

/// The step of the node that these bytes say, at the input that numbers mean, and what it puts out; None where a parcel came
/// before.
pub(crate) fn stepped(
    alloc: Global,
    state: &[u8],
    numbers: &KtInput,
    out: &mut Output,
) -> Result<Option<Step>, Refusal>
    ensures step { IfOk result (IsTaken state.now numbers.now out.new) }
    ensures refused { IfErr result (IsNoStep state.now numbers.now) }
{
    let mut node = load(alloc, state)?;
    let Some(input) = numbers.meant() else {
        return Err(Refusal::Input);
    };
    match take(alloc, &mut node, &input, numbers.is_able(), out)? {
        Taken::Step => {
            let bytes = bytes_of(alloc, &node)?;
            Ok(Some(Step { node, bytes }))
        }
        Taken::Again => Ok(None),
    }
}

// A node takes what comes to it.
fn take(
    alloc: Global,
    node: &mut Node,
    input: &Input,
    able: bool,
    out: &mut Output,
) -> Result<Taken, NodeFault>
    ensures done { (y : NodeState) → ShowsLinks node.old y → IfOk result (λ t. IsUntaken t
        (IsStep node.old node.new (clock_of input.now) y (input_of able input.now) out.new)) }
    ensures next { IfOk result (TakesInOrder node.old node.new input.now) }
    ensures met { IsMetAs (meeting_at node.old input.now) result }
    ensures refused { (y : NodeState) → ShowsNode node.old.manager y →
        IsParcelRefusedAs (fault_at y (input_of able input.now)) result }
    ensures spent { IsErrOf result fault.ClockSpent →
        2 ^ 64 - 2 ≤ max node.old.clock (clock_of input.now) }
    ensures memory { (y : NodeState) → ShowsNode node.old.manager y →
        IsErrOf result (fault.Manager of_manager.Memory) →
        wants_memory y (input_of able input.now) ≡ true }
{
    match input {
        Input::Send { to, body } => {
            node.send(*to, *body, out)?;
            Ok(Taken::Step)
        }
        Input::Begin(kind) => {
            node.begin(alloc, *kind, able, out)?;
            Ok(Taken::Step)
        }
        Input::Fail => {
            node.fail(out)?;
            Ok(Taken::Step)
        }
        Input::Redeliver(from) => {
            node.redeliver(*from, out)?;
            Ok(Taken::Step)
        }
        Input::Deliver { from, envelope } => node.deliver(alloc, *from, able, envelope, out),
    }
}
