//! Three nodes in a loop of this program's own, with a link from each to each other one. Each is saved and read again
//! after each of its steps, as by a program that is killed there.

use crate::faults::{refused, value_of};
use crate::limits::label_of;
use kt_base::ProcNo;
use kt_node::{ClusterStep, Envelope, Input, Node, NodeFault, Output, Taken};
use kt_node_text::{load, save};
use kt_plan::Look;
use kt_spacetime::{ClockedRow, NamedRow};
use std::alloc::Global;
use std::io;

// How many nodes there are.
const COUNT: u8 = 3;

/// A parcel on its way.
#[derive(Clone, Copy)]
struct OnWay {
    from: ProcNo,
    to: ProcNo,
    envelope: Envelope,
}

/// Nodes, what is on its way between them, the oldest first, and the rows of all.
#[derive(Drop)]
pub(crate) struct Net {
    nodes: Vec<Node>,
    on_way: Vec<OnWay>,
    rows: Vec<ClockedRow>,
}

/// What became of a step.
#[derive(Clone, Copy)]
pub(crate) enum Done {
    Step,
    Again,
    Refused(NodeFault),
}

/// The text of a node.
pub(crate) fn text_of(alloc: Global, node: &Node) -> io::Result<Vec<u8>> {
    let mut text = Vec::new(alloc);
    value_of(save(node, &mut text))?;
    Ok(text)
}

// A node makes the step at what comes to it.
fn step_at(
    alloc: Global,
    node: &mut Node,
    input: &Input,
    able: bool,
    output: &mut Output,
) -> Result<Taken, NodeFault> {
    match input {
        Input::Send { to, body } => node.send(*to, *body, output)?,
        Input::Begin(kind) => node.begin(alloc, *kind, able, output)?,
        Input::Fail => node.fail(output)?,
        Input::Redeliver(from) => node.redeliver(*from, output)?,
        Input::Deliver { from, envelope } => {
            return node.deliver(alloc, *from, able, envelope, output);
        }
    }
    Ok(Taken::Step)
}

impl OnWay {
    // Whether it is on its way from one process to another one.
    fn is_between(&self, from: ProcNo, to: ProcNo) -> bool {
        self.from == from && self.to == to
    }
}

impl Net {
    /// Nodes that have done nothing.
    pub(crate) fn new(alloc: Global) -> io::Result<Net> {
        let none = label_of(0)?;
        let mut nodes = Vec::new(alloc);
        for number in 0..COUNT {
            let me = ProcNo::nth(number);
            nodes.push(value_of(Node::new(alloc, me, usize::from(COUNT), none))?)?;
        }
        let on_way = Vec::new(alloc);
        let rows = Vec::new(alloc);
        Ok(Net {
            nodes,
            on_way,
            rows,
        })
    }

    /// The rows of a process.
    pub(crate) fn part(&self, alloc: Global, p: ProcNo) -> io::Result<Vec<ClockedRow>> {
        let rows = self.rows.iter().copied();
        Ok(rows.filter(|r| r.row.p == p).collect(alloc)?)
    }

    /// A node.
    pub(crate) fn node(&self, p: ProcNo) -> Option<&Node> {
        self.nodes.get(p.index())
    }

    /// The front of a link.
    fn front(&self, from: ProcNo, to: ProcNo) -> Option<Envelope> {
        let first = self.on_way.iter().find(|x| x.is_between(from, to))?;
        Some(first.envelope)
    }

    /// What comes next to a process of another one: what it holds and may take, or else the front of the link.
    fn next_of(&self, at: ProcNo, from: ProcNo) -> Input {
        let held = Input::Redeliver(from);
        let may_take = match self.node(at) {
            Some(node) => node.look(&held),
            None => Look::Idle,
        };
        match self.front(from, at) {
            Some(envelope) if may_take == Look::Idle => Input::Deliver { from, envelope },
            _ => held,
        }
    }

    /// Who makes a step, what comes to it, and whether its object can be saved.
    pub(crate) fn coming(&self, step: &ClusterStep) -> (ProcNo, Input, bool) {
        match *step {
            ClusterStep::Send { at, to, body } => (at, Input::Send { to, body }, true),
            ClusterStep::Begin { at, kind, able } => (at, Input::Begin(kind), able),
            ClusterStep::Fail { at } => (at, Input::Fail, true),
            ClusterStep::Take { at, from, able } => (at, self.next_of(at, from), able),
        }
    }

    // A process made the step at what comes to it: where this is a parcel, the front of its link was taken.
    fn remove_taken(&mut self, to: ProcNo, input: &Input) {
        let Input::Deliver { from, .. } = *input else {
            return;
        };
        if let Some(place) = self.on_way.iter().position(|x| x.is_between(from, to)) {
            self.on_way.remove(place);
        }
    }

    /// A process makes the step at what comes to it.
    pub(crate) fn make(
        &mut self,
        alloc: Global,
        at: ProcNo,
        input: &Input,
        able: bool,
    ) -> io::Result<Done> {
        let Some(node) = self.nodes.get_mut(at.index()) else {
            return refused();
        };
        let mut output = Output::new();
        match step_at(alloc, node, input, able, &mut output) {
            Ok(Taken::Step) => {
                self.remove_taken(at, input);
                self.renew(alloc, at)?;
                self.put(at, &output)
            }
            Ok(Taken::Again) => Ok(Done::Again),
            Err(fault) => Ok(Done::Refused(fault)),
        }
    }

    // A node is saved, and goes on as what is read of its text.
    fn renew(&mut self, alloc: Global, at: ProcNo) -> io::Result<()> {
        let Some(node) = self.nodes.get_mut(at.index()) else {
            return refused();
        };
        *node = value_of(load(alloc, &text_of(alloc, node)?))?;
        Ok(())
    }

    // Puts the parcels of a step on their way, and keeps its rows.
    fn put(&mut self, from: ProcNo, output: &Output) -> io::Result<Done> {
        for number in 0..COUNT {
            let to = ProcNo::nth(number);
            if let Some(envelope) = output.to(to) {
                self.on_way.push(OnWay { from, to, envelope })?;
            }
        }
        let clock = output.clock;
        for event in output.effects.rows() {
            let event = *event;
            let row = NamedRow { p: from, event };
            self.rows.push(ClockedRow { clock, row })?;
        }
        Ok(Done::Step)
    }
}
