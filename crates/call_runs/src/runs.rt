//! Runs of a cluster and of a net of as many nodes, by stored steps.

ghost use Rattle.std.specs.Prelude.{◌≤◌};

use crate::cases::{Case, PIECE_END};
use crate::faults::{refused, value_of};
use crate::limits::label_of;
use crate::merging::merge;
use crate::net::{Done, Net, text_of};
use crate::node_steps::{forged_of, step_of};
use kt_base::ProcNo;
use kt_merge::write_part;
use kt_node::{Cluster, ClusterStep, Input, Node};
use kt_spacetime::ClockedRow;
use std::alloc::Global;
use std::io;
use std::io::Write;

// How many nodes there are.
const COUNT: u8 = 3;

// Adds the text of a part.
fn add_piece(pieces: &mut Vec<u8>, alloc: Global, part: &[ClockedRow]) -> io::Result<()> {
    value_of(write_part(alloc, part, pieces))?;
    pieces.extend_from_slice(PIECE_END)?;
    Ok(())
}

/// The parts of so many nodes of a cluster.
pub(crate) fn parts_of(alloc: Global, cluster: &Cluster, count: u8) -> io::Result<Vec<u8>>
    requires { count ≤ 64 }
{
    let mut pieces = Vec::new(alloc);
    for number in 0..count {
        let part = value_of(cluster.part(alloc, ProcNo::nth(number)))?;
        add_piece(&mut pieces, alloc, part.as_slice())?;
    }
    Ok(pieces)
}

/// The log that is merged of parts.
pub(crate) fn log_of(alloc: Global, parts: &[u8]) -> io::Result<Vec<u8>> {
    let mut log = Vec::new(alloc);
    match merge(alloc, parts, usize::MAX, &mut log) {
        Ok(()) => Ok(log),
        Err(_) => refused(),
    }
}

// Makes a step of the net.
fn make<R: Print + AllocGlobal>(
    rt: &R,
    net: &mut Net,
    line: &str,
    at: ProcNo,
    input: &Input,
    able: bool,
) -> io::Result<()> {
    match net.make(rt.alloc(), at, input, able)? {
        Done::Step => Ok(()),
        Done::Again => println!(rt; "  {line}: it came before"),
        Done::Refused(fault) => println!(rt; "  {line}: {fault}"),
    }
}

// Makes a step of the cluster.
fn step<R: Print + AllocGlobal>(
    rt: &R,
    cluster: &mut Cluster,
    line: &str,
    next: &ClusterStep,
) -> io::Result<()> {
    match cluster.step(rt.alloc(), next) {
        Ok(_) => Ok(()),
        Err(fault) => println!(rt; "  {line}: {fault} in the cluster"),
    }
}

// Makes a step in both, in the net twice where the line says so; shows what is refused.
fn follow_step<R: Print + AllocGlobal>(
    rt: &R,
    cluster: &mut Cluster,
    net: &mut Net,
    line: &str,
) -> io::Result<()> {
    let words = line.strip_prefix("twice: ");
    let Some(next) = step_of(words.unwrap_or(line)) else {
        return refused();
    };
    let (at, input, able) = net.coming(&next);
    step(rt, cluster, line, &next)?;
    if at.get() >= COUNT {
        return Ok(());
    }
    make(rt, net, line, at, &input, able)?;
    match words {
        Some(_) => make(rt, net, line, at, &input, able),
        None => Ok(()),
    }
}

// Does what a line says: a step of both, or that the net takes a forged parcel.
fn follow<R: Print + AllocGlobal>(
    rt: &R,
    cluster: &mut Cluster,
    net: &mut Net,
    line: &str,
) -> io::Result<()> {
    match forged_of(line) {
        Some((at, input)) => make(rt, net, line, at, &input, true),
        None => follow_step(rt, cluster, net, line),
    }
}

// Shows what a node of the net is, and whether it has the text of the node of the cluster.
fn show_node<R: Print>(rt: &R, p: ProcNo, node: &Node, same: bool) -> io::Result<()> {
    let (manager, permanent) = (node.manager(), node.permanent());
    println!(rt;
        "  process {p}: up {}, in an instance {}, in a rollback {}, may take a held message {}, permanent up to {}, of others {:?}, as in the cluster {same}",
        manager.is_up(),
        manager.in_inst().is_some(),
        manager.is_in_rollback(),
        manager.next_held().is_some(),
        permanent.sent,
        &permanent.received[..3]
    )
}

fn has_same_text(alloc: Global, node: &Node, other: &Node) -> io::Result<bool> {
    let text = text_of(alloc, node)?;
    Ok(text.as_slice() == text_of(alloc, other)?.as_slice())
}

// Shows each node, and adds its part of the net.
fn show_nodes<R: Print + AllocGlobal>(
    rt: &R,
    cluster: &Cluster,
    net: &Net,
    parts: &mut Vec<u8>,
) -> io::Result<()> {
    for number in 0..COUNT {
        let p = ProcNo::nth(number);
        let (Some(node), Some(other)) = (net.node(p), cluster.nodes().get(p.index())) else {
            return refused();
        };
        show_node(rt, p, node, has_same_text(rt.alloc(), node, other)?)?;
        add_piece(parts, rt.alloc(), net.part(rt.alloc(), p)?.as_slice())?;
    }
    Ok(())
}

// Shows each node, whether the parts are the same in both, and the log that is merged of those of the net.
fn show_ends<R: Print + AllocGlobal>(rt: &R, cluster: &Cluster, net: &Net) -> io::Result<()> {
    let mut of_net = Vec::new(rt.alloc());
    show_nodes(rt, cluster, net, &mut of_net)?;
    let parts = parts_of(rt.alloc(), cluster, COUNT)?;
    let same = parts.as_slice() == of_net.as_slice();
    println!(rt;
        "  {} rows in the cluster, the same in the net: {same}",
        cluster.rows().len()
    )?;
    let log = log_of(rt.alloc(), of_net.as_slice())?;
    io::writer(rt).write_all(log.as_slice())
}

// Follows stored steps, and shows where they lead.
fn show_steps<R: Print + AllocGlobal>(
    rt: &R,
    cluster: &mut Cluster,
    net: &mut Net,
    case: &Case,
) -> io::Result<()> {
    println!(rt; "{}", case.title)?;
    for line in value_of(std::str::from_utf8(case.text))?.lines() {
        follow(rt, cluster, net, line)?;
    }
    show_ends(rt, cluster, net)
}

/// Runs three nodes by stored steps, in a cluster and over links that are this program's: shows what is refused, what each
/// node is then, and the log.
pub(crate) fn show_run<R: Print + AllocGlobal>(rt: &R, case: &Case) -> io::Result<()> {
    let none = label_of(0)?;
    let mut net = Net::new(rt.alloc())?;
    match Cluster::new(rt.alloc(), usize::from(COUNT), none) {
        Ok(mut cluster) => show_steps(rt, &mut cluster, &mut net, case),
        Err(_) => refused(),
    }
}
