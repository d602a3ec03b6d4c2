//! Which parcels a node meets, by stored messages of another node.

use crate::cases::Case;
use crate::faults::{refused, value_of};
use crate::limits::label_of;
use crate::node_steps::process_of;
use kt_base::ProcNo;
use kt_node::{Envelope, Input, Node, NodeParcel, Output, Taken};
use kt_plan::Look;
use kt_spacetime::Count;
use std::io;

// The message that a line says: its sender, its receiver, its number, its clock and its label.
fn message_of(line: &str) -> Option<Envelope> {
    let mut words = line.split(' ');
    let from = process_of(words.next())?;
    let to = process_of(words.next())?;
    let number: u64 = words.next()?.parse().ok()?;
    let clock: u64 = words.next()?.parse().ok()?;
    let label = Count::new(words.next()?.parse().ok()?)?;
    let body = 7;
    let parcel = NodeParcel::App { label, body };
    Some(Envelope {
        from,
        to,
        number,
        clock,
        parcel,
    })
}

// Shows what becomes of a message that comes of process 0, and whether the node expects no step of it.
fn show_message<R: Print + AllocGlobal>(rt: &R, node: &mut Node, line: &str) -> io::Result<()> {
    let Some(envelope) = message_of(line) else {
        return refused();
    };
    let from = ProcNo::nth(0);
    let is_idle = node.look(&Input::Deliver { from, envelope }) == Look::Idle;
    let mut output = Output::new();
    match node.deliver(rt.alloc(), from, true, &envelope, &mut output) {
        Ok(Taken::Step) => println!(rt; "  {line}: idle {is_idle}, clock {}", output.clock),
        Ok(Taken::Again) => println!(rt; "  {line}: idle {is_idle}, it came before"),
        Err(fault) => println!(rt; "  {line}: idle {is_idle}, {fault}"),
    }
}

/// Shows what becomes of messages that come of process 0 to process 1, which is another node in each case.
pub(crate) fn show_meetings<R: Print + AllocGlobal>(rt: &R, case: &Case) -> io::Result<()> {
    println!(rt; "{}", case.title)?;
    let mut node = value_of(Node::new(rt.alloc(), ProcNo::nth(1), 3, label_of(0)?))?;
    for line in value_of(std::str::from_utf8(case.text))?.lines() {
        show_message(rt, &mut node, line)?;
    }
    Ok(())
}
