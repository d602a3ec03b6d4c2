//! Texts of nodes: that they are read, and what is read of those that are changed.

use crate::cases::Case;
use crate::faults::{refused, value_of};
use crate::limits::label_of;
use crate::net::text_of;
use crate::node_steps::step_of;
use kt_checksum::checksum;
use kt_node::{Cluster, Node};
use kt_node_text::{LoadFault, load};
use std::alloc::Global;
use std::io;

// From how many bytes on a text is not changed.
const LONG: usize = 10_000;

static MASKS: [u8; 8] = [1, 2, 4, 8, 16, 32, 64, 128];

// Makes the step that a line says, which is not refused.
fn make_step(alloc: Global, cluster: &mut Cluster, line: &str) -> io::Result<()> {
    let Some(step) = step_of(line) else {
        return refused();
    };
    match cluster.step(alloc, &step) {
        Ok(_) => Ok(()),
        Err(_) => refused(),
    }
}

// The text of process 1 after these steps.
fn text_after(alloc: Global, cluster: &mut Cluster, steps: &str) -> io::Result<Vec<u8>> {
    for line in steps.lines() {
        make_step(alloc, cluster, line)?;
    }
    match cluster.nodes().get(1) {
        Some(node) => text_of(alloc, node),
        None => refused(),
    }
}

// The text of process 1 of two new ones after these steps.
fn text_of_steps(alloc: Global, steps: &str) -> io::Result<Vec<u8>> {
    match Cluster::new(alloc, 2, label_of(0)?) {
        Ok(mut cluster) => text_after(alloc, &mut cluster, steps),
        Err(_) => refused(),
    }
}

// Whether a node has this text.
fn has_text(alloc: Global, node: &Node, text: &[u8]) -> io::Result<bool> {
    Ok(text_of(alloc, node)?.as_slice() == text)
}

// Whether a text is read, and written as it is read.
fn is_written_again(alloc: Global, text: &[u8]) -> io::Result<bool> {
    match load(alloc, text) {
        Ok(node) => has_text(alloc, &node, text),
        Err(_) => Ok(false),
    }
}

// Whether a text is read; not where there is no memory.
fn is_read(alloc: Global, text: &[u8]) -> io::Result<bool> {
    match load(alloc, text) {
        Ok(_) => Ok(true),
        Err(LoadFault::Form) => Ok(false),
        Err(LoadFault::Memory) => refused(),
    }
}

// Changes a bit.
fn flip(text: &mut [u8], bit: usize) {
    if let Some(byte) = text.get_mut(bit / 8) {
        *byte ^= MASKS[bit % 8];
    }
}

// Puts the right checksum behind the numbers of a text.
fn put_checksum(text: &mut [u8]) {
    let (numbers, sum) = text.split_at_mut(text.len().saturating_sub(4));
    for (old, byte) in sum.iter_mut().zip(checksum(numbers).to_le_bytes()) {
        *old = byte;
    }
}

// How many texts are read of those that differ from this one in a bit; or in the bit of 2^60 of a number, with a right
// checksum.
fn read_of_flipped(alloc: Global, text: &[u8], has_checksum: bool) -> io::Result<u32> {
    let mut read: u32 = 0;
    for bit in 0..text.len().saturating_mul(8) {
        let mut changed = text.to_vec(alloc)?;
        flip(&mut changed, bit);
        if has_checksum {
            put_checksum(&mut changed);
        }
        if !has_checksum || bit % 64 == 60 {
            read = read.saturating_add(u32::from(is_read(alloc, &changed)?));
        }
    }
    Ok(read)
}

// Shows what is read of a text, and of what comes of it.
fn show_read<R: Print + AllocGlobal>(rt: &R, title: &str, text: &[u8]) -> io::Result<()> {
    let (alloc, length) = (rt.alloc(), text.len());
    let is_same = is_written_again(alloc, text)?;
    println!(rt; "{title}: {length} bytes are read: {is_same}")?;
    if length > LONG {
        return Ok(());
    }
    let flipped = read_of_flipped(alloc, text, false)?;
    let many = read_of_flipped(alloc, text, true)?;
    println!(rt; "  with a bit changed {flipped} are read, with 2^60 more of anything {many}")
}

/// Shows what is read of the text of process 1 of two after the steps of a case, and of what comes of it.
pub(crate) fn show_node_texts<R: Print + AllocGlobal>(rt: &R, case: &Case) -> io::Result<()> {
    let steps = value_of(std::str::from_utf8(case.text))?;
    let text = text_of_steps(rt.alloc(), steps)?;
    show_read(rt, case.title, text.as_slice())
}
