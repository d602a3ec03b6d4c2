//! Long logs: that a walk of them finds memory, also where it has given room back.

use crate::faults::value_of;
use crate::plain::show_ring;
use crate::walks::{commit, feed, pass_rounds, receive, send};
use kt_base::{Kind, Memory, ProcNo};
use kt_spacetime::SpaceTime;
use kt_walk::Walk;
use std::io;

// How many messages are sent before one of them is received.
const MESSAGES: u32 = 100_000;

// Messages round a ring, a checkpoint of all, messages, a rollback of all, and messages again.
fn add_room_used_again(log: &mut SpaceTime) -> Result<(), Memory> {
    pass_rounds(log, 16)?;
    commit(log, Kind::Checkpoint, 1, ProcNo::nth(0), 64)?;
    pass_rounds(log, 16)?;
    commit(log, Kind::Rollback, 2, ProcNo::nth(0), 64)?;
    pass_rounds(log, 16)
}

// Many messages of process 0 that process 1 receives, puts back by a rollback, and receives again.
fn add_put_back(log: &mut SpaceTime) -> Result<(), Memory> {
    let (from, p) = (ProcNo::nth(0), ProcNo::nth(1));
    send(log, from, p, MESSAGES)?;
    receive(log, p, from, 1, MESSAGES)?;
    commit(log, Kind::Rollback, 1, p, 2)?;
    receive(log, p, from, 1, MESSAGES)
}

// Shows how many rows a walk took and holds messages, and how much of process 1 there is and is permanent.
fn show_walk<R: Print>(rt: &R, title: &str, walk: &mut Walk, log: &SpaceTime) -> io::Result<()> {
    for row in log.rows() {
        value_of(feed(walk, row))?;
    }
    let p = ProcNo::nth(1);
    let (rows, held, length) = (walk.rows(), walk.held(), walk.length(p));
    let permanent = walk.permanent(p);
    println!(rt; "{title}: {rows} rows, {held} held, of process 1 {length} and {permanent}")
}

// Shows a walk of a log, which is made by one of the functions above.
fn show_log<R: Print + AllocGlobal>(rt: &R, title: &str, log: &SpaceTime) -> io::Result<()> {
    show_walk(rt, title, &mut value_of(Walk::new(rt.alloc()))?, log)
}

fn show_room_used_again<R: Print + AllocGlobal>(rt: &R, log: &mut SpaceTime) -> io::Result<()> {
    value_of(add_room_used_again(log))?;
    show_log(rt, "room that was given back is used again", log)
}

fn show_put_back<R: Print + AllocGlobal>(rt: &R, log: &mut SpaceTime) -> io::Result<()> {
    value_of(add_put_back(log))?;
    show_log(rt, "messages put back are received again", log)
}

// Shows messages round a ring, 2^20 rows of them, by both readers; before, that room that cannot be had is refused.
fn show_both<R: Print + AllocGlobal>(rt: &R, log: &mut SpaceTime) -> io::Result<()> {
    let (is_there, spare) = (log.reserve(usize::MAX).is_ok(), log.spare());
    println!(rt; "a log with room for 2^64 rows more: {is_there}, {spare}")?;
    value_of(pass_rounds(log, 8192))?;
    show_log(rt, "no reader takes time for each pair of a long log", log)?;
    show_ring(rt, log)
}

/// Shows long logs.
pub(crate) fn show_long_logs<R: Print + AllocGlobal>(rt: &R) -> io::Result<()> {
    show_room_used_again(rt, &mut SpaceTime::new(rt.alloc()))?;
    show_put_back(rt, &mut SpaceTime::new(rt.alloc()))?;
    show_both(rt, &mut SpaceTime::new(rt.alloc()))
}
