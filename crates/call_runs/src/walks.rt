//! Logs that are made here, and walks of them.

use kt_base::{InstNo, Kind, Memory, MsgNo, ProcNo};
use kt_rules::LegalFault;
use kt_spacetime::{Event, SpaceTime};
use kt_walk::Walk;

// The limit of a log's rows.
const MOST_ROWS: usize = 16_777_216;

/// Feeds a row to a walk; after as many rows as there may be it is a fault, as for want of memory.
pub(crate) fn feed(walk: &mut Walk, row: &Event) -> Result<(), LegalFault> {
    if walk.rows() >= MOST_ROWS {
        return Err(LegalFault::Memory);
    }
    walk.feed(row)
}

/// Adds a row to a log; of a full log it is a fault, as for want of memory.
pub(crate) fn add(log: &mut SpaceTime, row: Event) -> Result<(), Memory> {
    log.reserve(1)?;
    if log.rows().len() >= MOST_ROWS {
        return Err(Memory);
    }
    log.push_reserved(row);
    Ok(())
}

/// A process sends so many messages to another one.
pub(crate) fn send(log: &mut SpaceTime, p: ProcNo, to: ProcNo, count: u32) -> Result<(), Memory> {
    for _ in 0..count {
        add(log, Event::Sent { p, to, body: 1 })?;
    }
    Ok(())
}

/// A process receives of another one the messages with the numbers from this one on, so many.
pub(crate) fn receive(
    log: &mut SpaceTime,
    p: ProcNo,
    from: ProcNo,
    first: u32,
    count: u32,
) -> Result<(), Memory> {
    for number in first..first.saturating_add(count) {
        let msg = MsgNo::new(number).ok_or(Memory)?;
        add(log, Event::Received { p, from, msg })?;
    }
    Ok(())
}

/// So many times, each of 64 processes sends a message to the next one, which receives it.
pub(crate) fn pass_rounds(log: &mut SpaceTime, rounds: u32) -> Result<(), Memory> {
    for _ in 0..rounds {
        for number in 0..ProcNo::COUNT {
            let (from, p) = (ProcNo::nth(number), ProcNo::nth((number + 1) % 64));
            send(log, from, p, 1)?;
            receive(log, p, from, log.rows().len() as u32, 1)?;
        }
    }
    Ok(())
}

/// The processes from one number up to another one, of which the first begins it, commit an instance.
pub(crate) fn commit(
    log: &mut SpaceTime,
    kind: Kind,
    number: u16,
    first: ProcNo,
    end: u8,
) -> Result<(), Memory> {
    let inst = InstNo::new(number).ok_or(Memory)?;
    let (p, commit) = (first, true);
    add(log, Event::Began { p, inst, kind })?;
    for number in first.get()..end.min(ProcNo::COUNT) {
        let p = ProcNo::nth(number);
        let joins = match kind {
            Kind::Checkpoint => Event::Took { p, inst },
            Kind::Rollback => Event::Ready { p, inst },
        };
        add(log, joins)?;
    }
    add(log, Event::Decided { p, inst, commit })?;
    for number in first.get()..end.min(ProcNo::COUNT) {
        let p = ProcNo::nth(number);
        add(log, Event::Closed { p, inst })?;
    }
    Ok(())
}
