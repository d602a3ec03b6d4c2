//! Channels of two processes.

ghost use Rattle.std.specs.Prelude.{◌≡◌};

use crate::faults::{refused, value_of};
use crate::limits::label_of;
use kt_base::{InstNo, Kind, MsgNo, ProcNo, ProcSet};
use kt_fifo::{Channels, Parcel};
use std::io;

// A message with this label.
fn message(number: u64) -> io::Result<Parcel> {
    let (label, msg, body) = (label_of(number)?, MsgNo::after(0), -5);
    Ok(Parcel::App { label, msg, body })
}

// An ask with this label.
fn ask(number: u64) -> io::Result<Parcel> {
    let (label, kind) = (label_of(number)?, Kind::Rollback);
    match InstNo::new(1) {
        Some(inst) => Ok(Parcel::Ask { inst, kind, label }),
        None => refused(),
    }
}

// Puts a parcel into the channel from process 0 to process 1.
fn put(channels: &mut Channels, parcel: Parcel) -> io::Result<()>
    requires { channels.old.processes ≡ 2 }
    ensures { channels.new.processes ≡ 2 }
{
    let (from, to) = (ProcNo::nth(0), ProcNo::nth(1));
    value_of(channels.reserve(from, ProcSet::empty().with(to)))?;
    if channels.spare(from, to) == 0 {
        return refused();
    }
    channels.push_reserved(from, to, parcel);
    Ok(())
}

// Shows which of a message, an ask and a message are left where messages with a label above 3 are taken out, and whether
// there is room for as many parcels as there are numbers.
fn show_left<R: Print>(rt: &R, channels: &mut Channels) -> io::Result<()>
    requires { channels.old.processes ≡ 2 }
{
    let (from, to) = (ProcNo::nth(0), ProcNo::nth(1));
    put(channels, message(3)?)?;
    put(channels, ask(9)?)?;
    put(channels, message(5)?)?;
    channels.drop_above(from, to, label_of(3)?);
    let has_room = channels.reserve_many(from, to, usize::MAX).is_ok();
    let (count, back) = (channels.len(from, to), channels.len(to, from));
    let (first, second) = (channels.pop(from, to), channels.pop(from, to));
    println!(rt;
        "parcels above a label are taken out; with room for 2^64 more: {has_room}\n  {count}, and {back} the other way: {first:?}, {second:?}"
    )
}

/// Shows channels of two processes.
pub(crate) fn show_channels<R: Print + AllocGlobal>(rt: &R) -> io::Result<()> {
    match Channels::new(rt.alloc(), 2) {
        Ok(mut channels) => show_left(rt, &mut channels),
        Err(_) => refused(),
    }
}
