//! Room made before a step changes anything.

ghost use Rattle.std.specs.Prelude.{◌≡◌, ◌<◌, ◌≤◌, ℕ, OnOk, true, length};
ghost use Rattle.kt_base.specs.Sets.{has};
ghost use Rattle.kt_fifo.specs.Channels.{channel, spare_of};

use kt_base::{Memory, ProcNo, ProcSet};
use kt_fifo::Channels;

/// Room for so many parcels more from a process to another one. What was refused leaves all lists as they were.
#[inline(always)]
pub fn make_room_to(
    channels: &mut Channels,
    p: ProcNo,
    to: ProcNo,
    count: usize,
) -> Result<(), Memory>
    requires p { p < channels.old.processes }
    requires to { to < channels.old.processes }
    ensures processes { channels.new.processes ≡ channels.old.processes }
    ensures lists { channel channels.new ≡ channel channels.old }
    ensures grows { (u v : ℕ) → spare_of channels.old u v ≤ spare_of channels.new u v }
    ensures ok { OnOk result (count ≤ spare_of channels.new p to) }
{
    channels.reserve_many(p, to, count)
}

/// Room for so many parcels more from a process to each of a set. What was refused leaves all lists as they were.
#[inline(always)]
pub fn make_room(
    channels: &mut Channels,
    p: ProcNo,
    targets: ProcSet,
    count: usize,
) -> Result<(), Memory>
    requires p { p < channels.old.processes }
    requires targets { (q : ℕ) → has targets q ≡ true → q < channels.old.processes }
    ensures processes { channels.new.processes ≡ channels.old.processes }
    ensures lists { channel channels.new ≡ channel channels.old }
    ensures grows { (u v : ℕ) → spare_of channels.old u v ≤ spare_of channels.new u v }
    ensures ok { OnOk result ((q : ℕ) → has targets q ≡ true → count ≤ spare_of channels.new p q) }
{
    let mut rest = targets;
    while let Some(to) = rest.first() {
        make_room_to(channels, p, to, count)?;
        rest = rest.without(to);
    }
    Ok(())
}

/// Room to hold all parcels that are kept for a process. What was refused leaves all lists as they were.
pub fn make_room_back(held: &mut Channels, kept: &Channels, p: ProcNo) -> Result<(), Memory>
    requires to { p < held.old.processes }
    requires same { kept.now.processes ≡ held.old.processes }
    ensures processes { held.new.processes ≡ held.old.processes }
    ensures lists { channel held.new ≡ channel held.old }
    ensures ok { OnOk result ((q : ℕ) → q < held.old.processes → length (channel kept.now q p) ≤ spare_of held.new q p) }
{
    let mut rest = kept.senders(p);
    while let Some(from) = rest.first() {
        make_room_to(held, from, p, kept.len(from, p))?;
        rest = rest.without(from);
    }
    Ok(())
}
