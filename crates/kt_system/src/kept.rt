//! The parcels that are kept of those received since a process's permanent checkpoint.

ghost use Rattle.std.specs.Prelude.{true, ◌≡◌, ◌<◌, ◌≤◌, ℕ, length, drop, IfOk};
ghost use Rattle.kt_fifo.specs.Channels.{channel, spare_of, at_pair};
ghost use Rattle.kt_process.specs.Turns.{noted_by};
ghost use Rattle.kt_machine.specs.ListChanges.{trims, low};
ghost use Rattle.kt_system.specs.Kept.{lowered, put_back, emptied, kept_of};
ghost use Rattle.kt_process.specs.Shown.{mark_of};

use kt_base::{Label, Memory, ProcNo};
use kt_fifo::Channels;
use kt_process::Process;
use std::alloc::Global;

/// Takes the first parcels of a list, as many as that.
fn drop_first(channels: &mut Channels, from: ProcNo, to: ProcNo, count: usize)
    requires from { from < channels.old.processes }
    requires to { to < channels.old.processes }
    ensures processes { channels.new.processes ≡ channels.old.processes }
    ensures lists { channel channels.new ≡ at_pair from to (drop count (channel channels.old from to)) (channel channels.old) }
{
    for _one in 0..count {
        channels.pop(from, to);
    }
}

/// Takes of the lists to a process the first parcels of each sender, as many as its mark.
pub fn trim(channels: &mut Channels, p: ProcNo, marks: &[usize])
    requires to { p < channels.old.processes }
    requires marks { length marks.now ≡ channels.old.processes }
    ensures processes { channels.new.processes ≡ channels.old.processes }
    ensures lists { channel channels.new ≡ trims true p (mark_of marks.now) (channel channels.old) }
{
    let mut rest = channels.senders(p);
    while let Some(from) = rest.first() {
        drop_first(channels, from, p, marks[from.index()]);
        rest = rest.without(from);
    }
}

/// The application messages of a list above a noted label go.
fn cut(channels: &mut Channels, from: ProcNo, to: ProcNo, noted: &Option<Label>)
    requires from { from < channels.old.processes }
    requires to { to < channels.old.processes }
    ensures processes { channels.new.processes ≡ channels.old.processes }
    ensures lists { channel channels.new ≡ at_pair from to (low noted.now (channel channels.old from to)) (channel channels.old) }
    ensures grows { (u v : ℕ) → spare_of channels.old u v ≤ spare_of channels.new u v }
{
    if let Some(label) = *noted {
        channels.drop_above(from, to, label);
    }
}

/// The application messages of the lists to a process go that are above the label that it noted of their sender.
fn cut_all(channels: &mut Channels, process: &Process, p: ProcNo)
    requires to { p < channels.old.processes }
    ensures processes { channels.new.processes ≡ channels.old.processes }
    ensures lists { channel channels.new ≡ lowered p (noted_by process.now.side) (channel channels.old) }
    ensures grows { (u v : ℕ) → spare_of channels.old u v ≤ spare_of channels.new u v }
{
    let mut rest = channels.senders(p);
    while let Some(from) = rest.first() {
        cut(channels, from, p, &process.noted(from));
        rest = rest.without(from);
    }
}

/// At a committed rollback of a process, the parcels that were kept of each sender go before those that are held, both
/// without those above the label that it noted of this sender; it then keeps none.
pub fn restore(held: &mut Channels, kept: &mut Channels, process: &Process, p: ProcNo)
    requires to { p < held.old.processes }
    requires same { kept.old.processes ≡ held.old.processes }
    requires room { (q : ℕ) → q < held.old.processes → length (channel kept.old q p) ≤ spare_of held.old q p }
    ensures processes { held.new.processes ≡ held.old.processes }
    ensures kept_processes { kept.new.processes ≡ kept.old.processes }
    ensures held { channel held.new ≡ put_back held.old.processes p (noted_by process.now.side) (channel kept.old) (channel held.old) }
    ensures kept { channel kept.new ≡ emptied held.old.processes p (channel kept.old) }
{
    cut_all(held, process, p);
    let mut rest = kept.senders(p);
    while let Some(from) = rest.first() {
        cut(kept, from, p, &process.noted(from));
        held.put_before(kept, from, p);
        rest = rest.without(from);
    }
}

/// How many parcels are kept for a process, by sender.
pub fn marks_of(alloc: Global, kept: &Channels, p: ProcNo) -> Result<Vec<usize>, Memory>
    requires { p < kept.now.processes }
    ensures length { IfOk result (λ r. length r.items ≡ kept.now.processes) }
    ensures marks { IfOk result (λ r. mark_of r.items ≡ kept_of (channel kept.now) p) }
{
    let mut marks = vec![in alloc; 0; kept.processes()]?;
    let mut rest = kept.senders(p);
    while let Some(from) = rest.first() {
        marks[from.index()] = kept.len(from, p);
        rest = rest.without(from);
    }
    Ok(marks)
}
