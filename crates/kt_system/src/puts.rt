//! Asks and decisions.

ghost use Rattle.std.specs.Prelude.{◌≡◌, ◌<◌, ◌≤◌, ◌+◌, ℕ, slice_index_or, true, length};
ghost use Rattle.kt_base.specs.Sets.{has};
ghost use Rattle.kt_fifo.specs.Channels.{channel, spare_of};
ghost use Rattle.kt_process.specs.Asks.{AreRisingAsks};
ghost use Rattle.kt_machine.specs.ListChanges.{with_decisions};
ghost use Rattle.kt_machine.specs.InOnePiece.{with_asks};

use kt_base::{InstNo, Kind, Label, ProcNo, ProcSet};
use kt_fifo::{Channels, Parcel};

/// Puts a decision to each process of a set, in room made beforehand.
pub fn put_decisions(channels: &mut Channels, p: ProcNo, inst: InstNo, commit: bool, tell: ProcSet)
    requires from { p < channels.old.processes }
    requires to { (q : ℕ) → has tell q ≡ true → q < channels.old.processes }
    requires room { (q : ℕ) → has tell q ≡ true → 1 ≤ spare_of channels.old p q }
    ensures processes { channels.new.processes ≡ channels.old.processes }
    ensures lists { channel channels.new ≡ with_decisions (channel channels.old) p inst commit (has tell) }
{
    let mut rest = tell;
    while let Some(to) = rest.first() {
        channels.push_reserved(p, to, Parcel::Decide { inst, commit });
        rest = rest.without(to);
    }
}

/// Puts an ask to each of these, which stand by rising process, in room made beforehand. No room shrinks by more than one
/// parcel.
pub fn put_asks(
    channels: &mut Channels,
    p: ProcNo,
    inst: InstNo,
    kind: Kind,
    asks: &[(ProcNo, Label)],
)
    requires from { p < channels.old.processes }
    requires to { (j : ℕ) → j < length asks.now → (slice_index_or asks.now j (0, 0)).0 < channels.old.processes }
    requires rising { AreRisingAsks asks.now }
    requires room { (j : ℕ) → j < length asks.now → 1 ≤ spare_of channels.old p (slice_index_or asks.now j (0, 0)).0 }
    ensures processes { channels.new.processes ≡ channels.old.processes }
    ensures lists { channel channels.new ≡ with_asks (channel channels.old) p inst kind asks.now }
    ensures room { (q : ℕ) → spare_of channels.old p q ≤ spare_of channels.new p q + 1 }
{
    for ask in asks {
        let parcel = Parcel::Ask {
            inst,
            kind,
            label: ask.1,
        };
        channels.push_reserved(p, ask.0, parcel);
    }
}
