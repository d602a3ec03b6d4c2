//! The system: what it holds, and what can be read of it.

ghost use Rattle.std.specs.Prelude.{◌≡◌, ◌<◌, ◌≤◌, ℕ, [], All, IfOk, length};
ghost use Rattle.kt_fifo.specs.Channels.{channel};
ghost use Rattle.kt_process.specs.Turns.{IsFresh};
ghost use Rattle.kt_system.specs.Systems.{state_of};
ghost use Rattle.kt_system.specs.Reads.{tally_of, no_tally};
ghost use Rattle.kt_system.specs.Shown.{ShowsState};
ghost use Rattle.kt_machine.specs.Transition.{opening_seen};

use kt_base::{Label, Memory};
use kt_fifo::Channels;
use kt_process::Process;
use kt_spacetime::SpaceTime;
use std::alloc::Global;
use std::marker::Model;

mod commands;
mod counts;
mod instances;
mod leaves;
mod messages;
mod processes;
mod quiet;
mod reads;
mod replies;
mod takes;

/// How many asks, replies and decisions of an instance were put into channels.
#[derive(Clone, Copy)]
pub struct Tally {
    pub asks: u32,
    pub replies: u32,
    pub decisions: u32,
}

/// Processes, the parcels in channels between them, those that are held for a process that is in a rollback, those that
/// each one keeps since its permanent checkpoint, and the log.
#[derive(Drop)]
pub struct System {
    size: usize,
    processes: Vec<Process>,
    channels: Channels,
    held: Channels,
    kept: Channels,
    log: SpaceTime,
    begun: u16,
    tallies: Vec<Tally>,
}

impl Model for System {
    ghost use Rattle.kt_system.specs.Systems.{Whole, IsSoundSystem};

    ghost Value = { Whole };

    ghost view = { λ s. record { size = s.size; states = s.processes.items; channels = s.channels; held = s.held; kept = s.kept; rows = s.log; begun = s.begun; put = s.tallies.items } };

    ghost invariant = { λ s. IsSoundSystem (record { size = s.size; states = s.processes.items; channels = s.channels; held = s.held; kept = s.kept; rows = s.log; begun = s.begun; put = s.tallies.items }) };
}

impl System {
    /// A system of so many processes, at most 64, where nothing was done. Their labels go on after this one, and there is
    /// room to count what so many instances put.
    pub fn new(
        alloc: Global,
        processes: usize,
        used: Label,
        instances: usize,
    ) -> Result<System, Memory>
        requires { processes ≤ 64 }
        ensures size { IfOk result (λ s. s.size ≡ processes) }
        ensures rows { IfOk result (λ s. s.rows.rows ≡ []) }
        ensures states { IfOk result (λ s. (p : ℕ) → p < processes → IsFresh processes used (state_of s p)) }
        ensures channels { IfOk result (λ s. (p q : ℕ) → channel s.channels p q ≡ []) }
        ensures held { IfOk result (λ s. (p q : ℕ) → channel s.held p q ≡ []) }
        ensures kept { IfOk result (λ s. (p q : ℕ) → channel s.kept p q ≡ []) }
        ensures begun { IfOk result (λ s. s.begun ≡ 0) }
        ensures tallies { IfOk result (λ s. (inst : ℕ) → tally_of s inst ≡ no_tally) }
        ensures instances { IfOk result (λ s. length s.put ≡ instances) }
        ensures shows { IfOk result (λ s. ShowsState s (opening_seen processes used)) }
    {
        let none = Tally {
            asks: 0,
            replies: 0,
            decisions: 0,
        };
        Ok(System {
            size: processes,
            processes: fresh_processes(alloc, processes, used)?,
            channels: Channels::new(alloc, processes)?,
            held: Channels::new(alloc, processes)?,
            kept: Channels::new(alloc, processes)?,
            log: SpaceTime::new(alloc),
            begun: 0,
            tallies: vec![in alloc; none; instances]?,
        })
    }
}

// So many processes where nothing was done, whose labels go on after this one.
fn fresh_processes(alloc: Global, processes: usize, used: Label) -> Result<Vec<Process>, Memory>
    requires { processes ≤ 64 }
    ensures length { IfOk result (λ list. length list.items ≡ processes) }
    ensures fresh { IfOk result (λ list. All (IsFresh processes used) list.items) }
{
    let mut list = Vec::with_capacity(alloc, processes)?;
    for _number in 0..processes {
        list.push(Process::new(alloc, processes, used)?)?;
    }
    Ok(list)
}
