//! The world: what it holds, and what can be read of it.

ghost use Rattle.std.specs.Prelude.{◌≡◌, ◌<◌, ◌≤◌, ◌^◌, ◌*◌, ◌-◌, ℕ, IfOk, length, nat_lt};
ghost use Rattle.kt_fifo.specs.Channels.{channel};
ghost use Rattle.kt_system.specs.Reads.{tally_of};
ghost use Rattle.kt_promises.specs.Progress.{progress_at_start, Progress};
ghost use Rattle.kt_meaning.specs.Follows.{BeginsPlan};
ghost use Rattle.kt_meaning.specs.Promised.{IsCertified, IsPromised};
ghost use Rattle.kt_promises.specs.Lines.{EachIsOnceOnItsLine};
ghost use Rattle.kt_promises.specs.Tallies.{Tallies};
ghost use Rattle.kt_core.specs.Worlds.{IsOpening};
ghost use Rattle.kt_core.specs.Shown.{Mirrors, MirrorsPut, IsReached, tally_shown};

use crate::agenda::Agenda;
use crate::laws::laws_of_runs;
use kt_base::{InstNo, Label, Memory, ProcNo, RowNo};
use kt_plan::Plan;
use kt_spacetime::SpaceTime;
use kt_system::{System, Tally};
use std::alloc::Global;
use std::marker::Model;

mod choices;
mod commands;
mod hindrances;
mod looks;
mod priorities;
mod quiet;
mod steps;

/// A system of processes whose commands are those of a plan: which are done, and which may be done.
#[derive(Drop)]
pub struct World {
    alloc: Global,
    agenda: Agenda,
    system: System,
    limit: usize,
}

/// How many rows a log has at most.
const MAX_ROWS: usize = RowNo::MAX as usize;

impl Model for World {
    ghost use Rattle.kt_core.specs.Worlds.{World, IsWorld};

    ghost Value = { World };

    ghost view = { λ w. record { agenda = w.agenda; system = w.system; limit = w.limit } };

    ghost invariant = { λ w. IsWorld (record { agenda = w.agenda; system = w.system; limit = w.limit }) };
}

impl World {
    /// The world in which nothing of a plan is done: where each run of the plan starts.
    pub fn new(alloc: Global, plan: Plan) -> Result<World, Memory>
        ensures opening { IfOk result (λ w. IsOpening w plan 0 (2 ^ 24)) }
        ensures starts { IfOk result (λ w. Mirrors w.agenda w.system 0 (progress_at_start plan 0)) }
    {
        World::make(alloc, plan, no_label(), MAX_ROWS)
    }

    /// The world in which nothing of a plan is done, where each process's labels come after `used`.
    pub fn with_labels(alloc: Global, plan: Plan, used: Label) -> Result<World, Memory>
        ensures opening { IfOk result (λ w. IsOpening w plan used (2 ^ 24)) }
        ensures starts { IfOk result (λ w. Mirrors w.agenda w.system used (progress_at_start plan used)) }
    {
        World::make(alloc, plan, used, MAX_ROWS)
    }

    /// The world in which nothing of a plan is done, whose log is full at so many rows.
    pub fn with_rows(alloc: Global, plan: Plan, limit: RowNo) -> Result<World, Memory>
        ensures opening { IfOk result (λ w. IsOpening w plan 0 limit) }
        ensures starts { IfOk result (λ w. Mirrors w.agenda w.system 0 (progress_at_start plan 0)) }
    {
        World::make(alloc, plan, no_label(), limit.get() as usize)
    }

    /// The world in which nothing of a plan is done. There is room to count what instances put, of which there are no more
    /// than commands.
    fn make(alloc: Global, plan: Plan, used: Label, limit: usize) -> Result<World, Memory>
        requires { limit ≤ 2 ^ 24 }
        ensures opening { IfOk result (λ w. IsOpening w plan used limit) }
        ensures starts { IfOk result (λ w. Mirrors w.agenda w.system used (progress_at_start plan used)) }
    {
        laws_of_runs();
        let size = plan.size();
        let system = System::new(alloc, size, used, plan.commands.len())?;
        let _processes = system.processes();
        let mut agenda = Agenda::new(alloc, plan)?;
        agenda.open_next();
        Ok(World {
            alloc,
            agenda,
            system,
            limit,
        })
    }

    /// The plan.
    pub fn plan(&self) -> &Plan
        ensures { result.now ≡ self.now.agenda.plan }
    {
        self.agenda.plan()
    }

    /// The log, of which all is so that is promised of a run's, whatever steps were made in whatever order.
    pub fn log(&self) -> &SpaceTime
        ensures log { result.now ≡ self.now.system.rows }

        // A run of the plan leads here.
        ensures reached { IsReached self.now.agenda self.now.system }

        // It is legal; the members of each committed instance are the least set; no cut has an orphan; and an abort changes
        // nothing.
        ensures promised { IsPromised result.now.rows }

        // The checker says yes to its certificates.
        ensures certified { IsCertified result.now.rows }

        // It follows the plan as far as it goes, told by the rows alone.
        ensures begins { BeginsPlan self.now.agenda.plan result.now.rows }

        // Each live message that was not dropped stands once: received by its receiver itself, held, or in the channel.
        ensures once { (first : ℕ) (v : Progress) → Mirrors self.now.agenda self.now.system first v →
            EachIsOnceOnItsLine v.now }
    {
        kt_promises::logs_of_runs();
        kt_meaning::certificates_of_promised_logs();
        kt_promises::logs_follow_plans();
        kt_promises::messages_of_runs();
        self.system.log()
    }

    /// The log alone, of which all is so that is promised of a run's.
    pub fn into_log(self) -> SpaceTime
        ensures log { result ≡ self.system.rows }
        ensures promised { IsPromised result.rows }
        ensures certified { IsCertified result.rows }
        ensures begins { BeginsPlan self.agenda.plan result.rows }
    {
        kt_promises::logs_of_runs();
        kt_meaning::certificates_of_promised_logs();
        kt_promises::logs_follow_plans();
        self.system.into_log()
    }

    /// How many parcels are in the channel from one process to another.
    pub fn in_flight(&self, from: ProcNo, to: ProcNo) -> usize
        ensures { result ≡ length (channel self.now.system.channels from to) }
    {
        self.system.in_flight(from, to)
    }

    /// How many asks, replies and decisions of an instance were put into channels.
    pub fn tally(&self, inst: InstNo) -> Tally
        ensures tally { result ≡ tally_of self.now.system inst }

        // It is what the instances of each run that leads here have put.
        ensures in_runs { (first : ℕ) (v : Progress) (put : Tallies) →
            MirrorsPut self.now.agenda self.now.system first v put → result ≡ tally_shown put inst }

        // Of n processes each asks each other one at most once, and no ask has more than one reply and one decision.
        ensures asks { result.asks ≤ length self.now.agenda.plan.names * (length self.now.agenda.plan.names - 1) }
        ensures replies { result.replies ≤ result.asks }
        ensures decisions { result.decisions ≤ result.asks }
    {
        kt_promises::tallies_of_runs();
        self.system.tally(inst)
    }

    /// Whether there is such a process.
    fn is_there(&self, p: ProcNo) -> bool
        ensures { result ≡ nat_lt p self.now.system.size }
    {
        p.index() < self.system.processes()
    }
}

/// The label before the first one.
fn no_label() -> Label
    ensures { result ≡ 0 }
{
    Label::new(0).unwrap()
}
