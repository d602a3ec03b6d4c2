//! Plans.

ghost use Rattle.std.specs.Prelude.{◌≡◌, ◌≢◌, ◌<◌, ◌≤◌, ◌↔◌, IsSome, IfSome, IsTrue, IfOk, length, All};
ghost use Rattle.kt_plan.specs.Limits.{IsPlan, IsCommandOf, IsJobOf, IsKindOfObject, IsInPhases};

use crate::commands::{Command, Job};
use crate::names::Names;
use kt_base::{Memory, ProcNo};
use std::alloc::Global;
use std::marker::Model;

/// What is to be done in a run: the names of its processes in order of their numbers, the kind of each one's object
/// (0 for a sum, 1 for a last number, 2 for a tail), and the commands in order.
///
/// There are at most 64 processes and 4,096 commands. Each process that a command names is there, none sends to
/// itself, and phases never fall.
#[derive(Drop)]
pub struct Plan {
    pub names: Names,
    pub kinds: Vec<u8>,
    pub commands: Vec<Command>,
}

impl Model for Plan {
    ghost use Rattle.kt_plan.specs.Limits.{Planned, IsPlan};

    ghost Value = { Planned };

    ghost view = { λ p. record { names = p.names; kinds = p.kinds.items; commands = p.commands.items } };

    ghost invariant = { λ p. IsPlan (record { names = p.names; kinds = p.kinds.items; commands = p.commands.items }) };
}

impl Plan {
    /// How many processes there are.
    pub fn size(&self) -> usize
        ensures size { result ≡ length self.now.names }
        ensures plan { IsPlan self.now }
    {
        self.names.len()
    }

    /// A plan of these names, kinds and commands; None where they don't keep to the limits.
    pub fn new(names: Names, kinds: Vec<u8>, commands: Vec<Command>) -> Option<Plan>
        ensures limits { IsSome result ↔ IsPlan (record { names = names; kinds = kinds.items; commands = commands.items }) }
        ensures parts { IfSome result (λ plan. plan ≡ record { names = names; kinds = kinds.items; commands = commands.items }) }
    {
        let count = names.len();
        if kinds.len() != count || !are_kinds(&kinds) {
            return None;
        }
        if commands.len() > MOST_COMMANDS
            || !are_commands(count, &commands)
            || !never_fall(&commands)
        {
            return None;
        }
        Some(Plan {
            names,
            kinds,
            commands,
        })
    }

    /// The same plan.
    pub fn copy(&self, alloc: Global) -> Result<Plan, Memory>
        ensures { IfOk result (λ plan. plan ≡ self.now) }
    {
        Ok(Plan {
            names: self.names.copy(alloc)?,
            kinds: Vec::from_slice(alloc, self.kinds.as_slice())?,
            commands: Vec::from_slice(alloc, self.commands.as_slice())?,
        })
    }
}

// How many commands a plan has at most.
const MOST_COMMANDS: usize = 4096;

// Whether there are objects of all these kinds.
fn are_kinds(kinds: &[u8]) -> bool
    ensures { IsTrue result ↔ (All IsKindOfObject kinds.now) }
{
    kinds.iter().all(|kind| *kind < 3)
}

// Whether a process may have a job where there are so many processes.
fn is_job(count: usize, by: ProcNo, job: Job) -> bool
    ensures { IsTrue result ↔ IsJobOf count by job }
{
    match job {
        Job::Send { to, .. } => to.index() < count && to != by,
        Job::Checkpoint | Job::Rollback | Job::Fail => true,
    }
}

// Whether a plan of so many processes may have a command.
fn is_command(count: usize, command: &Command) -> bool
    ensures { IsTrue result ↔ IsCommandOf count command.now }
{
    command.by.index() < count && is_job(count, command.by, command.job)
}

// Whether a plan of so many processes may have all these commands.
fn are_commands(count: usize, commands: &[Command]) -> bool
    ensures { IsTrue result ↔ (All (IsCommandOf count) commands.now) }
{
    for command in commands {
        if !is_command(count, command) {
            return false;
        }
    }
    true
}

// Whether the phases of commands never fall.
fn never_fall(commands: &[Command]) -> bool
    ensures { IsTrue result ↔ IsInPhases commands.now }
{
    for place in 1..commands.len() {
        if commands[place].phase < commands[place - 1].phase {
            return false;
        }
    }
    true
}
