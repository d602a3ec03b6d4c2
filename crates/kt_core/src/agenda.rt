//! Which commands of a plan are done: each process does its own in order, and those of a later phase once that is open.

ghost use Rattle.std.specs.Prelude.{◌≡◌, ◌≢◌, ◌<◌, ◌≤◌, ◌+◌, ◌-◌, ◌||◌, ◌↔◌, ℕ, true, false, Some, None, IsTrue, IfOk, IfSome, IfNone, is_some, length, slice_get};
ghost use Rattle.kt_base.specs.Sets.{has};
ghost use Rattle.kt_plan.specs.Limits.{IsPlan, IsCommandOf, IsInPhases};
ghost use Rattle.kt_core.specs.Agendas.{agenda_place, agenda_command, if_open, open_command, IsNextOf, IsDone, IsLeastPhase, ArePlaces, AreOwn, AreDoneBefore, AreInPhase, IsFirstLeft};

use kt_base::{Memory, ProcNo, ProcSet};
use kt_plan::{Command, Plan};
use std::alloc::Global;
use std::marker::Model;

/// The commands of a plan, the place of each process's next one, that of the first one that is not done, the phase that is
/// open, and the processes whose next commands are of it.
#[derive(Drop)]
pub(crate) struct Agenda {
    plan: Plan,
    next: [usize; 64],
    following: Vec<usize>,
    first: usize,
    phase: u32,
    in_phase: ProcSet,
}

impl Model for Agenda {
    ghost use Rattle.kt_core.specs.Agendas.{Agenda, IsAgenda};

    ghost Value = { Agenda };

    ghost view = { λ a. record { plan = a.plan; next = a.next; phase = a.phase } };

    ghost invariant = { λ a. IsAgenda a.plan a.next a.following.items a.first a.phase a.in_phase };
}

impl Agenda {
    /// Nothing is done, and phase 0 is open.
    pub(crate) fn new(alloc: Global, plan: Plan) -> Result<Agenda, Memory>
        ensures plan { IfOk result (λ a. a.plan ≡ plan) }
        ensures next { IfOk result (λ a. (p : ℕ) → p < 64 → IsNextOf plan.commands p 0 (agenda_place a p)) }
        ensures phase { IfOk result (λ a. a.phase ≡ 0) }
    {
        let _size = plan.size();
        let (next, following) = places(alloc, &plan.commands)?;
        let in_phase = in_phase(&plan.commands, &next, 0, 0);
        Ok(Agenda {
            plan,
            next,
            following,
            first: 0,
            phase: 0,
            in_phase,
        })
    }

    /// The plan.
    pub(crate) fn plan(&self) -> &Plan
        ensures { result.now ≡ self.now.plan }
    {
        &self.plan
    }

    /// How many processes there are.
    pub(crate) fn processes(&self) -> usize
        ensures processes { result ≡ length self.now.plan.names }
        ensures few { result ≤ 64 }
    {
        self.plan.size()
    }

    /// The place of a process's next command among all commands; their number where it has none.
    pub(crate) fn place(&self, p: ProcNo) -> usize
        ensures { result ≡ agenda_place self.now p }
    {
        self.next[p.index()]
    }

    /// A process's next command, which stands at this place, if it has one.
    pub(crate) fn command_at(&self, p: ProcNo, place: usize) -> Option<Command>
        requires { place ≡ agenda_place self.now p }
        ensures command { result ≡ agenda_command self.now p }
        ensures allowed { IfSome result (IsCommandOf (length self.now.plan.names)) }
        ensures own { IfSome result (λ command. command.by ≡ p) }
    {
        self.plan.commands.get(place).copied()
    }

    /// A process's next command, if that is of the open phase.
    pub(crate) fn open_command(&self, p: ProcNo) -> Option<Command>
        ensures command { result ≡ open_command self.now p }
        ensures allowed { IfSome result (IsCommandOf (length self.now.plan.names)) }
        ensures own { IfSome result (λ command. command.by ≡ p) }
    {
        let command = self.command_at(p, self.place(p));
        if_open(self.phase, command)
    }

    /// A set of processes, and those whose next commands are of the open phase.
    pub(crate) fn with_open(&self, set: ProcSet) -> ProcSet
        ensures members { (p : ℕ) → p < length self.now.plan.names →
            has result p ≡ (has set p || is_some (open_command self.now p)) }
        ensures others { (p : ℕ) → length self.now.plan.names ≤ p → has result p ≡ has set p }
    {
        let mut all = set;
        let mut left = self.in_phase;
        for _number in 0..self.processes() {
            let Some(p) = left.first() else {
                return all;
            };
            all = all.with(p);
            left = left.without(p);
        }
        all
    }

    /// Whether a process's next command is of the open phase.
    #[inline(always)]
    pub(crate) fn is_open(&self, p: ProcNo) -> bool
        ensures { result ≡ is_some (open_command self.now p) }
    {
        self.in_phase.has(p)
    }

    /// Whether a command of the open phase is not done.
    pub(crate) fn has_open(&self) -> bool
        ensures some { result ≡ true → (p : ℕ) × ((p < 64) × (is_some (open_command self.now p) ≡ true)) }
        ensures none { result ≡ false → (p : ℕ) → p < 64 → open_command self.now p ≡ None }
    {
        match self.least_phase() {
            Some(phase) => phase <= self.phase,
            None => false,
        }
    }

    /// A process's next command is done.
    pub(crate) fn advance(&mut self, p: ProcNo)
        ensures plan { self.new.plan ≡ self.old.plan }
        ensures phase { self.new.phase ≡ self.old.phase }
        ensures next { agenda_place self.old p < length self.old.plan.commands → IsNextOf self.old.plan.commands p (agenda_place self.old p + 1) (agenda_place self.new p) }
        ensures others { (q : ℕ) → q ≢ p → agenda_place self.new q ≡ agenda_place self.old q }
    {
        let place = self.place(p);
        if place < self.following.len() {
            let next = self.following[place];
            self.next[p.index()] = next;
            self.first = first_left(&self.plan.commands, &self.next, self.first);
            self.in_phase = in_phase_after(&self.plan.commands, self.in_phase, p, next, self.phase);
        }
    }

    /// The first command that is not done, if there is one.
    fn first_left(&self) -> Option<Command>
        ensures limits { IsPlan self.now.plan }
        ensures none { IfNone result (IsDone self.now) }
        ensures there { IfSome result (λ command. command.by < length self.now.plan.names) }
        ensures next { IfSome result (λ command. agenda_command self.now command.by ≡ Some command) }
        ensures first { IfSome result (λ command. (q : ℕ) → q < 64 → agenda_place self.now command.by ≤ agenda_place self.now q) }
    {
        self.plan.commands.get(self.first).copied()
    }

    /// The process of the first command that is not done.
    pub(crate) fn first_process(&self) -> Option<ProcNo>
        ensures there { IfSome result (λ p. p < length self.now.plan.names) }
        ensures first { IfSome result (λ p. (q : ℕ) → q < 64 → agenda_place self.now p ≤ agenda_place self.now q) }
    {
        match self.first_left() {
            Some(command) => Some(command.by),
            None => None,
        }
    }

    /// The least phase of the commands that are not done, if there are any: that of the first one, since phases never fall.
    fn least_phase(&self) -> Option<u32>
        ensures none { IfNone result (IsDone self.now) }
        ensures least { IfSome result (IsLeastPhase self.now) }
    {
        match self.first_left() {
            Some(command) => Some(command.phase),
            None => None,
        }
    }

    /// Whether all commands are done.
    pub(crate) fn is_done(&self) -> bool
        ensures { IsTrue result ↔ IsDone self.now }
    {
        self.least_phase().is_none()
    }

    /// The next phase that has commands opens, where those of the open phase are done.
    pub(crate) fn open_next(&mut self)
        ensures plan { self.new.plan ≡ self.old.plan }
        ensures next { self.new.next ≡ self.old.next }
        ensures done { IsDone self.old → self.new.phase ≡ self.old.phase }
        ensures stays { (phase : ℕ) → IsLeastPhase self.old phase → phase ≤ self.old.phase → self.new.phase ≡ self.old.phase }
        ensures opens { (phase : ℕ) → IsLeastPhase self.old phase → self.old.phase ≤ phase → self.new.phase ≡ phase }
    {
        if let Some(phase) = self.least_phase() {
            if self.phase < phase {
                self.phase = phase;
                self.in_phase = in_phase(&self.plan.commands, &self.next, self.first, phase);
            }
        }
    }
}

/// A command, if its phase is open.
fn if_open(phase: u32, command: Option<Command>) -> Option<Command>
    ensures result { result ≡ if_open phase command }
{
    match command {
        Some(command) => {
            if command.phase <= phase {
                Some(command)
            } else {
                None
            }
        }
        None => None,
    }
}

/// The place of each process's first command, and by command that of the following one of the same process; the number of
/// all commands where there is none.
fn places(alloc: Global, commands: &[Command]) -> Result<([usize; 64], Vec<usize>), Memory>
    ensures places { IfOk result (λ places. ArePlaces commands.now places.0 places.1.items 0) }
{
    let count = commands.len();
    let mut next = [count; 64];
    let mut following = vec![in alloc; count; count]?;
    for back in 0..count {
        let place = count - 1 - back;
        let by = commands[place].by.index();
        following[place] = next[by];
        next[by] = place;
    }
    Ok((next, following))
}

/// The place of the first command that is not done, where those before this place are; their number where all are.
fn first_left(commands: &[Command], next: &[usize; 64], from: usize) -> usize
    requires own { AreOwn commands.now next.now }
    requires done { AreDoneBefore commands.now next.now from }
    requires within { from ≤ length commands.now }
    ensures { IsFirstLeft commands.now next.now result }
{
    for place in from..commands.len() {
        if next[commands[place].by.index()] == place {
            return place;
        }
    }
    commands.len()
}

/// The processes whose next commands are of a phase that is open, where those before a place are done.
fn in_phase(commands: &[Command], next: &[usize; 64], first: usize, phase: u32) -> ProcSet
    requires own { AreOwn commands.now next.now }
    requires done { AreDoneBefore commands.now next.now first }
    requires within { first ≤ length commands.now }
    requires phases { IsInPhases commands.now }
    ensures { AreInPhase commands.now next.now phase result }
{
    let mut set = ProcSet::empty();
    for place in first..commands.len() {
        let command = commands[place];
        if phase < command.phase {
            return set;
        }
        set = with_if(set, command.by, next[command.by.index()] == place);
    }
    set
}

/// Those processes, once the next command of one of them stands at a place.
fn in_phase_after(
    commands: &[Command],
    set: ProcSet,
    p: ProcNo,
    place: usize,
    phase: u32,
) -> ProcSet
    ensures here { has result p ≡ is_some (if_open phase (slice_get commands.now place)) }
    ensures others { (q : ℕ) → q ≢ p → has result q ≡ has set q }
{
    let command = if_open(phase, commands.get(place).copied());
    with_if(set.without(p), p, command.is_some())
}

/// A set of processes, and this one, if it joins.
#[tactic(auto, using(crate::proofs::Opens::joins, crate::proofs::Opens::stays))]
fn with_if(set: ProcSet, p: ProcNo, joins: bool) -> ProcSet
    ensures here { has result p ≡ (has set p || joins) }
    ensures others { (q : ℕ) → q ≢ p → has result q ≡ has set q }
{
    if joins { set.with(p) } else { set }
}
