//! What lies under the lock: a state, and what is noted of the steps that led to it.

ghost use Rattle.std.specs.Prelude.{◌≡◌, ◌⊎◌, ◌^◌, ◌≤◌, [], ◌∷◌, ◌++◌, true, false, None, map, option_map, IfOk, IfNone, IfSome, IsSome, IsTrue, OnOk, ◌↔◌};
ghost use Rattle.kt_threads.specs.Books.{entry};
ghost use Rattle.kt_promises.specs.Steps.{process_of_step};
ghost use Rattle.kt_threads.specs.Errands.{errand_of};
ghost use Rattle.kt_threads.specs.Noted.{AreNoted, AreToldBy};
ghost use Rattle.kt_threads.specs.Rows.{four_rows};
ghost use Rattle.kt_threads.specs.Turns.{EndsBy, GoesOnQuietly, HasStep, IsMadeQuietly, IsNext, IsReadyStep};

use crate::board::Next;
use crate::book::Naming;
use crate::errands::{note_errand, process_of};
use crate::faults::LiveFault;
use crate::lists::{StepList, ToldLists};
use crate::sides::{Receipt, Recorder};
use crate::state::{Acted, State};
use kt_base::{Memory, ProcNo, ProcSet};
use kt_core::{Priority, Ready};
use kt_plan::{Give, Step, Told};
use kt_run::Keep;
use std::alloc::Global;
use std::marker::Model;

/// How many steps of one process are made while the others wait for the lock.
pub(crate) const MOST_IN_ONE_HOLD: usize = 1024;

/// What is noted of the steps of a run, beside what they ask of objects.
#[derive(Clone, Copy, PartialEq, Eq)]
pub(crate) enum Noting {
    /// What each process is told.
    Told,
    /// What is kept of the run, beside its log.
    Kept(Keep),
}

/// Room for what is noted of steps.
#[derive(Drop)]
pub(crate) struct StepNotes<J: Naming> {
    asked: Recorder<J>,
    told: ToldLists,
    steps: StepList,
}

impl<J: Naming> StepNotes<J> {
    /// For so many processes, of whose steps there was none.
    #[tactic(auto, using(crate::proofs::Noting::listed_first))]
    pub(crate) fn of(
        alloc: Global,
        processes: usize,
        noting: Noting,
        asked: Recorder<J>,
    ) -> Result<StepNotes<J>, Memory>
        requires { asked ≡ [] }
        ensures { IfOk result (λ notes. AreNoted [] notes.asked notes.told notes.steps) }
    {
        let told = ToldLists::of(alloc, if noting == Noting::Told { processes } else { 0 })?;
        Ok(StepNotes {
            asked,
            told,
            steps: StepList::of(alloc, noting == Noting::Kept(Keep::Steps)),
        })
    }
}

/// A state; what each process's object was asked for; and what each process was told, or all steps, where somebody asks for
/// them. Beside these, which processes' threads sleep, and which are at the lock, or were called and are on their way.
#[derive(Drop)]
pub(crate) struct Minutes<J: Naming> {
    state: State,
    asked: Recorder<J>,
    told: ToldLists,
    steps: StepList,
    asleep: ProcSet,
    coming: ProcSet,
}

impl<J: Naming> Model for Minutes<J> {
    ghost use Rattle.std.specs.Prelude.{◌≡◌, None};
    ghost use Rattle.kt_threads.specs.Histories.{WorldHistory};
    ghost use Rattle.kt_threads.specs.Noted.{AreNoted};

    ghost Value = { WorldHistory };

    ghost view = { λ m. m.state };

    ghost invariant = { λ m. m.state.fault ≡ None → AreNoted m.state.steps m.asked m.told m.steps };
}

impl<J: Naming> Minutes<J> {
    /// Of a state to which no step led, with lists in which nothing is noted.
    pub(crate) fn new(state: State, notes: StepNotes<J>) -> Minutes<J>
        requires steps { state.steps ≡ [] }
        requires noted { AreNoted [] notes.asked notes.told notes.steps }
        ensures { result ≡ state }
    {
        let StepNotes { asked, told, steps } = notes;
        Minutes {
            state,
            asked,
            told,
            steps,
            asleep: ProcSet::empty(),
            coming: ProcSet::empty(),
        }
    }

    /// The state.
    pub(crate) fn state(&self) -> &State
        ensures { result.now ≡ self.now }
    {
        &self.state
    }

    /// The step that a process makes next, with what was looked up for it; None where it can make none, or after a fault. A
    /// step that is refused ends all.
    pub(crate) fn ready(&mut self, me: ProcNo) -> Option<Ready>
        ensures ready { IfSome result (IsReadyStep self.new.world) }
        ensures own { IfSome result (λ ready. process_of_step ready.step ≡ me) }
        ensures going { IfSome result (λ _. self.new.fault ≡ None) }
        ensures none { IfNone result (IsSome self.old.fault ⊎ IsNext self.old.world me None
            ⊎ ((step : Step) × EndsBy self.old step self.new.fault)) }
    {
        if self.state.fault().is_some() {
            return None;
        }
        match self.state.next_ready(me) {
            Ok(next) => next,
            Err(fault) => {
                self.state.stop(LiveFault::of_step(fault));
                None
            }
        }
    }

    /// Makes a step of which all was looked up, and notes it. Want of memory ends all.
    pub(crate) fn make(&mut self, ready: &Ready, give: Give) -> Next<J>
        requires { IsReadyStep self.old.world ready.now }
        ensures look { (made : _) (noted : _) → result ≡ Next.Made made noted → made.look ≡ ready.now.look }
        ensures give { (made : _) (noted : _) → result ≡ Next.Made made noted → made.give ≡ give }
        ensures step { (made : _) (noted : _) → result ≡ Next.Made made noted → made.told.step ≡ ready.now.step }
        ensures noted { (made : _) (noted : _) → result ≡ Next.Made made noted → IfSome noted (λ receipt.
            receipt ≡ entry (process_of_step made.told.step) (errand_of made)) }
        ensures end { result ≡ Next.End → EndsBy self.old ready.now.step self.new.fault }
    {
        let Minutes {
            state,
            asked,
            told,
            steps,
            ..
        } = self;
        let count = state.rows();
        let Ok(made) = state.act(ready, give) else {
            state.stop(LiveFault::Memory);
            return Next::End;
        };
        let Ok(noted) = note_made(asked, told, steps, state, count, &made) else {
            state.stop(LiveFault::Memory);
            return Next::End;
        };
        Next::Made(made, noted)
    }

    /// Takes the next parcel for a process, where that has nothing to do with its object and what it tells is not kept, and
    /// notes it. Whether it did so. Want of memory ends all.
    #[inline(always)]
    pub(crate) fn take_quietly(&mut self, p: ProcNo) -> bool
        ensures made { result ≡ true → (step : Step) × (process_of_step step ≡ p) × IsMadeQuietly self.old self.new step }
        ensures left { result ≡ false → self.new.steps ≡ self.old.steps }
    {
        let Minutes {
            state,
            told,
            steps,
            ..
        } = self;
        if told.are_kept() || state.fault().is_some() {
            return false;
        }
        let Ok(taken) = state.take_quietly(p) else {
            state.stop(LiveFault::Memory);
            return false;
        };
        let Some(step) = taken else {
            return false;
        };
        if steps.note(step).is_err() {
            state.stop(LiveFault::Memory);
        }
        true
    }

    /// Takes parcels for a process as `take_quietly` does, as long as that goes, and at most so many that others don't wait
    /// long. Whether there were any.
    #[inline(always)]
    #[tactic(auto, using(crate::proofs::Quieting::quiet_first, crate::proofs::Quieting::quiet_stays))]
    pub(crate) fn take_all_quietly(&mut self, p: ProcNo) -> bool
        ensures { GoesOnQuietly self.old self.new }
    {
        let mut any = false;
        for _ in 0..MOST_IN_ONE_HOLD {
            if !self.take_quietly(p) {
                return any;
            }
            any = true;
        }
        any
    }

    /// A process's thread has come to the lock.
    pub(crate) fn arrive(&mut self, me: ProcNo)
        ensures { self.new ≡ self.old }
    {
        self.asleep = self.asleep.without(me);
        self.coming = self.coming.with(me);
    }

    /// A process's thread leaves the lock, to its object.
    pub(crate) fn leave(&mut self, me: ProcNo)
        ensures { self.new ≡ self.old }
    {
        self.coming = self.coming.without(me);
    }

    /// A process's thread goes to sleep.
    pub(crate) fn sleep(&mut self, me: ProcNo)
        ensures { self.new ≡ self.old }
    {
        self.leave(me);
        self.asleep = self.asleep.with(me);
    }

    /// Calls a process that sleeps though it can make a step, if there is one; none while a thread is at the lock or on
    /// its way there. Steps that have nothing to do with the object of a process that sleeps are made here, and need no call.
    #[tactic(auto, using(crate::proofs::Quieting::quiet_first))]
    pub(crate) fn call(&mut self) -> Option<ProcNo>
        ensures { GoesOnQuietly self.old self.new }
    {
        if self.coming.first().is_some() {
            return None;
        }
        let p = self.next_called()?;
        self.arrive(p);
        Some(p)
    }

    /// The process that is called next, if there is one. The quiet steps of those before it are made.
    #[tactic(auto, using(crate::proofs::Quieting::quiet_first, crate::proofs::Quieting::quiet_then))]
    fn next_called(&mut self) -> Option<ProcNo>
        ensures { GoesOnQuietly self.old self.new }
    {
        for _ in 0..ProcNo::COUNT {
            let Some(p) = self.best_sleeper() else {
                return None;
            };
            if !self.take_all_quietly(p) {
                return Some(p);
            }
        }
        self.best_sleeper()
    }

    /// Of the processes that sleep though they can make a step, the one that steps best; of several the least.
    fn best_sleeper(&self) -> Option<ProcNo> {
        let mut later = Later {
            down: None,
            awaits: None,
        };
        let mut left = self.state.may_step();
        for _number in 0..ProcNo::COUNT {
            let Some(p) = left.first() else {
                return later.first();
            };
            if self.asleep.has(p)
                && can_step(&self.state, p)
                && !later.puts_off(p, self.state.priority(p))
            {
                return Some(p);
            }
            left = left.without(p);
        }
        later.first()
    }

    /// Keeps the first fault.
    pub(crate) fn stop(&mut self, fault: LiveFault) {
        self.state.stop(fault);
    }

    /// The state, and what was noted of the steps that led to it, where there was no fault.
    pub(crate) fn into_parts(self) -> (State, Recorder<J>, Vec<Vec<Told>>, Option<Vec<Step>>)
        ensures state { result.0 ≡ self }
        ensures noted { self.fault ≡ None → AreNoted self.steps
            result.1 (map (λ list. list.items) result.2.items)
            (option_map (λ list. list.items) result.3) }
    {
        let Minutes {
            state,
            asked,
            told,
            steps,
            ..
        } = self;
        (state, asked, told.into_lists(), steps.into_list())
    }
}

/// Notes what a step asked and told, and the step itself.
#[tactic(auto, using(crate::proofs::Noting::noted_next))]
fn note_made<J: Naming>(
    asked: &mut Recorder<J>,
    told: &mut ToldLists,
    steps: &mut StepList,
    state: &State,
    count: usize,
    made: &Acted,
) -> Result<Option<Receipt<J>>, Memory>
    requires rows { made.now.told.rows ≡ four_rows state.now.world.system.rows.rows count }
    requires few { count ≤ 2 ^ 24 }
    ensures all { OnOk result ((before : _) → AreNoted before asked.old told.old steps.old
        → AreNoted (before ++ made.now ∷ []) asked.new told.new steps.new) }
    ensures noted { IfOk result (λ noted. IfSome noted (λ receipt.
        receipt ≡ entry (process_of_step made.now.told.step) (errand_of made.now))) }
{
    let noted = note_errand(asked, made)?;
    note_told(told, state, count, made)?;
    steps.note(made.step)?;
    Ok(noted)
}

/// Notes what a step told, where that is kept.
#[tactic(auto, using(crate::proofs::Noting::told_next, crate::proofs::Noting::untold_next))]
fn note_told(lists: &mut ToldLists, state: &State, count: usize, made: &Acted) -> Result<(), Memory>
    requires rows { made.now.told.rows ≡ four_rows state.now.world.system.rows.rows count }
    requires few { count ≤ 2 ^ 24 }
    ensures { OnOk result ((before : _) → AreToldBy before lists.old
        → AreToldBy (before ++ made.now ∷ []) lists.new) }
{
    if lists.are_kept() {
        lists.note(process_of(&made.step), state.told(made, count))?;
    }
    Ok(())
}

/// The first processes found that step better later, by why.
#[derive(Clone, Copy)]
struct Later {
    down: Option<ProcNo>,
    awaits: Option<ProcNo>,
}

impl Later {
    /// Whether a process of this priority steps later: it is kept then, if it is the first.
    fn puts_off(&mut self, p: ProcNo, priority: Priority) -> bool {
        match priority {
            Priority::Now => false,
            Priority::Down => {
                self.down = self.down.or(Some(p));
                true
            }
            Priority::Awaits => {
                self.awaits = self.awaits.or(Some(p));
                true
            }
        }
    }

    /// The one that steps first.
    fn first(&self) -> Option<ProcNo> {
        self.down.or(self.awaits)
    }
}

/// Whether a process can make a step.
fn can_step(state: &State, p: ProcNo) -> bool
    ensures able { IsTrue result ↔ HasStep state.now.world p }
{
    state.next_step_of(p).is_some()
}
