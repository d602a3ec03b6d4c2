//! A world, and the steps that led to it.

ghost use Rattle.std.specs.Prelude.{◌≡◌, ◌⊎◌, ◌+◌, ◌^◌, [], ◌∷◌, ◌++◌, false, pos, None, Some, IfOk, IfErr, IfSome, IfNone, OnErr, IsTrue, ◌↔◌, ◌<◌, ◌≤◌, length, map, option_map, vec_len, vec_capacity};
ghost use Rattle.kt_core.specs.Choices.{HasNoOthers};
ghost use Rattle.kt_core.specs.Worlds.{needs, numbered_row, step_refusal, IsWorldAtRest, IsOpening, IsSameWorld};
ghost use Rattle.kt_meaning.specs.Follows.{FollowsPlan};
ghost use Rattle.kt_meaning.specs.Promised.{IsPromised};
ghost use Rattle.kt_promises.specs.Steps.{process_of_step};
ghost use Rattle.kt_threads.specs.Histories.{IsMade, IsHistory, first_fault};
ghost use Rattle.kt_threads.specs.Rows.{four_rows};
ghost use Rattle.kt_threads.specs.Turns.{IsMadeQuietly, IsNext, IsOver, IsReadyStep};

use crate::faults::LiveFault;
use crate::plans::is_same_plan;
use kt_base::{Memory, ProcNo, ProcSet, RowNo};
use kt_core::{Priority, Ready, StepFault, World};
use kt_plan::{Act, Give, Look, Plan, Step, Told};
use kt_spacetime::{Event, SpaceTime};
use std::alloc::Global;
use std::marker::Model;
use std::snapshot::Snapshot;

/// A step that was made: what it needed, what it was given, and what it told.
#[derive(Clone, Copy)]
pub struct Made {
    pub look: Look,
    pub give: Give,
    pub told: Told,
}

/// Nothing to be done to an object.
const NO_ACTS: [Act; 2] = [Act::Nothing, Act::Nothing];

/// A step that was made, which contracts see as what was made. The rows that it told are read off the log only where somebody
/// asks for them.
#[derive(Drop)]
pub(crate) struct Acted {
    pub(crate) step: Step,
    pub(crate) look: Look,
    pub(crate) give: Give,
    pub(crate) acts: [Act; 2],
    count: Snapshot<usize>,
    world: Snapshot<World>,
}

impl Model for Acted {
    ghost use Rattle.kt_threads.specs.declared.state.Made.{Made};
    ghost use Rattle.kt_threads.specs.Rows.{four_rows};

    ghost Value = { Made };

    ghost view = { λ a. record { look = a.look; give = a.give; told = record { step = a.step; rows = four_rows a.world.value.system.rows.rows a.count.value; acts = a.acts } } };
}

/// A world with the steps that led to it from the world in which nothing of its plan is done, and the first fault. A step
/// takes no memory here: what is recorded of it is for contracts alone.
#[derive(Drop)]
pub struct State {
    world: World,
    steps: Vec<Snapshot<Acted>>,
    fault: Option<LiveFault>,
}

impl Model for State {
    ghost use Rattle.std.specs.Prelude.{map};
    ghost use Rattle.kt_threads.specs.Histories.{WorldHistory, IsHistory};

    ghost Value = { WorldHistory };

    ghost view = { λ s. record { world = s.world; steps = map (λ step. step.value) s.steps.items; fault = s.fault } };

    ghost invariant = { λ s. IsHistory s.world.agenda.plan (map (λ step. step.value) s.steps.items) s.world };
}

impl State {
    /// Nothing of a plan is done.
    pub fn new(alloc: Global, plan: Plan) -> Result<State, Memory>
        ensures opening { IfOk result (λ s. IsOpening s.world plan 0 (2 ^ 24)) }
        ensures steps { IfOk result (λ s. s.steps ≡ []) }
        ensures fault { IfOk result (λ s. s.fault ≡ None) }
    {
        let world = World::new(alloc, plan)?;
        Ok(State {
            world,
            steps: Vec::new(alloc),
            fault: None,
        })
    }

    /// Makes a step and records it, with what it needs and what it is given. `give` has what `World::look` says that the step
    /// needs.
    ///
    /// The room for the record is made before the step; want of it is `Memory`. After a refusal the world and the steps
    /// are as they were.
    pub fn make(&mut self, step: Step, give: Give) -> Result<Made, StepFault>
        ensures steps { IfOk result (λ made. self.new.steps ≡ self.old.steps ++ made ∷ []) }
        ensures made { IfOk result (λ made. IsMade self.old.world made self.new.world) }
        ensures look { IfOk result (λ made. made.look ≡ needs self.old.world step) }
        ensures give { IfOk result (λ made. made.give ≡ give) }
        ensures step { IfOk result (λ made. made.told.step ≡ step) }
        ensures refused { IfErr result (λ fault. (fault ≡ StepFault.Memory) ⊎ (step_refusal self.old.world step ≡ Some fault)) }
        ensures err_world { OnErr result (IsSameWorld self.new.world self.old.world) }
        ensures err_steps { OnErr result (self.new.steps ≡ self.old.steps) }
        ensures fault { self.new.fault ≡ self.old.fault }
    {
        let ready = self.world.ready(&step)?;
        let count = self.rows();
        let made = self.act(&ready, give)?;
        Ok(Made {
            look: made.look,
            give,
            told: self.told(&made, count),
        })
    }

    /// Makes a step of which all was looked up, and records it. What it told is made by `told`.
    ///
    /// After want of memory the world and the steps are as they were.
    pub(crate) fn act(&mut self, ready: &Ready, give: Give) -> Result<Acted, Memory>
        requires { IsReadyStep self.old.world ready.now }
        ensures steps { IfOk result (λ made. self.new.steps ≡ self.old.steps ++ made ∷ []) }
        ensures made { IfOk result (λ made. IsMade self.old.world made self.new.world) }
        ensures look { IfOk result (λ made. made.look ≡ ready.now.look) }
        ensures give { IfOk result (λ made. made.give ≡ give) }
        ensures step { IfOk result (λ made. made.told.step ≡ ready.now.step) }
        ensures rows { IfOk result (λ made. made.told.rows
            ≡ four_rows self.new.world.system.rows.rows (length self.old.world.system.rows.rows)) }
        ensures err_world { OnErr result (IsSameWorld self.new.world self.old.world) }
        ensures err_steps { OnErr result (self.new.steps ≡ self.old.steps) }
        ensures fault { self.new.fault ≡ self.old.fault }
    {
        let State { world, steps, .. } = self;
        steps.reserve(1)?;
        let count = world.log().rows().len();
        let mut acts = NO_ACTS;
        world.make_step(ready, give, &mut acts)?;
        let made = acted_of(ready, &give, &acts, &count, world);
        record_made(steps, &made);
        Ok(made)
    }

    /// Takes the next parcel for a process, where that needs nothing of its object and asks nothing of it, and records it: the
    /// step, if it was made. Else, and after want of memory, the world and the steps are as they were.
    #[inline(always)]
    pub(crate) fn take_quietly(&mut self, p: ProcNo) -> Result<Option<Step>, Memory>
        ensures made { IfOk result (λ taken. IfSome taken (IsMadeQuietly self.old self.new)) }
        ensures own { IfOk result (λ taken. IfSome taken (λ step. process_of_step step ≡ p)) }
        ensures left { IfOk result (λ taken. IfNone taken (self.new ≡ self.old)) }
        ensures err_world { OnErr result (IsSameWorld self.new.world self.old.world) }
        ensures err_steps { OnErr result (self.new.steps ≡ self.old.steps) }
        ensures fault { self.new.fault ≡ self.old.fault }
    {
        let State { world, steps, .. } = self;
        let Some(step) = world.next_step_of(p) else {
            return Ok(None);
        };
        let Step::Take { at, from } = step else {
            return Ok(None);
        };
        steps.reserve(1)?;
        let count = world.log().rows().len();
        let taken = world.take_quietly(at, from)?;
        if !taken {
            return Ok(None);
        }
        let quiet = taken_of(at, from, &count, world);
        record_made(steps, &quiet);
        Ok(Some(step))
    }

    /// How many rows the log has.
    pub(crate) fn rows(&self) -> usize
        ensures count { result ≡ length self.now.world.system.rows.rows }
        ensures few { result ≤ 2 ^ 24 }
    {
        self.world.log().rows().len()
    }

    /// What a step told, after which the log has these first rows and those of the step.
    pub(crate) fn told(&self, made: &Acted, count: usize) -> Told
        requires rows { made.now.told.rows ≡ four_rows self.now.world.system.rows.rows count }
        requires few { count ≤ 2 ^ 24 }
        ensures { result ≡ made.now.told }
    {
        Told {
            step: made.step,
            rows: [
                self.row(count),
                self.row(count + 1),
                self.row(count + 2),
                self.row(count + 3),
            ],
            acts: [made.acts[0], made.acts[1]],
        }
    }

    /// The row after the first so many, with its number, if there is one.
    fn row(&self, count: usize) -> Option<(RowNo, Event)>
        ensures { result ≡ numbered_row self.now.world.system.rows.rows count }
    {
        let event = self.world.log().rows().get(count)?;
        Some((RowNo::after(count), *event))
    }

    /// Keeps the first fault.
    pub fn stop(&mut self, fault: LiveFault)
        ensures { self.new ≡ record self.old { fault = first_fault self.old.fault fault } }
    {
        if self.fault.is_none() {
            self.fault = Some(fault);
        }
    }

    /// The first fault, if there was one.
    pub(crate) fn fault(&self) -> Option<LiveFault>
        ensures { result ≡ self.now.fault }
    {
        self.fault
    }

    /// Whether there was a fault, or the world is at rest.
    pub(crate) fn is_over(&self) -> bool
        ensures over { IsTrue result ↔ IsOver self.now }
    {
        self.fault.is_some() || self.at_rest()
    }

    /// Whether the world is at rest.
    pub(crate) fn at_rest(&self) -> bool
        ensures rest { IsTrue result ↔ IsWorldAtRest self.now.world }
        ensures follows { IsTrue result → FollowsPlan self.now.world.agenda.plan self.now.world.system.rows.rows }
    {
        self.world.at_rest()
    }

    /// Whether it is of this plan.
    pub(crate) fn is_of(&self, plan: &Plan) -> bool
        ensures plan { IsTrue result ↔ (self.now.world.agenda.plan ≡ plan.now) }
    {
        is_same_plan(self.world.plan(), plan)
    }

    /// The step that a process makes next, if it can make one.
    pub(crate) fn next_step_of(&self, p: ProcNo) -> Option<Step>
        ensures next { IsNext self.now.world p result }
    {
        self.world.next_step_of(p)
    }

    /// The processes that may be able to make a step.
    pub(crate) fn may_step(&self) -> ProcSet
        ensures { HasNoOthers self.now.world result }
    {
        self.world.may_step()
    }

    /// How well a process steps now, where others can step too.
    pub(crate) fn priority(&self, p: ProcNo) -> Priority {
        self.world.priority(p)
    }

    /// The step that a process makes next, with what was looked up for it, if it can make one; or why it is refused.
    pub(crate) fn next_ready(&self, p: ProcNo) -> Result<Option<Ready>, StepFault>
        ensures next { IfOk result (λ next. IsNext self.now.world p (option_map (λ ready. ready.step) next)) }
        ensures ready { IfOk result (λ next. IfSome next (IsReadyStep self.now.world)) }
        ensures own { IfOk result (λ next. IfSome next (λ ready. process_of_step ready.step ≡ p)) }
        ensures refused { IfErr result (λ fault. (step : Step) × (step_refusal self.now.world step ≡ Some fault)) }
    {
        match self.world.next_step_of(p) {
            Some(step) => Ok(Some(self.world.ready_found(&step)?)),
            None => Ok(None),
        }
    }

    /// The log, of which all is so that is promised of a run's, and the steps.
    pub(crate) fn into_parts(self) -> (SpaceTime, Vec<Snapshot<Acted>>)
        ensures log { result.0 ≡ self.world.system.rows }
        ensures promised { IsPromised result.0.rows }
        ensures steps { map (λ step. step.value) result.1.items ≡ self.steps }
        ensures history { IsHistory self.world.agenda.plan self.steps self.world }
    {
        let State { world, steps, .. } = self;
        (world.into_log(), steps)
    }
}

/// A step that was made, of a world that had so many rows before it.
fn acted_of(ready: &Ready, give: &Give, acts: &[Act; 2], count: &usize, world: &World) -> Acted
    ensures { result ≡ record {
      look = ready.now.look;
      give = give.now;
      told = record {
        step = ready.now.step;
        rows = four_rows world.now.system.rows.rows count.now;
        acts = acts.now;
      };
    } }
{
    Acted {
        step: ready.step,
        look: ready.look,
        give: Give {
            able: give.able,
            body: give.body,
        },
        acts: [acts[0], acts[1]],
        count: Snapshot::of(count),
        world: Snapshot::of(world),
    }
}

/// A parcel that a process took, where nothing was needed or asked of its object, of a world that had so many rows before it.
fn taken_of(at: ProcNo, from: ProcNo, count: &usize, world: &World) -> Acted
    ensures { result ≡ record {
      look = Look.Plain;
      give = record { able = false; body = pos 0 };
      told = record {
        step = Step.Take at from;
        rows = four_rows world.now.system.rows.rows count.now;
        acts = Act.Nothing ∷ Act.Nothing ∷ [];
      };
    } }
{
    Acted {
        step: Step::Take { at, from },
        look: Look::Plain,
        give: Give {
            able: false,
            body: 0,
        },
        acts: NO_ACTS,
        count: Snapshot::of(count),
        world: Snapshot::of(world),
    }
}

/// Records a step, in the room made before.
fn record_made(steps: &mut Vec<Snapshot<Acted>>, made: &Acted)
    requires { vec_len steps.old < vec_capacity steps.old }
    ensures { map (λ step. step.value) steps.new.items ≡ map (λ step. step.value) steps.old.items ++ made.now ∷ [] }
{
    steps.push_reserved(Snapshot::of(made));
}
