//! Serial runs.

ghost use Rattle.std.specs.Prelude.{◌≡◌, ◌⊎◌, ℕ, [], None, All, map, slice_index, slice_index_or, OnOk, IfOk, IfErr};
ghost use Rattle.std.specs.List.{AllZip};
ghost use Rattle.kt_core.specs.declared.faults.StepFault.{StepFault};
ghost use Rattle.kt_object.specs.Holdings.{content};
ghost use Rattle.kt_object.specs.Refusals.{IsLeastRefused};
ghost use Rattle.kt_meaning.specs.Follows.{FollowsPlan};
ghost use Rattle.kt_meaning.specs.Promised.{IsCertified, IsPromised};
ghost use Rattle.kt_run.specs.Faults.{IsCast, Answers};
ghost use Rattle.kt_run.specs.Objects.{has_of, HoldDue, AreLeft};
ghost use Rattle.kt_run.specs.Refused.{IsStepRefused, IsStopped};
ghost use Rattle.kt_run.specs.Rejections.{MayReject};
ghost use Rattle.kt_run.specs.Runs.{IsToldPlay};
ghost use Rattle.kt_run.specs.Telling.{AreToldTheirRows};

use crate::faults::RunFault;
use crate::journals::Journals;
use crate::laws::laws_of_runs;
use crate::orders::Order;
use crate::recorded::Keep;
use crate::run_state::RunState;
use kt_object::{Cast, Held, Recoverable};
use kt_plan::{Plan, Step, Told};
use kt_spacetime::SpaceTime;
use std::alloc::Global;

/// What is left of a run: its log, what each process was told, each once and in order, and what each one holds.
#[derive(Drop)]
pub struct Outcome {
    pub log: SpaceTime,
    pub told: Vec<Vec<Told>>,
    pub objects: Vec<Held>,
}

/// Runs a plan over these objects: the steps given, then default steps until there is none.
///
/// `CastSize` and `CastKind` come before anything is saved and any memory is taken. After a fault the objects are dropped.
pub fn run(alloc: Global, plan: &Plan, steps: &[Step], cast: Cast) -> Result<Outcome, RunFault>
    ensures cast { OnOk result (IsCast plan.now (map (λ row. map (λ b. kind_of b) row.items) cast.items)) }
    ensures fault { IfErr result (Answers plan.now (map (λ row. map (λ b. kind_of b) row.items) cast.items)) }

    // A step is refused only where those before it are a run.
    ensures refused { IfErr result (λ fault. (done : ℕ) (why : StepFault) → fault ≡ RunFault.Step done why →
        IsStepRefused plan.now (map (λ row. map (λ b. content (kind_of b) (value_of b)) row.items) cast.items) steps.now done why) }

    // Where there is no memory for what a process is told, the step is its own, and not refused.
    ensures named { IfErr result (λ fault. (p : ℕ) → fault ≡ RunFault.Journal p →
        IsStopped plan.now (map (λ row. map (λ b. content (kind_of b) (value_of b)) row.items)
        cast.items) steps.now p) }

    // Where an object fails, it is either at first, that of the least process whose save may be refused; or in a step of
    // its own that was not refused, where one of the objects that the process was given may reject a saved state of their
    // kind.
    ensures object { IfErr result (λ fault. (p : ℕ) → fault ≡ RunFault.Object p →
        IsLeastRefused (λ b. may_save b) (λ b. may_refuse b) (map (λ row. row.items) cast.items) p
        ⊎ (IsStopped plan.now (map (λ row. map (λ b. content (kind_of b) (value_of b)) row.items)
        cast.items) steps.now p
        × MayReject (λ b saved. may_reject b saved) (slice_index plan.now.kinds p)
        (slice_index_or (map (λ row. row.items) cast.items) p []))) }

    // The log is that of a run of the plan which begins with the steps given, goes on by default steps, and comes to rest;
    // each process was told, step for step, what that run tells it; and all is so of the log that is promised of a run's.
    // What is sent for an object is what it offers.
    ensures run { IfOk result (λ outcome. IsToldPlay plan.now
        (map (λ row. map (λ b. content (kind_of b) (value_of b)) row.items) cast.items) steps.now
        outcome.log.rows (map (λ list. list.items) outcome.told.items)) }

    // Each process was told its own rows of the log, each once and in order, with their numbers.
    ensures told { IfOk result (λ outcome.
        AreToldTheirRows outcome.log.rows (map (λ list. list.items) outcome.told.items)) }

    // Each process holds what is due to it after that log, of the objects that it was given, and nothing tentative.
    ensures due { IfOk result (λ outcome. HoldDue
        (map (λ row. map (λ b. content (kind_of b) (value_of b)) row.items) cast.items) outcome.log.rows
        (has_of outcome.objects.items (λ b. content (kind_of b) (value_of b)))) }
    ensures settled { IfOk result (λ outcome. All (λ h. h.depot.tentative ≡ None) outcome.objects.items) }
    ensures promised { IfOk result (λ outcome. IsPromised outcome.log.rows) }
    ensures certified { IfOk result (λ outcome. IsCertified outcome.log.rows) }

    // The spares of each process are the objects that it was given but for the first ones.
    ensures spares { IfOk result (λ outcome.
        AllZip (λ row h. AreLeft row.items h.spares.items) cast.items outcome.objects.items) }

    // The log follows the plan, told by its rows alone.
    ensures follows { IfOk result (λ outcome. FollowsPlan plan.now outcome.log.rows) }
{
    laws_of_runs();
    let mut run_state = RunState::begin(alloc, plan, cast)?;
    run_state.keep_journals()?;
    run_state.make_all(steps, Order::Default, Keep::Log)?;
    Ok(Outcome {
        log: run_state.world.into_log(),
        told: run_state.journals.into_lists(),
        objects: run_state.objects,
    })
}
