//! Runs of which the log is kept, and the steps if they are asked for.

ghost use Rattle.std.specs.Prelude.{◌≡◌, ◌≢◌, ◌⊎◌, ◌++◌, ◌∷◌, [], ℕ, map, slice_index, slice_index_or, OnOk, IfOk, IfErr};
ghost use Rattle.kt_core.specs.declared.faults.StepFault.{StepFault};
ghost use Rattle.kt_object.specs.Holdings.{content};
ghost use Rattle.kt_object.specs.Refusals.{IsLeastRefused};
ghost use Rattle.kt_meaning.specs.Follows.{FollowsPlan};
ghost use Rattle.kt_meaning.specs.Promised.{IsCertified, IsPromised};
ghost use Rattle.kt_run.specs.Faults.{IsCast, Answers};
ghost use Rattle.kt_run.specs.Hindered.{TellsHindrance, TellsNoOther};
ghost use Rattle.kt_run.specs.Orders.{kept_steps, IsOneOrderedRun, IsOneRefused, IsOneStopped};
ghost use Rattle.kt_run.specs.Refused.{IsStepRefused, IsStopped};
ghost use Rattle.kt_run.specs.Rejections.{MayReject};
ghost use Rattle.kt_run.specs.Runs.{IsPlayed};

use crate::faults::RunFault;
use crate::laws::laws_of_runs;
use crate::orders::Order;
use crate::run_state::RunState;
use kt_base::Memory;
use kt_object::{Cast, Recoverable};
use kt_plan::{Plan, Step};
use kt_promises::Hindrance;
use kt_spacetime::SpaceTime;
use std::alloc::Global;

/// What is kept of a run, beside its log.
#[derive(Clone, Copy, PartialEq, Eq)]
pub enum Keep {
    /// Nothing.
    Log,
    /// The steps that were made, in order.
    Steps,
}

impl Keep {
    /// The list of the steps given, if steps are to be kept.
    pub(crate) fn list_of(self, alloc: Global, steps: &[Step]) -> Result<Vec<Step>, RunFault>
        ensures ok { IfOk result (λ made. made.items ≡ kept_steps self steps.now) }
        ensures fault { IfErr result (λ fault. fault ≡ RunFault.Memory) }
    {
        let mut made = Vec::new(alloc);
        match self {
            Keep::Log => Ok(made),
            Keep::Steps => match made.extend_from_slice(steps) {
                Ok(()) => Ok(made),
                Err(_) => Err(RunFault::Memory),
            },
        }
    }

    /// Adds a step at the end of those that were made, if steps are to be kept.
    #[inline(always)]
    pub(crate) fn note(self, made: &mut Vec<Step>, step: &Step) -> Result<(), RunFault>
        ensures ok { OnOk result (made.new.items ≡ made.old.items ++ kept_steps self (step.now ∷ [])) }
        ensures fault { IfErr result (λ fault. fault ≡ RunFault.Memory) }
    {
        match self {
            Keep::Log => Ok(()),
            Keep::Steps => Ok(add(made, step)?),
        }
    }
}

// Adds a step at the end of a list.
#[inline(never)]
fn add(steps: &mut Vec<Step>, step: &Step) -> Result<(), Memory>
    ensures { OnOk result (steps.new.items ≡ steps.old.items ++ step.now ∷ []) }
{
    steps.extend_from_slice(&[*step])?;
    Ok(())
}

/// What is kept of a run: its log, and the steps that were made, all of them, in order; none where
/// they are not to be kept.
#[derive(Drop)]
pub struct RecordedRun {
    pub log: SpaceTime,
    pub steps: Vec<Step>,
}

/// Why a run came to no end; where a step was not enabled, what stood in its way.
#[derive(Clone, Copy)]
pub struct Stop {
    pub fault: RunFault,
    pub hindrance: Option<Hindrance>,
}

/// Runs a plan over these objects: the steps given, then those that come next in an order until
/// none is enabled.
///
/// `CastSize` and `CastKind` come before anything is saved and any memory is taken. After a fault
/// the objects are dropped.
pub fn kept_run_of(
    alloc: Global,
    plan: &Plan,
    steps: &[Step],
    order: Order,
    keep: Keep,
    cast: Cast,
) -> Result<RecordedRun, Stop>
    ensures cast { OnOk result
        (IsCast plan.now (map (λ row. map (λ b. kind_of b) row.items) cast.items)) }
    ensures fault { IfErr result (λ stop.
        Answers plan.now (map (λ row. map (λ b. kind_of b) row.items) cast.items) stop.fault) }

    // A step is refused only where those before it, as many as are told, are a run; by default they
    // are the first of those given, or all of them and then default ones.
    ensures refused { IfErr result (λ stop. (done : ℕ) (why : StepFault) →
        stop.fault ≡ RunFault.Step done why → IsOneRefused plan.now
        (map (λ row. map (λ b. content (kind_of b) (value_of b)) row.items) cast.items) done why) }
    ensures default_refused { order ≡ Order.Default →
        IfErr result (λ stop. (done : ℕ) (why : StepFault) →
        stop.fault ≡ RunFault.Step done why → IsStepRefused plan.now
        (map (λ row. map (λ b. content (kind_of b) (value_of b)) row.items) cast.items)
        steps.now done why) }

    // A step that is not enabled is one of those given; just then what stands in its way is told.
    ensures hindered { IfErr result (λ stop. TellsHindrance plan.now
        (map (λ row. map (λ b. content (kind_of b) (value_of b)) row.items) cast.items)
        steps.now stop.fault stop.hindrance) }
    ensures unhindered { IfErr result (λ stop. TellsNoOther stop.fault stop.hindrance) }

    // No list is kept of what a process is told, so none lacks memory.
    ensures untold { IfErr result (λ stop. (p : ℕ) → stop.fault ≢ RunFault.Journal p) }

    // Where an object fails, it is either at first, that of the least process whose save may be
    // refused; or in a step of its own that was not refused, where one of the objects that the
    // process was given may reject a saved state of their kind.
    ensures object { IfErr result (λ stop. (p : ℕ) → stop.fault ≡ RunFault.Object p →
        IsLeastRefused (λ b. may_save b) (λ b. may_refuse b) (map (λ row. row.items) cast.items) p
        ⊎ (IsOneStopped plan.now
        (map (λ row. map (λ b. content (kind_of b) (value_of b)) row.items) cast.items) p
        × MayReject (λ b saved. may_reject b saved) (slice_index plan.now.kinds p)
        (slice_index_or (map (λ row. row.items) cast.items) p []))) }
    ensures default_object { order ≡ Order.Default →
        IfErr result (λ stop. (p : ℕ) → stop.fault ≡ RunFault.Object p →
        IsLeastRefused (λ b. may_save b) (λ b. may_refuse b) (map (λ row. row.items) cast.items) p
        ⊎ (IsStopped plan.now
        (map (λ row. map (λ b. content (kind_of b) (value_of b)) row.items) cast.items) steps.now p
        × MayReject (λ b saved. may_reject b saved) (slice_index plan.now.kinds p)
        (slice_index_or (map (λ row. row.items) cast.items) p []))) }

    // The log is that of a run of the plan, which has come to rest; its steps begin with those given
    // and go on by those that come next in the order, and all are listed, if they are to be kept.
    // What is sent for an object is what it offers.
    ensures run { IfOk result (λ kept. IsOneOrderedRun plan.now
        (map (λ row. map (λ b. content (kind_of b) (value_of b)) row.items) cast.items)
        steps.now order keep kept.steps.items kept.log.rows) }

    // By default it is that of a run which begins with the steps given and goes on by default steps.
    ensures played { order ≡ Order.Default → IfOk result (λ kept. IsPlayed plan.now
        (map (λ row. map (λ b. content (kind_of b) (value_of b)) row.items) cast.items)
        steps.now kept.log.rows) }
    ensures promised { IfOk result (λ kept. IsPromised kept.log.rows) }
    ensures certified { IfOk result (λ kept. IsCertified kept.log.rows) }

    // It follows the plan, told by its rows alone.
    ensures follows { IfOk result (λ kept. FollowsPlan plan.now kept.log.rows) }
{
    laws_of_runs();
    let mut run_state = match RunState::begin(alloc, plan, cast) {
        Ok(run_state) => run_state,
        Err(fault) => {
            return Err(Stop {
                fault,
                hindrance: None,
            });
        }
    };
    match run_state.make_all(steps, order, keep) {
        Ok(made) => Ok(RecordedRun {
            log: run_state.world.into_log(),
            steps: made,
        }),
        Err(fault) => Err(Stop {
            fault,
            hindrance: run_state.hindrance,
        }),
    }
}
