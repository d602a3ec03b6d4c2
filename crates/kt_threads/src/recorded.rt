//! Runs in threads of which the log is kept, and the steps if they are asked for.

ghost use Rattle.std.specs.Prelude.{◌≡◌, ◌⊎◌, [], ℕ, map, slice_index, slice_index_or, OnOk, IfOk, IfErr, IfSome, Some};
ghost use Rattle.kt_object.specs.Holdings.{content};
ghost use Rattle.kt_object.specs.Refusals.{IsLeastRefused};
ghost use Rattle.kt_meaning.specs.Follows.{FollowsPlan};
ghost use Rattle.kt_meaning.specs.Promised.{IsCertified, IsPromised};
ghost use Rattle.kt_run.specs.Faults.{IsCast};
ghost use Rattle.kt_run.specs.Orders.{IsRunBy};
ghost use Rattle.kt_run.specs.Rejections.{MayReject};
ghost use Rattle.kt_run.specs.Runs.{IsLogOfRun};
ghost use Rattle.kt_threads.specs.Faults.{AnswersLive};

use crate::faults::LiveFault;
use crate::minutes::Noting;
use crate::outcome::run_cast;
use kt_object::{Cast, Recoverable};
use kt_plan::{Plan, Step};
use kt_run::{Keep, RecordedRun};
use std::alloc::Global;
use std::sync::Wait;
use std::thread::Threads;

/// A run as `live` makes it, with no list of what the processes were told: its log, and the steps
/// that were made, all of them, in one order that they were made in; none where they are not to be
/// kept.
pub fn kept_live_run_of<R: Threads + Wait + Sync>(
    rt: &R,
    alloc: Global,
    plan: &Plan,
    keep: Keep,
    cast: Cast,
) -> Result<RecordedRun, LiveFault>
    // Where steps are kept, the log is that of a run of the plan by just those that are listed, which
    // has come to rest. What is sent for an object is what it offers.
    ensures run { IfOk result (λ kept. keep ≡ Keep.Steps → IsRunBy plan.now
        (map (λ row. map (λ b. content (kind_of b) (value_of b)) row.items) cast.items)
        kept.steps.items kept.log.rows) }

    // Whatever is kept, it is that of a run of the plan that ends at rest.
    ensures lived { IfOk result (λ kept. IsLogOfRun plan.now
        (map (λ row. map (λ b. content (kind_of b) (value_of b)) row.items) cast.items) kept.log.rows) }

    // Of it all is so that is promised of every run's.
    ensures promised { IfOk result (λ kept. IsPromised kept.log.rows) }
    ensures certified { IfOk result (λ kept. IsCertified kept.log.rows) }

    // It follows the plan, told by its rows alone.
    ensures follows { IfOk result (λ kept. FollowsPlan plan.now kept.log.rows) }

    // The objects are those that the plan asks for; else a fault says what is wrong with them.
    ensures cast { OnOk result
        (IsCast plan.now (map (λ row. map (λ b. kind_of b) row.items) cast.items)) }
    ensures fault { IfErr result
        (AnswersLive plan.now (map (λ row. map (λ b. kind_of b) row.items) cast.items)) }

    // Where an object fails, it is either at first, that of the least process whose save may be
    // refused; or one of the objects that the process was given may reject a saved state of their
    // kind.
    ensures object { IfErr result (λ fault. (p : ℕ) → fault ≡ LiveFault.Object p →
        IsLeastRefused (λ b. may_save b) (λ b. may_refuse b) (map (λ row. row.items) cast.items) p
        ⊎ MayReject (λ b saved. may_reject b saved) (slice_index plan.now.kinds p)
        (slice_index_or (map (λ row. row.items) cast.items) p [])) }
{
    let (lived, _objects) = run_cast(rt, alloc, plan, Noting::Kept(keep), cast)?;
    let Some(steps) = steps_of(alloc, keep, lived.listed) else {
        return Err(LiveFault::Differ);
    };
    Ok(RecordedRun {
        log: lived.log,
        steps,
    })
}

/// The steps that were listed; none where they are not to be kept.
fn steps_of(alloc: Global, keep: Keep, listed: Option<Vec<Step>>) -> Option<Vec<Step>>
    ensures { IfSome result (λ steps. keep ≡ Keep.Steps → listed ≡ Some steps) }
{
    match keep {
        Keep::Log => Some(Vec::new(alloc)),
        Keep::Steps => listed,
    }
}
