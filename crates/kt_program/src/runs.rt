//! Runs over new objects, made serially or in threads, and what is written of them.

ghost use Rattle.std.specs.Prelude.{◌≡◌, ◌⊎◌, ◌<◌, [], ℕ, List, IfOk, IfErr, OnOk, All, length, map, slice_index, slice_index_or};
ghost use Rattle.kt_object.specs.Casts.{HasSizes, HasKind};
ghost use Rattle.kt_object.specs.Refusals.{IsLeastRefused};
ghost use Rattle.kt_object.specs.Reliable.{IsReliable};
ghost use Rattle.kt_object.specs.Value.{opening_value};
ghost use Rattle.kt_plan.specs.Limits.{IsKindOfObject};
ghost use Rattle.kt_plan.specs.declared.steps.Step.{Step as Steps};
ghost use Rattle.kt_meaning.specs.Follows.{FollowsPlan};
ghost use Rattle.kt_meaning.specs.Promised.{IsCertified, IsPromised};
ghost use Rattle.kt_run.specs.Rejections.{MayReject};
ghost use Rattle.kt_scenario.specs.Steps.{most_steps};
ghost use Rattle.kt_scenario.specs.Written.{steps_text};
ghost use Rattle.kt_text.specs.Writing.{WritesFront};
ghost use Rattle.kt_program.specs.declared.fault.AppFault.TheVariants as app;
ghost use Rattle.kt_program.specs.Made.{AreListed, IsFaultOverNew, IsMadeAs, IsMadeOverNew, order_by, told_by};
ghost use Rattle.kt_program.specs.Outputs.{contents_of, keep_for};
ghost use Rattle.kt_program.specs.Played.{IsOfWriting, OverNew, WritesRun};
ghost use Rattle.kt_program.specs.Recorded.{IsOfRecording, IsRecorded, StopsRecording, WritesSteps};

use crate::casts::cast_of;
use crate::fault::AppFault;
use crate::laws::no_message_is_lost;
use crate::line::{By, Run};
use crate::outputs::{Output, Outputs};
use kt_base::Memory;
use kt_certify::certificates_of_run;
use kt_chain::write_certs;
use kt_log_text::write_csv;
use kt_object::{Cast, Last, Object, Recoverable, SlotBook, Sum, Tail};
use kt_plan::{Plan, Step};
use kt_promises::Hindrance;
use kt_report::report_of_run;
use kt_run::{Keep, Order, RecordedRun, kept_run_of};
use kt_scenario::write_steps;
use kt_spacetime::SpaceTime;
use kt_threads::kept_live_run_of;
use std::alloc::Global;
use std::io::Write;
use std::sync::Wait;
use std::thread::Threads;

// How many steps a text of steps has at most.
const MOST_STEPS: usize = 1_048_576;

/// Makes the run of a plan that is asked for over new objects, and writes its log, then its certificates, then the text of its
/// steps, where that is asked, then its report. Each writer is flushed.
///
/// Where the steps are to be written, a run of more than 2^20 steps is a fault: a text of steps has no more. What was written
/// before a fault stays.
pub(crate) fn run_objects<T: Threads + Wait + Sync, W: Write, R: Write>(
    rt: &T,
    alloc: Global,
    plan: &Plan,
    steps: &[Step],
    run: &Run<'_>,
    hindrance: &mut Option<Hindrance>,
    outputs: &mut Outputs<W>,
    out: &mut R,
) -> Result<(), AppFault>
    // There is one list of rows, of which log, certificates and report are written, and one list of steps, whose text is
    // written: they are those of a run of the plan that is made as is asked, and comes to rest.
    ensures recorded { OnOk result (IsRecorded (λ made. OverNew plan.now
        (λ cast. IsMadeAs run.now.by (order_by run.now.seed) plan.now cast steps.now made)) plan.now
        (told_by W.contents outputs.old (R.contents out.old)) (told_by W.contents outputs.new (R.contents out.new))) }
    // Where it stops: all of what comes earlier is written, of such a run, a front part of the text in which it stops, and
    // nothing of what comes later; where the steps are too many for a text, the log and the certificates alone.
    ensures stopped { IfErr result (StopsRecording (λ made. OverNew plan.now
        (λ cast. IsMadeAs run.now.by (order_by run.now.seed) plan.now cast steps.now made)) plan.now
        (told_by W.contents outputs.old (R.contents out.old)) (told_by W.contents outputs.new (R.contents out.new))) }
    // A fault is one of writing, or what such a run meets over new objects.
    ensures fault { IfErr result (λ e. IsOfRecording e
        ⊎ IsFaultOverNew run.now.by (order_by run.now.seed) plan.now steps.now e) }
{
    let keep = outputs.kept.keep();
    let made = new_run(rt, alloc, plan, steps, run, keep, hindrance)?;
    write_recorded(alloc, plan, &made.log, made.steps.as_slice(), outputs, out)
}

// The run that is asked for, over new objects.
fn new_run<T: Threads + Wait + Sync>(
    rt: &T,
    alloc: Global,
    plan: &Plan,
    steps: &[Step],
    run: &Run<'_>,
    keep: Keep,
    hindrance: &mut Option<Hindrance>,
) -> Result<RecordedRun, AppFault>
    ensures made { IfOk result (λ made. IsMadeOverNew run.now.by (order_by run.now.seed) keep plan.now steps.now
        made.steps.items made.log.rows) }
    ensures promised { IfOk result (λ made. IsPromised made.log.rows) }
    ensures certified { IfOk result (λ made. IsCertified made.log.rows) }
    ensures follows { IfOk result (λ made. FollowsPlan plan.now made.log.rows) }
    ensures fault { IfErr result (IsFaultOverNew run.now.by (order_by run.now.seed) plan.now steps.now) }
{
    let _processes = plan.size();
    let mut book = SlotBook::new(alloc);
    let make = |kind: u8| -> Result<Object, Memory>
        ensures kind { IfOk result (λ object. IsKindOfObject kind → kind_of object ≡ kind) }
        ensures value { IfOk result (λ object. IsKindOfObject kind → value_of object ≡ opening_value kind) }
        ensures reliable { IfOk result (λ object. IsReliable (kind_of object) (may_refuse object)
            (λ saved. may_reject object saved)) }
    {
        let guard = book.open()?;
        match kind {
            0 => Ok(Box::new(alloc, Sum::new(guard))?),
            1 => Ok(Box::new(alloc, Last::new(guard))?),
            _ => Ok(Box::new(alloc, Tail::new(guard))?),
        }
    };
    let cast = cast_of(alloc, plan, make)?;
    run_of(rt, alloc, plan, steps, run, keep, hindrance, cast)
}

// The same over objects that the plan asks for, at their opening values, which can always be saved and brought back.
fn run_of<T: Threads + Wait + Sync>(
    rt: &T,
    alloc: Global,
    plan: &Plan,
    steps: &[Step],
    run: &Run<'_>,
    keep: Keep,
    hindrance: &mut Option<Hindrance>,
    cast: Cast,
) -> Result<RecordedRun, AppFault>
    requires sizes { HasSizes plan.now.kinds plan.now.commands (map (λ row. map (λ b. kind_of b) row.items) cast.items) }
    requires kinds { (p : ℕ) → p < length plan.now.kinds →
        HasKind plan.now.kinds (map (λ row. map (λ b. kind_of b) row.items) cast.items) p }
    requires opening { All (λ row. All (λ b. value_of b ≡ opening_value (kind_of b)) row.items) cast.items }
    requires saved { (p : ℕ) →
        ¬ IsLeastRefused (λ b. may_save b) (λ b. may_refuse b) (map (λ row. row.items) cast.items) p }
    requires taken { (p : ℕ) → ¬ MayReject (λ b saved. may_reject b saved) (slice_index plan.now.kinds p)
        (slice_index_or (map (λ row. row.items) cast.items) p []) }
    ensures made { IfOk result (λ made. IsMadeOverNew run.now.by (order_by run.now.seed) keep plan.now steps.now
        made.steps.items made.log.rows) }
    ensures promised { IfOk result (λ made. IsPromised made.log.rows) }
    ensures certified { IfOk result (λ made. IsCertified made.log.rows) }
    ensures follows { IfOk result (λ made. FollowsPlan plan.now made.log.rows) }
    ensures fault { IfErr result (IsFaultOverNew run.now.by (order_by run.now.seed) plan.now steps.now) }
{
    let _processes = plan.size();
    kt_meaning::certificates_of_promised_logs();
    kt_promises::progress_of_runs();
    kt_promises::steps_of_runs();
    kt_promises::never_stuck();
    kt_promises::told_of_runs();
    kt_run::one_run();
    kt_scenario::steps_are_read_back();
    match run.by {
        By::Serial => match kept_run_of(alloc, plan, steps, order_of(run.seed), keep, cast) {
            Ok(made) => Ok(made),
            Err(stop) => {
                *hindrance = stop.hindrance;
                Err(AppFault::from(stop.fault))
            }
        },
        By::Threads => match kept_live_run_of(rt, alloc, plan, keep, cast) {
            Ok(made) => Ok(made),
            Err(fault) => Err(AppFault::from(fault)),
        },
    }
}

// The order in which steps are made: drawn where there is a seed.
fn order_of(seed: Option<u64>) -> Order
    ensures { result ≡ order_by seed }
{
    match seed {
        None => Order::Default,
        Some(seed) => Order::Drawn(seed),
    }
}

// Writes the log of a run, then its certificates, then its steps, where that is asked, then its report.
#[tactic(auto, using(crate::proofs::OrderedRuns::made_stopped))]
fn write_recorded<W: Write, R: Write>(
    alloc: Global,
    plan: &Plan,
    log: &SpaceTime,
    steps: &[Step],
    outputs: &mut Outputs<W>,
    out: &mut R,
) -> Result<(), AppFault>
    requires promised { IsPromised log.now.rows }
    requires certified { IsCertified log.now.rows }
    requires follows { FollowsPlan plan.now log.now.rows }
    ensures written { OnOk result (WritesRun plan.now log.now.rows
        (told_by W.contents outputs.old (R.contents out.old)).run
        (told_by W.contents outputs.new (R.contents out.new)).run) }
    // The steps that are written are those of the run; they are the ones that are listed, if there is a file for them.
    ensures steps { (made : List Steps) → AreListed (keep_for outputs.old.kept) steps.now made →
        OnOk result (WritesSteps plan.now made (contents_of W.contents outputs.old.kept)
        (contents_of W.contents outputs.new.kept)) }
    ensures stopped { (made : List Steps) → AreListed (keep_for outputs.old.kept) steps.now made →
        IfErr result (StopsRecording (λ moves rows. (moves ≡ made) × (rows ≡ log.now.rows)) plan.now
        (told_by W.contents outputs.old (R.contents out.old)) (told_by W.contents outputs.new (R.contents out.new))) }
    ensures writing { IfErr result IsOfRecording }
{
    no_message_is_lost();
    write_csv(alloc, log, &mut outputs.log)?;
    let certificates = certificates_of_run(alloc, log)?;
    write_certs(alloc, certificates.as_slice(), &mut outputs.cert)?;
    write_made(alloc, plan, steps, &mut outputs.kept)?;
    report_of_run(alloc, plan, log, certificates.as_slice(), out)?;
    Ok(())
}

// Writes the steps that were made, where that is asked.
#[tactic(auto, using(crate::proofs::OrderedRuns::writes_steps))]
fn write_made<S: Write>(
    alloc: Global,
    plan: &Plan,
    steps: &[Step],
    writer: &mut Output<S>,
) -> Result<(), AppFault>
    ensures written { (made : List Steps) → AreListed (keep_for writer.old) steps.now made →
        OnOk result (WritesSteps plan.now made (contents_of S.contents writer.old) (contents_of S.contents writer.new)) }
    ensures long { (made : List Steps) → AreListed (keep_for writer.old) steps.now made →
        IfErr result (λ fault. fault ≡ app.RecordTooLong → (most_steps < length made)
        × (contents_of S.contents writer.new ≡ contents_of S.contents writer.old)) }
    ensures stopped { (made : List Steps) → AreListed (keep_for writer.old) steps.now made →
        IfErr result (λ fault. IsOfWriting fault → WritesFront (contents_of S.contents writer.old)
        (contents_of S.contents writer.new) (steps_text plan.now.names made)) }
    ensures fault { IfErr result IsOfRecording }
{
    let Output::File(file) = writer else {
        return Ok(());
    };
    if steps.len() > MOST_STEPS {
        return Err(AppFault::RecordTooLong);
    }
    write_steps(alloc, &plan.names, steps, file)?;
    Ok(())
}
