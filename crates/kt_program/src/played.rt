//! Runs played: what is written of them.

ghost use Rattle.std.specs.Prelude.{◌≡◌, ◌≢◌, ◌⊎◌, [], ℕ, IfErr, OnOk, map, slice_index, slice_index_or};
ghost use Rattle.kt_core.specs.declared.faults.StepFault.{StepFault};
ghost use Rattle.kt_object.specs.Holdings.{content};
ghost use Rattle.kt_object.specs.Refusals.{IsLeastRefused};
ghost use Rattle.kt_meaning.specs.Follows.{FollowsPlan};
ghost use Rattle.kt_meaning.specs.Promised.{IsCertified, IsPromised};
ghost use Rattle.kt_run.specs.Faults.{Answers};
ghost use Rattle.kt_run.specs.Refused.{IsStepRefused, IsStopped};
ghost use Rattle.kt_run.specs.Rejections.{MayReject};
ghost use Rattle.kt_run.specs.Runs.{IsLogOfRun, IsPlayed};
ghost use Rattle.kt_run.specs.declared.faults.RunFault.{RunFault};
ghost use Rattle.kt_run.specs.declared.faults.RunFault.TheVariants as run_fault;
ghost use Rattle.kt_threads.specs.Faults as threads;
ghost use Rattle.kt_threads.specs.declared.faults.LiveFault.{LiveFault};
ghost use Rattle.kt_threads.specs.declared.faults.LiveFault.TheVariants as live_fault;
ghost use Rattle.kt_program.specs.Played.{IsOfWriting, IsWritten, StopsAtFault, WritesRun, outputs};

use crate::fault::AppFault;
use crate::laws::no_message_is_lost;
use kt_certify::certificates_of_run;
use kt_chain::write_certs;
use kt_log_text::write_csv;
use kt_object::{Cast, Recoverable};
use kt_plan::{Plan, Step};
use kt_report::report_of_run;
use kt_run::{Keep, Order, kept_run_of};
use kt_spacetime::SpaceTime;
use kt_threads::kept_live_run_of;
use std::alloc::Global;
use std::io::Write;
use std::sync::Wait;
use std::thread::Threads;

/// Plays a run of a plan over these objects, the steps given first, and writes its log, then its certificates, then its
/// report. Each writer is flushed.
///
/// What was written before a fault stays.
pub fn play_plan<L: Write, C: Write, R: Write>(
    alloc: Global,
    plan: &Plan,
    steps: &[Step],
    cast: Cast,
    log_writer: &mut L,
    cert_writer: &mut C,
    report_writer: &mut R,
) -> Result<(), AppFault>
    // There is one list of rows, of which all three are written: those of a run of the plan which begins with the steps
    // given, goes on by default steps, and comes to rest; what is sent for an object is what it offers.
    ensures played { OnOk result (IsWritten
        (IsPlayed plan.now (map (λ row. map (λ b. content (kind_of b) (value_of b)) row.items) cast.items) steps.now)
        plan.now
        (outputs (L.contents log_writer.old) (C.contents cert_writer.old) (R.contents report_writer.old))
        (outputs (L.contents log_writer.new) (C.contents cert_writer.new) (R.contents report_writer.new))) }
    // To the certificates that are written the checker says yes.
    ensures certified { OnOk result (IsWritten IsCertified plan.now
        (outputs (L.contents log_writer.old) (C.contents cert_writer.old) (R.contents report_writer.old))
        (outputs (L.contents log_writer.new) (C.contents cert_writer.new) (R.contents report_writer.new))) }
    // Where it stops: all of what comes earlier is written, of such a run, a front part of the text in which it stops, and
    // nothing of what comes later.
    ensures stopped { IfErr result (StopsAtFault
        (IsPlayed plan.now (map (λ row. map (λ b. content (kind_of b) (value_of b)) row.items) cast.items) steps.now)
        plan.now
        (outputs (L.contents log_writer.old) (C.contents cert_writer.old) (R.contents report_writer.old))
        (outputs (L.contents log_writer.new) (C.contents cert_writer.new) (R.contents report_writer.new))) }
    // A fault of the run is one of these objects, or comes once they are found right; a step is refused only where those
    // before it are a run.
    ensures fault { IfErr result (λ e. (fault : RunFault) → e ≡ AppFault.Run fault →
        Answers plan.now (map (λ row. map (λ b. kind_of b) row.items) cast.items) fault) }
    ensures refused { IfErr result (λ e. (done : ℕ) (why : StepFault) → e ≡ AppFault.Run (run_fault.Step done why) →
        IsStepRefused plan.now (map (λ row. map (λ b. content (kind_of b) (value_of b)) row.items) cast.items) steps.now done why) }
    // Where an object fails, it is either at first, that of the least process whose save may be refused; or in a step of
    // its own that was not refused, where one of the objects that the process was given may reject a saved state of their
    // kind.
    ensures object { IfErr result (λ e. (p : ℕ) → e ≡ AppFault.Run (run_fault.Object p) →
        IsLeastRefused (λ b. may_save b) (λ b. may_refuse b) (map (λ row. row.items) cast.items) p
        ⊎ (IsStopped plan.now (map (λ row. map (λ b. content (kind_of b) (value_of b)) row.items)
        cast.items) steps.now p
        × MayReject (λ b saved. may_reject b saved) (slice_index plan.now.kinds p)
        (slice_index_or (map (λ row. row.items) cast.items) p []))) }
    // No list is kept of what a process is told, so none lacks memory.
    ensures untold { IfErr result (λ e. (p : ℕ) → e ≢ AppFault.Run (run_fault.Journal p)) }
{
    match kept_run_of(alloc, plan, steps, Order::Default, Keep::Log, cast) {
        Ok(run) => write_run(
            alloc,
            plan,
            &run.log,
            log_writer,
            cert_writer,
            report_writer,
        ),
        Err(stop) => Err(AppFault::from(stop.fault)),
    }
}

/// Runs a plan over these objects, each process in a thread of its own, and writes its log, then its certificates, then its
/// report. Each writer is flushed.
///
/// What was written before a fault stays.
pub fn live_plan<T: Threads + Wait + Sync, L: Write, C: Write, R: Write>(
    rt: &T,
    alloc: Global,
    plan: &Plan,
    cast: Cast,
    log_writer: &mut L,
    cert_writer: &mut C,
    report_writer: &mut R,
) -> Result<(), AppFault>
    // There is one list of rows, of which all three are written: those of a run of the plan that has come to rest; what
    // is sent for an object is what it offers.
    ensures lived { OnOk result (IsWritten
        (IsLogOfRun plan.now (map (λ row. map (λ b. content (kind_of b) (value_of b)) row.items) cast.items))
        plan.now
        (outputs (L.contents log_writer.old) (C.contents cert_writer.old) (R.contents report_writer.old))
        (outputs (L.contents log_writer.new) (C.contents cert_writer.new) (R.contents report_writer.new))) }
    // To the certificates that are written the checker says yes.
    ensures certified { OnOk result (IsWritten IsCertified plan.now
        (outputs (L.contents log_writer.old) (C.contents cert_writer.old) (R.contents report_writer.old))
        (outputs (L.contents log_writer.new) (C.contents cert_writer.new) (R.contents report_writer.new))) }
    // Where it stops: all of what comes earlier is written, of such a run, a front part of the text in which it stops, and
    // nothing of what comes later.
    ensures stopped { IfErr result (StopsAtFault
        (IsLogOfRun plan.now (map (λ row. map (λ b. content (kind_of b) (value_of b)) row.items) cast.items))
        plan.now
        (outputs (L.contents log_writer.old) (C.contents cert_writer.old) (R.contents report_writer.old))
        (outputs (L.contents log_writer.new) (C.contents cert_writer.new) (R.contents report_writer.new))) }
    // A fault of the run is one of these objects, or comes once they are found right.
    ensures fault { IfErr result (λ e. (fault : LiveFault) → e ≡ AppFault.Live fault →
        threads.AnswersLive plan.now (map (λ row. map (λ b. kind_of b) row.items) cast.items) fault) }
    // Where an object fails, it is either at first, that of the least process whose save may be refused; or one of the objects
    // that the process was given may reject a saved state of their kind.
    ensures object { IfErr result (λ e. (p : ℕ) → e ≡ AppFault.Live (live_fault.Object p) →
        IsLeastRefused (λ b. may_save b) (λ b. may_refuse b) (map (λ row. row.items) cast.items) p
        ⊎ MayReject (λ b saved. may_reject b saved) (slice_index plan.now.kinds p)
        (slice_index_or (map (λ row. row.items) cast.items) p [])) }
{
    let run = kept_live_run_of(rt, alloc, plan, Keep::Log, cast)?;
    write_run(
        alloc,
        plan,
        &run.log,
        log_writer,
        cert_writer,
        report_writer,
    )
}

// Writes the log of a run, then its certificates, then its report.
fn write_run<L: Write, C: Write, R: Write>(
    alloc: Global,
    plan: &Plan,
    log: &SpaceTime,
    log_writer: &mut L,
    cert_writer: &mut C,
    report_writer: &mut R,
) -> Result<(), AppFault>
    requires promised { IsPromised log.now.rows }
    requires certified { IsCertified log.now.rows }
    requires follows { FollowsPlan plan.now log.now.rows }
    ensures written { OnOk result (WritesRun plan.now log.now.rows
        (outputs (L.contents log_writer.old) (C.contents cert_writer.old) (R.contents report_writer.old))
        (outputs (L.contents log_writer.new) (C.contents cert_writer.new) (R.contents report_writer.new))) }
    ensures stopped { IfErr result (StopsAtFault (λ rows. rows ≡ log.now.rows) plan.now
        (outputs (L.contents log_writer.old) (C.contents cert_writer.old) (R.contents report_writer.old))
        (outputs (L.contents log_writer.new) (C.contents cert_writer.new) (R.contents report_writer.new))) }
    ensures writing { IfErr result IsOfWriting }
{
    no_message_is_lost();
    write_csv(alloc, log, log_writer)?;
    let certificates = certificates_of_run(alloc, log)?;
    write_certs(alloc, certificates.as_slice(), cert_writer)?;
    report_of_run(alloc, plan, log, certificates.as_slice(), report_writer)?;
    Ok(())
}
