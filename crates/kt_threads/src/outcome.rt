//! All processes, each in a thread of its own: what all runs in threads stand on, and those whose processes are told.

ghost use Rattle.std.specs.List.{AllZip};
ghost use Rattle.std.specs.Prelude.{◌≡◌, ◌≢◌, ◌⊎◌, [], ℕ, List, length, true, false, None, Some, All, map, option_map, slice_index, slice_index_or, OnOk, IfOk, IfErr, IsTrue, ◌↔◌};
ghost use Rattle.kt_core.specs.Worlds.{IsWorldAtRest};
ghost use Rattle.kt_threads.specs.declared.asked.Errand.{Errand};
ghost use Rattle.kt_object.specs.Holdings.{Content, content};
ghost use Rattle.kt_object.specs.Refusals.{IsLeastRefused};
ghost use Rattle.kt_meaning.specs.Follows.{FollowsPlan};
ghost use Rattle.kt_meaning.specs.Promised.{IsCertified, IsPromised};
ghost use Rattle.kt_run.specs.Faults.{IsCast};
ghost use Rattle.kt_run.specs.Objects.{first_of, has_of, HoldDue, AreLeft};
ghost use Rattle.kt_run.specs.Rejections.{MayReject, objects_held};
ghost use Rattle.kt_run.specs.Runs.{IsRun};
ghost use Rattle.kt_run.specs.Telling.{AreToldTheirRows};
ghost use Rattle.kt_threads.specs.Faults.{AnswersFirst, AnswersLive, is_of_no_thread, live_stopped_at};
ghost use Rattle.kt_threads.specs.Histories.{AreTheirs, IsWholeHistory, IsLived};
ghost use Rattle.kt_threads.specs.Moves.{move_of};
ghost use Rattle.kt_threads.specs.Noted.{AreListed, AreNoted, AreToldBy};
ghost use Rattle.kt_threads.specs.Workers.{AllServed, KeepsServing};

use crate::board::Board;
use crate::book::{Naming, Opened};
use crate::errands::all_agree;
use crate::faults::LiveFault;
use crate::laws::laws_of_worlds;
use crate::minutes::{Minutes, Noting};
use crate::sides::{Done, Recorder};
use crate::spawning::{SpawnFault, run_all};
use crate::state::{Acted, State};
use crate::worker::{Worker, work};
use kt_base::ProcNo;
use kt_object::{Cast, Held, Recoverable, begin_all};
use kt_plan::{Plan, Step, Told};
use kt_run::Outcome;
use kt_spacetime::SpaceTime;
use std::alloc::Global;
use std::marker::Brand;
use std::snapshot::Snapshot;
use std::sync::Wait;
use std::thread::Threads;

/// A run that ended at rest: its log, its steps, and what they told each process, and a list of them all, where that is noted.
#[derive(Drop)]
pub(crate) struct Lived {
    pub(crate) log: SpaceTime,
    steps: Vec<Snapshot<Acted>>,
    told: Vec<Vec<Told>>,
    pub(crate) listed: Option<Vec<Step>>,
}

/// What the processes of a plan hold at first.
fn first_objects(alloc: Global, plan: &Plan, cast: Cast) -> Result<Vec<Held>, LiveFault>
    ensures cast { OnOk result (IsCast plan.now (map (λ row. map (λ b. kind_of b) row.items) cast.items)) }
    ensures fault { IfErr result (AnswersLive plan.now (map (λ row. map (λ b. kind_of b) row.items) cast.items)) }
    ensures object { IfErr result (λ fault. (p : ℕ) → fault ≡ LiveFault.Object p →
        IsLeastRefused (λ b. may_save b) (λ b. may_refuse b) (map (λ row. row.items) cast.items) p) }
    ensures kinds { OnOk result ((p : ℕ) → slice_index_or (map (λ row. row.items) cast.items) p [] ≢ [] →
        (first_of (slice_index_or (map (λ row. map (λ b. content (kind_of b) (value_of b)) row.items) cast.items) p [])).kind
        ≡ slice_index plan.now.kinds p) }
    ensures given { IfOk result (λ objects. objects_held objects.items ≡ map (λ row. row.items) cast.items) }
    ensures due { IfOk result (λ objects. HoldDue
        (map (λ row. map (λ b. content (kind_of b) (value_of b)) row.items) cast.items) []
        (has_of objects.items (λ b. content (kind_of b) (value_of b)))) }
    ensures spares { IfOk result (λ objects.
        AllZip (λ row h. AreLeft row.items h.spares.items) cast.items objects.items) }
{
    let _size = plan.size();
    match begin_all(alloc, plan, cast) {
        Ok(objects) => Ok(objects),
        Err(fault) => Err(LiveFault::from(fault)),
    }
}

/// A worker for each process.
fn workers_of<J: Naming>(
    alloc: Global,
    objects: Vec<Held>,
    asked: &Recorder<J>,
) -> Result<Vec<Worker<J>>, LiveFault>
    requires { asked.now ≡ [] }
    ensures held { IfOk result (λ workers. map (λ worker. worker.held) workers.items ≡ objects.items) }
    ensures fresh { IfOk result (λ workers. All (λ worker. worker.done.errands ≡ []) workers.items) }
    ensures going { IfOk result (λ workers. All (λ worker. worker.fault ≡ None) workers.items) }
    ensures fault { IfErr result (λ fault. is_of_no_thread fault ≡ false) }
    ensures unnamed { IfErr result (λ fault. live_stopped_at fault ≡ None) }
{
    let mut workers = Vec::with_capacity(alloc, objects.len())?;
    let mut number = 0u8;
    for held in objects {
        let Some(me) = ProcNo::new(number) else {
            return Err(LiveFault::Differ);
        };
        if workers.push(Worker::new(me, held, asked)).is_err() {
            return Err(LiveFault::Memory);
        }
        number = number.saturating_add(1);
    }
    Ok(workers)
}

/// Each process's thread makes its steps.
fn work_all<J: Naming + Send + Sync, R: Threads + Wait + Sync>(
    rt: &R,
    alloc: Global,
    board: &Board<J>,
    workers: Vec<Worker<J>>,
) -> Result<Vec<Worker<J>>, SpawnFault>
    ensures { IfOk result (λ worked. AllZip (λ before after. KeepsServing before after
        (λ b. content (kind_of (b.vtable, b.value)) (value_of (b.vtable, b.value)))
        (λ b saved. may_reject (b.vtable, b.value) saved)) workers.items worked.items) }
{
    run_all(
        rt,
        alloc,
        workers,
        &|worker: Worker<J>| -> Worker<J>
            ensures { KeepsServing worker result
                (λ b. content (kind_of (b.vtable, b.value)) (value_of (b.vtable, b.value)))
                (λ b saved. may_reject (b.vtable, b.value) saved) }
        { work(rt, alloc, board, worker) },
        &|| board.stop(rt, LiveFault::Spawn),
    )
}

/// The run of the plan that ended at rest, and what its steps asked; or the fault that ended it.
fn finish<J: Naming>(
    minutes: Minutes<J>,
    plan: &Plan,
    workers: &[Worker<J>],
) -> Result<(Lived, Recorder<J>), LiveFault>
    ensures run { IfOk result (λ r.
        IsWholeHistory plan.entry.now (map (λ step. step.value) r.0.steps.items) r.0.log.rows) }
    ensures noted { IfOk result (λ r. AreNoted (map (λ step. step.value) r.0.steps.items)
        r.1 (map (λ list. list.items) r.0.told.items)
        (option_map (λ list. list.items) r.0.listed)) }
    ensures promised { IfOk result (λ r. IsPromised r.0.log.rows) }
    ensures follows { IfOk result (λ r. FollowsPlan plan.entry.now r.0.log.rows) }
    ensures fault { IfErr result (λ fault. is_of_no_thread fault ≡ false) }
    ensures named { IfErr result (λ fault. (p : ℕ) → live_stopped_at fault ≡ Some p →
        slice_index_or (map (λ worker. worker.fault) workers.entry.now) p None ≡ Some fault) }
{
    match ended(minutes.state(), plan, workers) {
        Ok(()) => Ok(run_of(minutes)),
        Err(fault) => Err(fault),
    }
}

/// A run that ended at rest, and what its steps asked.
fn run_of<J: Naming>(minutes: Minutes<J>) -> (Lived, Recorder<J>)
    requires going { minutes.fault ≡ None }
    requires rest { IsWorldAtRest minutes.world }
    ensures log { result.0.log ≡ minutes.world.system.rows }
    ensures run { IsWholeHistory minutes.world.agenda.plan
        (map (λ step. step.value) result.0.steps.items) result.0.log.rows }
    ensures noted { AreNoted (map (λ step. step.value) result.0.steps.items)
        result.1 (map (λ list. list.items) result.0.told.items)
        (option_map (λ list. list.items) result.0.listed) }
    ensures promised { IsPromised result.0.log.rows }
{
    let (state, asked, told, listed) = minutes.into_parts();
    let (log, steps) = state.into_parts();
    (
        Lived {
            log,
            steps,
            told,
            listed,
        },
        asked,
    )
}

/// The fault that is answered where this one was the first. Of the faults that name a process only one by which its thread
/// ended is answered; and some come from no thread.
fn fault_of<J: Naming>(first: LiveFault, workers: &[Worker<J>]) -> LiveFault
    ensures fault { AnswersFirst (map (λ worker. worker.fault) workers.now) first result }
    ensures ours { is_of_no_thread result ≡ false }
{
    if first.is_of_no_thread() {
        return LiveFault::Differ;
    }
    match first.process() {
        Some(p) if !has_ended(workers, p, &first) => LiveFault::Differ,
        _ => first,
    }
}

/// Whether the thread of a process ended by this fault.
fn has_ended<J: Naming>(workers: &[Worker<J>], p: ProcNo, fault: &LiveFault) -> bool
    ensures { IsTrue result ↔ (slice_index_or (map (λ worker. worker.fault) workers.now) p None ≡ Some fault.now) }
{
    match workers.get(p.index()) {
        Some(worker) => worker.ended_by(fault),
        None => false,
    }
}

/// That a run of the plan ended at rest, or the fault that ended it.
fn ended<J: Naming>(state: &State, plan: &Plan, workers: &[Worker<J>]) -> Result<(), LiveFault>
    ensures plan { OnOk result (state.now.world.agenda.plan ≡ plan.now) }
    ensures rest { OnOk result (IsWorldAtRest state.now.world) }
    ensures follows { OnOk result (FollowsPlan plan.now state.now.world.system.rows.rows) }
    ensures going { OnOk result (state.now.fault ≡ None) }
    ensures fault { IfErr result (λ fault. is_of_no_thread fault ≡ false) }
    ensures named { IfErr result (λ fault. (p : ℕ) → live_stopped_at fault ≡ Some p →
        slice_index_or (map (λ worker. worker.fault) workers.now) p None ≡ Some fault) }
{
    if let Some(fault) = state.fault() {
        return Err(fault_of(fault, workers));
    }
    if !state.is_of(plan) || !state.at_rest() {
        return Err(LiveFault::Differ);
    }
    Ok(())
}

/// What each process did, and what it holds, if all that was asked was done.
fn leave<J: Naming>(
    alloc: Global,
    workers: Vec<Worker<J>>,
) -> Result<(Vec<Done<J>>, Vec<Held>), LiveFault>
    ensures whole { OnOk result (All (λ worker. worker.fault ≡ None) workers.items) }
    ensures done { IfOk result (λ parts. parts.0.items ≡ map (λ worker. worker.done) workers.items) }
    ensures held { IfOk result (λ parts. parts.1.items ≡ map (λ worker. worker.held) workers.items) }
    ensures fault { IfErr result (λ fault. is_of_no_thread fault ≡ false) }
    ensures unnamed { IfErr result (λ fault. live_stopped_at fault ≡ None) }
{
    let mut all_done = Vec::with_capacity(alloc, workers.len())?;
    let mut objects = Vec::with_capacity(alloc, workers.len())?;
    for worker in workers {
        let Worker { held, done, fault } = worker;
        if fault.is_some() {
            return Err(LiveFault::Differ);
        }
        if all_done.push(done).is_err() || objects.push(held).is_err() {
            return Err(LiveFault::Memory);
        }
    }
    Ok((all_done, objects))
}

/// Runs a plan over what its processes hold at first, each in a thread of its own: the run, and what each process holds.
fn work_out<J: Naming + Send + Sync, R: Threads + Wait + Sync>(
    rt: &R,
    alloc: Global,
    plan: &Plan,
    objects: Vec<Held>,
    noting: Noting,
    opened: Opened,
) -> Result<(Lived, Vec<Held>), LiveFault>
    requires { opened.book ≡ J.book }
    ensures history { IfOk result (λ r.
        IsWholeHistory plan.now (map (λ step. step.value) r.0.steps.items) r.0.log.rows) }
    ensures told { IfOk result (λ r. AreToldBy
        (map (λ step. step.value) r.0.steps.items) (map (λ list. list.items) r.0.told.items)) }
    ensures listed { IfOk result (λ r. AreListed
        (map (λ step. step.value) r.0.steps.items) (option_map (λ list. list.items) r.0.listed)) }
    ensures served { IfOk result (λ r. (lists : List (List Errand))
        × AreTheirs (length plan.now.names) (map (λ step. step.value) r.0.steps.items) lists × AllServed
        (has_of objects.items (λ b. content (kind_of (b.vtable, b.value)) (value_of (b.vtable, b.value)))) lists
        (has_of r.1.items (λ b. content (kind_of (b.vtable, b.value)) (value_of (b.vtable, b.value))))) }
    ensures spares { IfOk result (λ r.
        AllZip (λ g h. AreLeft g.spares.items h.spares.items) objects.items r.1.items) }
    ensures promised { IfOk result (λ r. IsPromised r.0.log.rows) }
    ensures follows { IfOk result (λ r. FollowsPlan plan.now r.0.log.rows) }
    ensures fault { IfErr result (λ fault. is_of_no_thread fault ≡ false) }
    ensures object { (cast : List (List Content)) → HoldDue cast [] (has_of objects.items
        (λ b. content (kind_of (b.vtable, b.value)) (value_of (b.vtable, b.value)))) →
        IfErr result (λ fault. (p : ℕ) → fault ≡ LiveFault.Object p →
        MayReject (λ b saved. may_reject (b.vtable, b.value) saved) (first_of (slice_index_or cast p [])).kind
        (slice_index_or (objects_held objects.items) p [])) }
{
    let asked = Recorder::<J>::new(opened);
    let workers = workers_of(alloc, objects, &asked)?;
    let board = Board::new(alloc, plan, noting, asked)?;
    let workers = work_all(rt, alloc, &board, workers)?;
    let (lived, asked) = finish(board.into_minutes(), plan, &workers)?;
    let (done, objects) = leave(alloc, workers)?;
    if !all_agree(plan.size(), &asked, &done) {
        return Err(LiveFault::Differ);
    }
    Ok((lived, objects))
}

/// Runs a plan over these objects, each process in a thread of its own, until all is at rest: the run, and what each process
/// holds.
pub(crate) fn run_cast<R: Threads + Wait + Sync>(
    rt: &R,
    alloc: Global,
    plan: &Plan,
    noting: Noting,
    cast: Cast,
) -> Result<(Lived, Vec<Held>), LiveFault>
    ensures history { IfOk result (λ r.
        IsWholeHistory plan.now (map (λ step. step.value) r.0.steps.items) r.0.log.rows) }
    ensures run { IfOk result (λ r. IsRun plan.now
        (map (λ row. map (λ b. content (kind_of b) (value_of b)) row.items) cast.items)
        (map move_of (map (λ step. step.value) r.0.steps.items)) r.0.log.rows) }
    ensures told { IfOk result (λ r. AreToldBy
        (map (λ step. step.value) r.0.steps.items) (map (λ list. list.items) r.0.told.items)) }
    ensures listed { IfOk result (λ r. AreListed
        (map (λ step. step.value) r.0.steps.items) (option_map (λ list. list.items) r.0.listed)) }
    ensures due { IfOk result (λ r. HoldDue
        (map (λ row. map (λ b. content (kind_of b) (value_of b)) row.items) cast.items) r.0.log.rows
        (has_of r.1.items (λ b. content (kind_of b) (value_of b)))) }
    ensures settled { IfOk result (λ r. All (λ h. h.depot.tentative ≡ None) r.1.items) }
    ensures spares { IfOk result (λ r.
        AllZip (λ row h. AreLeft row.items h.spares.items) cast.items r.1.items) }
    ensures promised { IfOk result (λ r. IsPromised r.0.log.rows) }
    ensures certified { IfOk result (λ r. IsCertified r.0.log.rows) }
    ensures follows { IfOk result (λ r. FollowsPlan plan.now r.0.log.rows) }
    ensures cast { OnOk result
        (IsCast plan.now (map (λ row. map (λ b. kind_of b) row.items) cast.items)) }
    ensures fault { IfErr result
        (AnswersLive plan.now (map (λ row. map (λ b. kind_of b) row.items) cast.items)) }
    ensures object { IfErr result (λ fault. (p : ℕ) → fault ≡ LiveFault.Object p →
        IsLeastRefused (λ b. may_save b) (λ b. may_refuse b) (map (λ row. row.items) cast.items) p
        ⊎ MayReject (λ b saved. may_reject b saved) (slice_index plan.now.kinds p)
        (slice_index_or (map (λ row. row.items) cast.items) p [])) }
{
    kt_meaning::certificates_of_promised_logs();
    laws_of_worlds();
    let objects = first_objects(alloc, plan, cast)?;
    let run = work_out::<Brand, R>(rt, alloc, plan, objects, noting, Opened::new())?;
    Ok(run)
}

/// Runs a plan over these objects, each process in a thread of its own, until all is at rest.
///
/// `CastSize` and `CastKind` come before anything is saved and any memory is taken. After a fault the objects are dropped.
pub fn live<R: Threads + Wait + Sync>(
    rt: &R,
    alloc: Global,
    plan: &Plan,
    cast: Cast,
) -> Result<Outcome, LiveFault>
    // The steps that were made, in one order, are a run of the plan that ends at rest, and each thread was told what its own
    // steps tell: step for step the rows and the acts that the run tells its process. What is sent for an object is what it
    // offers.
    ensures lived { IfOk result (λ o. IsLived plan.now
        (map (λ row. map (λ b. content (kind_of b) (value_of b)) row.items) cast.items)
        o.log.rows (map (λ list. list.items) o.told.items)) }

    // Each process holds what is due to it after the log, of the objects that it was given, and nothing tentative.
    ensures due { IfOk result (λ o. HoldDue
        (map (λ row. map (λ b. content (kind_of b) (value_of b)) row.items) cast.items) o.log.rows
        (has_of o.objects.items (λ b. content (kind_of b) (value_of b)))) }
    ensures settled { IfOk result (λ o. All (λ h. h.depot.tentative ≡ None) o.objects.items) }

    // The spares of each process are the objects that it was given but for the first ones.
    ensures spares { IfOk result (λ o.
        AllZip (λ row h. AreLeft row.items h.spares.items) cast.items o.objects.items) }

    // Each thread was told its own rows of the log, each once and in order, with their numbers.
    ensures told { IfOk result (λ o. AreToldTheirRows o.log.rows (map (λ list. list.items) o.told.items)) }

    // Of the log all is so that is promised of every run's.
    ensures promised { IfOk result (λ o. IsPromised o.log.rows) }
    ensures certified { IfOk result (λ o. IsCertified o.log.rows) }

    // The log follows the plan, told by its rows alone.
    ensures follows { IfOk result (λ o. FollowsPlan plan.now o.log.rows) }

    // The objects are those that the plan asks for; else a fault says what is wrong with them.
    ensures cast { OnOk result (IsCast plan.now (map (λ row. map (λ b. kind_of b) row.items) cast.items)) }
    ensures fault { IfErr result (AnswersLive plan.now (map (λ row. map (λ b. kind_of b) row.items) cast.items)) }

    // Where an object fails, it is either at first, that of the least process whose save may be refused; or one of the objects
    // that the process was given may reject a saved state of their kind.
    ensures object { IfErr result (λ fault. (p : ℕ) → fault ≡ LiveFault.Object p →
        IsLeastRefused (λ b. may_save b) (λ b. may_refuse b) (map (λ row. row.items) cast.items) p
        ⊎ MayReject (λ b saved. may_reject b saved) (slice_index plan.now.kinds p)
        (slice_index_or (map (λ row. row.items) cast.items) p [])) }
{
    laws_of_worlds();
    let (lived, objects) = run_cast(rt, alloc, plan, Noting::Told, cast)?;
    if lived.told.len() != plan.size() {
        return Err(LiveFault::Differ);
    }
    Ok(Outcome {
        log: lived.log,
        told: lived.told,
        objects,
    })
}
