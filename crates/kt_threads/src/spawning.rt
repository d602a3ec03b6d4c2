//! Threads whose number is known only when they run.

ghost use Rattle.std.specs.Prelude.{◌≡◌, ◌≤◌, ◌+◌, [], IfOk, All, vec_len, vec_capacity};
ghost use Rattle.std.specs.List.{AllZip};
ghost use Rattle.kt_threads.specs.declared.spawning.SpawnFault.TheVariants as spawning;

use std::alloc::{AllocError, Global};
use std::snapshot::Snapshot;
use std::sync::Wait;
use std::thread;
use std::thread::{Promise, Scope, Threads};

/// A closure, by what it may be given and what it gives.
pub(crate) trait Calls<J, X> {
    ghost may: { Self → J → Type 0 };

    ghost gives: { Self → J → X → Type 0 };

    /// Calls it.
    fn call_it(&self, job: J) -> X
        requires { may self.now job }
        ensures { gives self.now job result };
}

impl<J, X, F: Fn(J) -> X> Calls<J, X> for F {
    ghost may = { λ f j. F.pre f j };

    ghost gives = { λ f j r. F.post f j r };

    fn call_it(&self, job: J) -> X {
        self(job)
    }
}

/// What a call at a job may give.
#[derive(Drop)]
pub(crate) struct CallOf<J, F> {
    job: Snapshot<J>,
    call: Snapshot<F>,
}

impl<J, X, F: Calls<J, X>> Promise<X> for CallOf<J, F> {
    ghost kept_by = { λ p r. F.gives p.call.value p.job.value r };
}

/// Why not all threads did their jobs.
#[derive(Drop)]
pub(crate) enum SpawnFault {
    /// There was no memory; no thread was started.
    Memory,
    /// A thread could not be started.
    Spawn,
}

impl From<AllocError> for SpawnFault {
    ghost from_gives = { λ _ f. f ≡ spawning.Memory };

    fn from(_error: AllocError) -> SpawnFault {
        SpawnFault::Memory
    }
}

/// Starts a thread for each job, the last one first, and joins them all.
fn run_rest<
    's,
    E,
    R: Threads,
    J: Send + Drop + 's,
    X: Send + Drop + 's,
    F: Calls<J, X> + Sync,
    G: Fn(),
>(
    scope: &Scope<'s, E>,
    rt: &R,
    f: &'s F,
    refused: &G,
    mut jobs: Vec<J>,
    done: Vec<X>,
) -> Result<Vec<X>, SpawnFault>
    requires may { All (λ j. F.may f.now j) jobs.items }
    requires refused { G.IsAlwaysCallable refused.now }
    requires none { done.items ≡ [] }
    requires room { vec_len jobs ≤ vec_capacity done }
    ensures each { IfOk result (λ v. AllZip (λ j x. F.gives f.entry.now j x) jobs.items v.items) }
    ensures count { IfOk result (λ v. vec_len v ≡ vec_len jobs) }
    ensures room { IfOk result (λ v. vec_capacity done ≤ vec_capacity v) }
{
    let Some(job) = jobs.pop() else {
        return Ok(done);
    };
    let promise = CallOf {
        job: Snapshot::of(&job),
        call: Snapshot::of(f),
    };
    match scope.spawn_with(promise, move || f.call_it(job)) {
        Ok(handle) => {
            let rest = run_rest(scope, rt, f, refused, jobs, done);
            let x = handle.join(rt);
            let mut all = rest?;
            all.push_reserved(x);
            Ok(all)
        }
        Err(_) => {
            refused();
            Err(SpawnFault::Spawn)
        }
    }
}

/// Each job is done by a thread of its own. The room for what they give is made before the first one is started. Where one
/// can't be started, `refused` is called, and all that were started end.
pub(crate) fn run_all<
    R: Threads + Wait,
    J: Send + Drop,
    X: Send + Drop,
    F: Calls<J, X> + Sync,
    G: Fn(),
>(rt: &R, alloc: Global, jobs: Vec<J>, f: &F, refused: &G) -> Result<Vec<X>, SpawnFault>
    requires may { All (λ j. F.may f.now j) jobs.items }
    requires refused { G.IsAlwaysCallable refused.now }
    ensures { IfOk result (λ v. AllZip (λ j x. F.gives f.now j x) jobs.items v.items) }
{
    let mut done = Vec::new(alloc);
    done.reserve(jobs.len())?;
    thread::scope(
        thread::scope_env(),
        rt,
        move |scope| -> Result<Vec<X>, SpawnFault>
            requires { All (λ j. F.may f.now j) jobs.items × G.IsAlwaysCallable refused.now × (done.items ≡ []) × (vec_len jobs ≤ vec_capacity done) }
            ensures { IfOk result (λ v. AllZip (λ j x. F.gives f.entry.now j x) jobs.items v.items) }
        { run_rest(scope, rt, f, refused, jobs, done) },
    )
}
