//! The lock, and what each thread does at it.

ghost use Rattle.std.specs.Prelude.{◌≡◌, ◌≢◌, ◌↔◌, [], IfSome, IsTrue};
ghost use Rattle.kt_threads.specs.Books.{entry};
ghost use Rattle.kt_promises.specs.Steps.{process_of_step};
ghost use Rattle.kt_threads.specs.Errands.{errand_of};
ghost use Rattle.kt_threads.specs.Turns.{HasStep, IsOver};

use crate::book::Naming;
use crate::faults::LiveFault;
use crate::minutes::{MOST_IN_ONE_HOLD, Minutes, Noting, StepNotes};
use crate::sides::{Receipt, Recorder};
use crate::state::{Acted, State};
use kt_base::{Memory, ProcNo};
use kt_core::Ready;
use kt_plan::{Give, Look, Plan, Step};
use std::alloc::Global;
use std::sync::{Mutex, Wait};
use std::thread::Parker;

/// What comes next for a process.
#[derive(Drop)]
pub(crate) enum Next<J: Naming> {
    /// Its object is asked for what its next step needs.
    Ask(Step, Look),
    /// Its step was made, and what it asked of its object is noted, where that is something.
    Made(Acted, Option<Receipt<J>>),
    /// Another step comes next by now.
    Again,
    /// All is done, or a fault ended it.
    End,
}

/// Whom one calls who leaves the lock.
#[derive(Clone, Copy)]
enum Whom {
    Nobody,
    One(ProcNo),
    All,
}

/// Minutes under a lock, and for each process the news that it can make a step, or that all is over.
#[derive(Drop)]
pub(crate) struct Board<J: Naming> {
    minutes: Mutex<Minutes<J>>,
    news: Vec<Parker>,
}

impl<J: Naming> Board<J> {
    /// A board of a plan, of which nothing is done, with what is noted of its steps.
    pub(crate) fn new(
        alloc: Global,
        plan: &Plan,
        noting: Noting,
        asked: Recorder<J>,
    ) -> Result<Board<J>, Memory>
        requires { asked ≡ [] }
    {
        let notes = StepNotes::of(alloc, plan.size(), noting, asked)?;
        let news = news_of(alloc, plan.size())?;
        let state = State::new(alloc, plan.copy(alloc)?)?;
        Ok(Board {
            minutes: Mutex::new(Minutes::new(state, notes)),
            news,
        })
    }

    /// Waits until a process can make a step, or all is over. Its steps that need nothing of its object are made, up to the
    /// first one that asks something of it.
    pub(crate) fn advance<R: Wait>(&self, rt: &R, me: ProcNo) -> Next<J>
        ensures sends { (made : _) (noted : _) → result ≡ Next.Made made noted → made.look ≢ Look.NeedsBody }
        ensures saves { (made : _) (noted : _) → result ≡ Next.Made made noted → made.look ≢ Look.NeedsSave }
        ensures own { (made : _) (noted : _) → result ≡ Next.Made made noted → process_of_step made.told.step ≡ me }
        ensures noted { (made : _) (noted : _) → result ≡ Next.Made made noted → IfSome noted (λ receipt.
            receipt ≡ entry (process_of_step made.told.step) (errand_of made)) }
    {
        let Some(news) = self.news.get(me.index()) else {
            return Next::End;
        };
        for _ in rt.forever() {
            let mut minutes = self.minutes.lock(rt);
            minutes.arrive(me);
            let next = go_on(&mut minutes, me);
            let waits = is_nothing(&next) && must_wait(minutes.state(), me);
            if waits {
                minutes.sleep(me);
            } else {
                minutes.leave(me);
            }
            let whom = called(&mut minutes);
            drop(minutes);
            self.wake(whom);
            if !waits {
                return next;
            }
            news.park(rt);
        }
        Next::End
    }

    /// Makes a step for which the process's object was asked, if it still comes next and needs the same.
    pub(crate) fn make<R: Wait>(
        &self,
        rt: &R,
        me: ProcNo,
        step: Step,
        look: Look,
        give: Give,
    ) -> Next<J>
        ensures look { (made : _) (noted : _) → result ≡ Next.Made made noted → made.look ≡ look }
        ensures give { (made : _) (noted : _) → result ≡ Next.Made made noted → made.give ≡ give }
        ensures step { (made : _) (noted : _) → result ≡ Next.Made made noted → made.told.step ≡ step }
        ensures own { (made : _) (noted : _) → result ≡ Next.Made made noted → process_of_step step ≡ me }
        ensures noted { (made : _) (noted : _) → result ≡ Next.Made made noted → IfSome noted (λ receipt.
            receipt ≡ entry (process_of_step made.told.step) (errand_of made)) }
    {
        let mut minutes = self.minutes.lock(rt);
        if minutes.state().fault().is_some() {
            return Next::End;
        }
        minutes.arrive(me);
        let next = make_asked(&mut minutes, me, step, look, give);
        minutes.leave(me);
        let whom = called(&mut minutes);
        drop(minutes);
        self.wake(whom);
        next
    }

    /// No more steps are made.
    pub(crate) fn stop<R: Wait>(&self, rt: &R, fault: LiveFault) {
        let mut minutes = self.minutes.lock(rt);
        minutes.stop(fault);
        self.wake_all();
    }

    /// Wakes who was called.
    fn wake(&self, whom: Whom) {
        match whom {
            Whom::Nobody => {}
            Whom::One(p) => {
                if let Some(news) = self.news.get(p.index()) {
                    news.unpark();
                }
            }
            Whom::All => self.wake_all(),
        }
    }

    /// Wakes all.
    fn wake_all(&self) {
        for news in self.news.iter() {
            news.unpark();
        }
    }

    /// What lay under the lock.
    pub(crate) fn into_minutes(self) -> Minutes<J> {
        let Board { minutes, news: _ } = self;
        minutes.into_inner()
    }
}

/// For each of so many processes, news that did not come yet.
fn news_of(alloc: Global, processes: usize) -> Result<Vec<Parker>, Memory> {
    let mut news = Vec::with_capacity(alloc, processes)?;
    for _ in 0..processes {
        news.push(Parker::new())?;
    }
    Ok(news)
}

/// Whom one calls who leaves the lock: a process that sleeps though it can make a step, unless another thread is at the lock or
/// on its way there; and all of them where all is over.
fn called<J: Naming>(minutes: &mut Minutes<J>) -> Whom {
    if !minutes.state().is_over() {
        if let Some(p) = minutes.call() {
            return Whom::One(p);
        }
    }
    if minutes.state().is_over() {
        Whom::All
    } else {
        Whom::Nobody
    }
}

/// Whether a process waits: where it can make no step, and all is not over.
fn must_wait(state: &State, me: ProcNo) -> bool
    ensures waits { IsTrue result ↔ ((¬ IsOver state.now) × (¬ HasStep state.now.world me)) }
{
    state.next_step_of(me).is_none() && !state.is_over()
}

/// Whether nothing comes next for a process by now.
fn is_nothing<J: Naming>(next: &Next<J>) -> bool {
    matches!(next, Next::Again)
}

/// Whether this is the step that comes next, and what it needs.
fn is_for(ready: &Ready, step: Step, look: Look) -> bool
    ensures next { IsTrue result ↔ ((ready.now.step ≡ step) × (ready.now.look ≡ look)) }
{
    ready.step == step && ready.look == look
}

/// Makes the step for which a process's object was asked, if it still comes next and needs the same.
fn make_asked<J: Naming>(
    minutes: &mut Minutes<J>,
    me: ProcNo,
    step: Step,
    look: Look,
    give: Give,
) -> Next<J>
    ensures look { (made : _) (noted : _) → result ≡ Next.Made made noted → made.look ≡ look }
    ensures give { (made : _) (noted : _) → result ≡ Next.Made made noted → made.give ≡ give }
    ensures step { (made : _) (noted : _) → result ≡ Next.Made made noted → made.told.step ≡ step }
    ensures own { (made : _) (noted : _) → result ≡ Next.Made made noted → process_of_step step ≡ me }
    ensures noted { (made : _) (noted : _) → result ≡ Next.Made made noted → IfSome noted (λ receipt.
        receipt ≡ entry (process_of_step made.told.step) (errand_of made)) }
{
    let Some(ready) = minutes.ready(me) else {
        return Next::Again;
    };
    if !is_for(&ready, step, look) {
        return Next::Again;
    }
    minutes.make(&ready, give)
}

/// Makes a process's next step, if it needs nothing of its object.
fn make_next<J: Naming>(minutes: &mut Minutes<J>, me: ProcNo) -> Next<J>
    ensures sends { (made : _) (noted : _) → result ≡ Next.Made made noted → made.look ≢ Look.NeedsBody }
    ensures saves { (made : _) (noted : _) → result ≡ Next.Made made noted → made.look ≢ Look.NeedsSave }
    ensures own { (made : _) (noted : _) → result ≡ Next.Made made noted → process_of_step made.told.step ≡ me }
    ensures noted { (made : _) (noted : _) → result ≡ Next.Made made noted → IfSome noted (λ receipt.
        receipt ≡ entry (process_of_step made.told.step) (errand_of made)) }
{
    let Some(ready) = minutes.ready(me) else {
        return if minutes.state().is_over() {
            Next::End
        } else {
            Next::Again
        };
    };
    if ready.look == Look::NeedsSave || ready.look == Look::NeedsBody {
        return Next::Ask(ready.step, ready.look);
    }
    minutes.make(
        &ready,
        Give {
            able: false,
            body: 0,
        },
    )
}

/// Whether a process's next step was made, and asked nothing of its object.
fn is_done<J: Naming>(next: &Next<J>) -> bool {
    match next {
        Next::Made(_, noted) => noted.is_none(),
        Next::Ask(..) | Next::Again | Next::End => false,
    }
}

/// Makes a process's steps, up to the first one that asks something of its object, or that can't be made yet, and at most so
/// many that others don't wait long.
fn go_on<J: Naming>(minutes: &mut Minutes<J>, me: ProcNo) -> Next<J>
    ensures sends { (made : _) (noted : _) → result ≡ Next.Made made noted → made.look ≢ Look.NeedsBody }
    ensures saves { (made : _) (noted : _) → result ≡ Next.Made made noted → made.look ≢ Look.NeedsSave }
    ensures own { (made : _) (noted : _) → result ≡ Next.Made made noted → process_of_step made.told.step ≡ me }
    ensures noted { (made : _) (noted : _) → result ≡ Next.Made made noted → IfSome noted (λ receipt.
        receipt ≡ entry (process_of_step made.told.step) (errand_of made)) }
{
    for _ in 0..MOST_IN_ONE_HOLD {
        minutes.take_all_quietly(me);
        let next = make_next(minutes, me);
        if !is_done(&next) {
            return next;
        }
    }
    Next::Again
}
