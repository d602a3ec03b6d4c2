//! What one thread does.

ghost use Rattle.std.specs.Prelude.{◌≡◌, [], None, Some, IfSome, IsTrue, ◌↔◌};
ghost use Rattle.kt_threads.specs.Books.{entry};
ghost use Rattle.kt_object.specs.Bytes.{IsSavedState};
ghost use Rattle.kt_object.specs.Value.{offered};
ghost use Rattle.kt_object.specs.Holdings.{content};
ghost use Rattle.kt_promises.specs.Steps.{process_of_step};
ghost use Rattle.kt_threads.specs.Errands.{errand_of};
ghost use Rattle.kt_threads.specs.Workers.{KeepsServing};

use crate::asked::Errand;
use crate::board::{Board, Next};
use crate::book::Naming;
use crate::errands::errand_for;
use crate::faults::LiveFault;
use crate::sides::{Done, Receipt, Recorder};
use crate::state::Acted;
use kt_base::ProcNo;
use kt_object::{Held, Recoverable};
use kt_plan::{Look, Step};
use std::alloc::Global;
use std::sync::Wait;

/// A process's thread: what the process holds, what it did of what its steps asked of its object, and the fault by which it
/// ended, where not all of that was done.
#[derive(Drop)]
pub(crate) struct Worker<J: Naming> {
    pub(crate) held: Held,
    pub(crate) done: Done<J>,
    pub(crate) fault: Option<LiveFault>,
}

impl<J: Naming> Worker<J> {
    /// A process of which no step was made yet.
    pub(crate) fn new(me: ProcNo, held: Held, asked: &Recorder<J>) -> Worker<J>
        requires { asked.now ≡ [] }
        ensures held { result.held ≡ held }
        ensures done { result.done.errands ≡ [] }
        ensures going { result.fault ≡ None }
    {
        Worker {
            held,
            done: Done::new(me, asked),
            fault: None,
        }
    }

    /// Makes the next step. Whether there may be more.
    fn turn<R: Wait>(&mut self, rt: &R, alloc: Global, board: &Board<J>) -> bool
        ensures { KeepsServing self.old self.new
            (λ b. content (kind_of (b.vtable, b.value)) (value_of (b.vtable, b.value)))
            (λ b saved. may_reject (b.vtable, b.value) saved) }
    {
        match board.advance(rt, self.done.me()) {
            Next::Ask(step, look) => self.ask(rt, alloc, board, step, look),
            Next::Made(made, noted) => self.obey(rt, board, made, noted, None),
            Next::Again => true,
            Next::End => false,
        }
    }

    /// Asks the object for what a step needs, makes the step if that still comes next, and does what it told. Whether there
    /// may be more.
    fn ask<R: Wait>(
        &mut self,
        rt: &R,
        alloc: Global,
        board: &Board<J>,
        step: Step,
        look: Look,
    ) -> bool
        ensures { KeepsServing self.old self.new
            (λ b. content (kind_of (b.vtable, b.value)) (value_of (b.vtable, b.value)))
            (λ b saved. may_reject (b.vtable, b.value) saved) }
    {
        let answer = self.held.ask(alloc, look);
        match board.make(rt, self.done.me(), step, look, answer.give) {
            Next::Made(made, noted) => self.obey(rt, board, made, noted, answer.saved),
            Next::Again | Next::Ask(..) => true,
            Next::End => false,
        }
    }

    /// Does what a step that was made asks of the object. `noted` tells that this is noted, and `saved` is the object's state
    /// that was saved for the step. Whether there may be more.
    fn obey<R: Wait>(
        &mut self,
        rt: &R,
        board: &Board<J>,
        made: Acted,
        noted: Option<Receipt<J>>,
        saved: Option<Vec<u8>>,
    ) -> bool
        requires own { process_of_step made.told.step ≡ self.old.done.by }
        requires noted { IfSome noted (λ receipt.
            receipt ≡ entry (process_of_step made.told.step) (errand_of made)) }
        requires saved { IfSome saved (λ s. IfSome self.old.held.present (λ b.
            IsSavedState (kind_of (b.vtable, b.value)) (value_of (b.vtable, b.value)) s.items)) }
        requires offered { made.look ≡ Look.NeedsBody → IfSome self.old.held.present (λ b.
            made.give.body ≡ offered (kind_of (b.vtable, b.value)) (value_of (b.vtable, b.value))) }
        ensures { KeepsServing self.old self.new
            (λ b. content (kind_of (b.vtable, b.value)) (value_of (b.vtable, b.value)))
            (λ b saved. may_reject (b.vtable, b.value) saved) }
    {
        let Some(errand) = errand_for(&made) else {
            return true;
        };
        match noted {
            Some(receipt) => self.run_errand(rt, board, errand, receipt, saved),
            None => self.end(rt, board, LiveFault::Differ),
        }
    }

    /// Does what a step asked of the object, if that comes next of what is noted. Whether there may be more.
    fn run_errand<R: Wait>(
        &mut self,
        rt: &R,
        board: &Board<J>,
        errand: Errand,
        receipt: Receipt<J>,
        saved: Option<Vec<u8>>,
    ) -> bool
        requires noted { receipt ≡ entry self.old.done.by errand }
        requires saved { IfSome saved (λ s. IfSome self.old.held.present (λ b.
            IsSavedState (kind_of (b.vtable, b.value)) (value_of (b.vtable, b.value)) s.items)) }
        requires offers { IfSome errand.offered (λ body. IfSome self.old.held.present (λ b.
            body ≡ offered (kind_of (b.vtable, b.value)) (value_of (b.vtable, b.value)))) }
        ensures { KeepsServing self.old self.new
            (λ b. content (kind_of (b.vtable, b.value)) (value_of (b.vtable, b.value)))
            (λ b saved. may_reject (b.vtable, b.value) saved) }
    {
        if !self.done.take(&receipt) {
            return self.end(rt, board, LiveFault::Differ);
        }
        let me = self.done.me();
        if let Err(fault) = self.held.obey(errand.acts, saved) {
            return self.end(rt, board, LiveFault::of_act(me, fault));
        }
        true
    }

    /// Whether the thread ended by this fault.
    pub(crate) fn ended_by(&self, fault: &LiveFault) -> bool
        ensures { IsTrue result ↔ (self.now.fault ≡ Some fault.now) }
    {
        match &self.fault {
            Some(own) => own == fault,
            None => false,
        }
    }

    /// Ends the thread, and with it all others: there are no more steps.
    fn end<R: Wait>(&mut self, rt: &R, board: &Board<J>, fault: LiveFault) -> bool
        ensures { self.new ≡ record self.old { fault = Some fault } }
    {
        let kept = fault;
        self.fault = Some(kept);
        board.stop(rt, fault);
        false
    }
}

/// Makes all steps of a process.
pub(crate) fn work<J: Naming, R: Wait>(
    rt: &R,
    alloc: Global,
    board: &Board<J>,
    mut worker: Worker<J>,
) -> Worker<J>
    ensures { KeepsServing worker result
        (λ b. content (kind_of (b.vtable, b.value)) (value_of (b.vtable, b.value)))
        (λ b saved. may_reject (b.vtable, b.value) saved) }
{
    for _ in rt.forever() {
        if !worker.turn(rt, alloc, board) {
            break;
        }
    }
    worker
}
