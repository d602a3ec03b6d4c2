//! What steps ask of their process's object, and whether threads did what was noted of their processes.

ghost use Rattle.std.specs.Prelude.{◌≡◌, ◌<◌, true, false, [], ◌∷◌, ◌++◌, ℕ, map, length, slice_index_or, IfOk, IfSome, IfNone, OnOk};
ghost use Rattle.kt_threads.specs.Books.{entry, errands_by};
ghost use Rattle.kt_promises.specs.Steps.{process_of_step};
ghost use Rattle.kt_threads.specs.Noted.{AreAskedBy};
ghost use Rattle.kt_threads.specs.Errands.{body_for, are_no_acts, errand_of, is_no_errand};

use crate::asked::Errand;
use crate::book::Naming;
use crate::sides::{Done, Receipt, Recorder};
use crate::state::Acted;
use kt_base::{Memory, ProcNo};
use kt_plan::{Act, Look, Step};

/// Whose step it is.
pub(crate) fn process_of(step: &Step) -> ProcNo
    ensures { result ≡ process_of_step step.now }
{
    match *step {
        Step::Do(p) => p,
        Step::Take { at, .. } => at,
    }
}

/// The same acts.
fn copied(acts: &[Act; 2]) -> [Act; 2]
    ensures { result ≡ acts.now }
{
    [acts[0], acts[1]]
}

/// Whether nothing is to be done.
fn are_nothing(acts: &[Act; 2]) -> bool
    ensures { result ≡ are_no_acts acts.now }
{
    matches!(acts[0], Act::Nothing) && matches!(acts[1], Act::Nothing)
}

/// The body that a step was given, where it asked for one.
fn offered_for(look: Look, body: i64) -> Option<i64>
    ensures { result ≡ body_for look body }
{
    match look {
        Look::NeedsBody => Some(body),
        Look::Idle | Look::NeedsSave | Look::Plain => None,
    }
}

/// What a step asks of its process's object; None where that is nothing.
pub(crate) fn errand_for(made: &Acted) -> Option<Errand>
    ensures is { IfSome result (λ errand. errand ≡ errand_of made.now) }
    ensures some { IfSome result (λ _. is_no_errand (errand_of made.now) ≡ false) }
    ensures none { IfNone result (is_no_errand (errand_of made.now) ≡ true) }
{
    let offered = offered_for(made.look, made.give.body);
    if offered.is_none() && are_nothing(&made.acts) {
        return None;
    }
    Some(Errand {
        offered,
        acts: copied(&made.acts),
    })
}

/// Notes what a step asks of its process's object: that it is noted, where it is something.
#[tactic(auto, using(crate::proofs::Noting::none_asked_next, crate::proofs::Noting::asked_next))]
pub(crate) fn note_errand<J: Naming>(
    asked: &mut Recorder<J>,
    made: &Acted,
) -> Result<Option<Receipt<J>>, Memory>
    ensures asked { OnOk result ((steps : _)
        → AreAskedBy steps asked.old → AreAskedBy (steps ++ made.now ∷ []) asked.new) }
    ensures noted { IfOk result (λ noted. IfSome noted (λ receipt.
        receipt ≡ entry (process_of_step made.now.told.step) (errand_of made.now))) }
{
    let Some(errand) = errand_for(made) else {
        return Ok(None);
    };
    match asked.note(process_of(&made.step), errand) {
        Some(receipt) => Ok(Some(receipt)),
        None => Err(Memory),
    }
}

/// Whether there are so many processes, and each did what is noted of it.
pub(crate) fn all_agree<J: Naming>(processes: usize, asked: &Recorder<J>, done: &[Done<J>]) -> bool
    ensures count { result ≡ true → length done.now ≡ processes }
    ensures same { result ≡ true → (p : ℕ) → p < processes →
        slice_index_or (map (λ d. d.errands) done.now) p [] ≡ errands_by p asked.now }
{
    if done.len() != processes {
        return false;
    }
    for p in 0..processes {
        let thread = &done[p];
        if thread.me().index() != p || !asked.agrees(thread) {
            return false;
        }
    }
    true
}
