//! Laws of runs; there is nothing to run.

ghost use Rattle.std.specs.Prelude.{◌≡◌, ◌≢◌, ◌<◌, ◌↔◌, ◌++◌, ℕ, Some, true, AllPairs, Contains, IfSome, List, map};
ghost use Rattle.kt_core.specs.Choices.{enabled_steps};
ghost use Rattle.kt_core.specs.Making.{MakesStep};
ghost use Rattle.kt_core.specs.Shown.{Mirrors};
ghost use Rattle.kt_core.specs.Worlds.{World};
ghost use Rattle.kt_object.specs.Holdings.{Content};
ghost use Rattle.kt_object.specs.Value.{offered};
ghost use Rattle.kt_plan.specs.Limits.{IsPlan, Planned};
ghost use Rattle.kt_plan.specs.declared.steps.Act.{Act};
ghost use Rattle.kt_plan.specs.declared.steps.Give.{Give};
ghost use Rattle.kt_plan.specs.declared.steps.Look.TheVariants.{NeedsBody};
ghost use Rattle.kt_plan.specs.declared.steps.Step.{Step as steps};
ghost use Rattle.kt_plan.specs.declared.steps.Told.{Told};
ghost use Rattle.kt_promises.specs.Looks.{look};
ghost use Rattle.kt_promises.specs.Offers.{GivesOffer, SendsWhatIsOffered};
ghost use Rattle.kt_promises.specs.Progress.{Progress, progress_at_start};
ghost use Rattle.kt_promises.specs.Runs.{Move, after_moves};
ghost use Rattle.kt_promises.specs.Steps.{enabled, process_of_step, progress_after};
ghost use Rattle.kt_promises.specs.Told.{told_at};
ghost use Rattle.kt_run.specs.Objects.{Belongings, rules_of, rules_by, first_of, HoldsDue, IsDone};
ghost use Rattle.kt_run.specs.OneRun.{SavesAll};
ghost use Rattle.kt_run.specs.Orders.{even_part, words_with};
ghost use Rattle.kt_run.specs.RunLaws.{RunLaws};
ghost use Rattle.kt_run.specs.Runs.{IsRun, IsToldStep};
ghost use Rattle.kt_run.specs.Telling.{numbered_rows_by, numbered_rows_told, told_here, IsToldAs, TellsItsRows};
ghost use Rattle.kt_spacetime.specs.declared.event.Event.{Event as events};

/// A plan with one list of steps has one run over the same objects, as far as no save is refused: its log is the same, and
/// so are the certificates and the report, which are made of it.
pub fn one_run()
    ensures rows { (plan : Planned) (cast : List (List Content)) (xs ys : List Move) (rows others : List events) →
        IsPlan plan → IsRun plan cast xs rows → IsRun plan cast ys others →
        map (λ (m : Move). m.step) xs ≡ map (λ (m : Move). m.step) ys →
        SavesAll plan (progress_at_start plan 0) xs → SavesAll plan (progress_at_start plan 0) ys → rows ≡ others }

    // So do two lists with one list of steps that have not come to rest, if what is sent is what is offered.
    ensures ends { (plan : Planned) (cast : List (List Content)) (xs ys : List Move) (w v : Progress) → IsPlan plan →
        after_moves plan (progress_at_start plan 0) xs ≡ Some w → after_moves plan (progress_at_start plan 0) ys ≡ Some v →
        map (λ (m : Move). m.step) xs ≡ map (λ (m : Move). m.step) ys →
        SendsWhatIsOffered (rules_by cast) plan w.now.log → SendsWhatIsOffered (rules_by cast) plan v.now.log →
        SavesAll plan (progress_at_start plan 0) xs → SavesAll plan (progress_at_start plan 0) ys → w ≡ v }
{
    laws_of_runs();
}

/// What a step of a world is to each run that leads there: what it tells, and what processes have then.
pub fn steps_of_worlds()
    // It tells what its move tells in the run; and its rows, which are its own process's, with their numbers.
    ensures told { (old new : World) (told : Told) (give : Give) (first : ℕ) (v : Progress) →
        IsToldStep old told give new → Mirrors old.agenda old.system first v →
        IsToldAs told (told_at old.agenda.plan v (record { step = told.step; give = give })) }
    ensures rows { (old new : World) (told : Told) (give : Give) (first : ℕ) (v : Progress) →
        IsToldStep old told give new → Mirrors old.agenda old.system first v →
        TellsItsRows told v.now.log (progress_after old.agenda.plan v told.step give).now.log }
    ensures numbered { (told : Told) (before after : List events) (p : ℕ) → TellsItsRows told before after →
        numbered_rows_by p after ≡ numbered_rows_by p before ++ numbered_rows_told (told_here p told) }

    // Once its acts are done, its process has what is due to it, if it had before; so has each other process. Where the
    // step asks for a body, what the object offers is given.
    ensures its { (old new : World) (step : steps) (give : Give) (acts : List Act) (first : ℕ) (v : Progress)
        (objects : List Content) (before after : Belongings) → MakesStep old step give acts new →
        Mirrors old.agenda old.system first v → IsDone acts before after →
        HoldsDue objects v.now.log (process_of_step step) before →
        HoldsDue objects (progress_after old.agenda.plan v step give).now.log (process_of_step step) after }
    ensures others { (old new : World) (step : steps) (give : Give) (acts : List Act) (first : ℕ) (v : Progress)
        (objects : List Content) (p : ℕ) (has : Belongings) → MakesStep old step give acts new →
        Mirrors old.agenda old.system first v → p ≢ process_of_step step → HoldsDue objects v.now.log p has →
        HoldsDue objects (progress_after old.agenda.plan v step give).now.log p has }
    ensures gives { (old : World) (step : steps) (give : Give) (first : ℕ) (v : Progress) (objects : List Content)
        (has : Belongings) → Mirrors old.agenda old.system first v →
        HoldsDue objects v.now.log (process_of_step step) has →
        (look old.agenda.plan v step ≡ NeedsBody → IfSome has.present (λ c. give.body ≡ offered c.kind c.value)) →
        GivesOffer (λ (_ : ℕ). rules_of (first_of objects)) old.agenda.plan v step give }
{
    laws_of_runs();
}

/// Where a seed gives the order, an enabled step is drawn as likely as another, as far as words of the generator are equally
/// likely: the list that is drawn from has each enabled step once, and of the words that count as many have one remainder as
/// another.
pub fn even_draws()
    ensures listed { (plan : Planned) (v : Progress) (step : steps) →
        (enabled plan v step ≡ true) ↔ Contains (enabled_steps plan v) step }
    ensures once { (plan : Planned) (v : Progress) → AllPairs (λ (a b : steps). a ≢ b) (enabled_steps plan v) }
    ensures words { (n one other : ℕ) → one < n → other < n →
        words_with (even_part n) n one ≡ words_with (even_part n) n other }
{}

/// The laws of runs that proofs of this crate rest on: whose proof cites one of their lemmas calls it.
pub(crate) fn laws_of_runs()
    ensures { RunLaws }
{
    kt_promises::progress_of_runs();
    kt_promises::never_stuck();
    kt_promises::logs_follow_plans();
    kt_promises::phases_of_runs();
    kt_promises::rows_of_runs();
    kt_promises::steps_of_runs();
    kt_promises::acts_of_runs();
    kt_promises::told_of_runs();
    kt_promises::runs_that_go_on();
    // what an object holds is a list of numbers, and so is an array to a clause
    kt_promises::values_of_runs::<[i64; 1]>();
}
