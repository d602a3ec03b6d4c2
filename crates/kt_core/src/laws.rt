//! Laws of worlds; there is nothing to run.

ghost use Rattle.std.specs.Prelude.{◌≡◌, ℕ, true};
ghost use Rattle.kt_plan.specs.Limits.{IsPlan, Planned};
ghost use Rattle.kt_plan.specs.declared.steps.Step.{Step};
ghost use Rattle.kt_promises.specs.Looks.{look};
ghost use Rattle.kt_promises.specs.Progress.{Progress};
ghost use Rattle.kt_promises.specs.Runs.{RunReaches};
ghost use Rattle.kt_promises.specs.Steps.{enabled, is_at_rest};
ghost use Rattle.kt_core.specs.Looked.{TellsOfStep};
ghost use Rattle.kt_core.specs.PlanLaws.{PlanLaws};
ghost use Rattle.kt_core.specs.Shown.{Mirrors};
ghost use Rattle.kt_core.specs.Worlds.{World, IsSameWorld, IsWorldAtRest, can_make};

/// What a world says of the runs that lead to it: which steps are enabled there, and that they have come to rest. They
/// lead as well to the same world with other spare room.
pub fn runs_of_worlds()
    ensures enabled { (w : World) (first : ℕ) (v : Progress) (step : Step) → Mirrors w.agenda w.system first v →
        can_make w step ≡ enabled w.agenda.plan v step }
    ensures rest { (w : World) (first : ℕ) (v : Progress) → Mirrors w.agenda w.system first v →
        IsWorldAtRest w → is_at_rest w.agenda.plan v ≡ true }
    ensures same { (old new : World) (first : ℕ) (v : Progress) → IsSameWorld new old →
        Mirrors old.agenda old.system first v → Mirrors new.agenda new.system first v }
{
    laws_of_runs();
}

/// The laws of runs that proofs of this crate rest on: whose proof cites one of their lemmas calls it.
pub(crate) fn laws_of_runs()
    ensures { PlanLaws }
{
    kt_promises::progress_of_runs();
    kt_promises::progress_after_steps();
    kt_promises::places_of_commands();
    kt_promises::phases_of_runs();
    kt_promises::processes_of_runs();
    kt_promises::protocol_of_runs();
    kt_promises::messages_of_runs();
    kt_promises::rows_of_runs();
    kt_promises::acts_of_runs();
    kt_promises::steps_of_runs();
    kt_promises::never_stuck();
    kt_promises::hindrances_of_steps();
    kt_promises::tallies_of_runs();
    // what an object holds is a list of numbers, and so is an array to a clause
    kt_promises::values_of_runs::<[i64; 1]>();
}

/// What a look tells of runs: what its step saves and sends, what of a `Give` counts, and that it waits for others.
pub(crate) fn laws_of_looks()
    ensures { (plan : Planned) (first : ℕ) (v : Progress) (step : Step) → IsPlan plan → RunReaches plan first v →
        TellsOfStep plan v step (look plan v step) }
{
    kt_promises::rows_of_runs();
    kt_promises::steps_of_runs();
}
