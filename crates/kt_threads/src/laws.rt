//! Laws that proofs of this crate rest on; there is nothing to run.

ghost use Rattle.kt_threads.specs.WorldLaws.{WorldLaws};

/// The laws of worlds and of runs: whose proof cites a lemma that rests on one of them calls it.
pub(crate) fn laws_of_worlds()
    ensures { WorldLaws }
{
    kt_core::runs_of_worlds();
    kt_run::steps_of_worlds();
    // what an object holds is a list of numbers, and so is an array to a clause
    kt_promises::values_of_runs::<[i64; 1]>();
}
