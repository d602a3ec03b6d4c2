//! The definitions on worked logs.

ghost use Rattle.std.specs.Prelude.{◌≡◌, Some, None, [], ◌∷◌, ◌++◌};
ghost use Rattle.kt_spacetime.specs.declared.event.Event.TheVariants as row;
ghost use Rattle.kt_meaning.specs.WorkedRows.{two_processes_checkpoint, checkpoint_through_three, two_instances_at_once, second_checkpoint, rollback_through_three};
ghost use Rattle.kt_meaning.specs.Names.{numbered, named};
ghost use Rattle.kt_meaning.specs.WorkedNames.{two_processes_by_name, three_by_name, two_instances_by_name, second_by_name, rollback_by_name, busy_and_dropped, busy_and_dropped_by_name, takes_before_sent, joins_before_begun, skips_a_label, begins_for_another, takes_of_another};

/// The definitions have the values that were worked out by hand: a law, with nothing to run.
pub fn worked_names()
    // Names of logs.
    ensures two_named { named two_processes_checkpoint ≡ Some two_processes_by_name }
    ensures three_named { named checkpoint_through_three ≡ Some three_by_name }
    ensures instances_named { named two_instances_at_once ≡ Some two_instances_by_name }
    ensures second_named { named second_checkpoint ≡ Some second_by_name }
    ensures rollback_named { named rollback_through_three ≡ Some rollback_by_name }
    ensures dropped_named { named busy_and_dropped ≡ Some busy_and_dropped_by_name }

    // Numbers of rows by names.
    ensures two_numbered { numbered two_processes_by_name ≡ Some two_processes_checkpoint }
    ensures three_numbered { numbered three_by_name ≡ Some checkpoint_through_three }
    ensures instances_numbered { numbered two_instances_by_name ≡ Some two_instances_at_once }
    ensures second_numbered { numbered second_by_name ≡ Some second_checkpoint }
    ensures rollback_numbered { numbered rollback_by_name ≡ Some rollback_through_three }
    ensures dropped_numbered { numbered busy_and_dropped_by_name ≡ Some busy_and_dropped }

    // A name that no earlier row gave, or that is not the next one of its process.
    ensures unsent { numbered takes_before_sent ≡ None }
    ensures unbegun { numbered joins_before_begun ≡ None }
    ensures skipped { numbered skips_a_label ≡ None }
    ensures another { numbered begins_for_another ≡ None }

    // A message of another sender than the row says, or of a later row.
    ensures other_sender { named takes_of_another ≡ None }
    ensures later { named (row.Received 1 0 2 ∷ two_processes_checkpoint) ≡ None }
{}
