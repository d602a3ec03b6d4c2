//! The definitions on worked runs.

ghost use Rattle.std.specs.Prelude.{◌≡◌, ◌*◌, pos, true, Some, [], ◌∷◌, map};
ghost use Rattle.kt_protocol.specs.States.{Send, Take};
ghost use Rattle.kt_protocol.specs.WorkedRuns as worked;
ghost use Rattle.kt_meaning.specs.Names.{named, numbered, row_of};
ghost use Rattle.kt_meaning.specs.WorkedNames.{two_processes_by_name};
ghost use Rattle.kt_node.specs.Nets.{net_run, opening_from, opening_net};
ghost use Rattle.kt_node.specs.Clocks.{clocked_row, clocked_run, opening_clocked};
ghost use Rattle.kt_node.specs.Erasing.{rows_from, rows_from_each};
ghost use Rattle.kt_node.specs.Numbered.{Own, Comes, numbered_run, opening_numbered};
ghost use Rattle.kt_spacetime.specs.declared.named_rows.NamedEvent.TheVariants.{Sent, Received};

/// Nets tell the rows that the logs of worked runs have by names: a law, with nothing to run.
pub fn worked_nets()
    ensures two { (net_run (opening_net 2 0) worked.checkpoint_of_two_steps).rows ≡ two_processes_by_name }
    ensures aborts { named worked.two_aborts ≡ Some ((net_run (opening_net 3 0) worked.two_aborts_steps).rows) }
    ensures busy { named worked.busy_process_refuses ≡ Some ((net_run (opening_net 3 0) worked.busy_process_refuses_steps).rows) }
    ensures abort_each_other { named worked.two_instances_abort_each_other ≡ Some ((net_run (opening_net 3 0) worked.two_instances_abort_each_other_steps).rows) }
    ensures rollback { named worked.rollback_after_a_failure ≡ Some ((net_run (opening_net 2 0) worked.rollback_after_a_failure_steps).rows) }
    ensures fails_inside { named worked.failure_inside_a_checkpoint ≡ Some ((net_run (opening_net 2 0) worked.failure_inside_a_checkpoint_steps).rows) }
    ensures received_again { named worked.messages_received_again ≡ Some ((net_run (opening_net 2 0) worked.messages_received_again_steps).rows) }
    ensures dropped { named worked.dropped_message ≡ Some ((net_run (opening_net 3 0) worked.dropped_message_steps).rows) }
    ensures busy_command { named worked.command_refused_as_busy ≡ Some ((net_run (opening_net 3 0) worked.command_refused_as_busy_steps).rows) }
    ensures down { named worked.commands_refused_as_down ≡ Some ((net_run (opening_net 2 0) worked.commands_refused_as_down_steps).rows) }
    ensures not_saved { named worked.object_that_is_not_saved ≡ Some ((net_run (opening_net 2 0) worked.object_that_is_not_saved_steps).rows) }
    ensures waits { named worked.send_waits_in_a_checkpoint ≡ Some ((net_run (opening_net 3 0) worked.send_waits_in_a_checkpoint_steps).rows) }
    ensures kept_before_held { named worked.kept_before_held ≡ Some ((net_run (opening_net 3 0) worked.kept_before_held_steps).rows) }
    ensures after_an_abort { named worked.label_after_an_abort ≡ Some ((net_run (opening_net 3 0) worked.label_after_an_abort_steps).rows) }

    // So they do by numbers, where each node's labels begin at 101.
    ensures undone { numbered (rows_from 100 (net_run (opening_net 3 100) worked.held_message_that_is_undone_steps).rows) ≡ Some worked.held_message_that_is_undone }

    // So they do where those of process 0 begin at 1, of process 1 at 101, of process 2 at 201.
    ensures undone_from_each { numbered (rows_from_each (λ p. 100 * p)
        (net_run (opening_from 3 (λ p. 100 * p)) worked.held_message_that_is_undone_steps).rows)
        ≡ Some worked.held_message_that_is_undone }
    ensures own_labels { (net_run (opening_from 2 (λ p. 100 * p))
        (Send 0 1 (pos 7) ∷ Send 1 0 (pos 8) ∷ Take 1 0 true ∷ Take 0 1 true ∷ [])).rows
        ≡ row_of 0 (Sent 1 (pos 7) 1) ∷ row_of 1 (Sent 0 (pos 8) 101)
        ∷ row_of 1 (Received 0 1) ∷ row_of 0 (Received 1 101) ∷ [] }

    // A step without a row takes time too: 0 takes an ask at 4, and tells nothing.
    ensures clocks { map (λ r. r.clock) (clocked_run (opening_clocked 2 0) worked.two_checkpoints_at_once_steps).rows
        ≡ 1 ∷ 2 ∷ 3 ∷ 3 ∷ 2 ∷ 2 ∷ 2 ∷ 2 ∷ 5 ∷ 5 ∷ [] }

    // The second of two messages overtakes the first one, which comes twice, and comes again.
    ensures overtaken { (numbered_run (opening_numbered 2 0) (Own (Send 0 1 (pos 7)) ∷ Own (Send 0 1 (pos 8))
        ∷ Comes 1 0 true 2 ∷ Comes 1 0 true 1 ∷ Comes 1 0 true 1 ∷ Comes 1 0 true 2 ∷ [])).rows
        ≡ clocked_row 0 1 (Sent 1 (pos 7) 1) ∷ clocked_row 0 2 (Sent 1 (pos 8) 2)
        ∷ clocked_row 1 2 (Received 0 1) ∷ clocked_row 1 3 (Received 0 2) ∷ [] }
{}
