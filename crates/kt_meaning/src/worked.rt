//! The definitions on worked logs.

ghost use Rattle.std.specs.Prelude.{◌≡◌, Some, None, [], ◌∷◌, take};
ghost use Rattle.kt_meaning.specs.Past.{past};
ghost use Rattle.kt_meaning.specs.Legal.{first_broken, broken_rule};
ghost use Rattle.kt_meaning.specs.Least.{IsLeastCheckpointSet, IsLeastRollbackSet};
ghost use Rattle.kt_meaning.specs.Cuts.{IsConsistent, unsent_receives, permanent_cut, present_cut, checkpoint_cut, rollback_cut};
ghost use Rattle.kt_meaning.specs.Chains.{members};
ghost use Rattle.kt_spacetime.specs.declared.deeds.Deed.TheVariants as deed;
ghost use Rattle.kt_spacetime.specs.declared.rules.Rule.TheVariants as rule;
ghost use Rattle.kt_meaning.specs.WorkedRows.{two_processes_checkpoint, only_the_initiator, checkpoint_through_three, rollback_after_a_failure, two_instances_at_once, rollback_meets_a_message, rollback_through_three, second_checkpoint, without_the_sender, with_a_needless_member, without_the_receiver, with_a_needless_rollback, breaks_numbers, breaks_message, breaks_order, breaks_sending, breaks_receiving, breaks_joining, breaks_deciding, breaks_closing, breaks_causes};

/// The definitions have the values that were worked out by hand: a law, with nothing to run.
pub fn worked_rows()
    // Live histories at the end and in between.
    ensures sender_history { (past two_processes_checkpoint).live 0 ≡ deed.Sent 1 1 ∷ [] }
    ensures receiver_history { (past two_processes_checkpoint).live 1 ≡ deed.Received 1 0 ∷ [] }
    ensures three_histories { (past checkpoint_through_three).live 1 ≡ deed.Sent 1 2 ∷ deed.Received 3 0 ∷ [] }
    ensures rolled_back { (past rollback_after_a_failure).live 1 ≡ [] }
    ensures before_rolling_back { (past (take 6 rollback_after_a_failure)).live 1 ≡ deed.Received 1 0 ∷ [] }
    ensures undone_send { (past rollback_meets_a_message).live 0 ≡ [] }
    ensures undone_third { (past (take 9 rollback_through_three)).live 0 ≡ deed.Received 1 2 ∷ deed.Sent 5 1 ∷ [] }

    // Positions.
    ensures not_yet_permanent { (past (take 5 two_processes_checkpoint)).permanent 0 ≡ 0 }
    ensures permanent { (past two_processes_checkpoint).permanent 0 ≡ 1 }
    ensures new_position { (past two_processes_checkpoint).new 1 0 ≡ Some 1 }
    ensures no_new_position { (past only_the_initiator).new 1 1 ≡ None }
    ensures first_permanent { (past two_instances_at_once).permanent 0 ≡ 1 }
    ensures second_permanent { (past second_checkpoint).permanent 0 ≡ 2 }

    // Members.
    ensures two_members { members two_processes_checkpoint 1 ≡ 1 ∷ 0 ∷ [] }
    ensures one_member { members only_the_initiator 1 ≡ 0 ∷ [] }
    ensures three_members { members checkpoint_through_three 1 ≡ 2 ∷ 1 ∷ 0 ∷ [] }
    ensures rollback_members { members rollback_through_three 1 ≡ 2 ∷ 1 ∷ 0 ∷ [] }

    // Orphans: none with the members, one where the sender is left out.
    ensures consistent_receiver { unsent_receives (past (take 5 two_processes_checkpoint)) (checkpoint_cut (past (take 5 two_processes_checkpoint)) 1) 1 ≡ [] }
    ensures orphan { unsent_receives (past without_the_sender) (permanent_cut (past without_the_sender)) 1 ≡ deed.Received 1 0 ∷ [] }
    ensures present { unsent_receives (past without_the_sender) (present_cut (past without_the_sender)) 1 ≡ [] }
    ensures rollback_consistent { unsent_receives (past (take 9 rollback_through_three)) (rollback_cut (past (take 9 rollback_through_three)) 1) 1 ≡ [] }

    // Least sets, just before the decision: the members are least, a needless one is not, the initiator alone leaves an orphan.
    ensures least { IsLeastCheckpointSet (past (take 5 two_processes_checkpoint)) 1 }
    ensures needless { IsLeastCheckpointSet (past (take 6 with_a_needless_member)) 1 → ⊥ }
    ensures initiator_alone { IsConsistent (past (take 4 without_the_sender)) (checkpoint_cut (past (take 4 without_the_sender)) 1) → ⊥ }
    ensures least_rollback { IsLeastRollbackSet (past (take 6 rollback_after_a_failure)) 1 }
    ensures needless_rollback { IsLeastRollbackSet (past (take 8 with_a_needless_rollback)) 1 → ⊥ }
    ensures rollback_alone { IsConsistent (past (take 5 without_the_receiver)) (rollback_cut (past (take 5 without_the_receiver)) 1) → ⊥ }

    // Legal logs.
    ensures legal_two_processes { first_broken two_processes_checkpoint ≡ None }
    ensures legal_alone { first_broken only_the_initiator ≡ None }
    ensures legal_three { first_broken checkpoint_through_three ≡ None }
    ensures legal_failure { first_broken rollback_after_a_failure ≡ None }
    ensures legal_two_instances { first_broken two_instances_at_once ≡ None }
    ensures legal_met { first_broken rollback_meets_a_message ≡ None }
    ensures legal_rollback { first_broken rollback_through_three ≡ None }
    ensures legal_second { first_broken second_checkpoint ≡ None }
    ensures legal_without { first_broken without_the_sender ≡ None }
    ensures legal_needless { first_broken with_a_needless_member ≡ None }
    ensures legal_without_receiver { first_broken without_the_receiver ≡ None }
    ensures legal_needless_rollback { first_broken with_a_needless_rollback ≡ None }

    // Each rule is the first to be broken in one log.
    ensures numbers { first_broken breaks_numbers ≡ Some (1, rule.Numbers) }
    ensures message { first_broken breaks_message ≡ Some (3, rule.Message) }
    ensures order { first_broken breaks_order ≡ Some (4, rule.Order) }
    ensures sending { first_broken breaks_sending ≡ Some (3, rule.Sending) }
    ensures receiving { first_broken breaks_receiving ≡ Some (3, rule.Receiving) }
    ensures joining { first_broken breaks_joining ≡ Some (2, rule.Joining) }
    ensures deciding { first_broken breaks_deciding ≡ Some (3, rule.Deciding) }
    ensures closing { first_broken breaks_closing ≡ Some (3, rule.Closing) }
    ensures causes { first_broken breaks_causes ≡ Some (2, rule.Causes) }
{}
