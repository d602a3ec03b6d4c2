//! Laws of the machine: each function has nothing to run, and its contract is the law.

ghost use Rattle.std.specs.Prelude.{◌≡◌, ◌≤◌, ◌<◌, ◌*◌, ◌-◌, nat_lt, ℕ, List, Bool, true, false, slice_get, Some, [], ◌++◌, length, take};
ghost use Rattle.kt_base.specs.declared.words.Cause.{Cause};
ghost use Rattle.kt_base.specs.declared.words.Verb.{Verb};
ghost use Rattle.kt_spacetime.specs.declared.event.Event.TheVariants.{Unwilling, Refused};
ghost use Rattle.kt_meaning.specs.Past.{past, initiator_of};
ghost use Rattle.kt_meaning.specs.Legal.{IsLegal};
ghost use Rattle.kt_meaning.specs.Cuts.{IsConsistent, permanent_cut, present_cut};
ghost use Rattle.kt_meaning.specs.Throughout.{HasConsistentDecisions};
ghost use Rattle.kt_protocol.specs.Parcels.{messages};
ghost use Rattle.kt_protocol.specs.Summary.{summary, is_undone};
ghost use Rattle.kt_protocol.specs.States.{ProtocolStep, Take, opening, can_take};
ghost use Rattle.kt_protocol.specs.Steps.{run, after_step};
ghost use Rattle.kt_protocol.specs.AtRest.{IsAtRest};
ghost use Rattle.kt_protocol.specs.Refusals.{IsUnwillingRow, IsRefusedRow};
ghost use Rattle.kt_protocol.specs.InTransit.{IsInTransit, IsKeptOfPast, EachStandsOnce, NumbersRiseAbove, received_of, in_transit, HasNoMessage};
ghost use Rattle.kt_protocol.specs.SummaryMeaning.{AgreesWith, OrdersMembers, PlacesMessages};
ghost use Rattle.kt_meaning.specs.Decided.{HasLinkedDecisions, HasLeastDecisions, AbortsWhereUnwilling, AbortsChangeNothing, JustifiesUnwilling};
ghost use Rattle.kt_protocol.specs.WorkedRuns.{checkpoint_of_two_steps, checkpoint_of_two, checkpoint_before_the_message_comes_steps, checkpoint_before_the_message_comes, checkpoint_round_a_ring_steps, checkpoint_round_a_ring, second_checkpoint_of_one_steps, second_checkpoint_of_one, second_checkpoint_of_two_steps, second_checkpoint_of_two, two_checkpoints_at_once_steps, two_checkpoints_at_once, process_that_is_down_refuses_steps, process_that_is_down_refuses, two_aborts_steps, two_aborts, busy_process_refuses_steps, busy_process_refuses, two_instances_abort_each_other_steps, two_instances_abort_each_other, rollback_after_a_failure_steps, rollback_after_a_failure, failure_inside_a_checkpoint_steps, failure_inside_a_checkpoint, rollback_of_the_receiver_alone_steps, rollback_of_the_receiver_alone, messages_received_again_steps, messages_received_again, rollback_meets_a_message_in_transit_steps, rollback_meets_a_message_in_transit, rollback_through_three_steps, rollback_through_three, undone_message_is_not_received_again_steps, undone_message_is_not_received_again, dropped_message_steps, dropped_message, command_refused_as_busy_steps, command_refused_as_busy, commands_refused_as_down_steps, commands_refused_as_down, object_that_is_not_saved_steps, object_that_is_not_saved, send_waits_in_a_checkpoint_steps, send_waits_in_a_checkpoint, held_message_that_is_undone_steps, held_message_that_is_undone, kept_before_held_steps, kept_before_held, label_after_an_abort_steps, label_after_an_abort};

/// For every list of steps: what the log of the run is.
pub fn logs_of_runs()
    // Each row keeps every rule.
    ensures legal { (n : ℕ) (steps : List ProtocolStep) → IsLegal (run (opening n) steps).log }

    // At every row the permanent cut and the present cut have no orphan.
    ensures consistent_decisions { (n : ℕ) (steps : List ProtocolStep) → HasConsistentDecisions (run (opening n) steps).log }
    ensures permanent_cuts { (n : ℕ) (steps : List ProtocolStep) (t : ℕ) →
        IsConsistent (past (take t (run (opening n) steps).log)) (permanent_cut (past (take t (run (opening n) steps).log))) }
    ensures present_cuts { (n : ℕ) (steps : List ProtocolStep) (t : ℕ) →
        IsConsistent (past (take t (run (opening n) steps).log)) (present_cut (past (take t (run (opening n) steps).log))) }

    // The members of each decided instance have linking messages with earlier ones, and those of each committed one are
    // the least set.
    ensures linked_decisions { (n : ℕ) (steps : List ProtocolStep) → HasLinkedDecisions (run (opening n) steps).log }
    ensures least_decisions { (n : ℕ) (steps : List ProtocolStep) → HasLeastDecisions (run (opening n) steps).log }

    // A decided instance is aborted exactly where a process was unwilling to join, and that was asked by a message.
    ensures aborts { (n : ℕ) (steps : List ProtocolStep) → AbortsWhereUnwilling (run (opening n) steps).log }
    ensures justified { (n : ℕ) (steps : List ProtocolStep) → JustifiesUnwilling (run (opening n) steps).log }

    // The decision of an aborted instance changes no live history and no permanent position.
    ensures unchanged { (n : ℕ) (steps : List ProtocolStep) → AbortsChangeNothing (run (opening n) steps).log }
{}

/// For every list of steps: the numbers that the state carries are those of what the log means.
pub fn numbers_of_runs()
    ensures known { (n : ℕ) (steps : List ProtocolStep) → (run (opening n) steps).so_far ≡ summary (run (opening n) steps).log }
    ensures agrees { (n : ℕ) (steps : List ProtocolStep) → AgreesWith (run (opening n) steps).so_far (past (run (opening n) steps).log) }
    ensures ordered { (n : ℕ) (steps : List ProtocolStep) → OrdersMembers (run (opening n) steps).so_far (run (opening n) steps).log }
    ensures placed { (n : ℕ) (steps : List ProtocolStep) → PlacesMessages (run (opening n) steps).so_far (past (run (opening n) steps).log) }

    // Who is up, and the instances begun, are those of the log.
    ensures up { (n : ℕ) (steps : List ProtocolStep) (p : ℕ) → (run (opening n) steps).up p ≡ (past (run (opening n) steps).log).up p }
    ensures instances { (n : ℕ) (steps : List ProtocolStep) → (run (opening n) steps).instances ≡ length (past (run (opening n) steps).log).begun }
    ensures initiators { (n : ℕ) (steps : List ProtocolStep) (k : ℕ) → 0 < k → k ≤ (run (opening n) steps).instances →
        initiator_of (past (run (opening n) steps).log) k ≡ Some ((run (opening n) steps).initiator k) }

    // Each live message that was neither received nor dropped is in transit once.
    ensures in_transit { (n : ℕ) (steps : List ProtocolStep) →
        IsInTransit (past (run (opening n) steps).log) (run (opening n) steps).channel (run (opening n) steps).held }

    // What is kept for a process is what it received past its permanent position.
    ensures kept { (n : ℕ) (steps : List ProtocolStep) → IsKeptOfPast (past (run (opening n) steps).log) (run (opening n) steps).kept }

    // Each live message that was not dropped stands once: in its receiver's live history, held, or in its channel.
    ensures stands_once { (n : ℕ) (steps : List ProtocolStep) → EachStandsOnce (past (run (opening n) steps).log) (run (opening n) steps) }
{}

/// After every list of steps: where nobody has anything to take, every begun instance is decided, nobody is in an
/// instance, and no channel and no held list has a parcel. A `Take` of nothing leaves the state.
pub fn never_stuck()
    ensures at_rest { (n : ℕ) (steps : List ProtocolStep) →
        ((p : ℕ) → (q : ℕ) → p < n → q < n → can_take (run (opening n) steps) p q ≡ false) → IsAtRest (run (opening n) steps) }
    ensures idle { (n : ℕ) (steps : List ProtocolStep) (p : ℕ) (q : ℕ) (able : Bool) →
        can_take (run (opening n) steps) p q ≡ false → after_step (run (opening n) steps) (Take p q able) ≡ run (opening n) steps }
{}

/// After every list of steps: the asks, replies and decisions of an instance that were put into channels are few.
pub fn counted()
    ensures asks { (n : ℕ) (steps : List ProtocolStep) (k : ℕ) → (run (opening n) steps).asks k ≤ n * (n - 1) }
    ensures replies { (n : ℕ) (steps : List ProtocolStep) (k : ℕ) → (run (opening n) steps).replies k ≤ (run (opening n) steps).asks k }
    ensures decisions { (n : ℕ) (steps : List ProtocolStep) (k : ℕ) → (run (opening n) steps).decisions k ≤ (run (opening n) steps).asks k }
{}

/// Each `unwilling` row is made by a step that takes an ask of a member, and each `refused` row by a command of its
/// process; before that step the row's cause holds.
pub fn refusals()
    ensures unwilling { (n : ℕ) (steps : List ProtocolStep) (t : ℕ) (p : ℕ) (k : ℕ) (cause : Cause) →
        slice_get (run (opening n) steps).log t ≡ Some (Unwilling p k cause) → IsUnwillingRow (opening n) steps t p k cause }
    ensures refused { (n : ℕ) (steps : List ProtocolStep) (t : ℕ) (p : ℕ) (verb : Verb) (cause : Cause) →
        slice_get (run (opening n) steps).log t ≡ Some (Refused p verb cause) → IsRefusedRow (opening n) steps t p verb cause }
{}

/// Messages of `q` to `p` are received in the order of their numbers: those in `p`'s live history, then those under
/// way; those that `p` received since it last rolled back; and those that it received or dropped since, then those
/// in transit. From the decision of its rollback until it closes, `p` has received none since; and from when it notes `q`
/// until it closes, no message of `q` is in front of it.
pub fn in_order()
    ensures live { (n : ℕ) (steps : List ProtocolStep) (q : ℕ) (p : ℕ) →
        NumbersRiseAbove 0 (received_of q ((run (opening n) steps).so_far.live p) ++ in_transit (run (opening n) steps) q p) }
    ensures received { (n : ℕ) (steps : List ProtocolStep) (q : ℕ) (p : ℕ) → NumbersRiseAbove 0 (messages ((run (opening n) steps).received_since q p)) }
    ensures arrived { (n : ℕ) (steps : List ProtocolStep) (q : ℕ) (p : ℕ) →
        NumbersRiseAbove 0 (messages ((run (opening n) steps).arrived_since q p) ++ in_transit (run (opening n) steps) q p) }
    ensures fresh { (n : ℕ) (steps : List ProtocolStep) (k : ℕ) (q : ℕ) (p : ℕ) → 0 < k →
        (run (opening n) steps).so_far.open_in p ≡ k → (run (opening n) steps).so_far.is_rollback k ≡ true →
        (run (opening n) steps).so_far.is_decided k ≡ true → (run (opening n) steps).so_far.is_committed k ≡ true →
        (run (opening n) steps).received_since q p ≡ [] }
    ensures quiet { (n : ℕ) (steps : List ProtocolStep) (k : ℕ) (q : ℕ) (p : ℕ) → 0 < k →
        (run (opening n) steps).so_far.open_in p ≡ k → (run (opening n) steps).noted k p q ≡ true →
        HasNoMessage ((run (opening n) steps).channel q p) }
{}

/// Until a rollback is decided, the label that `p` noted of `q`'s ask tells which of `q`'s live messages to `p` its commit
/// undoes: those above the label.
pub fn noted_labels()
    ensures undone { (n : ℕ) (steps : List ProtocolStep) (k : ℕ) (p : ℕ) (q : ℕ) (m : ℕ) →
        (run (opening n) steps).noted k p q ≡ true → (run (opening n) steps).so_far.is_decided k ≡ false →
        (run (opening n) steps).so_far.is_rollback k ≡ true → (run (opening n) steps).so_far.is_sent m ≡ true →
        (run (opening n) steps).so_far.from m ≡ q → (run (opening n) steps).so_far.to m ≡ p →
        is_undone (run (opening n) steps).so_far k m ≡ nat_lt ((run (opening n) steps).noted_label k p q) m }
{}

/// Runs that were worked out by hand write the rows that they have to.
pub fn worked_runs()
    ensures checkpoint_of_two { (run (opening 2) checkpoint_of_two_steps).log ≡ checkpoint_of_two }
    ensures checkpoint_before_the_message_comes { (run (opening 2) checkpoint_before_the_message_comes_steps).log ≡ checkpoint_before_the_message_comes }
    ensures checkpoint_round_a_ring { (run (opening 3) checkpoint_round_a_ring_steps).log ≡ checkpoint_round_a_ring }
    ensures second_checkpoint_of_one { (run (opening 3) second_checkpoint_of_one_steps).log ≡ second_checkpoint_of_one }
    ensures second_checkpoint_of_two { (run (opening 2) second_checkpoint_of_two_steps).log ≡ second_checkpoint_of_two }
    ensures two_checkpoints_at_once { (run (opening 2) two_checkpoints_at_once_steps).log ≡ two_checkpoints_at_once }
    ensures process_that_is_down_refuses { (run (opening 2) process_that_is_down_refuses_steps).log ≡ process_that_is_down_refuses }
    ensures two_aborts { (run (opening 3) two_aborts_steps).log ≡ two_aborts }
    ensures busy_process_refuses { (run (opening 3) busy_process_refuses_steps).log ≡ busy_process_refuses }
    ensures two_instances_abort_each_other { (run (opening 3) two_instances_abort_each_other_steps).log ≡ two_instances_abort_each_other }
    ensures rollback_after_a_failure { (run (opening 2) rollback_after_a_failure_steps).log ≡ rollback_after_a_failure }
    ensures failure_inside_a_checkpoint { (run (opening 2) failure_inside_a_checkpoint_steps).log ≡ failure_inside_a_checkpoint }
    ensures rollback_of_the_receiver_alone { (run (opening 2) rollback_of_the_receiver_alone_steps).log ≡ rollback_of_the_receiver_alone }
    ensures messages_received_again { (run (opening 2) messages_received_again_steps).log ≡ messages_received_again }
    ensures rollback_meets_a_message_in_transit { (run (opening 2) rollback_meets_a_message_in_transit_steps).log ≡ rollback_meets_a_message_in_transit }
    ensures rollback_through_three { (run (opening 3) rollback_through_three_steps).log ≡ rollback_through_three }
    ensures undone_message_is_not_received_again { (run (opening 3) undone_message_is_not_received_again_steps).log ≡ undone_message_is_not_received_again }
    ensures dropped_message { (run (opening 2) dropped_message_steps).log ≡ dropped_message }
    ensures command_refused_as_busy { (run (opening 2) command_refused_as_busy_steps).log ≡ command_refused_as_busy }
    ensures commands_refused_as_down { (run (opening 2) commands_refused_as_down_steps).log ≡ commands_refused_as_down }
    ensures object_that_is_not_saved { (run (opening 2) object_that_is_not_saved_steps).log ≡ object_that_is_not_saved }
    ensures send_waits_in_a_checkpoint { (run (opening 2) send_waits_in_a_checkpoint_steps).log ≡ send_waits_in_a_checkpoint }
    ensures held_message_that_is_undone { (run (opening 3) held_message_that_is_undone_steps).log ≡ held_message_that_is_undone }
    ensures kept_before_held { (run (opening 3) kept_before_held_steps).log ≡ kept_before_held }
    ensures label_after_an_abort { (run (opening 3) label_after_an_abort_steps).log ≡ label_after_an_abort }
{}
