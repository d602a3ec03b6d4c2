//! What is promised of every run of a plan, by what code has of it: each function has nothing to run, and its
//! contract is the law. Progress is what code has: what is seen of the protocol's state, the commands done and the open
//! phase.

ghost use Rattle.std.specs.Prelude.{ℤ, ◌+◌, ◌∷◌, ◌==◌, ◌&&◌, not, is_some, ◌++◌, ◌≡◌, ◌≢◌, ◌<◌, ◌*◌, ◌-◌, ◌≤◌, ◌⊎◌, ◌↔◌, ℕ, true, false, Some, None, List, [], length, take, slice_get, pos};
ghost use Rattle.kt_base.specs.declared.words.Cause.{Cause};
ghost use Rattle.kt_base.specs.declared.words.Verb.{Verb};
ghost use Rattle.kt_base.specs.declared.words.Kind.TheVariants as kind;
ghost use Rattle.kt_fifo.specs.declared.parcels.Parcel.TheVariants.{Ask};
ghost use Rattle.kt_spacetime.specs.declared.event.Event.TheVariants.{Sent, Received, Dropped, Took, Unwilling, Decided, Closed, Refused};
ghost use Rattle.kt_spacetime.specs.Events.{process_of};
ghost use Rattle.kt_spacetime.specs.declared.event.Event.{Event};
ghost use Rattle.kt_meaning.specs.Past.{past, is_rollback, is_committed, at_one};
ghost use Rattle.kt_meaning.specs.Legal.{IsLegal, has_deed};
ghost use Rattle.kt_spacetime.specs.declared.deeds.Deed.TheVariants as deed;
ghost use Rattle.kt_meaning.specs.Cuts.{IsConsistent, permanent_cut, present_cut};
ghost use Rattle.kt_meaning.specs.Throughout.{HasConsistentDecisions};
ghost use Rattle.kt_tables.specs.Calls.{Speaks};
ghost use Rattle.kt_meaning.specs.Certificates.{certificates};
ghost use Rattle.kt_meaning.specs.Decided.{HasLinkedDecisions, HasLeastDecisions, AbortsWhereUnwilling, JustifiesUnwilling};
ghost use Rattle.kt_protocol.specs.InTransit.{times, received_of};
ghost use Rattle.kt_protocol.specs.States.{opening};
ghost use Rattle.kt_protocol.specs.States as machine;
ghost use Rattle.kt_protocol.specs.LateSteps.{late_run};
ghost use Rattle.kt_machine.specs.Seen.{no_part, seen};
ghost use Rattle.kt_machine.specs.Messages.{AreSentTo, sends_of};
ghost use Rattle.kt_machine.specs.Transition.{transition, opening_seen, is_seen_ready};
ghost use Rattle.kt_machine.specs.CallTests.{is_asked_in_checkpoint, is_asked_in_rollback};
ghost use Rattle.kt_machine.specs.Done.{done, done_start};
ghost use Rattle.kt_machine.specs.Values.{Rules, due, first_due, does_all, can_all, spares, acts_along, closing, Apply, Keep, Promote, Discard, Restore};
ghost use Rattle.kt_machine.specs.Things.{Things, Saving, IsSaving, first_things, LeadsAlong, things_for};
ghost use Rattle.kt_machine.specs.Acts.{acts_by};
ghost use Rattle.kt_machine.specs.Acts as values_acts;
ghost use Rattle.kt_machine.specs.SeenActs.{seen_acts};
ghost use Rattle.kt_machine.specs.States.{AreRisingNumbers};
ghost use Rattle.kt_machine.specs.WorkedValues.{all_bodies};
ghost use Rattle.kt_promises.specs.Runs.{Move, after_moves, RunReaches, protocol_steps, IsAfterSteps, IsSameButPhase, GoesOn, after_gives, after_defaults, AreOfOthers};
ghost use Rattle.kt_plan.specs.declared.steps.Step.{Step};
ghost use Rattle.kt_plan.specs.declared.steps.Step.TheVariants.{Do, Take};
ghost use Rattle.kt_plan.specs.declared.steps.Give.{Give};
ghost use Rattle.kt_promises.specs.Steps.{process_of_step, protocol_step, enabled, can_take_from, progress_after, is_at_rest};
ghost use Rattle.kt_promises.specs.Hindrances.{hindrance};
ghost use Rattle.kt_promises.specs.declared.hindrances.Hindrance.TheVariants.{NoCommand, PhaseNotOpen, SendInInstance, NoParcel};
ghost use Rattle.kt_plan.specs.declared.steps.Look.TheVariants.{Idle, NeedsBody, NeedsSave};
ghost use Rattle.kt_promises.specs.Looks.{uses_able, uses_body, look};
ghost use Rattle.kt_promises.specs.Work.{most_steps_of_run, count_begins, work_left};
ghost use Rattle.kt_plan.specs.Limits.{Planned, IsPlan};
ghost use Rattle.kt_plan.specs.declared.commands.Command.{Command};
ghost use Rattle.kt_meaning.specs.Follows.{commands_of, command_rows, phase_at, IsQuietPast, FollowsPlan, BeginsPlan};
ghost use Rattle.kt_promises.specs.Rows.{has_took_row, has_sent_row, AreRowsOfStep, IsRefusedStep, is_offer_step};
ghost use Rattle.kt_promises.specs.WorkedPlans.{given, moves_of, checkpoint_two_phases_later, checkpoint_two_phases_later_steps, checkpoint_two_phases_later_log, late_message, message_held, until_it_is_held, until_it_is_received, message_held_log};
ghost use Rattle.kt_promises.specs.Tallies.{Tallies, no_tallies, tallies_after, IsRaised, RunPuts};
ghost use Rattle.kt_plan.specs.Failures.{failures_of};
ghost use Rattle.kt_meaning.specs.Promised.{IsPromised};
ghost use Rattle.kt_promises.specs.Lines.{message_line, EachIsOnceOnItsLine, RetainsReceived, messages_among};
ghost use Rattle.kt_promises.specs.Messages.{AreMessagesTo};
ghost use Rattle.kt_promises.specs.Progress.{Progress, commands_left, next_command, opens_next, is_quiet, progress_at_start};
ghost use Rattle.kt_promises.specs.Defaults.{default_step};
ghost use Rattle.kt_promises.specs.Order.{comes_before, next_place, IsFirstEnabled};
ghost use Rattle.kt_promises.specs.AtRest.{HasNothingInTransit};
ghost use Rattle.kt_promises.specs.Unwilling.{IsUnwillingStep};
ghost use Rattle.kt_promises.specs.StepActs.{rows_added, acts_of_step, keeps_only_first};
ghost use Rattle.kt_promises.specs.Offers.{GivesOffers, SendsWhatIsOffered};
ghost use Rattle.kt_promises.specs.Told.{told_by, told_by_move, acts_told, rows_told, rows_by, rows_along};
ghost use Rattle.kt_promises.specs.WorkedRuns.{start_after_hundred, at_end, put_by, default_steps, gives, fails_twice, fails_twice_steps, fails_twice_log, rolls_back_then_aborts, until_it_holds, until_all_are_done, rolls_back_then_aborts_moves, rolls_back_then_aborts_log};
ghost use Rattle.kt_promises.specs.WorkedFollows.{two_messages, two_messages_then_failure, both_arrive, one_left_out, swapped, too_early, not_quiet, one_arrives, failure_before_message, one_dropped, one_checkpoint, undecided};

/// Where the next command of a process stands in its plan; and a process that has one is there.
pub fn places_of_commands()
    ensures next { (plan : Planned) (w : Progress) (p : ℕ) →
        slice_get plan.commands (next_place plan w p) ≡ next_command plan w p }
    ensures there { (plan : Planned) (first : ℕ) (w : Progress) (p : ℕ) (c : Command) → IsPlan plan →
        RunReaches plan first w → next_command plan w p ≡ Some c → p < length plan.names }
{}

/// How far a run of a plan comes.
pub fn progress_of_runs()
    // The start is reached, and so is what each enabled step makes of what is reached.
    ensures start { (plan : Planned) (first : ℕ) → RunReaches plan first (progress_at_start plan first) }
    ensures next { (plan : Planned) (first : ℕ) (w : Progress) (x : Step) (give : Give) → IsPlan plan →
        RunReaches plan first w → enabled plan w x ≡ true → RunReaches plan first (progress_after plan w x give) }
{}

/// For every run of every plan: what its log is.
pub fn logs_of_runs()
    // All that is promised of it.
    ensures promised { (plan : Planned) (first : ℕ) (w : Progress) → IsPlan plan → RunReaches plan first w →
        IsPromised w.now.log }

    // Each row keeps every rule.
    ensures legal { (plan : Planned) (first : ℕ) (w : Progress) → IsPlan plan → RunReaches plan first w →
        IsLegal w.now.log }

    // At every row the permanent cut and the present cut have no orphan.
    ensures consistent_decisions { (plan : Planned) (first : ℕ) (w : Progress) → IsPlan plan → RunReaches plan first w →
        HasConsistentDecisions w.now.log }
    ensures permanent_cuts { (plan : Planned) (first : ℕ) (w : Progress) (t : ℕ) → IsPlan plan →
        RunReaches plan first w →
        IsConsistent (past (take t w.now.log)) (permanent_cut (past (take t w.now.log))) }
    ensures present_cuts { (plan : Planned) (first : ℕ) (w : Progress) (t : ℕ) → IsPlan plan → RunReaches plan first w →
        IsConsistent (past (take t w.now.log)) (present_cut (past (take t w.now.log))) }

    // The members of each decided instance have linking messages with earlier ones, and those of each committed one
    // are the least set.
    ensures linked_decisions { (plan : Planned) (first : ℕ) (w : Progress) → IsPlan plan → RunReaches plan first w →
        HasLinkedDecisions w.now.log }
    ensures least_decisions { (plan : Planned) (first : ℕ) (w : Progress) → IsPlan plan → RunReaches plan first w →
        HasLeastDecisions w.now.log }

    // A decided instance is aborted exactly where a process was unwilling to join, and that was asked by a message.
    ensures aborts { (plan : Planned) (first : ℕ) (w : Progress) → IsPlan plan → RunReaches plan first w →
        AbortsWhereUnwilling w.now.log }
    ensures justified { (plan : Planned) (first : ℕ) (w : Progress) → IsPlan plan → RunReaches plan first w →
        JustifiesUnwilling w.now.log }

    // A row that decides an abort changes no live history and no permanent position.
    ensures aborted_live { (plan : Planned) (first : ℕ) (w : Progress) (n p k q : ℕ) → IsPlan plan →
        RunReaches plan first w → slice_get w.now.log n ≡ Some (Decided p k false) →
        (past (take (n + 1) w.now.log)).live q ≡ (past (take n w.now.log)).live q }
    ensures aborted_permanents { (plan : Planned) (first : ℕ) (w : Progress) (n p k q : ℕ) → IsPlan plan →
        RunReaches plan first w → slice_get w.now.log n ≡ Some (Decided p k false) →
        (past (take (n + 1) w.now.log)).permanent q ≡ (past (take n w.now.log)).permanent q }
{}

/// For every run of every plan: its log follows the plan, told by the rows alone.
pub fn logs_follow_plans()
    // So it begins, wherever a run has come; and at rest the whole follows.
    ensures begins { (plan : Planned) (first : ℕ) (w : Progress) → IsPlan plan → RunReaches plan first w →
        BeginsPlan plan w.now.log }
    ensures follows { (plan : Planned) (first : ℕ) (w : Progress) → IsPlan plan → RunReaches plan first w →
        is_at_rest plan w ≡ true → FollowsPlan plan w.now.log }

    // A process has a row for each command that it has done.
    ensures counts { (plan : Planned) (first : ℕ) (w : Progress) (p : ℕ) → IsPlan plan → RunReaches plan first w →
        length (command_rows p w.now.log) ≡ w.done p }

    // A row of a later phase comes after all of earlier ones.
    ensures order { (plan : Planned) (log : List Event) (m n j k : ℕ) → BeginsPlan plan log → m ≤ n →
        phase_at plan log m ≡ Some j → phase_at plan log n ≡ Some k → j ≤ k }

    // What follows is what has begun, has a row for each command, and ends quietly.
    ensures agree { (plan : Planned) (log : List Event) → FollowsPlan plan log → BeginsPlan plan log }
    ensures ended { (plan : Planned) (log : List Event) → BeginsPlan plan log →
        ((p : ℕ) → length (command_rows p log) ≡ length (commands_of p plan.commands)) → IsQuietPast (past log) →
        FollowsPlan plan log }
{}

/// For every run of every plan: which rows each enabled step adds.
pub fn rows_of_runs()
    // Those of its command, or of the parcel that it takes, and four at most.
    ensures fit { (plan : Planned) (first : ℕ) (w : Progress) (x : Step) (give : Give) → IsPlan plan →
        RunReaches plan first w → enabled plan w x ≡ true →
        AreRowsOfStep plan w x give (rows_added plan w x give) }
    ensures few { (plan : Planned) (first : ℕ) (w : Progress) (x : Step) (give : Give) → IsPlan plan →
        RunReaches plan first w → enabled plan w x ≡ true → length (rows_added plan w x give) ≤ 4 }

    // A refused row is that of a process's next command, and its cause holds just before it.
    ensures refused { (plan : Planned) (first : ℕ) (w : Progress) (x : Step) (give : Give) (t p : ℕ) (verb : Verb)
        (cause : Cause) → IsPlan plan → RunReaches plan first w → enabled plan w x ≡ true →
        slice_get (progress_after plan w x give).now.log t ≡ Some (Refused p verb cause) → length w.now.log ≤ t →
        IsRefusedStep plan w x give t p verb cause }

    // A tentative checkpoint is taken exactly where the step asks whether the object can be saved, and it can; what
    // the object offers is sent exactly where the step asks for it.
    ensures saves { (plan : Planned) (first : ℕ) (w : Progress) (x : Step) (give : Give) → IsPlan plan →
        RunReaches plan first w → enabled plan w x ≡ true →
        has_took_row (rows_added plan w x give) ≡ (uses_able (look plan w x) && give.able) }
    ensures sends { (plan : Planned) (first : ℕ) (w : Progress) (x : Step) (give : Give) → IsPlan plan →
        RunReaches plan first w → enabled plan w x ≡ true →
        (is_offer_step plan w x && has_sent_row (rows_added plan w x give)) ≡ uses_body (look plan w x) }
    ensures offered { (plan : Planned) (first : ℕ) (w : Progress) (p : ℕ) (give : Give) → IsPlan plan →
        RunReaches plan first w → look plan w (Do p) ≡ NeedsBody →
        (q : ℕ) × (rows_added plan w (Do p) give ≡ Sent p q give.body ∷ []) }

    // A process in a rollback neither sends, nor receives, nor drops a message.
    ensures still { (plan : Planned) (first : ℕ) (w : Progress) (x : Step) (give : Give) (i p q m : ℕ) (body : ℤ) →
        IsPlan plan → RunReaches plan first w → enabled plan w x ≡ true →
        is_seen_ready w.now (process_of_step x) ≡ true →
        (slice_get (rows_added plan w x give) i ≢ Some (Sent p q body))
        × (slice_get (rows_added plan w x give) i ≢ Some (Received p q m))
        × (slice_get (rows_added plan w x give) i ≢ Some (Dropped p q m)) }
{}

/// However far a plan has come: what a step makes but for the open phase is the transition of what is seen, and one
/// command done.
pub fn progress_after_steps()
    ensures start { (plan : Planned) (first : ℕ) →
        IsSameButPhase (record { now = opening_seen (length plan.names) first; done = λ p. 0; phase = 0 })
        (progress_at_start plan first) }
    ensures takes { (plan : Planned) (w : Progress) (p q : ℕ) (give : Give) →
        IsSameButPhase (record w { now = transition w.now (machine.Take p q give.able) })
        (progress_after plan w (Take p q) give) }
    ensures does { (plan : Planned) (w : Progress) (p : ℕ) (give : Give) (c : Command) → next_command plan w p ≡ Some c →
        IsSameButPhase (record w { now = transition w.now (protocol_step p c.job give); done = at_one p (w.done p + 1) w.done })
        (progress_after plan w (Do p) give) }
{}

/// The steps of the protocol behind those of a plan: they lead to what is seen, and a step has the acts of its own.
pub fn protocol_of_runs()
    ensures start { (plan : Planned) (first : ℕ) → IsAfterSteps plan first [] (progress_at_start plan first) }
    ensures next { (plan : Planned) (first : ℕ) (w : Progress) (steps : List machine.ProtocolStep) (x : Step) (give : Give) →
        IsAfterSteps plan first steps w → enabled plan w x ≡ true →
        IsAfterSteps plan first (steps ++ protocol_steps plan w x give) (progress_after plan w x give) }
    ensures one { (plan : Planned) (w : Progress) (x : Step) (give : Give) → enabled plan w x ≡ true →
        (step : machine.ProtocolStep) × (protocol_steps plan w x give ≡ step ∷ []) }
    ensures seen { (plan : Planned) (first : ℕ) (w : Progress) (steps : List machine.ProtocolStep) →
        IsAfterSteps plan first steps w → w.now ≡ seen first (late_run (opening (length plan.names)) steps) }
    ensures acts { (plan : Planned) (first : ℕ) (w : Progress) (steps : List machine.ProtocolStep) (x : Step) (give : Give)
        (y : machine.ProtocolStep) (p : ℕ) → IsPlan plan → RunReaches plan first w → IsAfterSteps plan first steps w →
        enabled plan w x ≡ true → protocol_steps plan w x give ≡ y ∷ [] →
        acts_of_step plan w x give p ≡ acts_by p (late_run (opening (length plan.names)) steps) y }

    // By what code has: the acts of the process that steps.
    ensures seen_acts { (plan : Planned) (first : ℕ) (w : Progress) (x : Step) (give : Give) (y : machine.ProtocolStep) →
        IsPlan plan → RunReaches plan first w → enabled plan w x ≡ true →
        protocol_steps plan w x give ≡ y ∷ [] →
        acts_of_step plan w x give (values_acts.stepper y) ≡ seen_acts w.now y }
{}

/// For every run of every plan: its phases.
pub fn phases_of_runs()
    // No command that is left is of an earlier phase than the open one, and no further phase opens before the next
    // step.
    ensures ahead { (plan : Planned) (first : ℕ) (w : Progress) (p : ℕ) (c : Command) → IsPlan plan →
        RunReaches plan first w → next_command plan w p ≡ Some c → w.phase ≤ c.phase }
    ensures shut { (plan : Planned) (first : ℕ) (w : Progress) → IsPlan plan → RunReaches plan first w →
        opens_next plan w ≡ false }

    // Where all is quiet and a command is left, somebody's next one is of the open phase.
    ensures attained { (plan : Planned) (first : ℕ) (w : Progress) (p : ℕ) (c : Command) → IsPlan plan →
        RunReaches plan first w → is_quiet (length plan.names) w.now ≡ true → next_command plan w p ≡ Some c →
        (q : ℕ) × (d : Command) × (q < length plan.names) × (next_command plan w q ≡ Some d) × (d.phase ≡ w.phase) }

    // Only commands of the open phase are enabled. No step goes back to an earlier phase; and where one opens a later
    // phase, no parcel is in transit and nobody is in an instance.
    ensures in_phase { (plan : Planned) (first : ℕ) (w : Progress) (p : ℕ) → IsPlan plan → RunReaches plan first w →
        enabled plan w (Do p) ≡ true → (c : Command) × (next_command plan w p ≡ Some c) × (c.phase ≡ w.phase) }
    ensures forward { (plan : Planned) (first : ℕ) (w : Progress) (x : Step) (give : Give) → IsPlan plan →
        RunReaches plan first w → enabled plan w x ≡ true → w.phase ≤ (progress_after plan w x give).phase }
    ensures quiet { (plan : Planned) (first : ℕ) (w : Progress) (x : Step) (give : Give) → IsPlan plan →
        RunReaches plan first w → enabled plan w x ≡ true → w.phase < (progress_after plan w x give).phase →
        is_quiet (length plan.names) (progress_after plan w x give).now ≡ true }
{}

/// For every run of every plan: where its messages are.
pub fn messages_of_runs()
    // Each live message that isn't dropped stands once: in what its receiver has received itself, in what it holds,
    // or in the channel; and these lists rise, in that order.
    ensures once { (plan : Planned) (first : ℕ) (w : Progress) → IsPlan plan → RunReaches plan first w →
        EachIsOnceOnItsLine w.now }
    ensures rising { (plan : Planned) (first : ℕ) (w : Progress) (p q : ℕ) → IsPlan plan → RunReaches plan first w →
        AreRisingNumbers (message_line w.now p q) }

    // What is kept of a sender is what was received of it past the own permanent position.
    ensures kept_lists { (plan : Planned) (first : ℕ) (w : Progress) → IsPlan plan → RunReaches plan first w →
        RetainsReceived w.now }

    // A message in a channel has the label and the body of its row, and it is its receiver's. What a process holds or
    // keeps of a sender is such messages, to this process, and nothing else.
    ensures in_channels { (plan : Planned) (first : ℕ) (w : Progress) (p q : ℕ) → IsPlan plan → RunReaches plan first w →
        AreSentTo first w.now.log p q (w.now.channel p q) }
    ensures held { (plan : Planned) (first : ℕ) (w : Progress) (p q : ℕ) → IsPlan plan → RunReaches plan first w →
        AreMessagesTo first w.now.log q p (w.now.held q p) }
    ensures kept { (plan : Planned) (first : ℕ) (w : Progress) (p q : ℕ) → IsPlan plan → RunReaches plan first w →
        AreMessagesTo first w.now.log q p (w.now.kept q p) }

    // At rest no live message is lost: each that isn't dropped has been received, once, and that is live. What a
    // process has done itself is its live history there.
    ensures arrived { (plan : Planned) (first : ℕ) (w : Progress) (m p q : ℕ) → IsPlan plan → RunReaches plan first w →
        is_at_rest plan w ≡ true → has_deed (deed.Sent m q) ((past w.now.log).live p) ≡ true →
        (past w.now.log).dropped m ≡ false → has_deed (deed.Received m p) ((past w.now.log).live q) ≡ true }
    ensures arrived_once { (plan : Planned) (first : ℕ) (w : Progress) (m p q : ℕ) → IsPlan plan →
        RunReaches plan first w → is_at_rest plan w ≡ true →
        has_deed (deed.Sent m q) ((past w.now.log).live p) ≡ true → (past w.now.log).dropped m ≡ false →
        times m (received_of p ((past w.now.log).live q)) ≡ 1 }
    ensures own_at_rest { (plan : Planned) (first : ℕ) (w : Progress) (p : ℕ) → IsPlan plan → RunReaches plan first w →
        is_at_rest plan w ≡ true → (done w.now.log).own p ≡ (past w.now.log).live p }
{}

/// For every run of every plan: what is so of each process.
pub fn processes_of_runs()
    ensures processes { (plan : Planned) (first : ℕ) (w : Progress) → IsPlan plan → RunReaches plan first w →
        w.now.processes ≡ length plan.names }

    // The last label used is the first one and the number of the process's `sent` rows.
    ensures used { (plan : Planned) (first : ℕ) (w : Progress) (p : ℕ) → IsPlan plan → RunReaches plan first w →
        (w.now.states p).used ≡ first + sends_of p w.now.log }

    // The calls of each process are a list that tables answer for, before a step and after it.
    ensures speaks { (plan : Planned) (first : ℕ) (w : Progress) (p : ℕ) → IsPlan plan → RunReaches plan first w →
        Speaks (w.now.states p).calls }
    ensures speaks_next { (plan : Planned) (first : ℕ) (w : Progress) (x : machine.ProtocolStep) (p : ℕ) → IsPlan plan →
        RunReaches plan first w → Speaks ((transition w.now x).states p).calls }

    // A process in no instance has no part, and whom it would ask is a process; so is whom a part asked or answers.
    ensures no_part { (plan : Planned) (first : ℕ) (w : Progress) (p : ℕ) → IsPlan plan → RunReaches plan first w →
        (w.now.states p).inst ≡ 0 → (w.now.states p).part ≡ no_part }
    ensures would_ask_in_checkpoint { (plan : Planned) (first : ℕ) (w : Progress) (p q : ℕ) → IsPlan plan →
        RunReaches plan first w → (w.now.states p).inst ≡ 0 →
        is_asked_in_checkpoint (w.now.states p).calls q ≡ true → q < length plan.names }
    ensures would_ask_in_rollback { (plan : Planned) (first : ℕ) (w : Progress) (p q : ℕ) → IsPlan plan →
        RunReaches plan first w → (w.now.states p).inst ≡ 0 →
        is_asked_in_rollback (w.now.states p).calls q ≡ true → q < length plan.names }
    ensures asked { (plan : Planned) (first : ℕ) (w : Progress) (p q : ℕ) → IsPlan plan → RunReaches plan first w →
        (w.now.states p).part.asked q ≡ true → q < length plan.names }
    ensures parent { (plan : Planned) (first : ℕ) (w : Progress) (p to : ℕ) → IsPlan plan → RunReaches plan first w →
        (w.now.states p).part.parent ≡ Some to → to < length plan.names }
{}

/// A run that begins with given moves and goes on by default steps, with whatever objects give.
pub fn runs_that_go_on()
    // It begins where the given moves lead, and each default step leads it on.
    ensures begins { (plan : Planned) (first : ℕ) (given : List Move) (w : Progress) →
        after_moves plan (progress_at_start plan first) given ≡ Some w → GoesOn plan first given [] w }
    ensures next { (plan : Planned) (first : ℕ) (given more : List Move) (w : Progress) (x : Step) (give : Give) →
        IsPlan plan → GoesOn plan first given more w → default_step plan w ≡ Some x →
        GoesOn plan first given (more ++ record { step = x; give = give } ∷ []) (progress_after plan w x give) }
    ensures run { (plan : Planned) (first : ℕ) (given more : List Move) (w : Progress) → GoesOn plan first given more w →
        after_moves plan (progress_at_start plan first) (given ++ more) ≡ Some w }

    // It has few steps; with at most 64 processes, 4,096 commands and 2^24 rows fewer than 2^26.
    ensures few { (plan : Planned) (first : ℕ) (given more : List Move) (w : Progress) → IsPlan plan →
        GoesOn plan first given more w → length given + length more ≤ most_steps_of_run plan (length w.now.log) }
    ensures limits { (plan : Planned) (first : ℕ) (given more : List Move) (w : Progress) → IsPlan plan → (length plan.names) ≤ 64 →
        length plan.commands ≤ 4096 → length w.now.log ≤ 16777216 → GoesOn plan first given more w →
        length given + length more < 67108864 }

    // Where it can't go on it is at rest; and more gives than a run with so many rows can have steps lead there.
    ensures rest { (plan : Planned) (first : ℕ) (given more : List Move) (w : Progress) → IsPlan plan →
        GoesOn plan first given more w → default_step plan w ≡ None → is_at_rest plan w ≡ true }
    ensures after { (plan : Planned) (first rows : ℕ) (given : List Move) (w : Progress) (gives : List Give) → IsPlan plan →
        after_moves plan (progress_at_start plan first) given ≡ Some w → length (after_gives plan w gives).now.log ≤ rows →
        most_steps_of_run plan rows < length given + length gives → is_at_rest plan (after_gives plan w gives) ≡ true }
{}

/// For every run of every plan: where no step is enabled it is at rest.
pub fn never_stuck()
    // There all commands are done, each begun instance is decided, nobody is in one, and no parcel is in a channel or
    // held.
    ensures at_rest { (plan : Planned) (first : ℕ) (w : Progress) → IsPlan plan → RunReaches plan first w →
        ((x : Step) → enabled plan w x ≡ false) → is_at_rest plan w ≡ true }
    ensures done { (plan : Planned) (first : ℕ) (w : Progress) (p : ℕ) → IsPlan plan → RunReaches plan first w →
        ((x : Step) → enabled plan w x ≡ false) → commands_left plan w p ≡ [] }
    ensures quiet { (plan : Planned) (first : ℕ) (w : Progress) → IsPlan plan → RunReaches plan first w →
        ((x : Step) → enabled plan w x ≡ false) → HasNothingInTransit w.now }

    // So it is wherever a plan is at rest, and that is exactly where there is no default step.
    ensures rested_done { (plan : Planned) (first : ℕ) (w : Progress) (p : ℕ) → IsPlan plan → RunReaches plan first w →
        is_at_rest plan w ≡ true → commands_left plan w p ≡ [] }
    ensures rested_quiet { (plan : Planned) (first : ℕ) (w : Progress) → IsPlan plan → RunReaches plan first w →
        is_at_rest plan w ≡ true → HasNothingInTransit w.now }
    ensures exactly { (plan : Planned) (first : ℕ) (w : Progress) → IsPlan plan → RunReaches plan first w →
        (is_at_rest plan w ≡ true) ↔ (default_step plan w ≡ None) }

    // A plan is at rest exactly where nobody has a command left and nothing is in transit.
    ensures rests { (plan : Planned) (first : ℕ) (w : Progress) → IsPlan plan → RunReaches plan first w →
        (is_at_rest plan w ≡ true)
        ↔ (((p : ℕ) → p < length plan.names → next_command plan w p ≡ None) × HasNothingInTransit w.now) }
{}

/// For every run of every plan: it has few steps for its commands and its rows, so within a number of rows it ends.
pub fn runs_end()
    ensures steps { (plan : Planned) (first : ℕ) (moves : List Move) (w : Progress) → IsPlan plan →
        after_moves plan (progress_at_start plan first) moves ≡ Some w → length moves ≤ most_steps_of_run plan (length w.now.log) }

    // Each step that stays within the rows lowers the work that is left.
    ensures falls { (plan : Planned) (first rows : ℕ) (w : Progress) (put : Tallies) (x : Step) (give : Give) →
        IsPlan plan → RunPuts plan first w put → enabled plan w x ≡ true →
        length (progress_after plan w x give).now.log ≤ rows →
        work_left rows plan (progress_after plan w x give) (tallies_after plan w x give put) < work_left rows plan w put }

    // Default steps go on with the run, whatever objects give at each, and come to rest.
    ensures defaults { (n : ℕ) (plan : Planned) (first : ℕ) (give : Progress → Step → Give) (w : Progress) → IsPlan plan →
        RunReaches plan first w → RunReaches plan first (after_defaults n plan give w) }
    ensures after { (n : ℕ) (plan : Planned) (first rows : ℕ) (give : Progress → Step → Give) (w : Progress)
        (put : Tallies) → IsPlan plan → RunPuts plan first w put → length (after_defaults n plan give w).now.log ≤ rows →
        work_left rows plan w put < n → is_at_rest plan (after_defaults n plan give w) ≡ true }
    ensures rest { (n : ℕ) (plan : Planned) (first rows : ℕ) (give : Progress → Step → Give) → IsPlan plan →
        length (after_defaults n plan give (progress_at_start plan first)).now.log ≤ rows → most_steps_of_run plan rows < n →
        is_at_rest plan (after_defaults n plan give (progress_at_start plan first)) ≡ true }
{}

/// For every run of every plan: the default step, and the steps of others.
pub fn steps_of_runs()
    // There is no default step exactly where nothing is enabled. It is enabled, and comes before every other that is.
    ensures none { (plan : Planned) (first : ℕ) (w : Progress) → IsPlan plan → RunReaches plan first w →
        (default_step plan w ≡ None) ↔ ((x : Step) → enabled plan w x ≡ false) }
    ensures on { (plan : Planned) (first : ℕ) (w : Progress) (x : Step) → IsPlan plan → RunReaches plan first w →
        default_step plan w ≡ Some x → enabled plan w x ≡ true }
    ensures first { (plan : Planned) (first : ℕ) (w : Progress) (x y : Step) → IsPlan plan → RunReaches plan first w →
        default_step plan w ≡ Some x → enabled plan w y ≡ true → (x ≡ y) ⊎ (comes_before plan w x y ≡ true) }

    // It is exactly the first one that is enabled, in every progress, reached or not.
    ensures exact { (plan : Planned) (w : Progress) (x : Step) →
        (default_step plan w ≡ Some x) ↔ IsFirstEnabled plan w x }

    // It is the only step that does.
    ensures only { (plan : Planned) (first : ℕ) (w : Progress) (x : Step) → IsPlan plan → RunReaches plan first w →
        enabled plan w x ≡ true → ((y : Step) → enabled plan w y ≡ true → (x ≡ y) ⊎ (comes_before plan w x y ≡ true)) →
        default_step plan w ≡ Some x }

    // An enabled step stays enabled after any enabled step of another process, and asks the same of its object.
    ensures stays { (plan : Planned) (first : ℕ) (w : Progress) (x y : Step) (give : Give) → IsPlan plan →
        RunReaches plan first w → enabled plan w x ≡ true → enabled plan w y ≡ true → process_of_step x ≢ process_of_step y →
        enabled plan (progress_after plan w y give) x ≡ true }
    ensures looks { (plan : Planned) (first : ℕ) (w : Progress) (x y : Step) (give : Give) → IsPlan plan →
        RunReaches plan first w → enabled plan w x ≡ true → enabled plan w y ≡ true → process_of_step x ≢ process_of_step y →
        look plan (progress_after plan w y give) x ≡ look plan w x }

    // So it is after any number of moves of others.
    ensures waits { (plan : Planned) (first : ℕ) (w v : Progress) (x : Step) (moves : List Move) → IsPlan plan →
        RunReaches plan first w → enabled plan w x ≡ true → AreOfOthers (process_of_step x) moves →
        after_moves plan w moves ≡ Some v → enabled plan v x ≡ true }
    ensures waits_looks { (plan : Planned) (first : ℕ) (w v : Progress) (x : Step) (moves : List Move) → IsPlan plan →
        RunReaches plan first w → enabled plan w x ≡ true → AreOfOthers (process_of_step x) moves →
        after_moves plan w moves ≡ Some v → look plan v x ≡ look plan w x }

    // No process takes of itself.
    ensures of_another { (plan : Planned) (first : ℕ) (w : Progress) (p q : ℕ) → IsPlan plan → RunReaches plan first w →
        enabled plan w (Take p q) ≡ true → p ≢ q }

    // In every world, reached or not, a look is idle exactly where its step is not enabled; and a process that is asked
    // for a body is up.
    ensures idle { (plan : Planned) (w : Progress) (x : Step) → (look plan w x ≡ Idle) ↔ (enabled plan w x ≡ false) }
    ensures up { (plan : Planned) (w : Progress) (x : Step) → look plan w x ≡ NeedsBody →
        (w.now.states (process_of_step x)).up ≡ true }

    // Of what the object gives, that counts which the step asks for.
    ensures gives { (plan : Planned) (first : ℕ) (w : Progress) (x : Step) (a b : Give) → IsPlan plan →
        RunReaches plan first w → enabled plan w x ≡ true → (uses_able (look plan w x) ≡ true → a.able ≡ b.able) →
        (uses_body (look plan w x) ≡ true → a.body ≡ b.body) → progress_after plan w x a ≡ progress_after plan w x b }

    // An `unwilling` row is added by a step that takes an ask of a member, and before that step the row's cause
    // holds.
    ensures unwilling { (plan : Planned) (first : ℕ) (w : Progress) (x : Step) (give : Give) (t p k : ℕ) (cause : Cause) →
        IsPlan plan → RunReaches plan first w → enabled plan w x ≡ true →
        slice_get (progress_after plan w x give).now.log t ≡ Some (Unwilling p k cause) → length w.now.log ≤ t →
        IsUnwillingStep w x give t p k cause }
{}

/// What stands in the way of a step.
pub fn hindrances_of_steps()
    // Nothing does exactly where it is enabled, in every progress, reached or not.
    ensures none { (plan : Planned) (w : Progress) (x : Step) →
        (hindrance plan w x ≡ None) ↔ (enabled plan w x ≡ true) }

    // In a run, that no command is left exactly where there is no next one; that a phase is not open only where it is a
    // later one.
    ensures no_command { (plan : Planned) (first : ℕ) (w : Progress) (p : ℕ) → IsPlan plan → RunReaches plan first w →
        (hindrance plan w (Do p) ≡ Some NoCommand) ↔ (next_command plan w p ≡ None) }
    ensures later { (plan : Planned) (first : ℕ) (w : Progress) (p : ℕ) → IsPlan plan → RunReaches plan first w →
        hindrance plan w (Do p) ≡ Some PhaseNotOpen →
        (c : Command) × (next_command plan w p ≡ Some c) × (w.phase < c.phase) }

    // A send waits only in an instance; and of a process nothing is taken only where nothing can be.
    ensures waits { (plan : Planned) (w : Progress) (p : ℕ) → hindrance plan w (Do p) ≡ Some SendInInstance →
        (w.now.states p).inst ≢ 0 }
    ensures no_parcel { (plan : Planned) (w : Progress) (p q : ℕ) → p < length plan.names → q < length plan.names →
        hindrance plan w (Take p q) ≡ Some NoParcel → can_take_from w.now p q ≡ false }
{}

/// For every run of every plan and every kind of object: what is due to a process.
pub fn values_of_runs<V>()
    // A step's acts, done in order, lead from what is due before it to what is due after it; they can be done, and to
    // those who don't step the same is due as before.
    ensures lead { (r : Rules V) (plan : Planned) (first : ℕ) (w : Progress) (x : Step) (give : Give) (p : ℕ) → IsPlan plan →
        RunReaches plan first w → enabled plan w x ≡ true →
        does_all r (due r (done w.now.log) p) (acts_of_step plan w x give p)
        ≡ due r (done (progress_after plan w x give).now.log) p }
    ensures can { (r : Rules V) (plan : Planned) (first : ℕ) (w : Progress) (x : Step) (give : Give) (p : ℕ) → IsPlan plan →
        RunReaches plan first w → enabled plan w x ≡ true →
        can_all r (due r (done w.now.log) p) (acts_of_step plan w x give p) ≡ true }

    // The acts of the whole log can be done, and lead to what is due; at rest no tentative state is.
    ensures whole_can { (r : Rules V) (plan : Planned) (first : ℕ) (w : Progress) (p : ℕ) → IsPlan plan →
        RunReaches plan first w → can_all r (first_due r) (acts_along p done_start w.now.log) ≡ true }
    ensures whole { (r : Rules V) (plan : Planned) (first : ℕ) (w : Progress) (p : ℕ) → IsPlan plan →
        RunReaches plan first w →
        does_all r (first_due r) (acts_along p done_start w.now.log) ≡ due r (done w.now.log) p }
    ensures rested { (r : Rules V) (plan : Planned) (first : ℕ) (w : Progress) (p : ℕ) → IsPlan plan →
        RunReaches plan first w → is_at_rest plan w ≡ true → (due r (done w.now.log) p).tentative ≡ None }

    // While others step the same is due to a process.
    ensures waits { (r : Rules V) (plan : Planned) (first : ℕ) (w v : Progress) (p : ℕ) (moves : List Move) → IsPlan plan →
        RunReaches plan first w → AreOfOthers p moves → after_moves plan w moves ≡ Some v →
        due r (done v.now.log) p ≡ due r (done w.now.log) p }

    // An object is due exactly where its process is up, and a tentative state exactly while it is in a checkpoint.
    ensures objects { (r : Rules V) (plan : Planned) (first : ℕ) (w : Progress) (p : ℕ) → IsPlan plan →
        RunReaches plan first w → is_some (due r (done w.now.log) p).object ≡ (w.now.states p).up }
    ensures tentatives { (r : Rules V) (plan : Planned) (first : ℕ) (w : Progress) (p : ℕ) → IsPlan plan →
        RunReaches plan first w → is_some (due r (done w.now.log) p).tentative
        ≡ (not ((w.now.states p).inst == 0) && not (w.now.states p).part.is_rollback) }

    // As long as a process is in a checkpoint, its tentative state has the value that was due to its object where it
    // was taken.
    ensures as_taken { (r : Rules V) (plan : Planned) (first : ℕ) (w : Progress) (n p k : ℕ) → IsPlan plan →
        RunReaches plan first w → slice_get w.now.log n ≡ Some (Took p k) →
        (past w.now.log).open_in p ≡ Some k →
        (due r (done w.now.log) p).tentative ≡ (due r (done (take n w.now.log)) p).object }

    // A state is kept as the first act alone, and only where it can be saved.
    ensures keeps { (plan : Planned) (first : ℕ) (w : Progress) (x : Step) (give : Give) (p : ℕ) → IsPlan plan →
        RunReaches plan first w → enabled plan w x ≡ true →
        keeps_only_first give.able (acts_of_step plan w x give p) ≡ true }

    // The spares taken by a log are those taken before a step and by its acts; and restoring takes no more spares
    // than the plan has commands for the process to fail.
    ensures taken { (r : Rules V) (plan : Planned) (first : ℕ) (w : Progress) (x : Step) (give : Give) (p : ℕ) →
        IsPlan plan → RunReaches plan first w → enabled plan w x ≡ true →
        spares r (first_due r) (acts_along p done_start (progress_after plan w x give).now.log)
        ≡ spares r (first_due r) (acts_along p done_start w.now.log)
        + spares r (due r (done w.now.log) p) (acts_of_step plan w x give p) }
    ensures spares { (r : Rules V) (plan : Planned) (first : ℕ) (w : Progress) (p : ℕ) → IsPlan plan →
        RunReaches plan first w → spares r (first_due r) (acts_along p done_start w.now.log) ≤ failures_of plan.commands p }

    // Where each step that asks for a body is given what the object offers, the rows sent there have it.
    ensures offers { (rules : ℕ → Rules V) (plan : Planned) (first : ℕ) (moves : List Move) (w : Progress) → IsPlan plan →
        after_moves plan (progress_at_start plan first) moves ≡ Some w →
        GivesOffers rules plan (progress_at_start plan first) moves →
        SendsWhatIsOffered rules plan w.now.log }

    // A step that closes an aborted instance changes no object and no permanent state.
    ensures aborts_objects { (r : Rules V) (plan : Planned) (first : ℕ) (w : Progress) (x : Step) (give : Give)
        (i p k u : ℕ) → IsPlan plan → RunReaches plan first w → enabled plan w x ≡ true →
        slice_get (progress_after plan w x give).now.log i ≡ Some (Closed p k) → length w.now.log ≤ i →
        is_committed (past (progress_after plan w x give).now.log) k ≡ false →
        (due r (done (progress_after plan w x give).now.log) u).object ≡ (due r (done w.now.log) u).object }
    ensures aborts_saved { (r : Rules V) (plan : Planned) (first : ℕ) (w : Progress) (x : Step) (give : Give)
        (i p k u : ℕ) → IsPlan plan → RunReaches plan first w → enabled plan w x ≡ true →
        slice_get (progress_after plan w x give).now.log i ≡ Some (Closed p k) → length w.now.log ≤ i →
        is_committed (past (progress_after plan w x give).now.log) k ≡ false →
        (due r (done (progress_after plan w x give).now.log) u).permanent ≡ (due r (done w.now.log) u).permanent }
{}

/// For every run of every plan: the rows that a step adds, and the acts that they ask.
pub fn acts_of_runs()
    // Rows are added to the log, and acts to those of the whole log.
    ensures grows { (plan : Planned) (first : ℕ) (w : Progress) (x : Step) (give : Give) → IsPlan plan →
        RunReaches plan first w → enabled plan w x ≡ true →
        (progress_after plan w x give).now.log ≡ w.now.log ++ rows_added plan w x give }
    ensures more { (plan : Planned) (first : ℕ) (w : Progress) (x : Step) (give : Give) (p : ℕ) → IsPlan plan →
        RunReaches plan first w → enabled plan w x ≡ true →
        acts_along p done_start (progress_after plan w x give).now.log
        ≡ acts_along p done_start w.now.log ++ acts_of_step plan w x give p }

    // Each row is its process's, nobody else has an act, and it has two at most.
    ensures rows { (plan : Planned) (first : ℕ) (w : Progress) (x : Step) (give : Give) (i : ℕ) (row : Event) → IsPlan plan →
        RunReaches plan first w → enabled plan w x ≡ true → slice_get (rows_added plan w x give) i ≡ Some row →
        process_of row ≡ process_of_step x }
    ensures others { (plan : Planned) (first : ℕ) (w : Progress) (x : Step) (give : Give) (p : ℕ) → IsPlan plan →
        RunReaches plan first w → enabled plan w x ≡ true → p ≢ process_of_step x → acts_of_step plan w x give p ≡ [] }
    ensures two { (plan : Planned) (first : ℕ) (w : Progress) (x : Step) (give : Give) (p : ℕ) → IsPlan plan →
        RunReaches plan first w → enabled plan w x ≡ true → length (acts_of_step plan w x give p) ≤ 2 }

    // A step that closes an aborted instance discards the tentative state in a checkpoint, and has no act in a
    // rollback.
    ensures aborts { (plan : Planned) (first : ℕ) (w : Progress) (x : Step) (give : Give) (i p k : ℕ) → IsPlan plan →
        RunReaches plan first w → enabled plan w x ≡ true →
        slice_get (progress_after plan w x give).now.log i ≡ Some (Closed p k) → length w.now.log ≤ i →
        is_committed (past (progress_after plan w x give).now.log) k ≡ false →
        acts_of_step plan w x give (process_of_step x)
        ≡ closing (is_rollback (past (progress_after plan w x give).now.log) k) false }
{}

/// For every run of every plan: what its moves tell each process.
pub fn told_of_runs()
    // The log is the rows that they add; each process is told its acts and its rows, each once and in order.
    ensures log { (plan : Planned) (first : ℕ) (moves : List Move) (w : Progress) → IsPlan plan →
        after_moves plan (progress_at_start plan first) moves ≡ Some w →
        w.now.log ≡ rows_along plan (progress_at_start plan first) moves }
    ensures acts { (plan : Planned) (first : ℕ) (p : ℕ) (moves : List Move) (w : Progress) → IsPlan plan →
        after_moves plan (progress_at_start plan first) moves ≡ Some w →
        acts_told (told_by plan (progress_at_start plan first) p moves) ≡ acts_along p done_start w.now.log }
    ensures rows { (plan : Planned) (first : ℕ) (p : ℕ) (moves : List Move) (w : Progress) → IsPlan plan →
        after_moves plan (progress_at_start plan first) moves ≡ Some w →
        rows_told (told_by plan (progress_at_start plan first) p moves) ≡ rows_by p w.now.log }

    // One move more tells its process alone.
    ensures more { (plan : Planned) (p : ℕ) (moves : List Move) (v w : Progress) (x : Move) →
        after_moves plan v moves ≡ Some w →
        told_by plan v p (moves ++ x ∷ []) ≡ told_by plan v p moves ++ told_by_move plan w p x }
{}

/// For every run of every plan: real objects and saved states to which the acts of its log have been done are those
/// that are due, however values are saved.
pub fn objects_of_runs<V, B>()
    ensures things { (r : Rules V) (s : Saving V B) (plan : Planned) (first : ℕ) (w : Progress) (p : ℕ) (y : Things V B) →
        IsPlan plan → RunReaches plan first w → IsSaving r s →
        LeadsAlong r s (acts_along p done_start w.now.log) (first_things r s) y →
        y ≡ things_for s (due r (done w.now.log) p) }
{}

/// For every run of every plan: how many asks, replies and decisions each instance has put into the channels.
pub fn tallies_of_runs()
    // None at first; and each enabled step raises the tallies by what it adds to the channels.
    ensures start { (plan : Planned) (first : ℕ) → RunPuts plan first (progress_at_start plan first) no_tallies }
    ensures next { (plan : Planned) (first : ℕ) (w : Progress) (put : Tallies) (x : Step) (give : Give) →
        RunPuts plan first w put → enabled plan w x ≡ true →
        RunPuts plan first (progress_after plan w x give) (tallies_after plan w x give put) }
    ensures raised { (plan : Planned) (first : ℕ) (w : Progress) (put : Tallies) (x : Step) (give : Give) → IsPlan plan →
        RunPuts plan first w put → enabled plan w x ≡ true →
        IsRaised (length plan.names) w.now x (progress_after plan w x give).now put (tallies_after plan w x give put) }

    // There are at most as many instances as commands that may begin one, and as long as a command is left, fewer than
    // commands. One that has not begun has put nothing, and each has put few.
    ensures instances { (plan : Planned) (first : ℕ) (w : Progress) → IsPlan plan → RunReaches plan first w →
        w.now.begun ≤ count_begins plan.commands }
    ensures fewer { (plan : Planned) (first : ℕ) (w : Progress) (p : ℕ) (c : Command) → IsPlan plan →
        RunReaches plan first w → next_command plan w p ≡ Some c → w.now.begun < length plan.commands }
    ensures unbegun { (plan : Planned) (first : ℕ) (w : Progress) (put : Tallies) (k : ℕ) → IsPlan plan →
        RunPuts plan first w put → w.now.begun < k → put.asks k ≡ 0 }
    ensures asks { (plan : Planned) (first : ℕ) (w : Progress) (put : Tallies) (k : ℕ) → IsPlan plan →
        RunPuts plan first w put → put.asks k ≤ length plan.names * (length plan.names - 1) }
    ensures replies { (plan : Planned) (first : ℕ) (w : Progress) (put : Tallies) (k : ℕ) → IsPlan plan →
        RunPuts plan first w put → put.replies k ≤ put.asks k }
    ensures decisions { (plan : Planned) (first : ℕ) (w : Progress) (put : Tallies) (k : ℕ) → IsPlan plan →
        RunPuts plan first w put → put.decisions k ≤ put.asks k }
{}

/// Logs that were worked out by hand: which follow their plan, and which do not.
pub fn worked_follows()
    // Those of whole runs follow, and one that has come to the last phase begins.
    ensures fails_twice { FollowsPlan fails_twice fails_twice_log }
    ensures aborts { FollowsPlan rolls_back_then_aborts rolls_back_then_aborts_log }
    ensures arrive { FollowsPlan two_messages_then_failure both_arrive }
    ensures drops { FollowsPlan failure_before_message one_dropped }
    ensures begun { BeginsPlan two_messages_then_failure (take 4 both_arrive) }
    ensures unended { FollowsPlan two_messages_then_failure (take 4 both_arrive) → ⊥ }

    // These are legal, and don't even begin the plan: a command has no row when the next phase begins, commands are
    // swapped, a row of the later phase comes before one of the earlier, that phase begins while a message is under
    // way, a row answers no command.
    ensures legal { IsLegal one_left_out × IsLegal swapped × IsLegal too_early × IsLegal not_quiet × IsLegal both_arrive }
    ensures left_out { BeginsPlan two_messages_then_failure one_left_out → ⊥ }
    ensures swapped { BeginsPlan two_messages_then_failure swapped → ⊥ }
    ensures too_early { BeginsPlan two_messages_then_failure too_early → ⊥ }
    ensures not_quiet { BeginsPlan two_messages_then_failure not_quiet → ⊥ }
    ensures unasked { BeginsPlan two_messages both_arrive → ⊥ }

    // These are legal and have a row for each command, but do not end quietly: a message is in transit, an instance
    // undecided.
    ensures legal_open { IsLegal one_arrives × IsLegal undecided }
    ensures on_its_way { FollowsPlan two_messages one_arrives → ⊥ }
    ensures undecided { FollowsPlan one_checkpoint undecided → ⊥ }
{}

/// What stands in the way of steps of a plan that was worked out by hand.
pub fn worked_hindrances()
    // At first nothing stands in the way of the message that 0 sends; the checkpoint of 1 is of a later phase, 1 has
    // nothing to take, and there is no process 2.
    ensures first { at_end checkpoint_two_phases_later []
        (λ w. hindrance checkpoint_two_phases_later w (Do 0)) ≡ Some None }
    ensures later { at_end checkpoint_two_phases_later []
        (λ w. hindrance checkpoint_two_phases_later w (Do 1)) ≡ Some (Some PhaseNotOpen) }
    ensures nothing_sent { at_end checkpoint_two_phases_later []
        (λ w. hindrance checkpoint_two_phases_later w (Take 1 0)) ≡ Some (Some NoParcel) }
    ensures not_there { at_end checkpoint_two_phases_later []
        (λ w. hindrance checkpoint_two_phases_later w (Do 2)) ≡ Some (Some NoCommand) }

    // While 1 is in its checkpoint its message waits; at the end 0 has no command left.
    ensures waits { at_end checkpoint_two_phases_later (moves_of (Do 0 ∷ Take 1 0 ∷ Do 1 ∷ []))
        (λ w. hindrance checkpoint_two_phases_later w (Do 1)) ≡ Some (Some SendInInstance) }
    ensures all_done { at_end checkpoint_two_phases_later (moves_of checkpoint_two_phases_later_steps)
        (λ w. hindrance checkpoint_two_phases_later w (Do 0)) ≡ Some (Some NoCommand) }
{}

/// Plans that were worked out by hand come as far as they have to.
pub fn worked_plans()
    // The second command is of the third phase: two phases open at once, where the message has come.
    ensures is_plan { IsPlan checkpoint_two_phases_later }
    ensures steps { default_steps 20 checkpoint_two_phases_later ≡ checkpoint_two_phases_later_steps }
    ensures rows { at_end checkpoint_two_phases_later (moves_of checkpoint_two_phases_later_steps) (λ w. w.now.log)
        ≡ Some checkpoint_two_phases_later_log }
    ensures in_transit { at_end checkpoint_two_phases_later (moves_of (Do 0 ∷ [])) (λ w. w.phase) ≡ Some 0 }
    ensures arrived { at_end checkpoint_two_phases_later (moves_of (Do 0 ∷ Take 1 0 ∷ [])) (λ w. w.phase) ≡ Some 2 }
    ensures too_soon { at_end checkpoint_two_phases_later (moves_of (Do 0 ∷ Do 1 ∷ [])) (λ w. w.phase) ≡ None }
    ensures rest { at_end checkpoint_two_phases_later (moves_of checkpoint_two_phases_later_steps)
        (λ w. is_at_rest checkpoint_two_phases_later w) ≡ Some true }

    // Who begins the checkpoint has to be saved, and so has who is asked to join it.
    ensures begins { at_end checkpoint_two_phases_later (moves_of (Do 0 ∷ Take 1 0 ∷ []))
        (λ w. look checkpoint_two_phases_later w (Do 1)) ≡ Some NeedsSave }
    ensures joins { at_end checkpoint_two_phases_later (moves_of (Do 0 ∷ Take 1 0 ∷ Do 1 ∷ []))
        (λ w. look checkpoint_two_phases_later w (Take 0 1)) ≡ Some NeedsSave }

    // Phases without commands open at the start.
    ensures late { (start_after_hundred late_message).phase ≡ 3 }

    // While a message is held no phase opens, though each command of the open one is done.
    ensures held { at_end message_held (moves_of until_it_is_held) (λ w. w.phase) ≡ Some 1 }
    ensures received { at_end message_held (moves_of until_it_is_received) (λ w. w.now.log) ≡ Some message_held_log }
    ensures held_rest { at_end message_held (moves_of until_it_is_received) (λ w. is_at_rest message_held w)
        ≡ Some true }
{}

/// Runs that were worked out by hand come as far as they have to, with labels that begin after 100.
pub fn worked_progress()
    // Default steps lead to rest. No phase opens while a message is in transit; then two open at once.
    ensures is_plan { IsPlan fails_twice }
    ensures steps { default_steps 20 fails_twice ≡ fails_twice_steps }
    ensures log { at_end fails_twice (moves_of fails_twice_steps) (λ w. w.now.log) ≡ Some fails_twice_log }
    ensures by_gives { (after_gives fails_twice (start_after_hundred fails_twice) (gives 13)).now.log
        ≡ fails_twice_log }
    ensures rest { at_end fails_twice (moves_of fails_twice_steps) (λ w. is_at_rest fails_twice w) ≡ Some true }
    ensures in_transit { at_end fails_twice (moves_of (Do 0 ∷ [])) (λ w. w.phase) ≡ Some 0 }
    ensures arrived { at_end fails_twice (moves_of (Do 0 ∷ Take 1 0 ∷ [])) (λ w. w.phase) ≡ Some 2 }
    ensures too_soon { at_end fails_twice (moves_of (Do 0 ∷ Do 1 ∷ [])) (λ w. w.phase) ≡ None }

    // The message has the first label past 100, and so has the ask; who takes it has to be saved, keeps its object's
    // state, and who began the checkpoint makes its own permanent.
    ensures ask { at_end fails_twice (moves_of (Do 0 ∷ Take 1 0 ∷ Do 1 ∷ [])) (λ w. w.now.channel 1 0)
        ≡ Some (Ask 1 kind.Checkpoint 101 ∷ []) }
    ensures saves { at_end fails_twice (moves_of (Do 0 ∷ Take 1 0 ∷ Do 1 ∷ [])) (λ w. look fails_twice w (Take 0 1))
        ≡ Some NeedsSave }
    ensures offers { at_end fails_twice (moves_of (Do 0 ∷ Take 1 0 ∷ Do 1 ∷ Take 0 1 ∷ Take 1 0 ∷ []))
        (λ w. look fails_twice w (Do 1)) ≡ Some NeedsBody }
    ensures keeps { at_end fails_twice (moves_of (Do 0 ∷ Take 1 0 ∷ Do 1 ∷ []))
        (λ w. acts_of_step fails_twice w (Take 0 1) given 0) ≡ Some (Keep ∷ []) }
    ensures promotes { at_end fails_twice (moves_of (Do 0 ∷ Take 1 0 ∷ Do 1 ∷ Take 0 1 ∷ []))
        (λ w. acts_of_step fails_twice w (Take 1 0) given 1) ≡ Some (Promote ∷ []) }

    // Its instance puts one ask, one reply and one decision; its certificate has a chain of that message.
    ensures asks { (put_by fails_twice (moves_of fails_twice_steps)).asks 1 ≡ 1 }
    ensures replies { (put_by fails_twice (moves_of fails_twice_steps)).replies 1 ≡ 1 }
    ensures decisions { (put_by fails_twice (moves_of fails_twice_steps)).decisions 1 ≡ 1 }
    ensures certified { certificates fails_twice_log ≡ record {
      inst = 1;
      kind = kind.Checkpoint;
      initiator = 1;
      commit = true;
      members = (1, []) ∷ (0, 1 ∷ []) ∷ [];
    } ∷ [] }

    // At the end 1 has received 5, and so has its checkpoint; 0 has failed, and its checkpoint is from before it
    // received 7.
    ensures due_to_one { due all_bodies (done fails_twice_log) 1
        ≡ record { object = Some (pos 5 ∷ []); permanent = pos 5 ∷ []; tentative = None } }
    ensures due_to_zero { due all_bodies (done fails_twice_log) 0
        ≡ record { object = None; permanent = []; tentative = None } }

    // While a message is held no phase opens, though all commands of the open one are done. The message that was
    // rolled back is nowhere, the other one once.
    ensures holds { at_end rolls_back_then_aborts until_it_holds (λ w. messages_among (w.now.held 2 1)) ≡ Some (6 ∷ []) }
    ensures held_phase { at_end rolls_back_then_aborts until_all_are_done (λ w. w.phase) ≡ Some 1 }
    ensures aborts { at_end rolls_back_then_aborts rolls_back_then_aborts_moves (λ w. w.now.log)
        ≡ Some rolls_back_then_aborts_log }
    ensures aborts_rest { at_end rolls_back_then_aborts rolls_back_then_aborts_moves
        (λ w. is_at_rest rolls_back_then_aborts w) ≡ Some true }
    ensures once { at_end rolls_back_then_aborts rolls_back_then_aborts_moves (λ w. message_line w.now 2 1) ≡ Some (6 ∷ []) }
    ensures nowhere { at_end rolls_back_then_aborts rolls_back_then_aborts_moves (λ w. message_line w.now 0 1) ≡ Some [] }

    // 0 restores, applies, keeps and discards; 1 applies, restores and applies.
    ensures told_zero { acts_told (told_by rolls_back_then_aborts (start_after_hundred rolls_back_then_aborts) 0
        rolls_back_then_aborts_moves) ≡ Restore ∷ Apply 1 (pos 3) ∷ Keep ∷ Discard ∷ [] }
    ensures told_one { acts_told (told_by rolls_back_then_aborts (start_after_hundred rolls_back_then_aborts) 1
        rolls_back_then_aborts_moves) ≡ Apply 0 (pos 1) ∷ Restore ∷ Apply 2 (pos 2) ∷ [] }
{}
