//! Laws of values: each function has nothing to run, and its contract is the law.

ghost use Rattle.std.specs.Prelude.{◌≡◌, None, pos, ℕ, ◌≤◌, ◌+◌, ℤ, Bool, true, false, Some, is_some, List, [], ◌∷◌, ◌++◌, length, drop, slice_get};
ghost use Rattle.kt_spacetime.specs.Events.{process_of};
ghost use Rattle.kt_spacetime.specs.declared.event.Event.{Event};
ghost use Rattle.kt_spacetime.specs.declared.event.Event.TheVariants.{Sent, Decided, Closed};
ghost use Rattle.kt_meaning.specs.Past.{past, is_rollback, is_committed};
ghost use Rattle.kt_meaning.specs.Legal.{IsLegal};
ghost use Rattle.kt_protocol.specs.Parcels.{messages, App, messages_where};
ghost use Rattle.kt_protocol.specs.States.{ProtocolStep, opening, Begin, Take};
ghost use Rattle.kt_protocol.specs.LateClosing.{is_newer};
ghost use Rattle.kt_protocol.specs.LateSteps.{late_step, late_run};
ghost use Rattle.kt_protocol.specs.KeptInOrder.{is_in_checkpoint};
ghost use Rattle.kt_protocol.specs.OwnHistories.{own_histories};
ghost use Rattle.kt_machine.specs.Seen.{seen};
ghost use Rattle.kt_machine.specs.Done.{done};
ghost use Rattle.kt_machine.specs.Values.{Rules, due, first_due, does_all, can_all, spares, acts_along, closing, Apply, Keep, Promote, Discard, Restore, Drop};
ghost use Rattle.kt_machine.specs.Acts.{acts, acts_by, acts_through, stepper, failures};
ghost use Rattle.kt_machine.specs.SeenActs.{seen_acts};
ghost use Rattle.kt_machine.specs.States.{due_in, IsSent, live_in, permanent_in, messages_between, StandsOnce, KeepsReceived, AreRisingNumbers};
ghost use Rattle.kt_machine.specs.Marks.{marks};
ghost use Rattle.kt_machine.specs.Offers.{SendsOffers, HasOffers};
ghost use Rattle.kt_machine.specs.Things.{Things, Saving, IsSaving, first_things, LeadsAlong, things_for};
ghost use Rattle.kt_machine.specs.WorkedValues.{all_bodies, receives_before_closing, fails_and_is_restored, is_not_saved, sends_offers};

/// What is due to a process, for every kind of object: of every legal log, and of every run.
pub fn values_of_runs<V>()
    // Of every legal log: the acts of a process at some more rows lead from what is due to it before to what is due to it
    // after. (A process has no acts at the rows of others.)
    ensures rows { (r : Rules V) (log more : List Event) (p : ℕ) → IsLegal (log ++ more) →
        does_all r (due r (done log) p) (acts_along p (done log) more) ≡ due r (done (log ++ more)) p }

    // The acts of a step, done in order, lead from what is due to its process before to what is due to it after; to the
    // others the same is due as before.
    ensures steps { (r : Rules V) (n : ℕ) (steps : List ProtocolStep) (x : ProtocolStep) (p : ℕ) →
        does_all r (due r (done (late_run (opening n) steps).log) p) (acts_by p (late_run (opening n) steps) x)
        ≡ due r (done (late_step (late_run (opening n) steps) x).log) p }

    // So doing the acts of a whole run leads to what is due at its end.
    ensures runs { (r : Rules V) (n : ℕ) (steps : List ProtocolStep) (p : ℕ) →
        does_all r (first_due r) (acts_through p (opening n) steps) ≡ due r (done (late_run (opening n) steps).log) p }

    // What is due by the log is due by the fields of the state.
    ensures states { (r : Rules V) (n : ℕ) (steps : List ProtocolStep) (p : ℕ) →
        due_in r (late_run (opening n) steps) p ≡ due r (done (late_run (opening n) steps).log) p }

    // An object is due to a process exactly where it is up, and a tentative state exactly while it is in a checkpoint.
    ensures objects { (r : Rules V) (n : ℕ) (steps : List ProtocolStep) (p : ℕ) →
        is_some (due r (done (late_run (opening n) steps).log) p).object ≡ (late_run (opening n) steps).up p }
    ensures tentatives { (r : Rules V) (n : ℕ) (steps : List ProtocolStep) (p : ℕ) →
        is_some (due r (done (late_run (opening n) steps).log) p).tentative ≡ is_in_checkpoint (late_run (opening n) steps).so_far p }

    // Each act of a run can be done when its turn comes, and restoring takes no more spares than the process is asked to fail.
    ensures can { (r : Rules V) (n : ℕ) (steps : List ProtocolStep) (p : ℕ) → can_all r (first_due r) (acts_through p (opening n) steps) ≡ true }
    ensures can_step { (r : Rules V) (n : ℕ) (steps : List ProtocolStep) (x : ProtocolStep) (p : ℕ) →
        can_all r (due r (done (late_run (opening n) steps).log) p) (acts_by p (late_run (opening n) steps) x) ≡ true }
    ensures spares { (r : Rules V) (n : ℕ) (steps : List ProtocolStep) (p : ℕ) →
        spares r (first_due r) (acts_through p (opening n) steps) ≤ failures p steps }

    // Where the steps send what objects offer at some places of the log, the sent rows there have it.
    ensures offers { (r : Rules V) (marked : ℕ → Bool) (n : ℕ) (steps : List ProtocolStep) → SendsOffers r marked (opening n) steps →
        HasOffers r marked (late_run (opening n) steps).log }

    // A step that closes an aborted instance changes no object and no permanent state.
    ensures aborts_objects { (r : Rules V) (n : ℕ) (steps : List ProtocolStep) (x : ProtocolStep) (i p k u : ℕ) →
        slice_get (late_step (late_run (opening n) steps) x).log i ≡ Some (Closed p k) →
        length (late_run (opening n) steps).log ≤ i →
        is_committed (past (late_step (late_run (opening n) steps) x).log) k ≡ false →
        (due r (done (late_step (late_run (opening n) steps) x).log) u).object ≡ (due r (done (late_run (opening n) steps).log) u).object }
    ensures aborts_saved { (r : Rules V) (n : ℕ) (steps : List ProtocolStep) (x : ProtocolStep) (i p k u : ℕ) →
        slice_get (late_step (late_run (opening n) steps) x).log i ≡ Some (Closed p k) →
        length (late_run (opening n) steps).log ≤ i →
        is_committed (past (late_step (late_run (opening n) steps) x).log) k ≡ false →
        (due r (done (late_step (late_run (opening n) steps) x).log) u).permanent ≡ (due r (done (late_run (opening n) steps).log) u).permanent }
{}

/// After every list of steps: the acts of a step by what code keeps of the state, whichever label counters begin after, are
/// its acts.
pub fn acts_as_seen()
    ensures { (n first : ℕ) (steps : List ProtocolStep) (x : ProtocolStep) →
        acts (late_run (opening n) steps) x ≡ seen_acts (seen first (late_run (opening n) steps)) x }
{}

/// What a process itself has done, and the acts of steps.
pub fn acts_of_runs()
    // What is done along a log says what the log means, and each message's body; a live history is the own one, cut back
    // where its process is in a committed rollback, and a permanent position is the own one, moved where it is in a
    // committed checkpoint.
    ensures past { (log : List Event) → (done log).past ≡ past log }
    ensures bodies { (log : List Event) (i p q : ℕ) (body : ℤ) → slice_get log i ≡ Some (Sent p q body) → (done log).body (i + 1) ≡ body }
    ensures live { (log : List Event) (p : ℕ) → IsLegal log → (past log).live p ≡ live_in (done log) p ((past log).open_in p) }

    ensures permanents { (log : List Event) (p : ℕ) → IsLegal log → (past log).permanent p ≡ permanent_in (done log) p ((past log).open_in p) }

    // A row that decides an abort changes no live history and no permanent position.
    ensures aborted_live { (log : List Event) (p k q : ℕ) → (past (log ++ Decided p k false ∷ [])).live q ≡ (past log).live q }
    ensures aborted_permanents { (log : List Event) (p k q : ℕ) → (past (log ++ Decided p k false ∷ [])).permanent q ≡ (past log).permanent q }

    // Own histories are those that kt_protocol tells, and the state has the own permanent positions.
    ensures own { (n : ℕ) (steps : List ProtocolStep) (p : ℕ) → (own_histories (late_run (opening n) steps).log).own p ≡ (done (late_run (opening n) steps).log).own p }
    ensures positions { (n : ℕ) (steps : List ProtocolStep) (p : ℕ) → (late_run (opening n) steps).own_permanent p ≡ (done (late_run (opening n) steps).log).permanent p }

    // The rows that a step adds, four at most, are its process's, and their acts are the step's, two at most.
    ensures one_process { (n : ℕ) (steps : List ProtocolStep) (x : ProtocolStep) (i : ℕ) (row : Event) → length (late_run (opening n) steps).log ≤ i →
        slice_get (late_step (late_run (opening n) steps) x).log i ≡ Some row → process_of row ≡ stepper x }
    ensures told { (n : ℕ) (steps : List ProtocolStep) (x : ProtocolStep) (rows : List Event) (p : ℕ) →
        (late_step (late_run (opening n) steps) x).log ≡ (late_run (opening n) steps).log ++ rows →
        acts_along p (done (late_run (opening n) steps).log) rows ≡ acts_by p (late_run (opening n) steps) x }
    ensures four { (n : ℕ) (steps : List ProtocolStep) (x : ProtocolStep) →
        length (late_step (late_run (opening n) steps) x).log ≤ length (late_run (opening n) steps).log + 4 }
    ensures two { (n : ℕ) (steps : List ProtocolStep) (x : ProtocolStep) → length (acts (late_run (opening n) steps) x) ≤ 2 }

    // Each message in a channel, a held list or a kept list is a sent row of that sender to that receiver, with its body.
    ensures sent { (n : ℕ) (steps : List ProtocolStep) (q p i m : ℕ) → slice_get ((late_run (opening n) steps).channel q p) i ≡ Some (App m) → IsSent (late_run (opening n) steps).log m q p }
    ensures held { (n : ℕ) (steps : List ProtocolStep) (q p i m : ℕ) → slice_get ((late_run (opening n) steps).held q p) i ≡ Some (App m) → IsSent (late_run (opening n) steps).log m q p }
    ensures kept { (n : ℕ) (steps : List ProtocolStep) (q p i m : ℕ) → slice_get ((late_run (opening n) steps).kept q p) i ≡ Some (App m) → IsSent (late_run (opening n) steps).log m q p }

    // Each live message that isn't dropped stands once: in what its receiver has received itself, in what it holds, or in
    // the channel.
    ensures stands_once { (n : ℕ) (steps : List ProtocolStep) → StandsOnce (late_run (opening n) steps).log (late_run (opening n) steps).channel (late_run (opening n) steps).held }

    // These lists rise, in that order. What is kept is what was received past the own permanent position.
    ensures rising { (n : ℕ) (steps : List ProtocolStep) (p q : ℕ) →
        AreRisingNumbers (messages_between (done (late_run (opening n) steps).log).own (late_run (opening n) steps).channel (late_run (opening n) steps).held p q) }
    ensures kept_lists { (n : ℕ) (steps : List ProtocolStep) → KeepsReceived (late_run (opening n) steps).log (late_run (opening n) steps).kept }

    // While a process is in a checkpoint, what a commit would leave of a kept list is what stands past the mark.
    ensures marks { (n : ℕ) (steps : List ProtocolStep) (p q : ℕ) → is_in_checkpoint (late_run (opening n) steps).so_far p ≡ true →
        messages (messages_where (is_newer (late_run (opening n) steps) p) ((late_run (opening n) steps).kept q p)) ≡ drop ((marks (late_run (opening n) steps).log).mark p q) (messages ((late_run (opening n) steps).kept q p)) }

    // A step that closes an aborted instance has no other act than discarding the tentative state in a checkpoint, and none
    // in a rollback.
    ensures aborts { (n : ℕ) (steps : List ProtocolStep) (x : ProtocolStep) (i p k : ℕ) →
        slice_get (late_step (late_run (opening n) steps) x).log i ≡ Some (Closed p k) →
        length (late_run (opening n) steps).log ≤ i →
        is_committed (past (late_step (late_run (opening n) steps) x).log) k ≡ false →
        acts (late_run (opening n) steps) x ≡ closing (is_rollback (past (late_step (late_run (opening n) steps) x).log) k) false }
{}

/// Objects and saved states to which each act of a run has been done in order are those that are due, however values are
/// saved.
pub fn things_of_runs<V, B>()
    ensures things { (r : Rules V) (s : Saving V B) (n : ℕ) (steps : List ProtocolStep) (p : ℕ) (y : Things V B) → IsSaving r s →
        LeadsAlong r s (acts_through p (opening n) steps) (first_things r s) y →
        y ≡ things_for s (due r (done (late_run (opening n) steps).log) p) }
{}

/// Runs that were worked out by hand have the acts, values and offers that they have to.
pub fn worked_values()
    // The acts of 0 through its own closed row, and those of 1.
    ensures keeps_then_promotes { acts_through 0 (opening 3) (receives_before_closing ++ Take 0 1 true ∷ []) ≡ Apply 1 (pos 5) ∷ Keep ∷ Apply 2 (pos 6) ∷ Promote ∷ [] }
    ensures promotes_first { acts_through 1 (opening 3) receives_before_closing ≡ Apply 0 (pos 7) ∷ Keep ∷ Promote ∷ [] }

    // Before 0 has closed it, its permanent state is the old one, and its object has what it received since.
    ensures is_still_tentative { due all_bodies (done (late_run (opening 3) receives_before_closing).log) 0 ≡ record { object = Some (pos 5 ∷ pos 6 ∷ []); permanent = []; tentative = Some (pos 5 ∷ []) } }

    // Once 0 has closed it, its tentative state is the permanent one, and its object's value stays.
    ensures is_permanent_once_closed { due all_bodies (done (late_run (opening 3) (receives_before_closing ++ Take 0 1 true ∷ [])).log) 0 ≡ record { object = Some (pos 5 ∷ pos 6 ∷ []); permanent = pos 5 ∷ []; tentative = None } }

    // 1 is restored where it has no object; what 0 sent is gone, and what 2 sent comes again.
    ensures restores_from_a_spare { acts_through 1 (opening 3) (fails_and_is_restored ++ Take 1 2 true ∷ []) ≡ Apply 0 (pos 5) ∷ Apply 2 (pos 6) ∷ Drop ∷ Restore ∷ Apply 2 (pos 6) ∷ [] }
    ensures restores { acts_through 0 (opening 3) fails_and_is_restored ≡ Restore ∷ [] }
    ensures has_what_came_again { due all_bodies (done (late_run (opening 3) (fails_and_is_restored ++ Take 1 2 true ∷ [])).log) 1 ≡ record { object = Some (pos 6 ∷ []); permanent = []; tentative = None } }

    // An abort discards the tentative state, and changes neither the object nor the permanent state.
    ensures discards { acts_through 1 (opening 2) is_not_saved ≡ Apply 0 (pos 7) ∷ Keep ∷ Discard ∷ [] }
    ensures abort_changes_nothing { due all_bodies (done (late_run (opening 2) is_not_saved).log) 1 ≡ record { object = Some (pos 7 ∷ []); permanent = []; tentative = None } }

    // Alone, both acts are those of one step.
    ensures keeps_and_promotes_at_once { acts_through 0 (opening 1) (Begin 0 false true ∷ []) ≡ Keep ∷ Promote ∷ [] }

    // These sends are offers.
    ensures has_offers { SendsOffers all_bodies (λ i. true) (opening 2) sends_offers }
{}
