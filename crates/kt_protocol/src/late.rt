//! Laws of the machine in which a commit takes effect late: each function has nothing to run, and its contract is the law.

ghost use Rattle.std.specs.Prelude.{◌≡◌, ◌<◌, ◌++◌, ◌∷◌, [], ℕ, true, List, take};
ghost use Rattle.kt_meaning.specs.Past.{past};
ghost use Rattle.kt_meaning.specs.Legal.{IsLegal};
ghost use Rattle.kt_meaning.specs.Cuts.{IsConsistent, permanent_cut, present_cut};
ghost use Rattle.kt_meaning.specs.Throughout.{HasConsistentDecisions};
ghost use Rattle.kt_protocol.specs.Parcels.{App};
ghost use Rattle.kt_protocol.specs.Summary.{summary};
ghost use Rattle.kt_protocol.specs.States.{ProtocolStep, Take, opening};
ghost use Rattle.kt_protocol.specs.Steps.{run};
ghost use Rattle.kt_protocol.specs.InTransit.{HasNoMessage};
ghost use Rattle.kt_meaning.specs.Decided.{HasLinkedDecisions, HasLeastDecisions, AbortsWhereUnwilling, AbortsChangeNothing, JustifiesUnwilling};
ghost use Rattle.kt_protocol.specs.LateClosing.{is_newer};
ghost use Rattle.kt_protocol.specs.LateSteps.{late_run};
ghost use Rattle.kt_protocol.specs.OnceClosed.{once_closed};
ghost use Rattle.kt_protocol.specs.OwnHistories.{own_histories, live_once_closed};
ghost use Rattle.kt_protocol.specs.KeptInOrder.{has_only_messages, is_in_checkpoint, IsParted};
ghost use Rattle.kt_protocol.specs.WorkedLateRuns.{receives_before_closing, holds_before_closing};

/// After every list of steps: how the state is related to that of the protocol's machine after the same steps.
pub fn late_runs()
    // Once what is still to be done at closed rows is done, it is that state; and so the two logs are the same.
    ensures closed { (n : ℕ) (steps : List ProtocolStep) → once_closed (late_run (opening n) steps) ≡ run (opening n) steps }
    ensures same_log { (n : ℕ) (steps : List ProtocolStep) → (late_run (opening n) steps).log ≡ (run (opening n) steps).log }

    // Where nobody is in an instance, the two states are the same.
    ensures at_rest { (n : ℕ) (steps : List ProtocolStep) →
        ((p : ℕ) → (late_run (opening n) steps).so_far.open_in p ≡ 0) → late_run (opening n) steps ≡ run (opening n) steps }

    // The numbers that the state carries are those of its log.
    ensures known { (n : ℕ) (steps : List ProtocolStep) → (late_run (opening n) steps).so_far ≡ summary (late_run (opening n) steps).log }
{}

/// For every list of steps: what the log of the run is.
pub fn logs_of_late_runs()
    // Each row keeps every rule.
    ensures legal { (n : ℕ) (steps : List ProtocolStep) → IsLegal (late_run (opening n) steps).log }

    // At every row the permanent cut and the present cut have no orphan.
    ensures consistent_decisions { (n : ℕ) (steps : List ProtocolStep) → HasConsistentDecisions (late_run (opening n) steps).log }
    ensures permanent_cuts { (n : ℕ) (steps : List ProtocolStep) (t : ℕ) →
        IsConsistent (past (take t (late_run (opening n) steps).log)) (permanent_cut (past (take t (late_run (opening n) steps).log))) }
    ensures present_cuts { (n : ℕ) (steps : List ProtocolStep) (t : ℕ) →
        IsConsistent (past (take t (late_run (opening n) steps).log)) (present_cut (past (take t (late_run (opening n) steps).log))) }

    // The members of each decided instance have linking messages with earlier ones, and those of each committed one are
    // the least set.
    ensures linked_decisions { (n : ℕ) (steps : List ProtocolStep) → HasLinkedDecisions (late_run (opening n) steps).log }
    ensures least_decisions { (n : ℕ) (steps : List ProtocolStep) → HasLeastDecisions (late_run (opening n) steps).log }

    // A decided instance is aborted exactly where a process was unwilling to join, and that was asked by a message.
    ensures aborts { (n : ℕ) (steps : List ProtocolStep) → AbortsWhereUnwilling (late_run (opening n) steps).log }
    ensures justified { (n : ℕ) (steps : List ProtocolStep) → JustifiesUnwilling (late_run (opening n) steps).log }

    // The decision of an aborted instance changes no live history and no permanent position.
    ensures unchanged { (n : ℕ) (steps : List ProtocolStep) → AbortsChangeNothing (late_run (opening n) steps).log }
{}

/// After every list of steps: each process's live history is what the process itself has done, cut back at its permanent
/// position where it has a committed rollback to close.
pub fn histories_of_late_runs()
    ensures own { (n : ℕ) (steps : List ProtocolStep) (p : ℕ) →
        (late_run (opening n) steps).so_far.live p ≡ live_once_closed (late_run (opening n) steps).so_far (own_histories (late_run (opening n) steps).log).own p }
{}

/// After every list of steps: what is kept and held, in which order, and what is in front.
pub fn lists_of_late_runs()
    // While a process is in a checkpoint, what it received before its tentative checkpoint stands first in each list that is
    // kept for it: so a commit forgets a front part.
    ensures older_first { (n : ℕ) (steps : List ProtocolStep) (p : ℕ) (q : ℕ) →
        is_in_checkpoint (late_run (opening n) steps).so_far p ≡ true →
        IsParted (is_newer (late_run (opening n) steps) p) ((late_run (opening n) steps).kept q p) }

    // What is kept and what is held is messages alone; and so is what is held in the protocol's machine.
    ensures kept_messages { (n : ℕ) (steps : List ProtocolStep) (q : ℕ) (p : ℕ) → has_only_messages ((late_run (opening n) steps).kept q p) ≡ true }
    ensures held_messages { (n : ℕ) (steps : List ProtocolStep) (q : ℕ) (p : ℕ) → has_only_messages ((late_run (opening n) steps).held q p) ≡ true }
    ensures held_messages_at_once { (n : ℕ) (steps : List ProtocolStep) (q : ℕ) (p : ℕ) → has_only_messages ((run (opening n) steps).held q p) ≡ true }

    // From when a process notes a sender until it closes, no message of that sender is in front of it.
    ensures quiet { (n : ℕ) (steps : List ProtocolStep) (k : ℕ) (q : ℕ) (p : ℕ) → 0 < k →
        (late_run (opening n) steps).so_far.open_in p ≡ k → (late_run (opening n) steps).noted k p q ≡ true →
        HasNoMessage ((late_run (opening n) steps).channel q p) }
{}

/// Runs that were worked out by hand leave what they have to, before a closed row and after it, beside the protocol's
/// machine.
pub fn worked_late_runs()
    // A process that has not closed a committed checkpoint still keeps what it will forget, and what it received since.
    ensures keeps_older { (late_run (opening 3) receives_before_closing).kept 1 0 ≡ App 1 ∷ [] }
    ensures keeps_newer { (late_run (opening 3) receives_before_closing).kept 2 0 ≡ App 3 ∷ [] }
    ensures keeps_label { (late_run (opening 3) receives_before_closing).last_sent 0 1 ≡ 0 }

    // In the protocol's machine it is forgotten.
    ensures older_is_forgotten { (run (opening 3) receives_before_closing).kept 1 0 ≡ [] }
    ensures label_is_new { (run (opening 3) receives_before_closing).last_sent 0 1 ≡ 4 }

    // And so it is once the process closes.
    ensures forgets_older { (late_run (opening 3) (receives_before_closing ++ Take 0 1 true ∷ [])).kept 1 0 ≡ [] }
    ensures forgets_no_newer { (late_run (opening 3) (receives_before_closing ++ Take 0 1 true ∷ [])).kept 2 0 ≡ App 3 ∷ [] }
    ensures renews_label { (late_run (opening 3) (receives_before_closing ++ Take 0 1 true ∷ [])).last_sent 0 1 ≡ 4 }

    // A process that has not closed a committed rollback still keeps what it will put back, and holds what came since.
    ensures holds_newer { (late_run (opening 3) holds_before_closing).held 2 1 ≡ App 5 ∷ [] }
    ensures keeps_undone { (late_run (opening 3) holds_before_closing).kept 0 1 ≡ App 1 ∷ [] }

    // In the protocol's machine it is put back.
    ensures is_put_back { (run (opening 3) holds_before_closing).held 2 1 ≡ App 3 ∷ App 5 ∷ [] }

    // And so it is once the process closes; what was undone is gone.
    ensures puts_back { (late_run (opening 3) (holds_before_closing ++ Take 1 0 true ∷ [])).held 2 1 ≡ App 3 ∷ App 5 ∷ [] }
    ensures drops_undone { (late_run (opening 3) (holds_before_closing ++ Take 1 0 true ∷ [])).held 0 1 ≡ [] }
{}
