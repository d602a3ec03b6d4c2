//! Laws of the definitions: each function has nothing to run, and its contract is the law.

ghost use Rattle.std.specs.Prelude.{◌≡◌, ◌≢◌, ℕ, Bool, ◌+◌, ◌<◌, ◌≤◌, ◌↔◌, true, false, Some, None, List, [], ◌∷◌, ◌++◌, length, take, slice_get, Contains};
ghost use Rattle.kt_spacetime.specs.declared.event.Event.{Event};
ghost use Rattle.kt_spacetime.specs.declared.event.Event.TheVariants.{Decided};
ghost use Rattle.kt_spacetime.specs.declared.rules.Rule.{Rule};
ghost use Rattle.kt_meaning.specs.Past.{Past, past, after, live_after, permanent_after, new_after, is_rollback, is_member, initiator_of};
ghost use Rattle.kt_spacetime.specs.declared.deeds.Deed.{Deed};
ghost use Rattle.kt_spacetime.specs.declared.deeds.Deed.TheVariants as deed;
ghost use Rattle.kt_meaning.specs.Cuts.{part, IsOrphan, IsConsistent, permanent_cut, present_cut, checkpoint_cut, rollback_cut};
ghost use Rattle.kt_meaning.specs.Chains.{members, LinksCheckpoint, LinksRollback, IsCheckpointChain, IsRollbackChain};
ghost use Rattle.kt_meaning.specs.Least.{HasInitiator, IsCheckpointChoice, IsLeastCheckpointSet, cut_without, IsLeastRollbackSet, EachLinks};
ghost use Rattle.kt_meaning.specs.Messages.{IsMessage};
ghost use Rattle.kt_meaning.specs.InCheckpoint.{IsInCheckpoint, decides};
ghost use Rattle.kt_meaning.specs.Legal.{IsLegal, broken_rule, first_broken, has_deed};
ghost use Rattle.kt_meaning.specs.Throughout.{HasConsistentDecisions};

/// How the prefixes of a log and its first broken rule tell whether it is legal.
pub fn legal_logs()
    // A front of a legal log is legal.
    ensures front { (log more : List Event) → IsLegal (log ++ more) → IsLegal log }
    ensures prefix { (log : List Event) (n : ℕ) → IsLegal log → IsLegal (take n log) }

    // One more row.
    ensures one_more { (log : List Event) (row : Event) → past (log ++ row ∷ []) ≡ after (past log) row }
    ensures one_more_legal { (log : List Event) (row : Event) →
        IsLegal (log ++ row ∷ []) ↔ (IsLegal log × (broken_rule (past log) row ≡ None)) }

    // The first broken rule.
    ensures unbroken { (log : List Event) → IsLegal log ↔ (first_broken log ≡ None) }
    ensures broken { (log : List Event) (n : ℕ) (row : Event) (rule : Rule) →
        IsLegal (take n log) → slice_get log n ≡ Some row → broken_rule (past (take n log)) row ≡ Some rule →
        first_broken log ≡ Some (n + 1, rule) }
{}

/// Where the positions of a legal log stand, and what a process in an undecided checkpoint keeps.
pub fn positions_of_legal_logs()
    ensures permanent { (log : List Event) → IsLegal log → (p : ℕ) →
        (past log).permanent p ≤ length ((past log).live p) }

    // The members of an undecided instance are in it, and who is in an instance is a member.
    ensures inside { (log : List Event) → IsLegal log → (k p : ℕ) →
        (past log).decision k ≡ None → is_member (past log) k p ≡ true → (past log).open_in p ≡ Some k }
    ensures joined { (log : List Event) → IsLegal log → (k p : ℕ) →
        (past log).open_in p ≡ Some k → is_member (past log) k p ≡ true }

    // A process in an undecided checkpoint: its new position, and what one more row does.
    ensures new { (log : List Event) → IsLegal log → (k p : ℕ) → IsInCheckpoint (past log) k p → (n : ℕ) ×
        ((past log).new k p ≡ Some n) × ((past log).permanent p ≤ n) × (n ≤ length ((past log).live p)) }
    ensures uncut { (log : List Event) (row : Event) → IsLegal (log ++ row ∷ []) → (k p : ℕ) →
        IsInCheckpoint (past log) k p →
        (more : List Deed) × ((past (log ++ row ∷ [])).live p ≡ (past log).live p ++ more) }
    ensures unmoved { (log : List Event) (row : Event) → IsLegal (log ++ row ∷ []) → (k p : ℕ) →
        IsInCheckpoint (past log) k p → decides row k ≡ false →
        (past (log ++ row ∷ [])).permanent p ≡ (past log).permanent p }
{}

/// Where messages stand in the live histories of a legal log.
pub fn places_of_legal_logs()
    // A message stands at most once as sent, and at most once as received, in all live histories.
    ensures sent_once { (log : List Event) → IsLegal log → (p q i j msg to other : ℕ) →
        slice_get ((past log).live p) i ≡ Some (deed.Sent msg to) →
        slice_get ((past log).live q) j ≡ Some (deed.Sent msg other) → (p ≡ q) × (i ≡ j) }
    ensures received_once { (log : List Event) → IsLegal log → (p q i j msg from other : ℕ) →
        slice_get ((past log).live p) i ≡ Some (deed.Received msg from) →
        slice_get ((past log).live q) j ≡ Some (deed.Received msg other) → (p ≡ q) × (i ≡ j) }
    ensures deed_once { (log : List Event) → IsLegal log → (p i j : ℕ) (d : Deed) →
        slice_get ((past log).live p) i ≡ Some d → slice_get ((past log).live p) j ≡ Some d → i ≡ j }

    // A history's sends rise in number, and what it received of one sender does.
    ensures sent_within { (log : List Event) → IsLegal log → (p i msg to : ℕ) →
        slice_get ((past log).live p) i ≡ Some (deed.Sent msg to) → (1 ≤ msg) × (msg ≤ length log) }
    ensures sent_rise { (log : List Event) → IsLegal log → (p i j msg later to other : ℕ) → i < j →
        slice_get ((past log).live p) i ≡ Some (deed.Sent msg to) →
        slice_get ((past log).live p) j ≡ Some (deed.Sent later other) → msg < later }
    ensures received_rise { (log : List Event) → IsLegal log → (p from i j msg later : ℕ) → i < j →
        slice_get ((past log).live p) i ≡ Some (deed.Received msg from) →
        slice_get ((past log).live p) j ≡ Some (deed.Received later from) → msg < later }

    // What stands in a live history has its row in the log.
    ensures sent_row { (log : List Event) → IsLegal log → (p i msg to : ℕ) →
        slice_get ((past log).live p) i ≡ Some (deed.Sent msg to) → IsMessage log msg p to }
    ensures received_row { (log : List Event) → IsLegal log → (p i msg from : ℕ) →
        slice_get ((past log).live p) i ≡ Some (deed.Received msg from) → IsMessage log msg from p }
{}

/// What one more row does to live histories, positions and members.
pub fn one_more_row()
    ensures live { (log : List Event) (row : Event) (p : ℕ) →
        (past (log ++ row ∷ [])).live p ≡ live_after (past log) row p }
    ensures permanent { (log : List Event) (row : Event) (p : ℕ) →
        (past (log ++ row ∷ [])).permanent p ≡ permanent_after (past log) row p }
    ensures new { (log : List Event) (row : Event) (k p : ℕ) →
        (past (log ++ row ∷ [])).new k p ≡ new_after (past log) row k p }
    ensures members { (log : List Event) (row : Event) (k : ℕ) →
        members (log ++ row ∷ []) k ≡ members log k ++ members (row ∷ []) k }
{}

/// Who the members of an instance are, and in which order.
pub fn members_of_legal_logs()
    // Whoever joined by a row of the log.
    ensures member { (log : List Event) (k p : ℕ) →
        (is_member (past log) k p ≡ true) ↔ Contains (members log k) p }

    // In a legal log each joins once, the initiator first.
    ensures joins_once { (log : List Event) → IsLegal log → (k i j p : ℕ) →
        slice_get (members log k) i ≡ Some p → slice_get (members log k) j ≡ Some p → i ≡ j }
    ensures initiator_first { (log : List Event) → IsLegal log → (k p : ℕ) →
        slice_get (members log k) 0 ≡ Some p → initiator_of (past log) k ≡ Some p }
{}

/// Why the members of a checkpoint are the least set: each is bound to the initiator by messages that a consistent
/// choice cannot leave out.
pub fn least_checkpoint_sets()
    // A consistent choice has the process at the end of a chain.
    ensures chain { (log : List Event) (k i p : ℕ) (chain : List ℕ) → initiator_of (past log) k ≡ Some i →
        IsCheckpointChain (past log) k i chain p → (set : ℕ → Bool) (cut : ℕ → ℕ) →
        IsCheckpointChoice (past log) k set cut → IsConsistent (past log) cut → set p ≡ true }

    // The members' cut is consistent, and each but the initiator has a chain, or a linking message with an earlier one.
    ensures by_chains { (log : List Event) (k i : ℕ) → initiator_of (past log) k ≡ Some i →
        IsConsistent (past log) (checkpoint_cut (past log) k) →
        ((p : ℕ) → is_member (past log) k p ≡ true → p ≢ i →
        (chain : List ℕ) × IsCheckpointChain (past log) k i chain p) →
        IsLeastCheckpointSet (past log) k }
    ensures by_links { (log : List Event) (k : ℕ) → IsConsistent (past log) (checkpoint_cut (past log) k) →
        EachLinks (LinksCheckpoint (past log) k) (initiator_of (past log) k) (members log k) →
        IsLeastCheckpointSet (past log) k }

    // Just before the decision of a legal log the members and their cut are such a choice.
    ensures choice { (log : List Event) (k p : ℕ) (commit : Bool) → IsLegal (log ++ Decided p k commit ∷ []) →
        IsCheckpointChoice (past log) k (is_member (past log) k) (checkpoint_cut (past log) k) }
{}

/// Why the members of a rollback are the least set: each is bound to the initiator by messages that would be orphans.
pub fn least_rollback_sets()
    // A set with the initiator whose cut is consistent has the process at the end of a chain.
    ensures chain { (log : List Event) (k i p : ℕ) (chain : List ℕ) → initiator_of (past log) k ≡ Some i →
        IsRollbackChain (past log) i chain p → (set : ℕ → Bool) →
        HasInitiator (past log) k set → IsConsistent (past log) (cut_without (past log) set) → set p ≡ true }

    // The members' cut is consistent, and each but the initiator has a chain, or a linking message with an earlier one.
    ensures by_chains { (log : List Event) (k i : ℕ) → initiator_of (past log) k ≡ Some i →
        IsConsistent (past log) (rollback_cut (past log) k) →
        ((p : ℕ) → is_member (past log) k p ≡ true → p ≢ i →
        (chain : List ℕ) × IsRollbackChain (past log) i chain p) →
        IsLeastRollbackSet (past log) k }
    ensures by_links { (log : List Event) (k : ℕ) → IsConsistent (past log) (rollback_cut (past log) k) →
        EachLinks (LinksRollback (past log)) (initiator_of (past log) k) (members log k) →
        IsLeastRollbackSet (past log) k }

    // Just before the decision of a legal log the members are such a set, and their cut is the members' cut.
    ensures initiator { (log : List Event) (k p : ℕ) (commit : Bool) → IsLegal (log ++ Decided p k commit ∷ []) →
        HasInitiator (past log) k (is_member (past log) k) }
    ensures cut { (log : List Event) (k p : ℕ) → IsLegal log → is_rollback (past log) k ≡ true →
        cut_without (past log) (is_member (past log) k) p ≡ rollback_cut (past log) k p }
{}

/// When a cut is consistent, and what keeps the permanent and the present cut so.
pub fn consistent_cuts()
    // A cut without an orphan; one in which what is received in a part is sent in the sender's part.
    ensures no_orphan { (s : Past) (cut : ℕ → ℕ) → IsConsistent s cut ↔ ((msg : ℕ) → IsOrphan s cut msg → ⊥) }
    ensures sent { (s : Past) (cut : ℕ → ℕ) → IsConsistent s cut ↔ ((p q i msg : ℕ) →
        slice_get (part s cut p) i ≡ Some (deed.Received msg q) →
        has_deed (deed.Sent msg p) (part s cut q) ≡ true) }

    // Where each committed decision of a legal log leaves a consistent cut, both cuts are consistent at every row.
    ensures permanent { (log : List Event) → IsLegal log → HasConsistentDecisions log → (n : ℕ) →
        IsConsistent (past (take n log)) (permanent_cut (past (take n log))) }
    ensures present { (log : List Event) → IsLegal log → HasConsistentDecisions log → (n : ℕ) →
        IsConsistent (past (take n log)) (present_cut (past (take n log))) }
{}
