//! Laws of the certificates that a log means: each function has nothing to run, and its contract is the law.

ghost use Rattle.std.specs.Prelude.{◌≡◌, ◌↔◌, ◌<◌, ◌≤◌, ℕ, Bool, true, Some, None, List, map, length, take, slice_get, All};
ghost use Rattle.kt_base.specs.declared.words.Kind.TheVariants.{Checkpoint, Rollback};
ghost use Rattle.kt_spacetime.specs.declared.event.Event.{Event};
ghost use Rattle.kt_spacetime.specs.declared.event.Event.TheVariants.{Decided};
ghost use Rattle.kt_spacetime.specs.Events.{IsRowInRange};
ghost use Rattle.kt_meaning.specs.Past.{Beginning, past, beginning_of};
ghost use Rattle.kt_meaning.specs.Legal.{IsLegal};
ghost use Rattle.kt_meaning.specs.Chains.{members, IsCheckpointChain, IsRollbackChain};
ghost use Rattle.kt_meaning.specs.Messages.{IsMessage};
ghost use Rattle.kt_spacetime.specs.declared.certificate.Certificate.{Certificate};
ghost use Rattle.kt_spacetime.specs.declared.verdict.Verdict.{Verdict};
ghost use Rattle.kt_spacetime.specs.declared.verdict.Verdict.TheVariants.{Yes};
ghost use Rattle.kt_meaning.specs.Passing.{IsAsInLog, HasLists, IsPassed, AreComplete};
ghost use Rattle.kt_meaning.specs.Answers.{IsCheckerAnswer};
ghost use Rattle.kt_meaning.specs.Linking.{chain_of};
ghost use Rattle.kt_meaning.specs.Certificates.{certificates};
ghost use Rattle.kt_meaning.specs.Decisions.{IsOfDecision};
ghost use Rattle.kt_meaning.specs.Fitness.{HasNoChain, IsFitLog};
ghost use Rattle.kt_meaning.specs.Making.{IsMadeOf};
ghost use Rattle.kt_meaning.specs.Just.{IsJust};

/// What the certificates of a log are.
pub fn certificates_of_logs()
    // Each is of a decision of the log; of a legal log, each decision has one; they stand by rising number.
    ensures decided { (log : List Event) (i : ℕ) (c : Certificate) → slice_get (certificates log) i ≡ Some c
        → (n : ℕ) × IsOfDecision log n c }
    ensures complete { (log : List Event) (n p k : ℕ) (commit : Bool) → IsLegal log
        → slice_get log n ≡ Some (Decided p k commit)
        → (i : ℕ) × (c : Certificate) × (slice_get (certificates log) i ≡ Some c) × (c.inst ≡ k)
        × IsOfDecision log n c }
    ensures rising { (log : List Event) (i j : ℕ) (c d : Certificate) → i < j
        → slice_get (certificates log) i ≡ Some c → slice_get (certificates log) j ≡ Some d → c.inst < d.inst }

    // Where no member of an instance lacks a chain, each list is one that leads from the initiator to its member.
    ensures checkpoint { (log : List Event) (i n j p : ℕ) (c : Certificate) (chain : List ℕ) → IsLegal log
        → ((q : ℕ) → HasNoChain log c.inst q → ⊥) → slice_get (certificates log) i ≡ Some c → IsOfDecision log n c
        → slice_get c.members j ≡ Some (p, chain) → c.kind ≡ Checkpoint
        → IsCheckpointChain (past (take n log)) c.inst c.initiator chain p }
    ensures rollback { (log : List Event) (i n j p : ℕ) (c : Certificate) (chain : List ℕ) → IsLegal log
        → ((q : ℕ) → HasNoChain log c.inst q → ⊥) → slice_get (certificates log) i ≡ Some c → IsOfDecision log n c
        → slice_get c.members j ≡ Some (p, chain) → c.kind ≡ Rollback
        → IsRollbackChain (past (take n log)) c.initiator chain p }
{}

/// What the certificates of a legal log are. That they stand by rising number is so of any log, by the law above.
pub fn certificates_of_legal_logs()
    // One for each decided instance, as the log has it.
    ensures complete { (log : List Event) → IsLegal log → AreComplete log (certificates log) }
    ensures stated { (log : List Event) (i : ℕ) (c : Certificate) →
        slice_get (certificates log) i ≡ Some c → (n : ℕ) × IsAsInLog log c n }

    // A committed one lists the members in the order in which they joined, each with the chain of the first earlier
    // member that a message links it with, followed by the least-numbered such message.
    ensures listed { (log : List Event) (i n : ℕ) (c : Certificate) → IsLegal log →
        slice_get (certificates log) i ≡ Some c → IsAsInLog log c n → c.commit ≡ true →
        map (λ m. m.0) c.members ≡ members log c.inst }
    ensures made { (log : List Event) (i n j p : ℕ) (c : Certificate) (chain : List ℕ) → IsLegal log →
        slice_get (certificates log) i ≡ Some c → IsAsInLog log c n → c.commit ≡ true →
        slice_get c.members j ≡ Some (p, chain) →
        IsMadeOf (past (take n log)) c.inst c.kind c.initiator (take j c.members) p chain }

    // Where no member lacks a chain, each list is one: the initiator's is empty, another's leads to it from the
    // initiator.
    ensures chains { (log : List Event) (i n : ℕ) (c : Certificate) → IsLegal log →
        ((k p : ℕ) → HasNoChain log k p → ⊥) → slice_get (certificates log) i ≡ Some c → IsAsInLog log c n →
        c.commit ≡ true → HasLists (past (take n log)) c }

    // A chain has fewer messages than there are members up to its own, so never more than 63.
    ensures short { (log : List Event) (i j p : ℕ) (c : Certificate) (chain : List ℕ) →
        slice_get (certificates log) i ≡ Some c → slice_get c.members j ≡ Some (p, chain) → length chain ≤ j }
    ensures few { (log : List Event) (i j p : ℕ) (c : Certificate) (chain : List ℕ) → IsLegal log →
        All IsRowInRange log → slice_get (certificates log) i ≡ Some c → slice_get c.members j ≡ Some (p, chain) →
        length chain ≤ 63 }

    // A chain names messages of the log.
    ensures named { (log : List Event) (i j p x m : ℕ) (c : Certificate) (chain : List ℕ) → IsLegal log →
        slice_get (certificates log) i ≡ Some c → slice_get c.members j ≡ Some (p, chain) →
        slice_get chain x ≡ Some m → (from : ℕ) × (to : ℕ) × IsMessage log m from to }

    // Where the search finds no chain for a member, no message links it with an earlier one.
    ensures without_chain { (log : List Event) (n decider k place p : ℕ) (b : Beginning) (earlier : List (ℕ × List ℕ)) →
        slice_get log n ≡ Some (Decided decider k true) → beginning_of (past (take n log)) k ≡ Some b →
        slice_get (members (take n log) k) place ≡ Some p →
        map (λ m. m.0) earlier ≡ take place (members (take n log) k) →
        chain_of (past (take n log)) k b.kind b.initiator earlier p ≡ None → HasNoChain log k p }
{}

/// A log that has certificates: the checker says yes to it with them exactly where no committed decision leaves an orphan
/// and each aborted instance, and no committed one, has an unwilling row.
pub fn certificates_of_fit_logs()
    ensures passed { (log : List Event) → IsFitLog log → IsPassed log (certificates log) ↔ IsJust log }
    ensures yes { (log : List Event) (v : Verdict) → IsFitLog log → IsCheckerAnswer log (certificates log) v
        → (v ≡ Yes) ↔ IsJust log }
{}
