//! Laws of the certificates of a log: each function has nothing to run, and its contract is the law.

ghost use Rattle.std.specs.Prelude.{◌≡◌, ◌<◌, ℕ, suc, true, Option, Some, List, [], ◌∷◌, ◌++◌, take, drop, set, slice_get, ◌≤◌, ◌^◌, All, length};
ghost use Rattle.std.specs.List.{filter_map};
ghost use Rattle.kt_base.specs.declared.words.Kind.{Kind};
ghost use Rattle.kt_spacetime.specs.declared.event.Event.{Event};
ghost use Rattle.kt_meaning.specs.Past.{past};
ghost use Rattle.kt_meaning.specs.Legal.{IsLegal, has_begun};
ghost use Rattle.kt_rules.specs.Standing.{at_number};
ghost use Rattle.kt_walk.specs.Pairs.{PairState};
ghost use Rattle.kt_walk.specs.Searching.{IsFoundPast};
ghost use Rattle.kt_walk.specs.WalkOf.{WalkOf};
ghost use Rattle.kt_walk.specs.WalkParts.{WalkParts};
ghost use Rattle.kt_meaning.specs.Linking.{least_link, led_on, chain_through, with_member, chained};
ghost use Rattle.kt_meaning.specs.Certificates.{certificates};
ghost use Rattle.kt_certify.specs.Instances.{InstanceParts, AreInstancesOf, changed, instances_after};
ghost use Rattle.kt_certify.specs.OnePass.{PassState, pass_after, opening_pass, pass_over, found, HasSeen};
ghost use Rattle.kt_certify.specs.Arriving.{arrived_link, place_of_pair, sender_of, received_before};
ghost use Rattle.kt_spacetime.specs.Events.{IsRowInRange};
ghost use Rattle.kt_chain.specs.Spelling.{HasShortChains, IsCertificateWithin as IsCertificateInRange, records_of};
ghost use Rattle.kt_chain.specs.Texts.{IsCertText};

/// The certificates by one pass over the rows, which keeps what is known after them and what it has of each instance.
pub fn certificates_in_one_pass()
    ensures one_pass { (log : List Event) → IsLegal log → found (pass_over log) ≡ certificates log }

    // A pass that has seen some rows: before the first row, after one more, and what it has found.
    ensures none { HasSeen opening_pass [] }
    ensures next { (log : List Event) (row : Event) (pass : PassState) → IsLegal (log ++ row ∷ []) →
        HasSeen pass log → HasSeen (pass_after pass row) (log ++ row ∷ []) }
    ensures found { (log : List Event) (pass : PassState) → HasSeen pass log → found pass ≡ certificates log }

    // The same for the instances alone, beside a walk in place of what is known; an instance that has begun is there.
    ensures instances { (log : List Event) (row : Event) (instances : List InstanceParts) → IsLegal (log ++ row ∷ []) →
        AreInstancesOf log instances →
        AreInstancesOf (log ++ row ∷ []) (instances_after (past log) row instances) }
    ensures listed { (log : List Event) (instances : List InstanceParts) → AreInstancesOf log instances →
        filter_map (λ v. v.certificate) instances ≡ certificates log }
    ensures there { (log : List Event) (instances : List InstanceParts) (k : ℕ) → AreInstancesOf log instances →
        has_begun (past log) k ≡ true → (v : InstanceParts) × (at_number instances k ≡ Some v) }

    // An instance changes at its index.
    ensures set { (n : ℕ) (f : InstanceParts → InstanceParts) (instances : List InstanceParts) (v : InstanceParts) →
        slice_get instances n ≡ Some v → changed (suc n) f instances ≡ set instances n (f v) }
{}

/// What a pass computes at a committed decision, by what a walk keeps.
pub fn linking_messages_of_walks()
    // The least message that links a process with an earlier member is the first, of the messages between the two, that
    // was sent past the sender's permanent position; in a checkpoint it has to be received within the new position.
    ensures arrived { (walk : WalkParts) (rows : List Event) (k : ℕ) (kind : Kind) (p q : ℕ) (pair : PairState) →
        WalkOf walk rows → p < 64 → q < 64 → slice_get walk.pair_states (place_of_pair kind p q) ≡ Some pair →
        least_link (past rows) k kind p q ≡ arrived_link (past rows) k kind p q pair.received_from.arrivals }

    // So any search finds it that finds the least of these, as the search for orphans does.
    ensures searched { (walk : WalkParts) (rows : List Event) (k : ℕ) (kind : Kind) (p q : ℕ) (pair : PairState)
        (result : Option ℕ) → WalkOf walk rows → p < 64 → q < 64 →
        slice_get walk.pair_states (place_of_pair kind p q) ≡ Some pair →
        IsFoundPast pair.received_from.arrivals ((past rows).permanent (sender_of kind p q))
        (received_before (past rows) k kind p q) result →
        least_link (past rows) k kind p q ≡ result }

    // Member after member, and for one member one earlier member after the other.
    ensures more { (rows : List Event) (k : ℕ) (kind : Kind) (initiator : ℕ) (joined : List ℕ) (n p : ℕ) →
        slice_get joined n ≡ Some p →
        chained (past rows) k kind initiator (take (suc n) joined)
        ≡ with_member (past rows) k kind initiator (chained (past rows) k kind initiator (take n joined)) p }
    ensures first { (link : ℕ → Option ℕ) (earlier : List (ℕ × List ℕ)) (n : ℕ) (m : ℕ × List ℕ) →
        slice_get earlier n ≡ Some m →
        chain_through link (drop n earlier) ≡ led_on m.1 (link m.0) (chain_through link (drop (suc n) earlier)) }
{}

/// The certificates of a log that can be stored can be written, and what is written says them.
pub fn certificates_have_texts()
    ensures writable { (log : List Event) → IsLegal log → All IsRowInRange log → All HasShortChains (certificates log) }
    ensures in_range { (log : List Event) → IsLegal log → All IsRowInRange log → length log ≤ 2 ^ 24 →
        All IsCertificateInRange (certificates log) }
    ensures text { (log : List Event) → IsLegal log → All IsRowInRange log → length log ≤ 2 ^ 24 →
        IsCertText (records_of (certificates log)) (certificates log) }
{}
