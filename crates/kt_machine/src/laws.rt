//! Laws of what code keeps of the protocol's state: each function has nothing to run, and its contract is the law.

ghost use Rattle.std.specs.Prelude.{◌≡◌, ◌<◌, ◌≤◌, ◌+◌, ◌↔◌, IsTrue, Contains, nat_lt, drop, ℕ, ℤ, pos, Bool, true, false, Some, List, [], ◌∷◌, ◌++◌};
ghost use Rattle.kt_base.specs.declared.words.Kind.{Kind};
ghost use Rattle.kt_base.specs.declared.words.Kind.TheVariants.{Rollback};
ghost use Rattle.kt_fifo.specs.Channels.{at_pair};
ghost use Rattle.kt_fifo.specs.declared.parcels.Parcel.{Parcel};
ghost use Rattle.kt_fifo.specs.declared.parcels.Parcel.TheVariants.{App, Ask};
ghost use Rattle.kt_spacetime.specs.declared.event.Event.{Event};
ghost use Rattle.kt_spacetime.specs.declared.event.Event.TheVariants.{Sent};
ghost use Rattle.kt_meaning.specs.Messages.{row_at};
ghost use Rattle.kt_meaning.specs.Past.{at_one};
ghost use Rattle.kt_tables.specs.Calls.{Call, sent, received, on_tentative, parts, sents, receiveds, Speaks};
ghost use Rattle.kt_tables.specs.Peers.{IsCohort, count_peers};
ghost use Rattle.kt_protocol.specs.States.{ProtocolStep, Take, opening};
ghost use Rattle.kt_protocol.specs.WorkedRuns.{object_that_is_not_saved_steps, object_that_is_not_saved, held_message_that_is_undone_steps, held_message_that_is_undone};
ghost use Rattle.kt_protocol.specs.WorkedLateRuns.{receives_before_closing};
ghost use Rattle.kt_protocol.specs.LateSteps.{late_run, late_step};
ghost use Rattle.kt_machine.specs.Labelling.{labelling};
ghost use Rattle.kt_machine.specs.Seen.{SeenLists, SeenProcess, Seen, no_part, seen};
ghost use Rattle.kt_machine.specs.ListChanges.{with_asks_where, with_parcel, with_rest};
ghost use Rattle.kt_machine.specs.CallTests.{is_asked_in_checkpoint, is_asked_in_rollback, must_take, must_roll};
ghost use Rattle.kt_machine.specs.SeenClosing.{seen_settling};
ghost use Rattle.kt_machine.specs.Transition.{transition, run_seen, opening_seen, is_seen_ready};
ghost use Rattle.kt_machine.specs.InOnePiece.{settled, with_asks};
ghost use Rattle.kt_machine.specs.WorkedRuns.{asks_to_roll_back, notes_label, puts_back};
ghost use Rattle.kt_machine.specs.Messages.{sends_of, label_by_rows, AreSentTo, AreMessagesBy};
ghost use Rattle.kt_machine.specs.TableLabels.{HasTableLabels};

/// For every list of steps, and every label that the counters begin after: what is seen of the state after the steps is
/// what the transitions of what is seen give.
pub fn seen_runs()
    ensures whole { (n first : ℕ) (steps : List ProtocolStep) → seen first (late_run (opening n) steps) ≡ run_seen (opening_seen n first) steps }

    // So it is for one step more.
    ensures next { (n first : ℕ) (steps : List ProtocolStep) (x : ProtocolStep) →
        seen first (late_run (opening n) (steps ++ x ∷ [])) ≡ transition (seen first (late_run (opening n) steps)) x }
    ensures step { (n first : ℕ) (steps : List ProtocolStep) (x : ProtocolStep) →
        seen first (late_step (late_run (opening n) steps) x) ≡ transition (seen first (late_run (opening n) steps)) x }
{}

/// After every list of steps: the calls on the tables of each process, and the labels of messages.
pub fn calls_of_runs()
    // Tables answer for the list of calls of each process, also after one more step.
    ensures speaks { (n first : ℕ) (steps : List ProtocolStep) (p : ℕ) →
        Speaks (((seen first (late_run (opening n) steps)).states p).calls) }
    ensures speaks_next { (n first : ℕ) (steps : List ProtocolStep) (x : ProtocolStep) (p : ℕ) →
        Speaks (((transition (seen first (late_run (opening n) steps)) x).states p).calls) }

    // What the state knows of a process's messages, as labels, is what tables keep of that list.
    ensures table_labels { (n first : ℕ) (steps : List ProtocolStep) (p : ℕ) →
        HasTableLabels (labelling first (late_run (opening n) steps).log).label
        (((seen first (late_run (opening n) steps)).states p).calls) (late_run (opening n) steps) p }

    // Labels of messages of one sender are in the order of their numbers.
    ensures order { (n first : ℕ) (steps : List ProtocolStep) (m k p q s : ℕ) (b d : ℤ) →
        row_at (late_run (opening n) steps).log m ≡ Some (Sent p q b) →
        row_at (late_run (opening n) steps).log k ≡ Some (Sent p s d) →
        nat_lt ((labelling first (late_run (opening n) steps).log).label m)
        ((labelling first (late_run (opening n) steps).log).label k) ≡ nat_lt m k }

    // The log only grows, and so a message's label stays.
    ensures grows { (n : ℕ) (steps : List ProtocolStep) (x : ProtocolStep) →
        (rows : List Event) × ((late_run (opening n) (steps ++ x ∷ [])).log ≡ (late_run (opening n) steps).log ++ rows) }
    ensures same_label { (n first : ℕ) (steps : List ProtocolStep) (x : ProtocolStep) (m p q : ℕ) (b : ℤ) →
        row_at (late_run (opening n) steps).log m ≡ Some (Sent p q b) →
        (labelling first (late_run (opening n) (steps ++ x ∷ [])).log).label m
        ≡ (labelling first (late_run (opening n) steps).log).label m }
{}

/// After every list of steps: a message in a channel, held or kept has the label and the body of its row.
pub fn messages_of_runs()
    // In a channel it is on its way to its receiver.
    ensures in_channels { (n first : ℕ) (steps : List ProtocolStep) (p q : ℕ) →
        AreSentTo first (late_run (opening n) steps).log p q ((seen first (late_run (opening n) steps)).channel p q) }

    // What is held is messages alone; where the holder is in no rollback, it is their receiver.
    ensures held { (n first : ℕ) (steps : List ProtocolStep) (p q : ℕ) →
        AreMessagesBy first (late_run (opening n) steps).log p ((seen first (late_run (opening n) steps)).held p q) }
    ensures held_by_receiver { (n first : ℕ) (steps : List ProtocolStep) (p q : ℕ) →
        is_seen_ready (seen first (late_run (opening n) steps)) p ≡ false →
        AreSentTo first (late_run (opening n) steps).log q p ((seen first (late_run (opening n) steps)).held q p) }

    // What is kept is messages alone.
    ensures kept { (n first : ℕ) (steps : List ProtocolStep) (p q : ℕ) →
        AreMessagesBy first (late_run (opening n) steps).log p ((seen first (late_run (opening n) steps)).kept p q) }
{}

/// After every list of steps: whom parts of processes name.
pub fn parts_of_runs()
    // There are always as many processes.
    ensures processes { (n : ℕ) (steps : List ProtocolStep) → (late_run (opening n) steps).processes ≡ n }

    // Whom a process in no instance would ask is one of them.
    ensures would_ask_in_checkpoint { (n first : ℕ) (steps : List ProtocolStep) (p q : ℕ) →
        ((seen first (late_run (opening n) steps)).states p).inst ≡ 0 →
        is_asked_in_checkpoint (((seen first (late_run (opening n) steps)).states p).calls) q ≡ true → q < n }
    ensures would_ask_in_rollback { (n first : ℕ) (steps : List ProtocolStep) (p q : ℕ) →
        ((seen first (late_run (opening n) steps)).states p).inst ≡ 0 →
        is_asked_in_rollback (((seen first (late_run (opening n) steps)).states p).calls) q ≡ true → q < n }

    // A process in no instance has no part.
    ensures no_part { (n first : ℕ) (steps : List ProtocolStep) (p : ℕ) →
        ((seen first (late_run (opening n) steps)).states p).inst ≡ 0 →
        ((seen first (late_run (opening n) steps)).states p).part ≡ no_part }

    // Those that a process asked, and the one that it answers, are processes.
    ensures asked { (n first : ℕ) (steps : List ProtocolStep) (p q : ℕ) →
        ((seen first (late_run (opening n) steps)).states p).part.asked q ≡ true → q < n }
    ensures parent { (n first : ℕ) (steps : List ProtocolStep) (p to : ℕ) →
        ((seen first (late_run (opening n) steps)).states p).part.parent ≡ Some to → to < n }
{}

/// For every log: the labels and the bodies of its messages, and the last label that each process used.
pub fn labels_of_logs()
    // A message's label is the label that counters begin after and the number of its sender's sent rows up to its own.
    ensures label { (first : ℕ) (log : List Event) (m p q : ℕ) (b : ℤ) →
        row_at log m ≡ Some (Sent p q b) → (labelling first log).label m ≡ label_by_rows first log p m }
    ensures positive { (first : ℕ) (log : List Event) (m p q : ℕ) (b : ℤ) →
        row_at log m ≡ Some (Sent p q b) → 0 < (labelling first log).label m }

    // Its body is that of its row.
    ensures body { (first : ℕ) (log : List Event) (m p q : ℕ) (b : ℤ) →
        row_at log m ≡ Some (Sent p q b) → (labelling first log).body m ≡ b }

    // The last label that a process used counts its sent rows.
    ensures used { (first : ℕ) (log : List Event) (p : ℕ) → (labelling first log).used p ≡ first + sends_of p log }

    // A label stays as the log grows.
    ensures stays { (first : ℕ) (log more : List Event) (m p q : ℕ) (b : ℤ) →
        row_at log m ≡ Some (Sent p q b) → (labelling first (log ++ more)).label m ≡ (labelling first log).label m }
{}

/// What tables answer for a list of calls is what the transitions go by.
pub fn answers_of_tables()
    // The tests that tables answer are those of the transitions.
    ensures take { (result : Bool) (calls : List Call) (q l : ℕ) → Speaks calls →
        (IsTrue result ↔ ((x : ℕ) × Contains (sents q (parts calls).since) x × (x ≤ l))) → result ≡ must_take calls q l }
    ensures roll { (result : Bool) (calls : List Call) (q l : ℕ) →
        (IsTrue result ↔ ((x : ℕ) × Contains (receiveds q (parts calls).since) x × (l < x))) → result ≡ must_roll calls q l }

    // Asks by the pairs that tables give are the transitions' asks.
    ensures cohort { (channel : SeenLists) (p k : ℕ) (kind : Kind) (asks : List (ℕ × ℕ)) (test : ℕ → Bool) (label : ℕ → ℕ) →
        IsCohort asks test label → with_asks channel p k kind asks ≡ with_asks_where channel p k kind test label }

    // To count further than where all are that pass finds no more.
    ensures count { (n m : ℕ) (f : ℕ → Bool) →
        ((q : ℕ) → f q ≡ true → q < n) → n ≤ m → count_peers m f ≡ count_peers n f }
{}

/// What the transitions do to lists is what channels do, and what a process does at once that has joined an instance or
/// taken a reply.
pub fn steps_in_one_piece()
    ensures with_parcel { (channel : SeenLists) (p q : ℕ) (x : Parcel) →
        with_parcel channel p q x ≡ at_pair p q (channel p q ++ x ∷ []) channel }
    ensures with_rest { (channel : SeenLists) (q p : ℕ) (x : Parcel) (rest : List Parcel) →
        channel q p ≡ x ∷ rest → with_rest channel q p rest ≡ at_pair q p (drop 1 (channel q p)) channel }
    ensures settled { (v : Seen) (p k : ℕ) (y : SeenProcess) →
        seen_settling (record v { states = at_one p y v.states }) p k ≡ settled v p k y }
{}

/// Runs that were worked out by hand leave what they have to, where each process's labels begin at 101.
pub fn worked_runs()
    // Two senders' first messages have the same label. The one that was received before the tentative checkpoint is marked.
    ensures keeps_older { (run_seen (opening_seen 3 100) receives_before_closing).kept 1 0 ≡ App 101 1 (pos 5) ∷ [] }
    ensures calls { ((run_seen (opening_seen 3 100) receives_before_closing).states 0).calls
        ≡ received 1 101 ∷ sent 1 101 ∷ on_tentative ∷ received 2 101 ∷ [] }
    ensures marks { ((run_seen (opening_seen 3 100) receives_before_closing).states 0).part.marks 1 ≡ 1 }

    // Once 0 closes, what is marked is gone, and what was received since stays.
    ensures forgets_marked { (run_seen (opening_seen 3 100) (receives_before_closing ++ Take 0 1 true ∷ [])).kept 1 0 ≡ [] }
    ensures keeps_newer { (run_seen (opening_seen 3 100) (receives_before_closing ++ Take 0 1 true ∷ [])).kept 2 0 ≡ App 101 3 (pos 6) ∷ [] }

    // An ask to roll back has the label of the last message that the permanent checkpoint has.
    ensures asks { (run_seen (opening_seen 3 100) asks_to_roll_back).channel 0 1 ≡ App 102 12 (pos 9) ∷ Ask 2 Rollback 101 ∷ [] }

    // Who joins by it notes this label, and awaits one reply.
    ensures notes { ((run_seen (opening_seen 3 100) notes_label).states 1).part.noted 0 ≡ Some 101 }
    ensures awaits { ((run_seen (opening_seen 3 100) notes_label).states 1).part.awaited ≡ 1 }

    // Once it closes, it holds what was kept, but for what is above the noted label.
    ensures puts_back { (run_seen (opening_seen 3 100) puts_back).held 2 1 ≡ App 101 10 (pos 6) ∷ [] }
    ensures drops_undone { (run_seen (opening_seen 3 100) puts_back).held 0 1 ≡ [] }
    ensures keeps_nothing { (run_seen (opening_seen 3 100) puts_back).kept 2 1 ≡ [] }

    // After an abort the tables have what was set aside: the next checkpoint asks again. And what is held and undone is not
    // received. The logs are those of kt_protocol's runs.
    ensures asks_after_an_abort { (run_seen (opening_seen 2 100) object_that_is_not_saved_steps).log ≡ object_that_is_not_saved }
    ensures receives_none_undone { (run_seen (opening_seen 3 100) held_message_that_is_undone_steps).log ≡ held_message_that_is_undone }
{}
