//! Laws of nodes and of nets of them; there is nothing to run.

ghost use Rattle.std.specs.Prelude.{◌≡◌, ◌≢◌, ◌↔◌, ◌∷◌, ◌++◌, ◌+◌, ◌<◌, ◌≤◌, length, ℕ, ℤ, max, Bool, true, false, Some, None, List, [], map, slice_index, Contains};
ghost use Rattle.kt_base.specs.declared.words.Kind.{Kind};
ghost use Rattle.kt_spacetime.specs.declared.names.InstName.{InstName};
ghost use Rattle.kt_spacetime.specs.declared.event.Event.{Event};
ghost use Rattle.kt_tables.specs.Calls.{Speaks};
ghost use Rattle.kt_protocol.specs.States.{ProtocolStep, opening};
ghost use Rattle.kt_protocol.specs.LateSteps.{late_run};
ghost use Rattle.kt_machine.specs.Seen.{seen};
ghost use Rattle.kt_meaning.specs.Names.{numbered};
ghost use Rattle.kt_machine.specs.SeenActs.{seen_acts};
ghost use Rattle.kt_machine.specs.Values.{Keep};
ghost use Rattle.kt_meaning.specs.Promised.{IsPromised, IsCertified};
ghost use Rattle.kt_manager.specs.declared.parcels.NodeParcel.{NodeParcel};
ghost use Rattle.kt_manager.specs.declared.parcels.NodeParcel.TheVariants.{Ask, Reply, Decide};
ghost use Rattle.kt_manager.specs.Nodes.{NodeState, nothing};
ghost use Rattle.kt_node.specs.Inputs.{Input, Comes};
ghost use Rattle.kt_node.specs.Inputs as input;
ghost use Rattle.kt_manager.specs.NodeSteps.{is_in};
ghost use Rattle.kt_node.specs.NodeSteps.{is_begun, heeds, node_after};
ghost use Rattle.kt_node.specs.Faults.{fault_at};
ghost use Rattle.kt_node.specs.NodeLooks.{where_able, would_save};
ghost use Rattle.kt_node.specs.NodeHistories.{histories, calls_told, GoesOn, HasCheckpoints};
ghost use Rattle.kt_node.specs.Nets.{net_step, net_run, opening_from, opening_net, net_acts};
ghost use Rattle.kt_node.specs.FirstLabels.{raised_net};
ghost use Rattle.kt_spacetime.specs.declared.named_rows.ClockedRow.{ClockedRow};
ghost use Rattle.kt_spacetime.specs.ClockedRows.{rows_of, without_clocks};
ghost use Rattle.kt_node.specs.Clocks.{Envelope as ClockedParcel, envelope, input_at, clocked_acts, clocked_run, opening_clocked, opening_clocked_from, AreByClock};
ghost use Rattle.kt_node.specs.Numbered.{NumberedNet, NumberedStep, with_number, numbered_step, numbered_run, opening_numbered_from, unnumbered};
ghost use Rattle.kt_node.specs.Numbered as happens;
ghost use Rattle.kt_node.specs.NumberedNodes.{ShowsNumbered, at_whom};
ghost use Rattle.kt_node.specs.Links.{NodeLinks, ShowsLinks, IsStep, TakesNext};
ghost use Rattle.kt_node.specs.declared.node.Output.{Output};
ghost use Rattle.kt_node.specs.declared.node.Taken.TheVariants.{Step, Again};
ghost use Rattle.kt_machine.specs.Acts.{stepper};
ghost use Rattle.kt_node.specs.Erasing.{name_in, erased_node, erased_parcels, rows_from_each};
ghost use Rattle.kt_merge.specs.Reading.{PartRead};
ghost use Rattle.kt_merge.specs.Merging.{IsMergeOf};
ghost use Rattle.kt_node.specs.NetParts.{AreRowsOfNet, AreRowsOfNetFrom};
ghost use Rattle.kt_node.specs.Links.{NodeLinks};
ghost use Rattle.kt_node.specs.Meetings.{far, last_label, meeting_of};
ghost use Rattle.kt_node.specs.declared.node.Envelope.{Envelope};
ghost use Rattle.kt_node.specs.declared.node.NodeFault.TheVariants as fault;
ghost use Rattle.kt_manager.specs.declared.parcels.NodeParcel.TheVariants.{App};
ghost use Rattle.kt_node.specs.Managers.{ManagerState, ShowsNode};
ghost use Rattle.kt_manager.specs.OwnParts.{HasOwnMarks};
ghost use Rattle.kt_node.specs.OwnParts.{HasOwnPart};

/// For every number of nodes, every label that they count on from, and every list of steps: a net is what is seen of
/// kt_protocol's late machine after the same steps, by the names that its log gives; and its rows are that log.
pub fn nets_are_runs()
    ensures nodes { (n first : ℕ) (steps : List ProtocolStep) (p : ℕ) →
        let y = (net_run (opening_net n first) steps).nodes p in
        y ≡ erased_node (name_in (late_run (opening n) steps).log) (seen first (late_run (opening n) steps)) p y.asks y.answered }
    ensures channels { (n first : ℕ) (steps : List ProtocolStep) (p q : ℕ) →
        (net_run (opening_net n first) steps).channel p q
        ≡ erased_parcels (name_in (late_run (opening n) steps).log) ((seen first (late_run (opening n) steps)).channel p q) }

    // Where each node counts its messages on from a label of its own, that changes these labels, and nothing else.
    ensures raised { (n : ℕ) (first : ℕ → ℕ) (steps : List ProtocolStep) →
        net_run (opening_from n first) steps ≡ raised_net first (net_run (opening_net n 0) steps) }
    ensures numbered { (n : ℕ) (first : ℕ → ℕ) (steps : List ProtocolStep) →
        numbered (rows_from_each first (net_run (opening_from n first) steps).rows) ≡ Some (late_run (opening n) steps).log }

    // Of what comes nothing is forged: who is asked to join is asked to join an instance whose initiator is there, and in it;
    // a reply is of who was asked and has not replied; a decision is of who asked, and who is in its instance heeds it.
    ensures begun { (n : ℕ) (first : ℕ → ℕ) (steps : List ProtocolStep) (p q : ℕ) (k : InstName) (kind : Kind)
        (label : ℕ) (rest : List NodeParcel) →
        let net = net_run (opening_from n first) steps in
        net.channel q p ≡ Ask k kind label ∷ rest → is_begun (net.nodes p) k ≡ true }
    ensures owed { (n : ℕ) (first : ℕ → ℕ) (steps : List ProtocolStep) (p q : ℕ) (k : InstName) (w : Bool)
        (rest : List NodeParcel) →
        let net = net_run (opening_from n first) steps in
        net.channel q p ≡ Reply k w ∷ rest → ((net.nodes p).part.asked q ≡ true) × ((net.nodes p).answered q ≡ false) }
    ensures asked { (n : ℕ) (first : ℕ → ℕ) (steps : List ProtocolStep) (p q : ℕ) (k : InstName) (c : Bool)
        (rest : List NodeParcel) →
        let net = net_run (opening_from n first) steps in
        net.channel q p ≡ Decide k c ∷ rest → is_in ((net.nodes p).asks q) k ≡ true }
    ensures heeded { (n : ℕ) (first : ℕ → ℕ) (steps : List ProtocolStep) (p q : ℕ) (k : InstName) (c : Bool)
        (rest : List NodeParcel) →
        let y = (net_run (opening_from n first) steps).nodes p in
        (net_run (opening_from n first) steps).channel q p ≡ Decide k c ∷ rest → heeds y q k ≡ is_in y.inst k }

    // Tables answer for the list of calls of each node, also after one more step.
    ensures speaks { (n : ℕ) (first : ℕ → ℕ) (steps : List ProtocolStep) (p : ℕ) →
        Speaks (((net_run (opening_from n first) steps).nodes p).calls) }
    ensures speaks_next { (n : ℕ) (first : ℕ → ℕ) (steps : List ProtocolStep) (x : ProtocolStep) (p : ℕ) →
        Speaks (((net_step (net_run (opening_from n first) steps) x).nodes p).calls) }
{}

/// The log of a net, whichever label its nodes count on from: all is promised of it that is promised of a run's.
pub fn logs_of_nets()
    ensures promised { (n : ℕ) (first : ℕ → ℕ) (steps : List ProtocolStep) (log : List Event) →
        numbered (rows_from_each first (net_run (opening_from n first) steps).rows) ≡ Some log → IsPromised log }

    // So it has certificates, and they pass.
    ensures certified { (n : ℕ) (first : ℕ → ℕ) (steps : List ProtocolStep) (log : List Event) →
        numbered (rows_from_each first (net_run (opening_from n first) steps).rows) ≡ Some log → IsCertified log }
{
    nets_are_runs();
    kt_protocol::logs_of_late_runs();
    kt_meaning::certificates_of_promised_logs();
}

/// At each step of a net the acts of the node that steps are those of the process that steps, by what is seen of
/// kt_protocol's late machine: so what is due to an object of a run is due to one of a net.
pub fn acts_of_nets()
    ensures same { (n first : ℕ) (steps : List ProtocolStep) (x : ProtocolStep) →
        net_acts (net_run (opening_net n first) steps) x ≡ seen_acts (seen first (late_run (opening n) steps)) x }

    // So are those of a net with clocks.
    ensures clocked { (n first : ℕ) (steps : List ProtocolStep) (x : ProtocolStep) →
        clocked_acts (clocked_run (opening_clocked n first) steps) x
        ≡ seen_acts (seen first (late_run (opening n) steps)) x }

    // Where each node counts its messages on from a label of its own, they are the same.
    ensures raised { (n : ℕ) (first : ℕ → ℕ) (steps : List ProtocolStep) (x : ProtocolStep) →
        net_acts (net_run (opening_from n first) steps) x ≡ net_acts (net_run (opening_net n 0) steps) x }
    ensures clocked_raised { (n : ℕ) (first : ℕ → ℕ) (steps : List ProtocolStep) (x : ProtocolStep) →
        clocked_acts (clocked_run (opening_clocked_from n first) steps) x
        ≡ clocked_acts (clocked_run (opening_clocked n 0) steps) x }
{}

/// Files of single processes are enough: the rows of a net with clocks, sorted by clock and then by process, are those of
/// another run of it, in which each process has the same rows with the same clocks.
pub fn order_of_nets()
    // Without its clocks it is a net.
    ensures unclocked { (n : ℕ) (first : ℕ → ℕ) (steps : List ProtocolStep) →
        map (λ r. r.row) (clocked_run (opening_clocked_from n first) steps).rows ≡ (net_run (opening_from n first) steps).rows }

    // Sorted so, its rows are those of another run, and each process has its rows there.
    ensures sorted { (n : ℕ) (first : ℕ → ℕ) (steps : List ProtocolStep) →
        (ys : List ProtocolStep) × AreByClock 0 0 (clocked_run (opening_clocked_from n first) ys).rows
        × ((p : ℕ) → rows_of p (clocked_run (opening_clocked_from n first) ys).rows
        ≡ rows_of p (clocked_run (opening_clocked_from n first) steps).rows) }

    // There is one way to sort them: so whatever is sorted and has these parts is the rows of a run, and all is
    // promised of its log.
    ensures merged { (n : ℕ) (first : ℕ → ℕ) (steps : List ProtocolStep) (rows : List ClockedRow) → AreByClock 0 0 rows →
        ((p : ℕ) → rows_of p rows ≡ rows_of p (clocked_run (opening_clocked_from n first) steps).rows) →
        (ys : List ProtocolStep) × (rows ≡ (clocked_run (opening_clocked_from n first) ys).rows) }
    ensures promised { (n : ℕ) (first : ℕ → ℕ) (steps : List ProtocolStep) (rows : List ClockedRow) (log : List Event) →
        AreByClock 0 0 rows →
        ((p : ℕ) → rows_of p rows ≡ rows_of p (clocked_run (opening_clocked_from n first) steps).rows) →
        numbered (rows_from_each first (map (λ r. r.row) rows)) ≡ Some log → IsPromised log }
{
    logs_of_nets();
}

/// Links may lose parcels, give them again and let one overtake another: where each node takes of each other one exactly the
/// next number, and else nothing, a net is one whose links do none of that.
pub fn numbered_nets_are_nets()
    ensures nets { (n : ℕ) (first : ℕ → ℕ) (xs : List NumberedStep) → (steps : List ProtocolStep)
        × (unnumbered (numbered_run (opening_numbered_from n first) xs) ≡ clocked_run (opening_clocked_from n first) steps) }

    // Of what each process put for another one, that one took so many, in order; another number changes nothing.
    ensures taken { (n : ℕ) (first : ℕ → ℕ) (xs : List NumberedStep) (p q : ℕ) →
        (numbered_run (opening_numbered_from n first) xs).taken p q
        ≤ length ((numbered_run (opening_numbered_from n first) xs).put p q) }
    ensures other { (w : NumberedNet) (p q : ℕ) (able : Bool) (number : ℕ) → number ≢ w.taken q p + 1 →
        numbered_step w (happens.Comes p q able number) ≡ w }

    // So all is promised of its log.
    ensures promised { (n : ℕ) (first : ℕ → ℕ) (xs : List NumberedStep) (log : List Event) →
        numbered (rows_from_each first (map (λ r. r.row) (numbered_run (opening_numbered_from n first) xs).rows)) ≡ Some log →
        IsPromised log }
{
    logs_of_nets();
}

/// What the calls of a `Node` do is what happens to its process in a net with numbers: so nodes whose host hands over parcels
/// in any order, often or never, are such a net.
pub fn nodes_of_numbered_nets()
    ensures opens { (n : ℕ) (first : ℕ → ℕ) (p : ℕ) (k : NodeLinks) →
        ShowsLinks k ((opening_net n (first p)).nodes p) → k.clock ≡ 0 →
        ((q : ℕ) → slice_index k.sent q ≡ 0) → ((q : ℕ) → slice_index k.taken q ≡ 0) →
        ShowsNumbered k (opening_numbered_from n first) p }
    ensures own { (w : NumberedNet) (x : ProtocolStep) (i : Input) (old new : NodeLinks) (out : Output) →
        ShowsNumbered old w (stepper x) → input_at (w.nodes (stepper x)) x [] ≡ Some i →
        IsStep old new 0 (w.nodes (stepper x)) i out → new.taken ≡ old.taken →
        ShowsNumbered new (numbered_step w (happens.Own x)) (stepper x) }
    ensures comes { (w : NumberedNet) (p q : ℕ) (able : Bool) (number : ℕ) (e : ClockedParcel) (old new : NodeLinks)
        (out : Output) → ShowsNumbered old w p → with_number number (w.put q p) ≡ e ∷ [] →
        let x = input.Comes q able e.parcel in fault_at (w.nodes p) x ≡ None →
        TakesNext old new q number Step → IsStep old new e.clock (w.nodes p) x out →
        ShowsNumbered new (numbered_step w (happens.Comes p q able number)) p }
    ensures again { (w : NumberedNet) (p q : ℕ) (able : Bool) (number : ℕ) (old new : NodeLinks) →
        ShowsNumbered old w p → TakesNext old new q number Again →
        ShowsNumbered new (numbered_step w (happens.Comes p q able number)) p }
    ensures others { (w : NumberedNet) (x : NumberedStep) (u : ℕ) (k : NodeLinks) → u ≢ at_whom x →
        ShowsNumbered k w u → ShowsNumbered k (numbered_step w x) u }

    // Nothing that comes leaps in 2^40 steps, where the sender's first label and these steps together are at most 2^40 above
    // the receiver's first label.
    ensures near { (n : ℕ) (first : ℕ → ℕ) (xs : List NumberedStep) (p q : ℕ) (k : NodeLinks) (e : Envelope) →
        let w = numbered_run (opening_numbered_from n first) xs in ShowsNumbered k w p →
        with_number e.number (w.put q p) ≡ envelope e.clock e.parcel ∷ [] → length xs ≤ far →
        first q + length xs ≤ first p + far → meeting_of k q e ≢ Err fault.Leap }
{}

/// What a node's step needs of its object, for every state of a node and every input.
pub fn looks_of_nodes()
    // It keeps its object's state exactly where the input makes it take a checkpoint, and the object can be saved.
    ensures keeps { (y : NodeState) (x : Input) (able : Bool) →
        (Contains (node_after y (where_able able x)).acts Keep) ↔ ((would_save y x ≡ true) × (able ≡ true)) }

    // Nowhere else does it count whether the object can be saved.
    ensures counts { (y : NodeState) (x : Input) (able was : Bool) → would_save y x ≡ false →
        node_after y (where_able able x) ≡ node_after y (where_able was x) }
{}

/// What a peer that lies can't do, for every state of a node.
pub fn forged_parcels()
    // A reply of who was not asked changes nothing, and neither does a second one in an instance.
    ensures unasked { (y : NodeState) (q : ℕ) (able w : Bool) (k : InstName) → y.part.asked q ≡ false →
        node_after y (Comes q able (Reply k w)) ≡ nothing y }
    ensures twice { (y : NodeState) (q : ℕ) (able w again v : Bool) (k : InstName) →
        let z = (node_after y (Comes q able (Reply k w))).state in node_after z (Comes q again (Reply k v)) ≡ nothing z }

    // A decision of who did not ask last to join its instance changes nothing, and neither does one of an instance that the
    // node began itself, or one before all have replied that it asked.
    ensures not_asker { (y : NodeState) (q : ℕ) (able c : Bool) (k : InstName) → is_in (y.asks q) k ≡ false →
        node_after y (Comes q able (Decide k c)) ≡ nothing y }
    ensures own_decision { (y : NodeState) (q : ℕ) (able c : Bool) (k : InstName) → k.initiator ≡ y.me →
        node_after y (Comes q able (Decide k c)) ≡ nothing y }
    ensures early_decision { (y : NodeState) (q : ℕ) (able c : Bool) (k : InstName) → 0 < y.part.awaited →
        node_after y (Comes q able (Decide k c)) ≡ nothing y }

    // An ask of an instance that no process began is refused, and one of its own that it is not in.
    ensures no_process { (y : NodeState) (q : ℕ) (able : Bool) (k : InstName) (kind : Kind) (label : ℕ) →
        y.processes ≤ k.initiator → fault_at y (Comes q able (Ask k kind label)) ≢ None }
    ensures own_name { (y : NodeState) (q : ℕ) (able : Bool) (k : InstName) (kind : Kind) (label : ℕ) →
        k.initiator ≡ y.me → is_in y.inst k ≡ false → fault_at y (Comes q able (Ask k kind label)) ≢ None }
{}

/// A node's step tells by its rows and acts which calls are made on its tables, for every state and every input.
pub fn calls_of_nodes()
    ensures calls { (y : NodeState) (x : Input) →
        (node_after y x).state.calls ≡ y.calls ++ calls_told (node_after y x).rows (node_after y x).acts }
{}

/// What a node's permanent checkpoint has of its messages stays there: no later step takes it away, whatever comes.
pub fn permanent_checkpoints()
    ensures opens { (n first p : ℕ) → HasCheckpoints ((opening_net n first).nodes p) }
    ensures steps { (y : NodeState) (x : Input) → HasCheckpoints y →
        HasCheckpoints (node_after y x).state }
    ensures stays { (y : NodeState) (x : Input) → HasCheckpoints y →
        GoesOn (histories y.calls).permanent (histories (node_after y x).state.calls).permanent }
{}

/// Each node that calls make has its own part, whatever comes: so `Manager::of` refuses none that is saved.
pub fn own_parts()
    ensures opens { (n first p : ℕ) → HasOwnMarks ((opening_net n first).nodes p) }
    ensures steps { (y : NodeState) (x : Input) → HasOwnMarks y → HasOwnMarks (node_after y x).state }
    ensures own { (w : ManagerState) (y : NodeState) → ShowsNode w y → HasOwnMarks y → HasOwnPart w }
{}

/// Where each node of a net writes a part, its rows with their clocks, the parts' merge has a log, and all is promised of it.
/// A merge takes the first message of a process to have the label 1.
pub fn merges_of_nets()
    ensures from_none { (n : ℕ) (steps : List ProtocolStep) (parts : List PartRead) (rows : List ClockedRow) →
        IsMergeOf parts rows → AreRowsOfNet n steps rows →
        (log : List Event) × (numbered (without_clocks rows) ≡ Some log) × IsPromised log × IsCertified log }

    // So it has where each node counts its messages on from a label of its own, and writes labels that count on from 0.
    ensures from_each { (n : ℕ) (first : ℕ → ℕ) (steps : List ProtocolStep) (parts : List PartRead)
        (rows : List ClockedRow) → IsMergeOf parts rows → AreRowsOfNetFrom n first steps rows →
        (log : List Event) × (numbered (without_clocks rows) ≡ Some log) × IsPromised log × IsCertified log }
{
    logs_of_nets();
}

/// How a node meets a parcel of a process, for every node and every parcel. What is its own goes from that process to it.
pub fn meetings_of_parcels()
    ensures astray { (w : NodeLinks) (q : ℕ) (e : Envelope) →
        (meeting_of w q e ≡ Err fault.Astray) ↔ ((e.from ≡ q) × (e.to ≡ w.manager.me) → ⊥) }

    // Of its own an earlier one came before, and a later one is refused until those between have come.
    ensures again { (w : NodeLinks) (q : ℕ) (e : Envelope) → e.from ≡ q → e.to ≡ w.manager.me →
        (meeting_of w q e ≡ Ok false) ↔ (e.number ≤ slice_index w.taken q) }
    ensures gap { (w : NodeLinks) (q n : ℕ) (e : Envelope) → e.from ≡ q → e.to ≡ w.manager.me →
        (meeting_of w q e ≡ Err (fault.Gap n))
        ↔ ((n ≡ slice_index w.taken q + 1) × (n < e.number)) }

    // The next one is refused where its clock is more than 2^40 above the node's, or the label of its message is so above
    // the last one of its sender and the node's own last one.
    ensures clock_leaps { (w : NodeLinks) (q : ℕ) (e : Envelope) → e.from ≡ q → e.to ≡ w.manager.me →
        e.number ≡ slice_index w.taken q + 1 → w.clock + 1099511627776 < e.clock →
        meeting_of w q e ≡ Err fault.Leap }
    ensures label_leaps { (w : NodeLinks) (q label : ℕ) (body : ℤ) (e : Envelope) → e.from ≡ q →
        e.to ≡ w.manager.me → e.number ≡ slice_index w.taken q + 1 → e.parcel ≡ App label body →
        max (last_label w q) w.manager.process.used + 1099511627776 < label →
        meeting_of w q e ≡ Err fault.Leap }

    // So it is where the label of its message does not rise above the last one of its sender.
    ensures stale { (w : NodeLinks) (q label : ℕ) (body : ℤ) (e : Envelope) → e.from ≡ q →
        e.to ≡ w.manager.me → e.number ≡ slice_index w.taken q + 1 →
        e.clock ≤ w.clock + 1099511627776 → e.parcel ≡ App label body → label ≤ last_label w q →
        meeting_of w q e ≡ Err fault.Stale }

    // Any other one is met.
    ensures near { (w : NodeLinks) (q : ℕ) (e : Envelope) → e.from ≡ q → e.to ≡ w.manager.me →
        e.number ≡ slice_index w.taken q + 1 → e.clock ≤ w.clock + 1099511627776 →
        ((label : ℕ) (body : ℤ) → e.parcel ≡ App label body → (last_label w q < label)
        × (label ≤ max (last_label w q) w.manager.process.used + 1099511627776)) →
        meeting_of w q e ≡ Ok true }
{}
