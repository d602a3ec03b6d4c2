//! Laws of nets whose processes are killed; there is nothing to run.

ghost use Rattle.std.specs.Prelude.{◌≡◌, ◌++◌, ℕ, true, false, Some, None, List, Contains};
ghost use Rattle.std.specs.List.{list_any};
ghost use Rattle.kt_spacetime.specs.declared.event.Event.{Event};
ghost use Rattle.kt_spacetime.specs.declared.named_rows.ClockedRow.{ClockedRow};
ghost use Rattle.kt_spacetime.specs.declared.named_rows.NamedRow.{NamedRow};
ghost use Rattle.kt_spacetime.specs.ClockedRows.{rows_of, without_clocks};
ghost use Rattle.kt_meaning.specs.Names.{numbered};
ghost use Rattle.kt_meaning.specs.Promised.{IsPromised, IsCertified};
ghost use Rattle.kt_protocol.specs.States.{ProtocolStep};
ghost use Rattle.kt_node.specs.Nets.{net_run, opening_net};
ghost use Rattle.kt_node.specs.Clocks.{AreByClock};
ghost use Rattle.kt_node.specs.Erasing.{rows_from};
ghost use Rattle.kt_node.specs.NodeHistories.{GoesOn, histories};
ghost use Rattle.kt_machine.specs.Values.{Restore};
ghost use Rattle.kt_manager.specs.Nodes.{NodeState};
ghost use Rattle.kt_node.specs.Inputs.{Input};
ghost use Rattle.kt_node.specs.NodeSteps.{node_after};
ghost use Rattle.kt_node.specs.NodeLooks.{where_able};
ghost use Rattle.kt_kills.specs.Objects.{Object, AllSayIt, IsDue, objects_run, object_did, opening_objects};
ghost use Rattle.kt_kills.specs.KilledNets.{KillEvent, Back, opening_killed};
ghost use Rattle.kt_kills.specs.Starts.{parcels, IsFront, IsRight};
ghost use Rattle.kt_kills.specs.Standing.{killed_after, StartRight, NoneFails, AreAllBack, IsNet, StandsIn, is_dropped, permanent_of, rows_by};
ghost use Rattle.kt_kills.specs.Fillers.{sends_to_make};

/// Whoever was killed, how often, and whatever the others did meanwhile: who comes back finds sends by what the others tell,
/// and with these its start is right. Each message goes again to who took it. For a label that nobody took, a message that
/// says nothing goes to one who took none with a greater label.
pub fn fillers_are_right()
    ensures { (n first : ℕ) (es : List KillEvent) (p : ℕ) → StartRight n first es →
        let w = killed_after n first es in w.away p ≡ true →
        IsRight w (Back p (sends_to_make w p)) }
{}

/// A crash is no crash: for every number of nodes, every label that they count on from, and every list of events after which
/// all are back, what stands is a net's of which nobody was killed, and its log has all that is promised of a run's.
pub fn killed_nets_are_runs()
    // The nodes, the rows of each, and what is on its way are those of a net after some steps.
    ensures runs { (n first : ℕ) (es : List KillEvent) → StartRight n first es →
        let w = killed_after n first es in AreAllBack w →
        (steps : List ProtocolStep) × IsNet w.memory (net_run (opening_net n first) steps) }

    // So in some order, the same for each process as its own, the rows have a log, and all is promised of it.
    ensures some_order { (n first : ℕ) (es : List KillEvent) → StartRight n first es →
        let w = killed_after n first es in AreAllBack w →
        (rows : List NamedRow) × ((p : ℕ) → rows_by p rows ≡ without_clocks (w.memory p).rows)
        × (log : List Event) × (numbered (rows_from first rows) ≡ Some log)
        × IsPromised log × IsCertified log }

    // Sorted by clock and then by process, as parts are merged, the rows are those of a net after some steps.
    ensures sorted { (n first : ℕ) (es : List KillEvent) (rows : List ClockedRow) →
        StartRight n first es →
        let w = killed_after n first es in AreAllBack w → AreByClock 0 0 rows →
        ((p : ℕ) → rows_of p rows ≡ (w.memory p).rows) →
        (steps : List ProtocolStep)
        × (without_clocks rows ≡ (net_run (opening_net n first) steps).rows) }

    // So they have a log, and all is promised of it.
    ensures promised { (n first : ℕ) (es : List KillEvent) (rows : List ClockedRow) →
        StartRight n first es →
        let w = killed_after n first es in AreAllBack w → AreByClock 0 0 rows →
        ((p : ℕ) → rows_of p rows ≡ (w.memory p).rows) →
        (log : List Event) × (numbered (rows_from first (without_clocks rows)) ≡ Some log)
        × IsPromised log × IsCertified log }
{
    kt_node::nets_are_runs();
    kt_node::logs_of_nets();
}

/// What is on a disk stands, whatever happens after it, kills too. So a parcel may be forgotten by its sender once its
/// receiver has written that it took it, and not before.
pub fn nothing_acknowledged_is_lost()
    // The rows, what was put and what was taken, as the disk has them, are a front of what the process has at any later time.
    ensures stands { (n first : ℕ) (es more : List KillEvent) (p : ℕ) →
        StartRight n first (es ++ more) →
        StandsIn ((killed_after n first es).disk p) ((killed_after n first (es ++ more)).memory p) }

    // Where all are back, whatever a process has put, and its receiver has not taken, can still come.
    ensures comes { (n first : ℕ) (es : List KillEvent) (p q : ℕ) → StartRight n first es →
        let w = killed_after n first es in AreAllBack w →
        w.sent p (w.life p) q ≡ (w.memory p).put q }

    // And what was taken of it is a front of what it has put: each parcel once, and in order.
    ensures once { (n first : ℕ) (es : List KillEvent) (p q : ℕ) → StartRight n first es →
        let w = killed_after n first es in AreAllBack w →
        IsFront (parcels ((w.memory q).took p)) (parcels ((w.memory p).put q)) }

    // Nothing is dropped where no object is told to have failed: a kill is no failure.
    ensures dropped { (n first : ℕ) (es : List KillEvent) (p : ℕ) → NoneFails es →
        list_any (λ r. is_dropped r.row.event) ((killed_after n first es).memory p).rows ≡ false }
{}

/// What an object may tell the world outside is final: the messages of a process's permanent checkpoint stay there, whatever
/// happens, kills too.
pub fn outputs_are_final()
    // It is on the disk as soon as it is in memory.
    ensures written { (n first : ℕ) (es : List KillEvent) (p : ℕ) → StartRight n first es →
        let w = killed_after n first es in permanent_of (w.memory p) ≡ permanent_of (w.disk p) }
    ensures stays { (n first : ℕ) (es more : List KillEvent) (p : ℕ) →
        StartRight n first (es ++ more) →
        GoesOn (permanent_of ((killed_after n first es).memory p))
        (permanent_of ((killed_after n first (es ++ more)).memory p)) }
{
    kt_node::permanent_checkpoints();
}

/// Objects have what is due to them by their nodes' calls: a lost one has no live history until it is restored, and what was
/// kept of it is there, where who has lost its object says at each input that it can't be saved.
pub fn objects_are_due()
    ensures due { (n first : ℕ) (es : List KillEvent) (p : ℕ) →
        AllSayIt (opening_killed n first) opening_objects es →
        IsDue ((objects_run (opening_killed n first) opening_objects es).memory p)
        (histories ((killed_after n first es).memory p).node.calls) }

    // A restore gives it its live history, whatever it was before.
    ensures restored { (y : NodeState) (x : Input) (o : Object) → IsDue o (histories y.calls) →
        (o.live ≡ None → where_able false x ≡ x) →
        let d = node_after y x in Contains d.acts Restore →
        (object_did o d).live ≡ Some (histories d.state.calls).live }
{
    kt_node::calls_of_nodes();
    kt_node::looks_of_nodes();
}
