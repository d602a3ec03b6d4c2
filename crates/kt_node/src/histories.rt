//! What a node knows of its histories, beside the log of its net: a law, with nothing to run.

ghost use Rattle.std.specs.Prelude.{◌≡◌, ℕ, List, Some, None};
ghost use Rattle.kt_spacetime.specs.declared.event.Event.{Event};
ghost use Rattle.kt_meaning.specs.Names.{numbered};
ghost use Rattle.kt_meaning.specs.Past.{past};
ghost use Rattle.kt_meaning.specs.Cuts.{part, permanent_cut};
ghost use Rattle.kt_protocol.specs.States.{ProtocolStep};
ghost use Rattle.kt_machine.specs.Done.{done};
ghost use Rattle.kt_node.specs.Nets.{net_run, opening_net};
ghost use Rattle.kt_node.specs.Erasing.{rows_from};
ghost use Rattle.kt_node.specs.NodeHistories.{histories, GoesOn};
ghost use Rattle.kt_node.specs.LoggedHistories.{messages_of, own_permanent};

/// The histories that a node of a net tells its messages by are those that the rows of the net mean.
pub fn histories_of_nets()
    // Its live history is what its process has done itself, and its permanent one is the part that the last commit made
    // permanent which the process has closed.
    ensures live { (n first : ℕ) (steps : List ProtocolStep) (p : ℕ) (log : List Event) →
        let w = net_run (opening_net n first) steps in
        numbered (rows_from first w.rows) ≡ Some log →
        (histories (w.nodes p).calls).live ≡ messages_of first log ((done log).own p) }
    ensures permanent { (n first : ℕ) (steps : List ProtocolStep) (p : ℕ) (log : List Event) →
        let w = net_run (opening_net n first) steps in
        numbered (rows_from first w.rows) ≡ Some log →
        (histories (w.nodes p).calls).permanent ≡ messages_of first log (own_permanent log p) }

    // Where the process is in no instance, these are its live history and its permanent part by all rows.
    ensures live_idle { (n first : ℕ) (steps : List ProtocolStep) (p : ℕ) (log : List Event) →
        let w = net_run (opening_net n first) steps in
        numbered (rows_from first w.rows) ≡ Some log → (past log).open_in p ≡ None →
        (histories (w.nodes p).calls).live ≡ messages_of first log ((past log).live p) }
    ensures permanent_idle { (n first : ℕ) (steps : List ProtocolStep) (p : ℕ) (log : List Event) →
        let w = net_run (opening_net n first) steps in
        numbered (rows_from first w.rows) ≡ Some log → (past log).open_in p ≡ None →
        (histories (w.nodes p).calls).permanent
        ≡ messages_of first log (part (past log) (permanent_cut (past log)) p) }

    // At any time its permanent one is a front part of that: so no rollback undoes it, whoever commits.
    ensures permanent_within { (n first : ℕ) (steps : List ProtocolStep) (p : ℕ) (log : List Event) →
        let w = net_run (opening_net n first) steps in
        numbered (rows_from first w.rows) ≡ Some log →
        GoesOn (histories (w.nodes p).calls).permanent
        (messages_of first log (part (past log) (permanent_cut (past log)) p)) }
{}
