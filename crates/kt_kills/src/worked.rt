//! The definitions on worked runs.

ghost use Rattle.std.specs.Prelude.{◌≡◌, [], ◌∷◌, ◌++◌, pos, true, Some, None};
ghost use Rattle.kt_spacetime.specs.ClockedRows.{without_clocks};
ghost use Rattle.kt_node.specs.Nets.{net_run, opening_net};
ghost use Rattle.kt_kills.specs.KilledNets.{Back, Brought, sending_again};
ghost use Rattle.kt_kills.specs.Starts.{IsRight, parcels};
ghost use Rattle.kt_kills.specs.Standing.{killed_after, rows_by};
ghost use Rattle.kt_kills.specs.Fillers.{sends_to_make};
ghost use Rattle.kt_kills.specs.WorkedKills as worked;

/// Worked kills: a law, with nothing to run.
pub fn worked_kills()
    // A send that was taken is made again: so it has to be, and so the rows of both are those of a net.
    ensures asks { sends_to_make (killed_after 2 0 worked.taken_and_killed) 0 ≡ (1, pos 5) ∷ [] }
    ensures not_without { IsRight (killed_after 2 0 worked.taken_and_killed) (Back 0 []) → ⊥ }
    ensures knows { let h = worked.had 2 worked.taken_and_killed 0 in
        parcels ((sending_again 0 h ((1, pos 5) ∷ [])).put 1)
        ≡ parcels ((worked.had 2 worked.taken_and_killed 1).took 0) }
    ensures rows_of_0 { (worked.had 2 worked.taken_and_back 0).rows ≡ worked.rows_of_0 }
    ensures rows_of_1 { (worked.had 2 worked.taken_and_back 1).rows ≡ worked.rows_of_1 }
    ensures net_0 { rows_by 0 (net_run (opening_net 2 0) worked.taken_and_back_steps).rows
        ≡ without_clocks worked.rows_of_0 }
    ensures net_1 { rows_by 1 (net_run (opening_net 2 0) worked.taken_and_back_steps).rows
        ≡ without_clocks worked.rows_of_1 }

    // Who is killed in its start makes it again, in another life.
    ensures same_start { (worked.had 2 worked.killed_in_start 0).put 1
        ≡ (worked.had 2 worked.taken_and_killed 1).took 0 }
    ensures third_life { (killed_after 2 0 worked.killed_in_start).life 0 ≡ 2 }

    // A label that nobody took is filled, and what was sent before the kill is no longer taken.
    ensures fills { sends_to_make (killed_after 3 0 worked.first_one_lost) 0
        ≡ (1, pos 0) ∷ (2, pos 7) ∷ [] }
    ensures knows_filled { let h = worked.had 3 worked.first_one_lost 0 in
        parcels ((sending_again 0 h ((1, pos 0) ∷ (2, pos 7) ∷ [])).put 2)
        ≡ parcels ((worked.had 3 worked.first_one_lost 2).took 0) }
    ensures not_to_who_took { IsRight (killed_after 3 0 worked.first_one_lost)
        (Back 0 ((2, pos 0) ∷ (2, pos 7) ∷ [])) → ⊥ }
    ensures refused { killed_after 3 0 (worked.old_parcel ++ Brought 1 0 true 0 1 ∷ [])
        ≡ killed_after 3 0 worked.old_parcel }

    // What a step of an instance leaves is written: the other one's disk still tells of the message, and who was in the
    // open instance ends it.
    ensures tells { sends_to_make (killed_after 2 0 worked.both_killed) 0 ≡ (1, pos 5) ∷ [] }
    ensures tells_nothing { sends_to_make (killed_after 2 0 worked.both_killed) 1 ≡ [] }
    ensures member { (worked.had 2 worked.both_back 0).rows ≡ worked.member_0 }
    ensures initiator { (worked.had 2 worked.both_back 1).rows ≡ worked.initiator_1 }

    // Who is away takes nothing, and a reply without a row is written.
    ensures away { (worked.had 2 worked.brought_while_away 1).rows ≡ [] }
    ensures replied { parcels ((worked.had 2 worked.replied_and_killed 0).put 1) ≡ worked.put_for_1 }

    // Who was killed has no object, and after the rollback that of its permanent checkpoint.
    ensures object_lost { (worked.object_of 2 worked.taken_and_killed 0).live ≡ None }
    ensures object_back { (worked.object_of 2 worked.taken_and_back 0).live ≡ Some [] }

    // What was taken and not written is taken again, once.
    ensures again { (worked.had 2 worked.taken_again 1).rows ≡ worked.received_once }
{}
