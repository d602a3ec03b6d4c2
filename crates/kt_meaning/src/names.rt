//! Laws of names; there is nothing to run.

ghost use Rattle.std.specs.Prelude.{◌≡◌, List, ◌++◌, Some, length, map, take};
ghost use Rattle.kt_spacetime.specs.declared.event.Event.{Event as events};
ghost use Rattle.kt_spacetime.specs.Events.{process_of};
ghost use Rattle.kt_meaning.specs.Legal.{IsLegal};
ghost use Rattle.kt_spacetime.specs.declared.named_rows.NamedRow.{NamedRow as named_rows};
ghost use Rattle.kt_meaning.specs.Names.{numbered, named};

/// Logs by names and logs by numbers undo each other, and a longer log names its first rows as they were named.
pub fn names_and_numbers()
    // Each undoes the other, wherever it gives a log.
    ensures named_back { (rows : List named_rows) (log : List events) →
        numbered rows ≡ Some log → named log ≡ Some rows }
    ensures numbered_back { (rows : List named_rows) (log : List events) →
        named log ≡ Some rows → numbered rows ≡ Some log }

    // A legal log has names.
    ensures legal { (log : List events) → IsLegal log →
        (rows : List named_rows) × (named log ≡ Some rows) × (numbered rows ≡ Some log) }

    // The rows of a beginning have their names and numbers whatever follows.
    ensures front { (log more : List events) (rows : List named_rows) →
        named (log ++ more) ≡ Some rows → named log ≡ Some (take (length log) rows) }
    ensures numbered_front { (rows more : List named_rows) (log : List events) →
        numbered (rows ++ more) ≡ Some log → numbered rows ≡ Some (take (length rows) log) }

    // Each row stays its process's.
    ensures processes { (rows : List named_rows) (log : List events) →
        numbered rows ≡ Some log → map process_of log ≡ map (λ r. r.p) rows }
{}
