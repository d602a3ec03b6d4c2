//! Laws of merges; there is nothing to run.

ghost use Rattle.std.specs.Prelude.{◌≡◌, ℕ, List, Option, Some, AllPairs};
ghost use Rattle.kt_meaning.specs.Names.{numbered};
ghost use Rattle.kt_spacetime.specs.declared.event.Event.{Event as events};
ghost use Rattle.kt_merge.specs.declared.fault.MergeFault.{MergeFault as merge_faults};
ghost use Rattle.kt_merge.specs.Causal.{AreCausal, IsOfLimits};
ghost use Rattle.kt_merge.specs.Heads.{IsNotLater};
ghost use Rattle.kt_spacetime.specs.declared.named_rows.ClockedRow.{ClockedRow as clocked_rows};
ghost use Rattle.kt_spacetime.specs.ClockedRows.{without_clocks};
ghost use Rattle.kt_merge.specs.Reading.{PartRead as parts_read};
ghost use Rattle.kt_merge.specs.Merging.{IsMergeOf, IsRowwise, AreKnown, StopsMerge, WritesMerge};

/// Where the log of a merge was written, names can be put back: each process's rows are then those of its part, none added and
/// none lost.
pub fn names_put_back()
    ensures { (parts : List parts_read) (old new : Option (List ℕ)) → WritesMerge parts old new →
        IsRowwise parts old new }
{
    kt_meaning::names_and_numbers();
}

/// Parts whose texts are known have one merge.
pub fn one_merge()
    ensures { (parts : List parts_read) (rows others : List clocked_rows) → AreKnown parts → IsMergeOf parts rows →
        IsMergeOf parts others → rows ≡ others }
{}

/// Rows in order of which each process gives its names in order, and each name is given by a row that comes before each that
/// uses it, have a log. Where the rows of parts have one, nothing stops their merge but readers, writers, memory and the limits
/// of a log.
pub fn causal_parts_merge()
    ensures log { (rows : List clocked_rows) → AllPairs IsNotLater rows → AreCausal rows →
        (log : List events) × (numbered (without_clocks rows) ≡ Some log) }
    ensures faults { (parts : List parts_read) (rows : List clocked_rows) (log : List events) (old new : Option (List ℕ))
        (fault : merge_faults) → AreKnown parts → IsMergeOf parts rows → numbered (without_clocks rows) ≡ Some log →
        StopsMerge parts old new fault → IsOfLimits fault }
{}
