//! Laws of parts and their texts; there is nothing to run.

ghost use Rattle.std.specs.Prelude.{◌≡◌, ◌≤◌, ℕ, List, length};
ghost use Rattle.std.specs.List.{flat_map};
ghost use Rattle.kt_text.specs.Records.{text_records};
ghost use Rattle.kt_spacetime.specs.declared.named_rows.ClockedRow.{ClockedRow as clocked_rows};
ghost use Rattle.kt_merge.specs.declared.part_fault.PartFault.{PartFault as part_faults};
ghost use Rattle.kt_merge.specs.Spelling.{part_spelling};
ghost use Rattle.kt_merge.specs.Texts.{part_width, max_records, part_text, row_line, IsSpellable, IsPartFrom, IsPartText, IsFirstPartFault, IsOfPartText};

/// A row of a part is spelled by six fields, and these fields spell that row alone.
pub fn part_rows_have_one_spelling()
    ensures fields { (row : clocked_rows) → length (part_spelling row) ≡ 6 }
    ensures alone { (row other : clocked_rows) → IsSpellable row → IsSpellable other →
        part_spelling row ≡ part_spelling other → row ≡ other }
{}

/// A text says the rows of one part at most, or has one first fault of its own; it never has both.
pub fn part_faults_are_real()
    ensures one_part { (p : ℕ) (text : List (List (List ℕ))) (rows others : List clocked_rows) →
        IsPartText p text rows → IsPartText p text others → rows ≡ others }
    ensures no_part { (p : ℕ) (text : List (List (List ℕ))) (rows : List clocked_rows) (fault : part_faults) →
        IsOfPartText fault → IsFirstPartFault p text fault → IsPartText p text rows → ⊥ }
    ensures one_fault { (p : ℕ) (text : List (List (List ℕ))) (fault other : part_faults) → IsOfPartText fault →
        IsOfPartText other → IsFirstPartFault p text fault → IsFirstPartFault p text other → fault ≡ other }
{}

/// The lines of a process's rows, one after another, are the text of its part, and read as a part they say those rows, with
/// their clocks.
pub fn parts_are_read_back()
    ensures lines { (rows : List clocked_rows) → flat_map row_line rows ≡ part_text rows }
    ensures read_back { (p : ℕ) (rows : List clocked_rows) → IsPartFrom p 0 rows → length rows ≤ max_records →
        IsPartText p (text_records part_width (part_text rows)) rows }
{}
