//! Laws of logs and their texts; there is nothing to run.

ghost use Rattle.std.specs.Prelude.{◌≡◌, ℕ, List, length};
ghost use Rattle.kt_spacetime.specs.declared.event.Event.{Event as events};
ghost use Rattle.kt_log_text.specs.declared.fault.LogFault.{LogFault as log_faults};
ghost use Rattle.kt_spacetime.specs.Events.{IsRowInRange};
ghost use Rattle.kt_log_text.specs.Spelling.{spelling};
ghost use Rattle.kt_log_text.specs.Texts.{IsLogText, IsFirstLogFault, IsOfLogText};

/// A row is spelled by four fields, and these fields spell that row alone.
pub fn one_spelling()
    ensures fields { (row : events) → length (spelling row) ≡ 4 }
    ensures alone { (row other : events) → IsRowInRange row → IsRowInRange other → spelling row ≡ spelling other
        → row ≡ other }
{}

/// A text says the rows of one log at most, or has one first fault of its own; it never has both.
pub fn faults_are_real()
    ensures one_log { (text : List (List (List ℕ))) (rows others : List events) → IsLogText text rows
        → IsLogText text others → rows ≡ others }
    ensures no_log { (text : List (List (List ℕ))) (rows : List events) (fault : log_faults) → IsOfLogText fault
        → IsFirstLogFault text fault → IsLogText text rows → ⊥ }
    ensures one_fault { (text : List (List (List ℕ))) (fault other : log_faults) → IsOfLogText fault → IsOfLogText other
        → IsFirstLogFault text fault → IsFirstLogFault text other → fault ≡ other }
{}
