//! Laws of the two texts; there is nothing to run.

ghost use Rattle.std.specs.Prelude.{◌≡◌, ◌≤◌, ℕ, List, All, length};
ghost use Rattle.kt_plan.specs.declared.steps.Step.{Step as steps};
ghost use Rattle.kt_plan.specs.Limits.{Planned, IsPlan};
ghost use Rattle.kt_plan.specs.Names.{AreNames};
ghost use Rattle.kt_scenario.specs.declared.fault.ScenarioFault.{ScenarioFault as scenario_faults};
ghost use Rattle.kt_scenario.specs.declared.fault.StepsFault.{StepsFault as steps_faults};
ghost use Rattle.kt_scenario.specs.Scenario.{IsScenario, IsFirstScenarioFault};
ghost use Rattle.kt_scenario.specs.Steps.{AreSteps, IsFirstStepFault, most_steps};
ghost use Rattle.kt_scenario.specs.Written.{IsStepOf, steps_text};

/// A text says one plan at most, or it has one first fault; never both. Each plan that is said keeps to the limits.
pub fn scenarios_mean_one_plan()
    ensures one_plan { (text : List ℕ) (plan other : Planned) → IsScenario text plan → IsScenario text other → plan ≡ other }
    ensures no_plan { (text : List ℕ) (plan : Planned) (fault : scenario_faults) → IsFirstScenarioFault text fault → IsScenario text plan → ⊥ }
    ensures one_fault { (text : List ℕ) (fault other : scenario_faults) → IsFirstScenarioFault text fault → IsFirstScenarioFault text other → fault ≡ other }
    ensures limits { (text : List ℕ) (plan : Planned) → IsScenario text plan → IsPlan plan }
{}

/// A text says one list of steps at most, or it has one first fault; never both.
pub fn texts_mean_one_list()
    ensures one_list { (names : List (List ℕ)) (text : List ℕ) (list other : List steps) → AreSteps names text list → AreSteps names text other → list ≡ other }
    ensures no_list { (names : List (List ℕ)) (text : List ℕ) (list : List steps) (fault : steps_faults) → IsFirstStepFault names text fault → AreSteps names text list → ⊥ }
    ensures one_fault { (names : List (List ℕ)) (text : List ℕ) (fault other : steps_faults) → IsFirstStepFault names text fault → IsFirstStepFault names text other → fault ≡ other }
{}

/// Steps that were written are read back: their text says them, where there are no more than a text of steps may have.
pub fn steps_are_read_back()
    ensures { (names : List (List ℕ)) (list : List steps) → AreNames names → All (IsStepOf (length names)) list →
        length list ≤ most_steps → AreSteps names (steps_text names list) list }
{}
