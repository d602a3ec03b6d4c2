//! Laws of the checker's answer; there is nothing to run.

ghost use Rattle.std.specs.Prelude.{◌≡◌, List};
ghost use Rattle.kt_spacetime.specs.declared.event.Event.{Event as events};
ghost use Rattle.kt_spacetime.specs.declared.certificate.Certificate.{Certificate as claims};
ghost use Rattle.kt_spacetime.specs.declared.verdict.Verdict.{Verdict as answers};
ghost use Rattle.kt_meaning.specs.Answers.{IsCheckerAnswer};

/// A log and a list of certificates have one answer: two that are right are equal.
pub fn one_answer()
    ensures { (log : List events) (certificates : List claims) (answer other : answers)
        → IsCheckerAnswer log certificates answer → IsCheckerAnswer log certificates other → answer ≡ other }
{}
