//! What stands in the way of a step.

ghost use Rattle.std.specs.Prelude.{◌≡◌, ◌↔◌, ℕ, Some, None, true, false};
ghost use Rattle.kt_core.specs.Shown.{Mirrors};
ghost use Rattle.kt_core.specs.Worlds.{can_make};
ghost use Rattle.kt_promises.specs.Hindrances.{hindrance};
ghost use Rattle.kt_promises.specs.Progress.{Progress};

use super::World;
use crate::laws::laws_of_runs;
use kt_base::ProcNo;
use kt_plan::Step;
use kt_promises::Hindrance;

impl World {
    /// What stands in the way of a step, where it can't be made.
    pub fn hindrance(&self, step: &Step) -> Option<Hindrance>
        ensures none { (result ≡ None) ↔ (can_make self.now step.now ≡ true) }
        ensures in_runs { (first : ℕ) (v : Progress) → Mirrors self.now.agenda self.now.system first v →
            result ≡ hindrance self.now.agenda.plan v step.now }
    {
        laws_of_runs();
        if self.enabled(step) {
            return None;
        }
        match *step {
            Step::Do(p) => Some(self.hindrance_of_next(p)),
            Step::Take { .. } => Some(Hindrance::NoParcel),
        }
    }

    /// What stands in the way of a process's next command, which can't be done.
    fn hindrance_of_next(&self, p: ProcNo) -> Hindrance
        requires { can_make self.now (Step.Do p) ≡ false }
        ensures { (first : ℕ) (v : Progress) → Mirrors self.now.agenda self.now.system first v →
            hindrance self.now.agenda.plan v (Step.Do p) ≡ Some result }
    {
        laws_of_runs();
        let place = self.agenda.place(p);
        if self.agenda.command_at(p, place).is_none() {
            Hindrance::NoCommand
        } else if self.agenda.open_command(p).is_none() {
            Hindrance::PhaseNotOpen
        } else {
            Hindrance::SendInInstance
        }
    }
}
