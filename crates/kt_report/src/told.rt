//! What the rows of a log tell a report beside instances and objects.

ghost use Rattle.std.specs.Prelude.{◌≡◌, ◌<◌, ◌≤◌, ◌+◌, ◌-◌, ◌^◌, ◌++◌, [], ℕ, List, false, length, if◌then◌else◌, OnOk, IfOk};
ghost use Rattle.kt_base.specs.Numbers.{IsInstNo};
ghost use Rattle.kt_report.specs.Lines.{refusal_line};
ghost use Rattle.kt_report.specs.Report.{is_drop};
ghost use Rattle.kt_report.specs.Told.{Tells};
ghost use Rattle.kt_report.specs.Unwilling.{answers_to, unwilling_in};

use crate::unwilling::Unwilling;
use kt_base::Memory;
use kt_spacetime::Event;
use std::alloc::Global;

/// Who was unwilling to join an instance, how many messages were dropped, and whether a command was refused.
#[derive(Drop)]
pub(crate) struct Told {
    pub(crate) unwilling: Unwilling,
    pub(crate) dropped: usize,
    pub(crate) refuses: bool,
}

impl Told {
    /// What all rows tell.
    pub(crate) fn of_rows(alloc: Global, rows: &[Event]) -> Result<Told, Memory>
        ensures { IfOk result (λ told. Tells told rows.now) }
    {
        let mut told = Told {
            unwilling: Unwilling::nobody(alloc),
            dropped: 0,
            refuses: false,
        };
        for row in rows {
            told.note(alloc, *row)?;
        }
        Ok(told)
    }

    // Notes what a row tells.
    #[inline(always)]
    fn note(&mut self, alloc: Global, row: Event) -> Result<(), Memory>
        requires { self.old.dropped < 2 ^ 64 - 1 }
        ensures unwilling { OnOk result ((inst : ℕ) → IsInstNo inst
            → answers_to self.new.unwilling inst ≡ answers_to self.old.unwilling inst ++ unwilling_in inst row) }
        ensures dropped { OnOk result (self.new.dropped ≡ self.old.dropped + (if is_drop row then 1 else 0)) }
        ensures before { OnOk result (self.new.refuses ≡ false → self.old.refuses ≡ false) }
        ensures refused { OnOk result (self.new.refuses ≡ false → (names : List (List ℕ)) → refusal_line names row ≡ []) }
    {
        match row {
            Event::Unwilling { p, inst, cause } => self.unwilling.add(alloc, inst, p, cause),
            Event::Dropped { .. } => {
                self.dropped += 1;
                Ok(())
            }
            Event::Refused { .. } => {
                self.refuses = true;
                Ok(())
            }
            _ => Ok(()),
        }
    }
}
