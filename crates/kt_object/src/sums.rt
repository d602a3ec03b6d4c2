//! An object that adds.

ghost use Rattle.std.specs.Prelude.{◌≡◌, ◌↔◌, ◌++◌, ◌∷◌, [], ℕ, ℤ, pos, List, FitsSigned, Err, OnOk, OnErr, IsOkUnless};
ghost use Rattle.std.specs.Int.{w64};
ghost use Rattle.kt_object.specs.Bytes.{saved_bytes, IsSavedState};
ghost use Rattle.kt_object.specs.Reliable.{IsReliable};
ghost use Rattle.kt_object.specs.Value.{opening_value, IsValue};

use crate::faults::{RestoreFault, SaveFault};
use crate::numbers::{Numbers, save_numbers};
use crate::objects::Recoverable;
use crate::slots::SlotGuard;
use kt_base::ProcNo;

/// The number of this kind.
const KIND: u8 = 0;

/// The sum of the bodies, saturating at the ends of i64: kind 0.
#[derive(Drop)]
pub struct Sum {
    total: i64,
    guard: SlotGuard,
    ghost in_range: { FitsSigned w64 total },
}

impl Sum {
    /// A sum at 0, which holds this slot.
    pub fn new(guard: SlotGuard) -> Sum
        ensures kind { ⟦<Sum as Recoverable>⟧.kind_of result ≡ 0 }
        ensures value { ⟦<Sum as Recoverable>⟧.value_of result ≡ opening_value 0 }
        ensures slot { ⟦<Sum as Recoverable>⟧.slot_of result ≡ guard }
        ensures reliable { IsReliable 0 (⟦<Sum as Recoverable>⟧.may_refuse result)
            (λ saved. ⟦<Sum as Recoverable>⟧.may_reject result saved) }
    {
        Sum { total: 0, guard }
    }
}

impl Recoverable for Sum {
    ghost kind_of = { λ _. 0 };

    ghost value_of = { λ sum. sum.total ∷ [] };

    ghost slot_of = { λ sum. sum.guard };

    // it may always be saved, and takes each saved state of its kind
    ghost may_refuse = { λ _. ⊥ };

    ghost may_reject = { λ _ saved. (value : List ℤ) → ¬ IsSavedState 0 value saved };

    fn kind(&self) -> u8 {
        KIND
    }

    fn apply(&mut self, _from: ProcNo, body: i64) {
        self.total = self.total.saturating_add(body);
    }

    fn offer(&self) -> i64 {
        self.total
    }

    fn save(&self, out: &mut Vec<u8>) -> Result<(), SaveFault>
        ensures ok { OnOk result
            (out.new.items ≡ out.old.items ++ saved_bytes 0 (⟦<Sum as Recoverable>⟧.value_of self.now)) }
        ensures err { OnErr result (out.new.items ≡ out.old.items) }
        ensures proper { IsValue 0 (⟦<Sum as Recoverable>⟧.value_of self.now) }
        ensures only_memory { IsOkUnless result SaveFault.Memory }
    {
        save_numbers(KIND, &[self.total], out)?;
        Ok(())
    }

    fn restore(&mut self, saved: &[u8]) -> Result<(), RestoreFault>
        ensures ok { OnOk result (IsSavedState 0 (⟦<Sum as Recoverable>⟧.value_of self.new) saved.now) }
        ensures err { OnErr result
            (⟦<Sum as Recoverable>⟧.value_of self.new ≡ ⟦<Sum as Recoverable>⟧.value_of self.old) }
        ensures slot { ⟦<Sum as Recoverable>⟧.slot_of self.new ≡ ⟦<Sum as Recoverable>⟧.slot_of self.old }
        ensures proper { IsValue 0 (⟦<Sum as Recoverable>⟧.value_of self.new) }
        ensures form { (result ≡ Err RestoreFault.Form)
            ↔ ((value : List ℤ) → ¬ IsSavedState 0 value saved.now) }
        ensures only_form { IsOkUnless result RestoreFault.Form }
    {
        let numbers = Numbers::read(KIND, saved).ok_or(RestoreFault::Form)?;
        self.total = numbers.newest();
        Ok(())
    }

    fn slot(&self) -> usize {
        self.guard.number()
    }
}
