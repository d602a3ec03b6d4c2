//! An object that keeps the last body.

ghost use Rattle.std.specs.Prelude.{◌≡◌, ◌↔◌, ◌++◌, ◌∷◌, [], ℕ, ℤ, pos, List, FitsSigned, Err, OnOk, OnErr, IsOkUnless};
ghost use Rattle.std.specs.Int.{w64};
ghost use Rattle.kt_object.specs.Bytes.{saved_bytes, IsSavedState};
ghost use Rattle.kt_object.specs.Reliable.{IsReliable};
ghost use Rattle.kt_object.specs.Value.{opening_value, IsValue};

use crate::faults::{RestoreFault, SaveFault};
use crate::numbers::{Numbers, save_numbers};
use crate::objects::Recoverable;
use crate::slots::SlotGuard;
use kt_base::ProcNo;

/// The number of this kind.
const KIND: u8 = 1;

/// The body of the last message: kind 1.
#[derive(Drop)]
pub struct Last {
    number: i64,
    guard: SlotGuard,
    ghost in_range: { FitsSigned w64 number },
}

impl Last {
    /// A last number at 0, which holds this slot.
    pub fn new(guard: SlotGuard) -> Last
        ensures kind { ⟦<Last as Recoverable>⟧.kind_of result ≡ 1 }
        ensures value { ⟦<Last as Recoverable>⟧.value_of result ≡ opening_value 1 }
        ensures slot { ⟦<Last as Recoverable>⟧.slot_of result ≡ guard }
        ensures reliable { IsReliable 1 (⟦<Last as Recoverable>⟧.may_refuse result)
            (λ saved. ⟦<Last as Recoverable>⟧.may_reject result saved) }
    {
        Last { number: 0, guard }
    }
}

impl Recoverable for Last {
    ghost kind_of = { λ _. 1 };

    ghost value_of = { λ last. last.number ∷ [] };

    ghost slot_of = { λ last. last.guard };

    // it may always be saved, and takes each saved state of its kind
    ghost may_refuse = { λ _. ⊥ };

    ghost may_reject = { λ _ saved. (value : List ℤ) → ¬ IsSavedState 1 value saved };

    fn kind(&self) -> u8 {
        KIND
    }

    fn apply(&mut self, _from: ProcNo, body: i64) {
        self.number = body;
    }

    fn offer(&self) -> i64 {
        self.number
    }

    fn save(&self, out: &mut Vec<u8>) -> Result<(), SaveFault>
        ensures ok { OnOk result
            (out.new.items ≡ out.old.items ++ saved_bytes 1 (⟦<Last as Recoverable>⟧.value_of self.now)) }
        ensures err { OnErr result (out.new.items ≡ out.old.items) }
        ensures proper { IsValue 1 (⟦<Last as Recoverable>⟧.value_of self.now) }
        ensures only_memory { IsOkUnless result SaveFault.Memory }
    {
        save_numbers(KIND, &[self.number], out)?;
        Ok(())
    }

    fn restore(&mut self, saved: &[u8]) -> Result<(), RestoreFault>
        ensures ok { OnOk result (IsSavedState 1 (⟦<Last as Recoverable>⟧.value_of self.new) saved.now) }
        ensures err { OnErr result
            (⟦<Last as Recoverable>⟧.value_of self.new ≡ ⟦<Last as Recoverable>⟧.value_of self.old) }
        ensures slot { ⟦<Last as Recoverable>⟧.slot_of self.new ≡ ⟦<Last as Recoverable>⟧.slot_of self.old }
        ensures proper { IsValue 1 (⟦<Last as Recoverable>⟧.value_of self.new) }
        ensures form { (result ≡ Err RestoreFault.Form)
            ↔ ((value : List ℤ) → ¬ IsSavedState 1 value saved.now) }
        ensures only_form { IsOkUnless result RestoreFault.Form }
    {
        let numbers = Numbers::read(KIND, saved).ok_or(RestoreFault::Form)?;
        self.number = numbers.newest();
        Ok(())
    }

    fn slot(&self) -> usize {
        self.guard.number()
    }
}
