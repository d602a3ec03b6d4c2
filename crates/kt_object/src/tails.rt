//! An object that keeps the last bodies.

ghost use Rattle.std.specs.Prelude.{◌≡◌, ◌↔◌, ◌++◌, ℕ, ℤ, List, Err, OnOk, OnErr, IsOkUnless};
ghost use Rattle.kt_object.specs.Bytes.{saved_bytes, IsSavedState};
ghost use Rattle.kt_object.specs.Reliable.{IsReliable};
ghost use Rattle.kt_object.specs.Value.{opening_value, IsValue};

use crate::faults::{RestoreFault, SaveFault};
use crate::numbers::{Numbers, save_numbers};
use crate::objects::Recoverable;
use crate::slots::SlotGuard;
use kt_base::ProcNo;

/// The number of this kind.
const KIND: u8 = 2;

/// The bodies of the last eight messages, the oldest first: kind 2.
#[derive(Drop)]
pub struct Tail {
    numbers: Numbers,
    guard: SlotGuard,
    ghost proper: { IsValue 2 numbers },
}

impl Tail {
    /// An empty tail, which holds this slot.
    pub fn new(guard: SlotGuard) -> Tail
        ensures kind { ⟦<Tail as Recoverable>⟧.kind_of result ≡ 2 }
        ensures value { ⟦<Tail as Recoverable>⟧.value_of result ≡ opening_value 2 }
        ensures slot { ⟦<Tail as Recoverable>⟧.slot_of result ≡ guard }
        ensures reliable { IsReliable 2 (⟦<Tail as Recoverable>⟧.may_refuse result)
            (λ saved. ⟦<Tail as Recoverable>⟧.may_reject result saved) }
    {
        Tail {
            numbers: Numbers::none(),
            guard,
        }
    }
}

impl Recoverable for Tail {
    ghost kind_of = { λ _. 2 };

    ghost value_of = { λ tail. tail.numbers };

    ghost slot_of = { λ tail. tail.guard };

    // it may always be saved, and takes each saved state of its kind
    ghost may_refuse = { λ _. ⊥ };

    ghost may_reject = { λ _ saved. (value : List ℤ) → ¬ IsSavedState 2 value saved };

    fn kind(&self) -> u8 {
        KIND
    }

    fn apply(&mut self, _from: ProcNo, body: i64) {
        self.numbers.push(body);
    }

    fn offer(&self) -> i64 {
        self.numbers.newest()
    }

    fn save(&self, out: &mut Vec<u8>) -> Result<(), SaveFault>
        ensures ok { OnOk result
            (out.new.items ≡ out.old.items ++ saved_bytes 2 (⟦<Tail as Recoverable>⟧.value_of self.now)) }
        ensures err { OnErr result (out.new.items ≡ out.old.items) }
        ensures proper { IsValue 2 (⟦<Tail as Recoverable>⟧.value_of self.now) }
        ensures only_memory { IsOkUnless result SaveFault.Memory }
    {
        save_numbers(KIND, self.numbers.as_slice(), out)?;
        Ok(())
    }

    fn restore(&mut self, saved: &[u8]) -> Result<(), RestoreFault>
        ensures ok { OnOk result (IsSavedState 2 (⟦<Tail as Recoverable>⟧.value_of self.new) saved.now) }
        ensures err { OnErr result
            (⟦<Tail as Recoverable>⟧.value_of self.new ≡ ⟦<Tail as Recoverable>⟧.value_of self.old) }
        ensures slot { ⟦<Tail as Recoverable>⟧.slot_of self.new ≡ ⟦<Tail as Recoverable>⟧.slot_of self.old }
        ensures proper { IsValue 2 (⟦<Tail as Recoverable>⟧.value_of self.new) }
        ensures form { (result ≡ Err RestoreFault.Form)
            ↔ ((value : List ℤ) → ¬ IsSavedState 2 value saved.now) }
        ensures only_form { IsOkUnless result RestoreFault.Form }
    {
        self.numbers = Numbers::read(KIND, saved).ok_or(RestoreFault::Form)?;
        Ok(())
    }

    fn slot(&self) -> usize {
        self.guard.number()
    }
}
