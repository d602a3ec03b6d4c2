//! An object of one's own.

ghost use Rattle.std.specs.Prelude.{◌≡◌};
ghost use Rattle.kt_object.specs.Value.{opening_value};

use kt_base::ProcNo;
use kt_object::{Recoverable, RestoreFault, SaveFault, SlotGuard, Sum};
use std::alloc::Global;
use std::sync::Arc;
use std::sync::atomic::{AtomicU64, Ordering};

/// A count that objects share.
pub(crate) type Count = Arc<AtomicU64, Global>;

/// A sum that also counts what it takes in. The count is no part of its value: no rollback takes it back.
#[derive(Drop)]
pub(crate) struct Counter {
    sum: Sum,
    taken: Count,
}

impl Counter {
    /// A sum at 0, which holds this slot and adds to this count.
    pub(crate) fn new(guard: SlotGuard, taken: Count) -> Counter
        ensures kind { ⟦<Counter as Recoverable>⟧.kind_of result ≡ 0 }
        ensures value { ⟦<Counter as Recoverable>⟧.value_of result ≡ opening_value 0 }
        ensures slot { ⟦<Counter as Recoverable>⟧.slot_of result ≡ guard }
    {
        let sum = Sum::new(guard);
        Counter { sum, taken }
    }
}

impl Recoverable for Counter {
    ghost kind_of = { λ s. ⟦<Sum as Recoverable>⟧.kind_of s.sum };

    ghost value_of = { λ s. ⟦<Sum as Recoverable>⟧.value_of s.sum };

    ghost slot_of = { λ s. ⟦<Sum as Recoverable>⟧.slot_of s.sum };

    ghost may_refuse = { λ s. ⟦<Sum as Recoverable>⟧.may_refuse s.sum };

    ghost may_reject = { λ s saved. ⟦<Sum as Recoverable>⟧.may_reject s.sum saved };

    fn kind(&self) -> u8 {
        self.sum.kind()
    }

    fn apply(&mut self, from: ProcNo, body: i64) {
        self.taken.fetch_add(1, Ordering::SeqCst);
        self.sum.apply(from, body);
    }

    fn offer(&self) -> i64 {
        self.sum.offer()
    }

    fn save(&self, out: &mut Vec<u8>) -> Result<(), SaveFault> {
        self.sum.save(out)
    }

    fn restore(&mut self, saved: &[u8]) -> Result<(), RestoreFault> {
        self.sum.restore(saved)
    }

    fn slot(&self) -> usize {
        self.sum.slot()
    }
}
