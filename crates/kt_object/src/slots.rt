//! Slots: which objects are still there.

ghost use Rattle.std.specs.Prelude.{◌≡◌, ◌+◌, OnOk, OnErr};

use kt_base::Memory;
use slab::Slab;
use std::alloc::Global;
use std::marker::Model;
use std::sync::Arc;
use std::sync::atomic::{AtomicBool, Ordering};

/// Holds a slot until it is dropped. Contracts see the slot's number.
pub struct SlotGuard {
    number: usize,
    gone: Arc<AtomicBool, Global>,
}

impl Model for SlotGuard {
    ghost use Rattle.std.specs.Prelude.{ℕ};

    ghost Value = { ℕ };

    ghost view = { λ g. g.number };
}

impl SlotGuard {
    /// The slot's number.
    pub fn number(&self) -> usize
        ensures { result ≡ self.now }
    {
        self.number
    }
}

impl Drop for SlotGuard {
    fn drop(self) {
        self.gone.store(true, Ordering::SeqCst);
        let SlotGuard { number: _, gone } = self;
        drop(gone);
    }
}

/// The slots that objects hold. Contracts see how many are out: opened, and not yet freed by `collect`.
#[derive(Drop)]
pub struct SlotBook {
    slots: Slab<Arc<AtomicBool, Global>>,
    alloc: Global,
}

impl Model for SlotBook {
    ghost use Rattle.std.specs.Prelude.{ℕ};
    ghost use Rattle.slab.specs.Slab.{slab_len};

    ghost Value = { ℕ };

    ghost view = { λ b. slab_len b.slots };
}

impl SlotBook {
    /// A book with no slot.
    pub fn new(alloc: Global) -> SlotBook
        ensures { result ≡ 0 }
    {
        SlotBook {
            slots: Slab::new(alloc),
            alloc,
        }
    }

    /// Opens a slot. At want of memory no slot is opened.
    pub fn open(&mut self) -> Result<SlotGuard, Memory>
        ensures ok { OnOk result (self.new ≡ self.old + 1) }
        ensures err { OnErr result (self.new ≡ self.old) }
    {
        let gone = Arc::new(self.alloc, AtomicBool::new(false))?;
        let shared = Arc::try_clone(&gone)?;
        let number = self.slots.insert(shared)?;
        Ok(SlotGuard { number, gone })
    }

    /// Frees the slots whose guard was dropped, and answers how many.
    pub fn collect(&mut self) -> usize
        ensures { self.new + result ≡ self.old }
    {
        let mut freed = 0;
        for number in 0..self.slots.capacity() {
            let gone = match self.slots.get(number) {
                Some(gone) => gone.load(Ordering::SeqCst),
                None => false,
            };
            if gone && self.slots.try_remove(number).is_some() {
                freed += 1;
            }
        }
        freed
    }

    /// How many slots are out.
    pub fn out(&self) -> usize
        ensures { result ≡ self.now }
    {
        self.slots.len()
    }
}
