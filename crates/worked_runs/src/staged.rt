//! Sums that have a trouble, or that wait for one another.

use kt_base::ProcNo;
use kt_object::{Recoverable, RestoreFault, SaveFault, Sum};
use std::alloc::Global;
use std::cell::Cell;
use std::hint::spin_loop;
use std::sync::Arc;
use std::sync::atomic::{AtomicBool, Ordering};

// How often an object looks for the other's flag at most.
const TURNS: u32 = 100_000_000;

/// What is asked of an object beside what a sum does.
#[derive(Clone, Copy)]
pub(crate) enum Trouble {
    /// Nothing.
    Absent,
    /// Its save with this number, counted from 1, answers this.
    Save(u64, SaveFault),
    /// Its restore with this number, counted from 1, answers this.
    Restore(u64, RestoreFault),
    /// It waits for the other object where it takes a message in.
    Apply,
    /// It waits for the other object where it offers a body.
    Offer,
}

impl Trouble {
    /// The trouble that words say: `apply`, `offer`, or `save` or `restore`, at which such call, and what that
    /// answers.
    pub(crate) fn of_words(call: &str, at: u64, answer: &str) -> Trouble {
        match (call, answer) {
            ("apply", _) => Trouble::Apply,
            ("offer", _) => Trouble::Offer,
            ("save", "unable") => Trouble::Save(at, SaveFault::Unable),
            ("save", "memory") => Trouble::Save(at, SaveFault::Memory),
            ("restore", "form") => Trouble::Restore(at, RestoreFault::Form),
            ("restore", "memory") => Trouble::Restore(at, RestoreFault::Memory),
            _ => Trouble::Absent,
        }
    }
}

/// Where two objects meet: which of them has called, and which saw the other's call.
#[derive(Drop)]
pub(crate) struct Meeting {
    called: [AtomicBool; 2],
    seen: [AtomicBool; 2],
}

impl Meeting {
    pub(crate) fn new() -> Meeting {
        Meeting {
            called: [AtomicBool::new(false), AtomicBool::new(false)],
            seen: [AtomicBool::new(false), AtomicBool::new(false)],
        }
    }

    /// Whether both objects saw each other's call.
    pub(crate) fn both_seen(&self) -> bool {
        self.seen[0].load(Ordering::SeqCst) && self.seen[1].load(Ordering::SeqCst)
    }

    // The object with this number calls, and waits for the other's call. Others than the first two do not.
    fn wait_for(&self, number: u64) {
        let (own, other) = match number {
            1 => (0, 1),
            2 => (1, 0),
            _ => return,
        };
        self.called[own].store(true, Ordering::SeqCst);
        for _ in 0..TURNS {
            if self.called[other].load(Ordering::SeqCst) {
                self.seen[own].store(true, Ordering::SeqCst);
                return;
            }
            spin_loop();
        }
    }
}

/// A sum that may have a trouble, with its number, counted from 1. The first two wait for each other.
#[derive(Drop)]
pub(crate) struct Staged {
    pub(crate) sum: Sum,
    pub(crate) number: u64,
    pub(crate) trouble: Trouble,
    pub(crate) meeting: Arc<Meeting, Global>,
    pub(crate) saves: Cell<u64>,
    pub(crate) restores: u64,
}

impl Recoverable for Staged {
    ghost kind_of = { λ s. ⟦<Sum as Recoverable>⟧.kind_of s.sum };

    ghost value_of = { λ s. ⟦<Sum as Recoverable>⟧.value_of s.sum };

    ghost slot_of = { λ s. ⟦<Sum as Recoverable>⟧.slot_of s.sum };

    fn kind(&self) -> u8 {
        self.sum.kind()
    }

    fn apply(&mut self, from: ProcNo, body: i64) {
        if matches!(self.trouble, Trouble::Apply) {
            self.meeting.wait_for(self.number);
        }
        self.sum.apply(from, body);
    }

    fn offer(&self) -> i64 {
        if matches!(self.trouble, Trouble::Offer) {
            self.meeting.wait_for(self.number);
        }
        self.sum.offer()
    }

    fn save(&self, out: &mut Vec<u8>) -> Result<(), SaveFault> {
        let save = self.saves.get().saturating_add(1);
        self.saves.set(save);
        match self.trouble {
            Trouble::Save(at, fault) if at == save => Err(fault),
            _ => self.sum.save(out),
        }
    }

    fn restore(&mut self, saved: &[u8]) -> Result<(), RestoreFault> {
        self.restores = self.restores.saturating_add(1);
        match self.trouble {
            Trouble::Restore(at, fault) if at == self.restores => Err(fault),
            _ => self.sum.restore(saved),
        }
    }

    fn slot(&self) -> usize {
        self.sum.slot()
    }
}
