//! Sets of processes.

ghost use Rattle.std.specs.Prelude.{◌≡◌, ◌≢◌, ◌<◌, ◌^◌, ℕ, true, false, IfSome, IfNone};
ghost use Rattle.kt_base.specs.Numbers.{IsProcNo};
ghost use Rattle.kt_base.specs.Sets.{has, count_of};

use crate::numbers::ProcNo;
use std::marker::Model;

/// A set of processes, in one machine word.
#[derive(Clone, Copy)]
pub struct ProcSet {
    bits: u64,
}

impl Model for ProcSet {
    ghost use Rattle.std.specs.Prelude.{ℕ, ◌<◌, ◌^◌};

    ghost Value = { ℕ };

    ghost view = { λ s. s.bits };

    ghost invariant = { λ s. s.bits < 2 ^ 64 };

    ghost inverse = { λ n. record { bits = n } };
}

impl ProcSet {
    /// The set with no process.
    pub fn empty() -> ProcSet
        ensures { (q : ℕ) → has result q ≡ false }
    {
        ProcSet { bits: 0 }
    }

    /// Whether the process is in the set.
    pub fn has(self, p: ProcNo) -> bool
        ensures { result ≡ has self p }
    {
        (self.bits >> p.get()) & 1 == 1
    }

    /// The set with this process too.
    pub fn with(self, p: ProcNo) -> ProcSet
        ensures added { has result p ≡ true }
        ensures others { (q : ℕ) → q ≢ p → has result q ≡ has self q }
    {
        ProcSet {
            bits: self.bits | (1 << p.get()),
        }
    }

    /// The set without this process.
    pub fn without(self, p: ProcNo) -> ProcSet
        ensures removed { has result p ≡ false }
        ensures others { (q : ℕ) → q ≢ p → has result q ≡ has self q }
    {
        ProcSet {
            bits: self.bits & !(1 << p.get()),
        }
    }

    /// The process with the least number in the set; None where the set is empty.
    pub fn first(self) -> Option<ProcNo>
        ensures member { IfSome result (λ p. has self p ≡ true) }
        ensures least { IfSome result (λ p. (q : ℕ) → q < p → has self q ≡ false) }
        ensures none { IfNone result ((q : ℕ) → has self q ≡ false) }
    {
        if self.bits == 0 {
            return None;
        }
        Some(ProcNo::nth(self.bits.trailing_zeros() as u8))
    }

    /// How many processes are in the set.
    pub fn count(self) -> u32
        ensures { result ≡ count_of self }
    {
        let mut count: u32 = 0;
        for number in 0..ProcNo::COUNT {
            if (self.bits >> number) & 1 == 1 {
                count += 1;
            }
        }
        count
    }
}

/// Sets with the same members are the same set: a law, with nothing to run.
pub fn same_members()
    ensures { (a b : ℕ) → ((q : ℕ) → has a q ≡ has b q) → a ≡ b }
{}

/// The members of a set are numbers of processes: a law, with nothing to run.
pub fn members_in_range()
    ensures { (set q : ℕ) → set < 2 ^ 64 → has set q ≡ true → IsProcNo q }
{}
