//! A number for each process, and places among all that they count.

ghost use Rattle.std.specs.Prelude.{◌≡◌, ◌≢◌, ◌+◌, ◌<◌, ◌≤◌, ℕ, true, slice_index, IfSome, IfNone};
ghost use Rattle.kt_base.specs.Sets.{has, count_below, count_of};
ghost use Rattle.kt_fifo.specs.Counts.{sum_first};

use kt_base::{ProcNo, ProcSet};
use std::marker::Model;

/// A number up to 64 for each process, and their sums by eights, so that a place among all is found in a few steps.
#[derive(Drop)]
pub(crate) struct Counts {
    each: [u8; 64],
    eights: [u16; 8],
}

impl Model for Counts {
    ghost use Rattle.std.specs.Prelude.{ℕ, List};
    ghost use Rattle.kt_fifo.specs.Counts.{AreSums};

    ghost Value = { List ℕ };

    ghost view = { λ c. c.each };

    ghost invariant = { λ c. AreSums c.each c.eights };
}

impl Counts {
    /// 0 for each process.
    pub(crate) fn new() -> Counts
        ensures { (p : ℕ) → slice_index result p ≡ 0 }
    {
        let each = [0; 64];
        let eights = [0; 8];
        Counts { each, eights }
    }

    /// The number of a process.
    #[inline(always)]
    pub(crate) fn get(&self, p: ProcNo) -> usize
        ensures value { result ≡ slice_index self.now p }
        ensures few { result ≤ 64 }
    {
        usize::from(self.each[p.index()])
    }

    /// One more for a process.
    #[inline(always)]
    pub(crate) fn add(&mut self, p: ProcNo)
        requires { slice_index self.old p < 64 }
        ensures here { slice_index self.new p ≡ slice_index self.old p + 1 }
        ensures others { (q : ℕ) → q ≢ p → slice_index self.new q ≡ slice_index self.old q }
    {
        let place = p.index();
        self.each[place] += 1;
        self.eights[place / 8] += 1;
    }

    /// One less for a process.
    #[inline(always)]
    pub(crate) fn remove(&mut self, p: ProcNo)
        requires { 0 < slice_index self.old p }
        ensures here { slice_index self.new p + 1 ≡ slice_index self.old p }
        ensures others { (q : ℕ) → q ≢ p → slice_index self.new q ≡ slice_index self.old q }
    {
        let place = p.index();
        self.each[place] -= 1;
        self.eights[place / 8] -= 1;
    }

    /// The sum of all.
    #[inline(always)]
    pub(crate) fn total(&self) -> usize
        ensures { result ≡ sum_first self.now 64 }
    {
        let mut total: usize = 0;
        for eight in 0..8 {
            total += usize::from(self.eights[eight]);
        }
        total
    }

    /// The first of the eight processes in whose numbers a place is, and the place counted from there; 64 past all.
    #[inline(always)]
    fn eight_at(&self, place: usize) -> (usize, usize)
        ensures within { result.0 ≤ 64 }
        ensures before { sum_first self.now result.0 + result.1 ≡ place }
    {
        let mut left = place;
        for eight in 0..8 {
            let count = usize::from(self.eights[eight]);
            if left < count {
                return (8 * eight, left);
            }
            left -= count;
        }
        (64, left)
    }

    /// The process in whose number a place is, and the place counted from there; None past all.
    #[inline(always)]
    pub(crate) fn find(&self, place: usize) -> Option<(ProcNo, usize)>
        ensures within { IfSome result (λ found. found.1 < slice_index self.now found.0) }
        ensures before { IfSome result (λ found. sum_first self.now found.0 + found.1 ≡ place) }
        ensures none { IfNone result (sum_first self.now 64 ≤ place) }
    {
        let (first, from_first) = self.eight_at(place);
        let mut left = from_first;
        for number in first..64 {
            let count = usize::from(self.each[number]);
            if left < count {
                return Some((ProcNo::nth(number as u8), left));
            }
            left -= count;
        }
        None
    }
}

/// The member of a set before which so many others come, by number; None where it has no more.
#[inline(always)]
pub fn member_at(set: ProcSet, place: usize) -> Option<ProcNo>
    ensures member { IfSome result (λ p. has set p ≡ true) }
    ensures before { IfSome result (λ p. count_below set p ≡ place) }
    ensures none { IfNone result (count_of set ≤ place) }
{
    let mut left = set;
    for _passed in 0..place {
        let p = left.first()?;
        left = left.without(p);
    }
    left.first()
}
