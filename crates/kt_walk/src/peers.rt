//! Sets of ordered pairs of processes, which are looked for one after another.

ghost use Rattle.std.specs.Prelude.{◌≡◌, ◌≢◌, ◌≤◌, ◌<◌, ◌/◌, ◌%◌, ◌&&◌, ◌||◌, ℕ, true, false, IfSome, IfNone};
ghost use Rattle.kt_base.specs.Sets.{has};
ghost use Rattle.kt_walk.specs.Peers.{is_in};

use kt_base::{ProcNo, ProcSet};
use std::marker::Model;

/// For each process, those that it has messages from: a set of pairs, by their places, from 0 on, by receiver and then
/// by sender.
#[derive(Clone, Copy)]
pub(crate) struct Peers {
    // By receiver, a bit for each sender.
    senders: [u64; 64],
}

impl Model for Peers {
    ghost use Rattle.std.specs.Prelude.{List, ℕ, length, ◌≡◌};

    ghost Value = { List ℕ };

    ghost view = { λ p. p.senders };

    ghost invariant = { λ p. length p.senders ≡ 64 };

    ghost inverse = { λ l. record { senders = l } };
}

impl Peers {
    /// No pair.
    pub(crate) fn new() -> Peers
        ensures { (i : ℕ) → is_in result i ≡ false }
    {
        Peers { senders: [0; 64] }
    }

    /// Adds the pair at this place.
    pub(crate) fn add(&mut self, place: usize)
        requires { place < 4096 }
        ensures added { is_in self.new place ≡ true }
        ensures others { (i : ℕ) → i ≢ place → is_in self.new i ≡ is_in self.old i }
    {
        self.senders[place / 64] |= 1 << (place % 64);
    }

    /// Whether the pair at this place is there.
    #[inline(always)]
    pub(crate) fn has(&self, place: usize) -> bool
        requires { place < 4096 }
        ensures { result ≡ is_in self.now place }
    {
        (self.senders[place / 64] >> (place % 64)) & 1 == 1
    }

    /// Removes the pair at this place.
    pub(crate) fn remove(&mut self, place: usize)
        requires { place < 4096 }
        ensures removed { is_in self.new place ≡ false }
        ensures others { (i : ℕ) → i ≢ place → is_in self.new i ≡ is_in self.old i }
    {
        self.senders[place / 64] &= !(1 << (place % 64));
    }

    /// The pairs that have one of these processes as receiver or as sender.
    pub(crate) fn of(&self, members: ProcSet) -> Peers
        ensures { (i : ℕ) → i < 4096
            → is_in result i ≡ (is_in self.now i && (has members (i / 64) || has members (i % 64))) }
    {
        let bits = bits_of(members);
        let mut senders = self.senders;
        for number in 0..ProcNo::COUNT {
            if !members.has(ProcNo::nth(number)) {
                senders[number as usize] &= bits;
            }
        }
        Peers { senders }
    }

    /// The place of the first pair from one place on and before another one.
    pub(crate) fn first_between(&self, start: usize, end: usize) -> Option<usize>
        ensures found { IfSome result (λ i. (start ≤ i) × (i < end) × (i < 4096) × (is_in self.now i ≡ true)
            × ((k : ℕ) → start ≤ k → k < i → is_in self.now k ≡ false)) }
        ensures none { IfNone result ((k : ℕ) → start ≤ k → k < end → k < 4096 → is_in self.now k ≡ false) }
    {
        let place = self.first_from(start)?;
        if place < end { Some(place) } else { None }
    }

    /// The place of the first pair from this place on.
    fn first_from(&self, place: usize) -> Option<usize>
        ensures found { IfSome result (λ i. (place ≤ i) × (i < 4096) × (is_in self.now i ≡ true)
            × ((k : ℕ) → place ≤ k → k < i → is_in self.now k ≡ false)) }
        ensures none { IfNone result ((k : ℕ) → place ≤ k → k < 4096 → is_in self.now k ≡ false) }
    {
        let mut start = place % 64;
        for receiver in place / 64..64 {
            if let Some(sender) = first_bit(self.senders[receiver], start) {
                return Some(receiver * 64 + sender);
            }
            start = 0;
        }
        None
    }
}

// The members of a set, a bit for each.
fn bits_of(members: ProcSet) -> u64
    ensures { (q : ℕ) → q < 64 → has result q ≡ has members q }
{
    let mut bits = 0;
    for number in 0..ProcNo::COUNT {
        if members.has(ProcNo::nth(number)) {
            bits |= 1 << number;
        }
    }
    bits
}

// The first bit that is set, from this one on.
fn first_bit(bits: u64, start: usize) -> Option<usize>
    requires { start < 64 }
    ensures found { IfSome result (λ q. (start ≤ q) × (q < 64) × (has bits q ≡ true)
        × ((k : ℕ) → start ≤ k → k < q → has bits k ≡ false)) }
    ensures none { IfNone result ((k : ℕ) → start ≤ k → k < 64 → has bits k ≡ false) }
{
    let rest = bits >> start;
    if rest == 0 {
        return None;
    }
    Some(start + rest.trailing_zeros() as usize)
}
