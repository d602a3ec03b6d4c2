//! Marks that are counted.

ghost use Rattle.std.specs.Prelude.{◌≡◌, ℕ, ◌+◌, ◌-◌, ◌^◌, ◌<◌, ◌≤◌, ◌↔◌, Bool, true, false, [], ◌∷◌, length, take, set, slice_index_or, OnOk, OnErr};
ghost use Rattle.kt_walk.specs.Marks.{ones, IsPower};

use kt_base::Memory;
use std::alloc::Global;
use std::marker::Model;

/// Marks by place, each set or not, in a tree of counts: but for the leaves, which are its last half, node n is the sum
/// of the nodes 2n and 2n + 1.
#[derive(Drop)]
pub(crate) struct Counts {
    nodes: Vec<u32>,
    // How many leaves there are: a power of two, or none.
    width: usize,
    // The leaf of the first mark. Those before it are 0.
    base: usize,
}

impl Model for Counts {
    ghost use Rattle.std.specs.Prelude.{◌+◌, drop};
    ghost use Rattle.kt_walk.specs.Marks.{Marking, IsTree, marks_of};

    ghost Value = { Marking };

    ghost view = { λ w. record { marks = marks_of (drop (w.width + w.base) w.nodes.items); before = w.base } };

    ghost invariant = { λ w. IsTree w.nodes.items w.width w.base };
}

impl Counts {
    /// No marks.
    pub(crate) fn new(alloc: Global) -> Counts
        ensures { result.marks ≡ [] }
    {
        Counts {
            nodes: Vec::new(alloc),
            width: 0,
            base: 0,
        }
    }

    /// Whether there are no marks.
    #[inline(always)]
    pub(crate) fn is_empty(&self) -> bool
        ensures none { result ≡ true → self.now.marks ≡ [] }
        ensures some { result ≡ false → 0 < length self.now.marks }
    {
        self.width == 0
    }

    /// How many marks there are.
    pub(crate) fn len(&self) -> usize
        ensures { result ≡ length self.now.marks }
    {
        self.width - self.base
    }

    /// How many more can be put before them.
    pub(crate) fn before(&self) -> usize
        ensures { result ≡ self.now.before }
    {
        self.base
    }

    /// How many are set.
    #[inline(always)]
    pub(crate) fn total(&self) -> usize
        requires { 0 < length self.now.marks }
        ensures { result ≡ ones self.now.marks }
    {
        self.nodes[1] as usize
    }

    /// So many marks at least, none of which is set, and so many more can be put before them.
    pub(crate) fn begin(&mut self, before: usize, wanted: usize) -> Result<(), Memory>
        requires none { self.old.marks ≡ [] }
        requires some { 0 < wanted }
        requires few { before + wanted ≤ 2 ^ 30 }
        ensures wanted { OnOk result (wanted ≤ length self.new.marks) }
        ensures unset { OnOk result ((k : ℕ) → slice_index_or self.new.marks k false ≡ false) }
        ensures err { OnErr result (self.new.marks ≡ []) }
    {
        let width = power_of_two(before + wanted);
        self.end();
        self.nodes.resize(2 * width, 0)?;
        self.width = width;
        self.base = before;
        Ok(())
    }

    /// No marks; the memory is given back.
    pub(crate) fn end(&mut self)
        ensures { self.new.marks ≡ [] }
    {
        self.nodes.clear();
        self.nodes.shrink_to_fit();
        self.width = 0;
        self.base = 0;
    }

    /// Whether the mark at this place is set.
    pub(crate) fn get(&self, place: usize) -> bool
        requires { place < length self.now.marks }
        ensures { result ≡ slice_index_or self.now.marks place false }
    {
        self.nodes[self.width + self.base + place] != 0
    }

    /// Sets the mark at this place, or takes it back.
    pub(crate) fn put(&mut self, place: usize, mark: bool)
        requires { place < length self.old.marks }
        ensures { self.new ≡ record self.old { marks = set self.old.marks place mark } }
    {
        let mut node = self.width + self.base + place;
        self.nodes[node] = u32::from(mark);
        while node > 1 {
            node /= 2;
            self.nodes[node] = self.nodes[2 * node] + self.nodes[2 * node + 1];
        }
    }

    /// One more mark before the others, which is set.
    pub(crate) fn push_front(&mut self)
        requires before { 0 < self.old.before }
        requires some { 0 < length self.old.marks }
        ensures { self.new ≡ record { marks = true ∷ self.old.marks; before = self.old.before - 1 } }
    {
        self.base -= 1;
        self.put(0, true);
    }

    /// How many marks are set before this place.
    pub(crate) fn count_before(&self, place: usize) -> usize
        requires { place < length self.now.marks }
        ensures { result ≡ ones (take place self.now.marks) }
    {
        let mut first = self.width;
        let mut node = self.width + self.base + place;
        let mut count = 0;
        while first < node {
            if node % 2 == 1 {
                count += self.nodes[node - 1] as usize;
            }
            first /= 2;
            node /= 2;
        }
        count
    }

    /// The place of the set mark before which so many are set.
    pub(crate) fn place_of(&self, index: usize) -> usize
        requires { index < ones self.now.marks }
        ensures within { result < length self.now.marks }
        ensures set { slice_index_or self.now.marks result false ≡ true }
        ensures before { ones (take result self.now.marks) ≡ index }
    {
        let mut node = 1;
        let mut rest = index;
        while node < self.width {
            node *= 2;
            let left = self.nodes[node] as usize;
            if left <= rest {
                rest -= left;
                node += 1;
            }
        }
        node - self.width - self.base
    }
}

// The least power of two that is no less.
fn power_of_two(wanted: usize) -> usize
    requires { wanted ≤ 2 ^ 30 }
    ensures power { IsPower result }
    ensures enough { wanted ≤ result }
    ensures small { result ≤ 2 ^ 30 }
{
    let mut power = 1;
    while power < wanted {
        power *= 2;
    }
    power
}
