//! Cuts.

ghost use Rattle.std.specs.Prelude.{◌≡◌, slice_index, slice_set, length};

use kt_base::ProcNo;
use std::marker::Model;

/// A cut: for each of the 64 processes the length of the part of its live history that the cut keeps.
#[derive(Clone, Copy)]
pub struct Cut {
    lengths: [usize; 64],
}

impl Model for Cut {
    ghost use Rattle.std.specs.Prelude.{List, ℕ, length, ◌≡◌};

    ghost Value = { List ℕ };

    ghost view = { λ c. c.lengths };

    ghost invariant = { λ c. length c.lengths ≡ 64 };

    ghost inverse = { λ l. record { lengths = l } };
}

impl Cut {
    /// The cut with these lengths, by process.
    pub fn new(lengths: [usize; 64]) -> Cut
        ensures { result ≡ lengths }
    {
        Cut { lengths }
    }

    /// The length of this process's part.
    pub fn length(&self, p: ProcNo) -> usize
        ensures { result ≡ slice_index self.now p }
    {
        self.lengths[p.get() as usize]
    }

    /// Gives this process's part another length.
    pub fn set(&mut self, p: ProcNo, length: usize)
        ensures { self.new ≡ slice_set self.old p length }
    {
        self.lengths[p.get() as usize] = length;
    }
}
