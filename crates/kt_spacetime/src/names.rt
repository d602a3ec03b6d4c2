//! Names of messages and instances, which a process gives by counting.

ghost use Rattle.std.specs.Prelude.{◌≡◌, ◌+◌, ◌^◌, ◌<◌, ◌≤◌, ◌↔◌, IsSome, IfSome};
ghost use Rattle.kt_spacetime.specs.Counts.{IsCount};

use kt_base::ProcNo;
use std::marker::Model;

/// Which one of those that its process sent or began: 1 to 2^48 - 1.
#[derive(Clone, Copy, PartialEq, Eq)]
pub struct Count {
    number: u64,
}

impl Model for Count {
    ghost use Rattle.std.specs.Prelude.{ℕ};
    ghost use Rattle.kt_spacetime.specs.Counts.{IsCount};

    ghost Value = { ℕ };

    ghost view = { λ c. c.number };

    ghost invariant = { λ c. IsCount c.number };

    ghost inverse = { λ n. record { number = n } };
}

impl Count {
    /// The greatest count.
    pub const MAX: u64 = 281_474_976_710_655;

    /// The count with this number; None for 0 and from 2^48 on.
    pub fn new(number: u64) -> Option<Count>
        ensures valid { IsSome result ↔ IsCount number }
        ensures value { IfSome result (λ c. c ≡ number) }
    {
        if number >= 1 && number <= Self::MAX {
            Some(Count { number })
        } else {
            None
        }
    }

    /// The count of the next one after so many.
    pub fn after(others: usize) -> Count
        requires { others < 2 ^ 24 }
        ensures { result ≡ others + 1 }
    {
        Count {
            number: others as u64 + 1,
        }
    }

    /// The number, 1 to 2^48 - 1.
    pub fn get(self) -> u64
        ensures value { result ≡ self }
        ensures in_range { IsCount result }
    {
        self.number
    }

    /// The index in a list of all that its process sent or began, from 0.
    pub fn index(self) -> usize
        ensures value { result + 1 ≡ self }
        ensures in_range { IsCount (result + 1) }
    {
        self.number as usize - 1
    }
}

/// An instance: which one of those that its initiator began.
#[derive(Clone, Copy)]
pub struct InstName {
    pub initiator: ProcNo,
    pub count: Count,
}
