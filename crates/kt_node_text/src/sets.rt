//! Sets of processes as numbers.

ghost use Rattle.std.specs.Prelude.{◌≡◌};

use kt_base::{ProcNo, ProcSet, members_in_range, same_members};

/// The number whose bits are the processes of a set.
pub(crate) fn bits_of(set: ProcSet) -> u64
    ensures { result ≡ set }
{
    same_members();
    members_in_range();
    let mut bits: u64 = 0;
    for number in 0..ProcNo::COUNT {
        if set.has(ProcNo::nth(number)) {
            bits |= 1 << number;
        }
    }
    bits
}

/// The set of the processes that are bits of a number.
pub(crate) fn set_of(bits: u64) -> ProcSet
    ensures { result ≡ bits }
{
    same_members();
    members_in_range();
    let mut set = ProcSet::empty();
    for number in 0..ProcNo::COUNT {
        if (bits >> number) & 1 == 1 {
            set = set.with(ProcNo::nth(number));
        }
    }
    set
}
