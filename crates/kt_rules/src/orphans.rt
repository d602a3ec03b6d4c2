//! Choices between messages, and where a place is.

ghost use Rattle.std.specs.Prelude.{◌≡◌, ◌<◌, Some, None, if◌then◌else◌};
ghost use Rattle.kt_rules.specs.Orphans.{earlier, is_within};

use kt_base::MsgNo;

/// Whether there is a place, from 1, and it is within a part of this length.
pub fn is_within(place: Option<usize>, length: usize) -> bool
    ensures { result ≡ is_within place length }
{
    match place {
        Some(place) => place <= length,
        None => false,
    }
}

/// The message where it is wanted, else None.
pub fn if_wanted(is_wanted: bool, msg: MsgNo) -> Option<MsgNo>
    ensures { result ≡ (if is_wanted then Some msg else None) }
{
    is_wanted.then_some(msg)
}

/// The lesser of two messages; where one lacks, the other.
pub fn earlier(a: Option<MsgNo>, b: Option<MsgNo>) -> Option<MsgNo>
    ensures { result ≡ earlier a b }
{
    match (a, b) {
        (None, other) | (other, None) => other,
        (Some(one), Some(other)) => Some(if one <= other { one } else { other }),
    }
}
