//! Bytes with their checksum behind them.

ghost use Rattle.std.specs.Prelude.{◌≡◌, ◌≤◌, ℕ, List, length, take, IfSome, IsSomeAnd, None};
ghost use Rattle.std.specs.Int.{w32, to_le_bytes, from_le_bytes};
ghost use Rattle.kt_checksum.specs.Checksums.{sealed, AreBytes, DifferInOneByte};

use crate::sums::{bytes_fit, checksum};

/// The number of the first four bytes.
fn first_number(bytes: &[u8]) -> u32
    requires { 4 ≤ length bytes.now }
    ensures number { result ≡ from_le_bytes w32 (take 4 bytes.now) }
    ensures bytes { to_le_bytes w32 result ≡ take 4 bytes.now }
{
    let (front, _) = bytes.split_at(4);
    u32::from_le_bytes([front[0], front[1], front[2], front[3]])
}

/// The bytes that have their checksum behind them here; None where the last four bytes are not the checksum of the others.
pub fn unsealed(bytes: &[u8]) -> Option<&[u8]>
    ensures some { IfSome result (λ text. bytes.now ≡ sealed text.now) }
    ensures own { (text : List ℕ) → bytes.now ≡ sealed text → IsSomeAnd result (λ t. t.now ≡ text) }

    // A change of one byte of a sealed text is seen.
    ensures changed { (text : List ℕ) → AreBytes text → DifferInOneByte (sealed text) bytes.now →
        result ≡ None }
{
    if bytes.len() < 4 {
        return None;
    }
    let (text, sum) = bytes.split_at(bytes.len() - 4);
    bytes_fit(text);
    if first_number(sum) == checksum(text) {
        Some(text)
    } else {
        None
    }
}
