//! The numbers of a value, and their bytes in a saved state.

ghost use Rattle.std.specs.Prelude.{◌≡◌, ◌≤◌, ◌<◌, ◌+◌, ◌++◌, ◌∷◌, [], ℤ, List, length, vec_len, vec_capacity, IsTrue, ◌↔◌, OnOk, OnErr, IfSome, IfNone, ◌*◌, All, FitsSigned};
ghost use Rattle.std.specs.Int.{w64};
ghost use Rattle.std.specs.List.{flat_map};
ghost use Rattle.kt_object.specs.Bytes.{number_bytes, saved_bytes, IsSavedState};
ghost use Rattle.kt_object.specs.Value.{newest, last_eight, IsValueCount, IsKind};

use std::alloc::AllocError;
use std::marker::Model;

/// Up to eight numbers, the oldest first. Contracts see the list.
#[derive(Drop)]
pub struct Numbers {
    items: [i64; 8],
    len: usize,
}

impl Model for Numbers {
    ghost use Rattle.std.specs.Prelude.{ℤ, List, take, length, ◌≤◌, ◌≡◌, All, FitsSigned};
    ghost use Rattle.std.specs.Int.{w64};

    ghost Value = { List ℤ };

    ghost view = { λ n. take n.len n.items };

    ghost invariant = { λ n. (n.len ≤ 8) × All (λ number. FitsSigned w64 number) n.items };
}

impl Numbers {
    /// No numbers.
    pub fn none() -> Numbers
        ensures { result ≡ [] }
    {
        Numbers {
            items: [0; 8],
            len: 0,
        }
    }

    /// The numbers.
    pub fn as_slice(&self) -> &[i64]
        ensures items { result.now ≡ self.now }
        ensures few { length self.now ≤ 8 }
        ensures fit { All (λ number. FitsSigned w64 number) self.now }
    {
        &self.items[..self.len]
    }

    /// The number at the end; 0 where there is none.
    pub fn newest(&self) -> i64
        ensures { result ≡ newest self.now }
    {
        if self.len == 0 {
            0
        } else {
            self.items[self.len - 1]
        }
    }

    /// Puts a number at the end, and keeps the last eight.
    pub fn push(&mut self, number: i64)
        ensures { self.new ≡ last_eight (self.old ++ number ∷ []) }
    {
        if self.len < 8 {
            self.items[self.len] = number;
            self.len += 1;
        } else {
            self.items.rotate_left(1);
            self.items[7] = number;
        }
    }

    /// The numbers whose saved state of this kind these bytes are; None where they are no saved state of the kind.
    pub fn read(kind: u8, saved: &[u8]) -> Option<Numbers>
        requires { IsKind kind }
        ensures some { IfSome result (λ value. IsSavedState kind value saved.now) }
        ensures none { IfNone result ((value : List ℤ) → ¬ IsSavedState kind value saved.now) }
    {
        let [first, count, bytes @ ..] = saved else {
            return None;
        };
        if *first != kind || !is_count(kind, *count) {
            return None;
        }
        let count = usize::from(*count);
        if bytes.len() != 8 * count {
            return None;
        }
        Some(numbers_at(bytes, count))
    }
}

/// So many numbers, whose bytes these are.
fn numbers_at(bytes: &[u8], count: usize) -> Numbers
    requires few { count ≤ 8 }
    requires len { length bytes.now ≡ 8 * count }
    ensures bytes { bytes.now ≡ flat_map number_bytes result }
    ensures count { length result ≡ count }
    ensures fit { All (λ number. FitsSigned w64 number) result }
{
    let mut numbers = Numbers::none();
    for place in 0..count {
        numbers.push(number_at(&bytes[8 * place..8 * place + 8]));
    }
    numbers
}

/// Whether the value of a kind may have this many numbers.
fn is_count(kind: u8, count: u8) -> bool
    requires { IsKind kind }
    ensures { IsTrue result ↔ IsValueCount kind count }
{
    match kind {
        0 | 1 => count == 1,
        _ => count <= 8,
    }
}

/// The number whose bytes these are.
fn number_at(bytes: &[u8]) -> i64
    requires { length bytes.now ≡ 8 }
    ensures { number_bytes result ≡ bytes.now }
{
    let mut eight = [0; 8];
    eight.copy_from_slice(bytes);
    i64::from_be_bytes(eight)
}

/// Appends a number's bytes.
fn push_number(out: &mut Vec<u8>, number: i64)
    requires { vec_len out.old + 8 ≤ vec_capacity out.old }
    ensures items { out.new.items ≡ out.old.items ++ number_bytes number }
    ensures len { vec_len out.new ≡ vec_len out.old + 8 }
    ensures capacity { vec_capacity out.old ≤ vec_capacity out.new }
{
    let Ok(()) = out.extend_from_slice(&number.to_be_bytes()) else {
        unreachable!()
    };
}

/// Appends the saved state of these numbers as the value of a kind; at want of memory `out` is as it was.
pub fn save_numbers(kind: u8, numbers: &[i64], out: &mut Vec<u8>) -> Result<(), AllocError>
    requires { length numbers.now ≤ 8 }
    ensures ok { OnOk result (out.new.items ≡ out.old.items ++ saved_bytes kind numbers.now) }
    ensures err { OnErr result (out.new.items ≡ out.old.items) }
{
    out.reserve(2 + 8 * numbers.len())?;
    out.push_reserved(kind);
    out.push_reserved(numbers.len() as u8);
    for number in numbers {
        push_number(out, *number);
    }
    Ok(())
}
