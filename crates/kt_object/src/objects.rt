//! What an object does that can be saved and restored.

ghost use Rattle.std.specs.Prelude.{◌≡◌, ◌++◌, ℕ, ℤ, List, Err, OnOk, OnErr};
ghost use Rattle.kt_object.specs.Bytes.{saved_bytes, IsSavedState};
ghost use Rattle.kt_object.specs.Value.{after, offered, IsValue};

use crate::faults::{RestoreFault, SaveFault};
use kt_base::ProcNo;

/// An object whose state can be saved and restored. Its meaning is its value, a list of whole
/// numbers, by its kind: a sum (0) and a last number (1) have one number, a tail (2) has at most
/// eight, the oldest first, each within i64. No call changes the kind or the slot.
pub trait Recoverable: Drop {
    // the kind, the value, and the number of the slot that the object's guard holds
    ghost kind_of: { Self → ℕ };

    ghost value_of: { Self → List ℤ };

    ghost slot_of: { Self → ℕ };

    // what calls may answer, where the object tells: that it is saved, that it is not able to be, and that these bytes are
    // no saved state that it takes
    ghost may_save: { Self → Type 0 } = { λ _. Unit {0} };

    ghost may_refuse: { Self → Type 0 } = { λ _. Unit {0} };

    ghost may_reject: { Self → List ℕ → Type 0 } = { λ _ _. Unit {0} };

    /// The kind: 0 for a sum, 1 for a last number, 2 for a tail.
    fn kind(&self) -> u8
        ensures kind { result ≡ kind_of self.now }
        ensures proper { IsValue (kind_of self.now) (value_of self.now) };

    /// Takes a message's body in: a sum adds it, saturating at the ends of i64; a last number
    /// becomes it; a tail gets it at its end and keeps the last eight.
    fn apply(&mut self, from: ProcNo, body: i64)
        ensures value { value_of self.new ≡ after (kind_of self.old) (value_of self.old) from body }
        ensures kind { kind_of self.new ≡ kind_of self.old }
        ensures slot { slot_of self.new ≡ slot_of self.old }
        ensures rejects { (bytes : List ℕ) → may_reject self.new bytes → may_reject self.old bytes }
        ensures proper { IsValue (kind_of self.new) (value_of self.new) };

    /// The body of a message that the object would send now: the sum, the last number, or the
    /// newest of the tail and 0 where that is empty.
    fn offer(&self) -> i64
        ensures offered { result ≡ offered (kind_of self.now) (value_of self.now) }
        ensures proper { IsValue (kind_of self.now) (value_of self.now) };

    /// Appends the saved state: a byte with the kind, a byte with the count of numbers, and eight
    /// bytes for each number, in two's complement, the greatest byte first. At a fault `out` is as
    /// it was. `Unable` where the object can't be saved now, `Memory` where `out` could not grow or
    /// there was no memory for the object's own work.
    fn save(&self, out: &mut Vec<u8>) -> Result<(), SaveFault>
        ensures ok { OnOk result
            (out.new.items ≡ out.old.items ++ saved_bytes (kind_of self.now) (value_of self.now)) }
        ensures err { OnErr result (out.new.items ≡ out.old.items) }
        ensures able { OnOk result (may_save self.now) }
        ensures unable { result ≡ Err SaveFault.Unable → may_refuse self.now }
        ensures proper { IsValue (kind_of self.now) (value_of self.now) };

    /// Takes the value whose saved state these bytes are. At a fault the object is as it was.
    /// `Form` where they are no saved state that the object takes, `Memory` where there was no
    /// memory for the object's own work.
    fn restore(&mut self, saved: &[u8]) -> Result<(), RestoreFault>
        ensures ok { OnOk result (IsSavedState (kind_of self.new) (value_of self.new) saved.now) }
        ensures err { OnErr result (value_of self.new ≡ value_of self.old) }
        ensures form { result ≡ Err RestoreFault.Form → may_reject self.old saved.now }
        ensures kind { kind_of self.new ≡ kind_of self.old }
        ensures slot { slot_of self.new ≡ slot_of self.old }
        ensures rejects { (bytes : List ℕ) → may_reject self.new bytes → may_reject self.old bytes }
        ensures proper { IsValue (kind_of self.new) (value_of self.new) };

    /// The number of the slot that the object's guard holds.
    fn slot(&self) -> usize
        ensures slot { result ≡ slot_of self.now }
        ensures proper { IsValue (kind_of self.now) (value_of self.now) };
}

/// An object of any kind, which a thread may take.
pub type Object = Box<dyn Recoverable + Send>;
