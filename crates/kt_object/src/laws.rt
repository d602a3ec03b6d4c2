//! Laws that the layers above cite; there is nothing to run.

ghost use Rattle.std.specs.Prelude.{◌≡◌, ℕ, ℤ, List, FitsSigned};
ghost use Rattle.std.specs.Int.{w64};
ghost use Rattle.kt_object.specs.Bytes.{IsSavedState};
ghost use Rattle.kt_object.specs.Value.{opening_value, after, offered, IsKind, IsValue};

/// A saved state has one kind and one value, so that a restore of it gives the value that was saved.
pub fn saved_once()
    ensures kind { (kind other : ℕ) (value gives : List ℤ) (saved : List ℕ)
        → IsSavedState kind value saved → IsSavedState other gives saved → kind ≡ other }
    ensures value { (kind other : ℕ) (value gives : List ℤ) (saved : List ℕ)
        → IsSavedState kind value saved → IsSavedState other gives saved → value ≡ gives }
{}

/// An object of a kind has a value of the kind at first and after every message, and what it
/// offers is within i64.
pub fn values_stay()
    ensures opening { (kind : ℕ) → IsKind kind → IsValue kind (opening_value kind) }
    ensures after { (kind from : ℕ) (value : List ℤ) (body : ℤ)
        → IsValue kind value → FitsSigned w64 body → IsValue kind (after kind value from body) }
    ensures offered { (kind : ℕ) (value : List ℤ)
        → IsValue kind value → FitsSigned w64 (offered kind value) }
{}
