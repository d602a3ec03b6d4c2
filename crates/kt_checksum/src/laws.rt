//! Laws of checksums; there is nothing to run.

ghost use Rattle.std.specs.Prelude.{◌≡◌, ◌≢◌, ◌∷◌, [], ℕ, List, replicate};
ghost use Rattle.kt_checksum.specs.Checksums.{checksum, sealed, AreBytes, DifferInOneByte};

/// A change of one byte, so of each single bit, changes the checksum.
pub fn finds_changes()
    ensures checksums { (xs ys : List ℕ) → AreBytes xs → AreBytes ys →
        DifferInOneByte xs ys → checksum xs ≢ checksum ys }

    // Wherever it is, what comes of a sealed text is no sealed text.
    ensures sealed { (xs ys : List ℕ) → AreBytes xs → AreBytes ys →
        DifferInOneByte (sealed xs) (sealed ys) → ⊥ }
    ensures one { (xs ys : List ℕ) → sealed xs ≡ sealed ys → xs ≡ ys }
{}

/// Checksums that are known from elsewhere: of nothing, of the digits 1 to 9, of 32 zeros.
pub fn worked_checksums()
    ensures none { checksum [] ≡ 0 }
    ensures digits { checksum (49 ∷ 50 ∷ 51 ∷ 52 ∷ 53 ∷ 54 ∷ 55 ∷ 56 ∷ 57 ∷ []) ≡ 3808858755 }
    ensures zeros { checksum (replicate 32 0) ≡ 2324772522 }
{}
