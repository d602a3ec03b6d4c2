//! Laws of nodes' texts; there is nothing to run.

ghost use Rattle.std.specs.Prelude.{◌≡◌, ◌++◌, ℕ, List};
ghost use Rattle.std.specs.Int.{w64, to_le_bytes};
ghost use Rattle.kt_checksum.specs.Checksums.{DifferInOneByte};
ghost use Rattle.kt_node.specs.Links.{NodeLinks};
ghost use Rattle.kt_node_text.specs.Form.{version, text_of};
ghost use Rattle.kt_node_text.specs.Sameness.{IsSound, IsSameState};

use kt_checksum::finds_changes;

/// Nodes with one text are the same, but for spare room. A text begins with the version, and where one byte of it is changed
/// it is no text of a node.
pub fn one_text()
    ensures same { (w v : NodeLinks) → IsSound w → IsSound v → text_of w ≡ text_of v → IsSameState w v }
    ensures apart { (w v : NodeLinks) → IsSound w → IsSound v →
        DifferInOneByte (text_of w) (text_of v) → ⊥ }
    ensures words { (w : NodeLinks) → (rest : List ℕ) × (text_of w ≡ to_le_bytes w64 version ++ rest) }
{
    finds_changes();
}
