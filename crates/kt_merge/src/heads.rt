//! The next row of each part, and which of them comes first.

ghost use Rattle.std.specs.Prelude.{◌≡◌, ◌+◌, List, Option, Some, slice_get, IfSome, IfNone};
ghost use Rattle.kt_spacetime.specs.declared.named_rows.ClockedRow.{ClockedRow as clocked_rows};
ghost use Rattle.kt_merge.specs.Heads.{IsLeastHead, HasNoHead, IsBestClock};

use kt_spacetime::ClockedRow;

/// Which part has the row that comes first, and that row; None where no part has a next row.
#[inline(always)]
pub(crate) fn least(heads: &[Option<ClockedRow>]) -> Option<(usize, ClockedRow)>
    ensures found { IfSome result (λ r. IsLeastHead heads.now r.0 r.1) }
    ensures none { IfNone result (HasNoHead heads.now) }
{
    let mut best: Option<(usize, u64)> = None;
    for (part, head) in heads.iter().enumerate() {
        if let Some(row) = head {
            best = earlier(best, part, row.clock);
        }
    }
    let (part, _) = best?;
    let row = heads[part]?;
    Some((part, row))
}

// Of the first of some clocks and the next part's clock the one that comes first.
#[inline(always)]
fn earlier(best: Option<(usize, u64)>, part: usize, clock: u64) -> Option<(usize, u64)>
    ensures { (heads : List (Option clocked_rows)) (row : clocked_rows) → IsBestClock heads part best →
        slice_get heads part ≡ Some (Some row) → row.clock ≡ clock → IsBestClock heads (part + 1) result }
{
    match best {
        Some((_, first)) if first <= clock => best,
        _ => Some((part, clock)),
    }
}
