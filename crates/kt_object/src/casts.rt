//! The objects that a run begins with.

ghost use Rattle.std.specs.Prelude.{◌≡◌, ◌≢◌, ◌⊎◌, ◌==◌, ◌≤◌, ◌<◌, ◌+◌, ◌∷◌, [], ℕ, true, false, List, Some, None, IsTrue, IfSome, IfNone, IsSome, IfOk, IfErr, OnOk, Err, All, length, map, slice_index, slice_index_or, vec_len};
ghost use Rattle.std.specs.List.{AllZip, list_all};
ghost use Rattle.kt_plan.specs.Limits.{IsPlan};
ghost use Rattle.kt_plan.specs.Failures.{failures_of};
ghost use Rattle.kt_object.specs.Casts.{HasSizes, HasKind, is_checked};
ghost use Rattle.kt_object.specs.Holdings.{content, first_holding, Holds};
ghost use Rattle.kt_object.specs.Refusals.{IsLeastRefused};

use crate::faults::SaveFault;
use crate::held::Held;
use crate::held_faults::CastFault;
use crate::objects::{Object, Recoverable};
use kt_base::ProcNo;
use kt_plan::{Command, Job, Plan};
use std::alloc::Global;

/// The objects of a run, by process: the object that is present at first, and one spare for each failure of the process.
pub type Cast = Vec<Vec<Object>>;

/// How often each process is to fail, by its number; 0 past the processes there are.
pub fn failures(commands: &[Command]) -> [usize; 64]
    ensures counts { (p : ℕ) → p < 64 → slice_index result p ≡ failures_of commands.now p }
    ensures size { length result ≡ 64 }
{
    let mut failures = [0; 64];
    for command in commands {
        if command.job == Job::Fail {
            failures[command.by.index()] += 1;
        }
    }
    failures
}

/// Whether an object is of a kind.
fn has_kind(object: &Object, kind: u8) -> bool
    ensures { result ≡ (kind_of object.now == kind) }
{
    object.kind() == kind
}

/// Whether all objects are of a kind.
fn all_of_kind(objects: &[Object], kind: u8) -> bool
    ensures { result ≡ list_all (λ b. kind_of b == kind) objects.now }
{
    objects.iter().all(
        |object: &Object| -> bool
            ensures { result ≡ (kind_of object.entry.now == kind) }
        { has_kind(object, kind) },
    )
}

/// The least process with an object of another kind.
fn other_kind(cast: &[Vec<Object>], kinds: &[u8]) -> Option<usize>
    requires { length cast.now ≡ length kinds.now }
    ensures none { IfNone result ((q : ℕ) (row : _) → q < length kinds.now →
        list_all (λ b. kind_of b == slice_index kinds.now q) (slice_index_or cast.now q row).items ≡ true) }
    ensures inside { IfSome result (λ p. p < length kinds.now) }
    ensures other { IfSome result (λ p. (row : _) → list_all (λ b. kind_of b == slice_index kinds.now p) (slice_index_or cast.now p row).items ≡ false) }
    ensures least { IfSome result (λ p. (q : ℕ) (row : _) → q < p →
        list_all (λ b. kind_of b == slice_index kinds.now q) (slice_index_or cast.now q row).items ≡ true) }
{
    for p in 0..kinds.len() {
        if !all_of_kind(&cast[p], kinds[p]) {
            return Some(p);
        }
    }
    None
}

/// Whether each process has an object, and a spare for each of its failures.
fn has_sizes(cast: &[Vec<Object>], failures: &[usize]) -> bool
    ensures yes { IsTrue result → (length cast.now ≡ length failures.now)
        × ((q : ℕ) (row : _) → q < length failures.now → length (slice_index_or cast.now q row).items ≡ slice_index failures.now q + 1) }
    ensures no { result ≡ false → (length cast.now ≢ length failures.now)
        ⊎ ((q : ℕ) × (q < length failures.now) × ((row : _) → length (slice_index_or cast.now q row).items ≢ slice_index failures.now q + 1)) }
{
    if cast.len() != failures.len() {
        return false;
    }
    for p in 0..failures.len() {
        if cast[p].is_empty() || cast[p].len() - 1 != failures[p] {
            return false;
        }
    }
    true
}

/// Whether the objects are those that are asked for: each process has one of its kind, and a spare of its kind for each of its
/// failures.
fn check_cast(cast: &[Vec<Object>], kinds: &[u8], commands: &[Command]) -> Result<(), CastFault>
    requires { length kinds.now ≤ 64 }
    ensures sizes { OnOk result (HasSizes kinds.now commands.now (map (λ row. map (λ b. kind_of b) row.items) cast.now)) }
    ensures kinds { OnOk result ((p : ℕ) → p < length kinds.now →
        HasKind kinds.now (map (λ row. map (λ b. kind_of b) row.items) cast.now) p) }
    ensures size { result ≡ Err CastFault.Size →
        ¬ HasSizes kinds.now commands.now (map (λ row. map (λ b. kind_of b) row.items) cast.now) }
    ensures kind_sizes { IfErr result (λ fault. fault ≢ CastFault.Size →
        HasSizes kinds.now commands.now (map (λ row. map (λ b. kind_of b) row.items) cast.now)) }
    ensures kind { IfErr result (λ fault. (p : ℕ) → fault ≡ CastFault.Kind p → (p < length kinds.now)
        × (¬ HasKind kinds.now (map (λ row. map (λ b. kind_of b) row.items) cast.now) p)) }
    ensures least { IfErr result (λ fault. (p q : ℕ) → fault ≡ CastFault.Kind p → q < p →
        HasKind kinds.now (map (λ row. map (λ b. kind_of b) row.items) cast.now) q) }
    ensures checked { IfErr result (λ fault. is_checked fault ≡ true) }
{
    let failures = failures(commands);
    if !has_sizes(cast, &failures[..kinds.len()]) {
        return Err(CastFault::Size);
    }
    match other_kind(cast, kinds) {
        Some(p) => Err(CastFault::Kind(ProcNo::nth(p as u8))),
        None => Ok(()),
    }
}

/// What processes hold at first, of the objects of each.
fn begin_rows(alloc: Global, cast: Cast) -> Result<Vec<Held>, CastFault>
    requires few { length cast.items ≤ 64 }
    requires some { All (λ row. 0 < length row.items) cast.items }
    ensures objects { IfOk result (λ helds. AllZip (λ objects h. IfSome h.present (λ b. objects.items ≡ b ∷ h.spares.items)) cast.items helds.items) }
    ensures holds { IfOk result (λ helds. All (λ h. IsSome h.present × IfSome h.present (λ b.
        Holds (first_holding (content (kind_of b) (value_of b))) (Some (content (kind_of b) (value_of b))) h.depot)) helds.items) }
    ensures later { IfErr result (λ fault. is_checked fault ≡ false) }
    ensures place { IfErr result (λ fault. (p : ℕ) → fault ≡ CastFault.Object p → p < length cast.items) }
    ensures object { IfErr result (λ fault. (p : ℕ) → fault ≡ CastFault.Object p →
        IsLeastRefused (λ b. may_save b) (λ b. may_refuse b) (map (λ row. row.items) cast.items) p) }
{
    let mut helds = Vec::with_capacity(alloc, cast.len())?;
    for objects in cast {
        let place = helds.len();
        match Held::begin(alloc, objects) {
            Ok(held) => helds.push(held)?,
            Err(SaveFault::Unable) => return Err(CastFault::Object(ProcNo::nth(place as u8))),
            Err(SaveFault::Memory) => return Err(CastFault::Memory),
        }
    }
    Ok(helds)
}

/// What the processes of a plan hold at first, of the objects that they are given: by process the object that is present
/// first, and one spare for each of its failures.
///
/// `Size` where there is another number of processes, or of one process's objects; `Kind` of the least process with an object
/// of another kind; both before anything is saved and any memory is taken. `Object` of the least process whose object is not
/// able to be saved.
pub fn begin_all(alloc: Global, plan: &Plan, cast: Cast) -> Result<Vec<Held>, CastFault>
    // what the type keeps; a caller learns it from `Plan::size`
    requires plan { IsPlan plan.now }

    // the objects that are asked for
    ensures sizes { OnOk result (HasSizes plan.now.kinds plan.now.commands (map (λ row. map (λ b. kind_of b) row.items) cast.items)) }
    ensures kinds { OnOk result ((p : ℕ) → p < length plan.now.kinds →
        HasKind plan.now.kinds (map (λ row. map (λ b. kind_of b) row.items) cast.items) p) }

    // what is held: the first object of each process, and its saved state
    ensures objects { IfOk result (λ helds. AllZip (λ objects h. IfSome h.present (λ b. objects.items ≡ b ∷ h.spares.items)) cast.items helds.items) }
    ensures holds { IfOk result (λ helds. All (λ h. IsSome h.present × IfSome h.present (λ b.
        Holds (first_holding (content (kind_of b) (value_of b))) (Some (content (kind_of b) (value_of b))) h.depot)) helds.items) }

    // a refusal
    ensures size { result ≡ Err CastFault.Size →
        ¬ HasSizes plan.now.kinds plan.now.commands (map (λ row. map (λ b. kind_of b) row.items) cast.items) }
    ensures fit { IfErr result (λ fault. fault ≢ CastFault.Size →
        HasSizes plan.now.kinds plan.now.commands (map (λ row. map (λ b. kind_of b) row.items) cast.items)) }
    ensures kind { IfErr result (λ fault. (p : ℕ) → fault ≡ CastFault.Kind p → (p < length plan.now.kinds)
        × (¬ HasKind plan.now.kinds (map (λ row. map (λ b. kind_of b) row.items) cast.items) p)) }
    ensures least { IfErr result (λ fault. (p q : ℕ) → fault ≡ CastFault.Kind p → q < p →
        HasKind plan.now.kinds (map (λ row. map (λ b. kind_of b) row.items) cast.items) q) }
    ensures place { IfErr result (λ fault. (p : ℕ) → fault ≡ CastFault.Object p → p < length plan.now.kinds) }
    ensures object { IfErr result (λ fault. (p : ℕ) → fault ≡ CastFault.Object p →
        IsLeastRefused (λ b. may_save b) (λ b. may_refuse b) (map (λ row. row.items) cast.items) p) }
    ensures later { IfErr result (λ fault. is_checked fault ≡ false → (p : ℕ) → p < length plan.now.kinds →
        HasKind plan.now.kinds (map (λ row. map (λ b. kind_of b) row.items) cast.items) p) }
{
    let _count = plan.size();
    check_cast(cast.as_slice(), &plan.kinds, &plan.commands)?;
    begin_rows(alloc, cast)
}
