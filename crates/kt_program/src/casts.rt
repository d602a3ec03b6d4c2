//! The objects that a run begins with.

ghost use Rattle.std.specs.Prelude.{◌≡◌, ◌+◌, ℕ, Ok, IfOk, All, length, map};
ghost use Rattle.kt_program.specs.CastRows.{IsMadeCast};

use kt_base::Memory;
use kt_object::failures;
use kt_plan::Plan;
use std::alloc::Global;

/// What a run begins with, by process: what is made for the process, and a spare for each of its failures, each made for
/// the kind of the process.
pub fn cast_of<O: Drop, F: FnMut(u8) -> Result<O, Memory>>(
    alloc: Global,
    plan: &Plan,
    mut make: F,
) -> Result<Vec<Vec<O>>, Memory>
    requires { (state : F) (kind : ℕ) → F.pre state kind }
    ensures { IfOk result (λ cast. IsMadeCast (λ kind object. (before after : F) × F.step before kind (Ok object) after)
        plan.now.kinds plan.now.commands (map (λ row. row.items) cast.items)) }
{
    let _processes = plan.size();
    let kinds = plan.kinds.as_slice();
    let spares = failures(&plan.commands);
    let mut cast = Vec::with_capacity(alloc, kinds.len())?;
    for number in 0..kinds.len() {
        let row = row_of(alloc, &mut make, kinds[number], spares[number])?;
        cast.push(row)?;
    }
    Ok(cast)
}

// What is made for one process of a kind, with so many spares.
fn row_of<O: Drop, F: FnMut(u8) -> Result<O, Memory>>(
    alloc: Global,
    make: &mut F,
    kind: u8,
    spares: usize,
) -> Result<Vec<O>, Memory>
    requires { (state : F) (kind : ℕ) → F.pre state kind }
    ensures count { IfOk result (λ row. length row.items ≡ spares + 1) }
    ensures made { IfOk result (λ row. All (λ object. (before after : F) × F.step before kind (Ok object) after) row.items) }
{
    let mut row = Vec::new(alloc);
    row.push(make(kind)?)?;
    for _number in 0..spares {
        row.push(make(kind)?)?;
    }
    Ok(row)
}
