//! Why a log means no certificates, and what is told of that.

ghost use Rattle.std.specs.Prelude.{◌^◌, ◌≤◌, IfOk, length};
ghost use Rattle.kt_meaning.specs.Fitness.{IsUnfit, IsWhyUnfit};
ghost use Rattle.kt_explain.specs.Judging.{IsUnfitTold};

use crate::explanation::{Explanation, explain_unfit};
use crate::lines::{Lines, Told};
use crate::numbered::RecordLines;
use kt_base::{Memory, RowNo};
use kt_histories::finding::{Sought, first_number};
use kt_spacetime::{CertFault, Event, SpaceTime, Unfit};
use std::alloc::Global;

/// Why rows that are not fit mean no certificates, with the row that decides the instance of a member without a chain.
pub fn unfit_of(rows: &[Event], fault: CertFault) -> Result<Unfit, Memory>
    requires few { length rows.now ≤ 2 ^ 24 }
    requires unfit { IsWhyUnfit rows.now fault }
    ensures why { IfOk result (IsUnfit rows.now) }
{
    match fault {
        CertFault::BadLog(row, rule) => Ok(Unfit::BadLog(row, rule)),
        CertFault::NoChain(inst, p) => match first_number(rows, &Sought::Decided(inst)) {
            Some(row) => Ok(Unfit::NoChain(inst, row, p)),
            None => unreachable!(),
        },
        CertFault::Memory => Err(Memory),
    }
}

/// What is told of a log that means no certificates.
#[derive(Drop)]
pub struct UnfitTold {
    pub explanation: Explanation,
    /// The row that breaks a rule, or decides the instance of a member without a chain, from the colon on that follows the name
    /// of its file, and what is told.
    pub lines: String,
}

/// What is told of a log that means no certificates, whose records begin on these lines.
pub fn tell_unfit(
    alloc: Global,
    log: &SpaceTime,
    lines: &RecordLines,
    why: Unfit,
) -> Result<UnfitTold, Memory>
    requires unfit { IsUnfit log.now.rows why }
    ensures told { IfOk result (λ told. IsUnfitTold log.now.rows why told.explanation) }
{
    let explanation = explain_unfit(alloc, log, why)?;
    let lines = lines_of(alloc, log, lines, unfit_row(&why), &explanation)?;
    Ok(UnfitTold { explanation, lines })
}

// The lines of what is told of a row of a log, whose records begin on these lines.
fn lines_of<'a>(
    alloc: Global,
    log: &'a SpaceTime,
    lines: &'a RecordLines,
    row: RowNo,
    explanation: &'a Explanation,
) -> Result<String, Memory> {
    let rows = Lines {
        name: "",
        count: lines.count,
        runs: lines.runs.as_slice(),
    };
    let told = Told {
        alloc,
        log,
        certificates: &[],
        row: Some(row),
        explanation,
        rows,
        records: rows,
    };
    Ok(format!(in alloc; "{told}")?)
}

// The row for which a log means no certificates.
fn unfit_row(why: &Unfit) -> RowNo {
    match why {
        Unfit::BadLog(row, _) | Unfit::NoChain(_, row, _) => *row,
    }
}
