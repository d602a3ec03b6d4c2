//! What is told of an answer.

ghost use Rattle.std.specs.Prelude.{◌≡◌, ◌≤◌, ◌^◌, ℕ, List, None, Some, IfOk, length};
ghost use Rattle.kt_spacetime.specs.declared.certificate.Certificate.{Certificate as Certificates};
ghost use Rattle.kt_meaning.specs.Fitness.{IsUnfit};
ghost use Rattle.kt_spacetime.specs.declared.unfit.Unfit.TheVariants as unfit;
ghost use Rattle.kt_spacetime.specs.declared.verdict.Why.TheVariants as reason;
ghost use Rattle.kt_spacetime.specs.declared.verdict.Verdict.{Verdict as Verdicts};
ghost use Rattle.kt_spacetime.specs.declared.verdict.Verdict.TheVariants.{No};
ghost use Rattle.kt_meaning.specs.Answers.{IsCheckerAnswer};
ghost use Rattle.kt_spacetime.specs.declared.rules.Rule.{Rule as Rules};
ghost use Rattle.kt_explain.specs.Told.{IsExplanation, IsNoOf};

use crate::bad_row::{BadRow, bad_log, bad_row};
use crate::compared::{Compared, compare, without};
use crate::judged::{Judged, at_end};
use crate::orphans::{Orphan, orphan_at};
use kt_base::{InstNo, Memory, ProcNo, RowNo};
use kt_histories::finding::{Sought, first_row};
use kt_histories::words::{Instance, Process, Row, say};
use kt_spacetime::{CertFault, Certificate, Event, SpaceTime, Unfit, Verdict, Why};
use std::alloc::Global;
use std::fmt;

/// What is told of an answer of the checker, in the words of the log.
#[derive(Drop)]
pub enum Explanation {
    /// Nothing, which is told of no answer.
    Nothing,
    /// The log passes: what was judged, and what it leaves open.
    Judged(Judged),
    /// A process was unwilling to join the instance, in this row, and this one commits it.
    Objection {
        inst: InstNo,
        p: ProcNo,
        row: RowNo,
        decided: RowNo,
    },
    /// No process was unwilling to join the instance, which this row aborts.
    NoObjection {
        inst: InstNo,
        decided: RowNo,
    },
    /// The certificate of the instance, or the want of one, beside the one that the log means.
    Compared(Compared),
    /// The log means no certificates: no message links this member of a committed instance, which joined it in this row, with
    /// a member before it.
    Unlinked {
        inst: InstNo,
        p: ProcNo,
        joined: Option<RowNo>,
    },
    /// The cut that the decision of the instance makes has this orphan, and no lesser one.
    Orphan {
        inst: InstNo,
        orphan: Orphan,
    },
    /// This row breaks a rule.
    BadLog(BadRow),
}

impl fmt::Display for Explanation {
    fn fmt<W: fmt::Write>(&self, f: &mut fmt::Formatter<W>) -> fmt::Result {
        match self {
            Explanation::Nothing | Explanation::Compared(_) => Ok(()),
            Explanation::Judged(judged) => write!(f, "{judged}"),
            Explanation::Objection {
                inst,
                p,
                row,
                decided,
            } => {
                let text =
                    "row # commits instance #; process # was unwilling to join it, in row #\n";
                say(
                    f,
                    text,
                    &[Row(*decided), Instance(*inst), Process(*p), Row(*row)],
                )
            }
            Explanation::NoObjection { inst, decided } => {
                let text = "row # aborts instance #; no process was unwilling to join it\n";
                say(f, text, &[Row(*decided), Instance(*inst)])
            }
            Explanation::Unlinked { inst, p, joined } => {
                let text =
                    "the log means no certificates: in instance # no message links process # with a member before it";
                say(f, text, &[Instance(*inst), Process(*p)])?;
                match joined {
                    Some(row) => say(f, "; it joined in row #\n", &[Row(*row)]),
                    None => f.write_str("\n"),
                }
            }
            Explanation::Orphan { inst, orphan } => {
                say(f, "instance #: ", &[Instance(*inst)])?;
                write!(f, "{orphan}")
            }
            Explanation::BadLog(row) => write!(f, "{row}"),
        }
    }
}

/// What is told of the checker's answer to a log and its certificates.
pub fn explain(
    alloc: Global,
    log: &SpaceTime,
    certificates: &[Certificate],
    verdict: &Verdict,
) -> Result<Explanation, Memory>
    requires answer { IsCheckerAnswer log.now.rows certificates.now verdict.now }
    ensures told { IfOk result (IsExplanation log.now.rows certificates.now verdict.now) }
{
    match *verdict {
        Verdict::Yes => Ok(Explanation::Judged(at_end(alloc, log, certificates)?)),
        Verdict::No { inst, row, why } => match inst {
            Some(inst) => of_instance(alloc, log, certificates, inst, row, why),
            None => bad_log(alloc, log.rows(), row, why),
        },
    }
}

/// What is told of a log that means no certificates: the row that breaks a rule, or the member that has no chain.
pub fn explain_unfit(alloc: Global, log: &SpaceTime, why: Unfit) -> Result<Explanation, Memory>
    requires unfit { IsUnfit log.now.rows why }
    ensures broken { IfOk result (λ e. (row : ℕ) (rule : Rules) → why ≡ unfit.BadLog row rule
        → (list : List Certificates) → IsExplanation log.now.rows list (No None (Some row) (reason.BadLog rule)) e) }
    ensures unlinked { IfOk result (λ e. (k row p : ℕ) → why ≡ unfit.NoChain k row p → (list : List Certificates)
        (verdict : Verdicts) (j : ℕ) → IsNoOf verdict j → IsExplanation log.now.rows list verdict e) }
{
    match why {
        Unfit::BadLog(row, rule) => bad_row(alloc, log.rows(), row, rule),
        Unfit::NoChain(inst, _row, p) => without(log, CertFault::NoChain(inst, p)),
    }
}

// What is told of a no to a certificate of an instance, or for the want of one.
fn of_instance(
    alloc: Global,
    log: &SpaceTime,
    certificates: &[Certificate],
    inst: InstNo,
    row: Option<RowNo>,
    why: Why,
) -> Result<Explanation, Memory>
    requires answer { IsCheckerAnswer log.now.rows certificates.now (No (Some inst) row why) }
    ensures { IfOk result (IsExplanation log.now.rows certificates.now (No (Some inst) row why)) }
{
    match why {
        Why::Cause => match row {
            Some(decided) => Ok(objection(log.rows(), inst, decided)),
            None => Ok(Explanation::Nothing),
        },
        Why::Orphan => match row {
            Some(row) => orphan_at(alloc, log, certificates, inst, row),
            None => Ok(Explanation::Nothing),
        },
        Why::BadLog(_) => Ok(Explanation::Nothing),
        _ => compare(alloc, log, certificates, inst, row, why),
    }
}

// Who was first unwilling to join the instance that this row decides, or that nobody was.
fn objection(rows: &[Event], inst: InstNo, decided: RowNo) -> Explanation
    requires few { length rows.now ≤ 2 ^ 24 }
    ensures { (certificates : List Certificates)
        → IsCheckerAnswer rows.now certificates (No (Some inst) (Some decided) reason.Cause)
        → IsExplanation rows.now certificates (No (Some inst) (Some decided) reason.Cause) result }
{
    let Some(found) = first_row(rows, &Sought::Unwilling(inst)) else {
        return Explanation::NoObjection { inst, decided };
    };
    Explanation::Objection {
        inst,
        p: found.row.process(),
        row: found.number,
        decided,
    }
}
