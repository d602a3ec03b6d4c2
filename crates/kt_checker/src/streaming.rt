//! A stored log judged row by row.

ghost use Rattle.std.specs.Prelude.{◌≡◌, ◌≢◌, ◌↔◌, [], ℕ, List, Option, Some, IfOk, IfErr, IfSome};
ghost use Rattle.kt_spacetime.specs.declared.event.Event.{Event};
ghost use Rattle.kt_log_text.specs.Reading.{IsUnread, rows_unread};
ghost use Rattle.kt_log_text.specs.declared.fault.LogFault.TheVariants as log;
ghost use Rattle.kt_log_text.specs.Texts.{IsLogText, IsFirstLogFault};
ghost use Rattle.kt_spacetime.specs.declared.verdict.Verdict.TheVariants.{Yes};
ghost use Rattle.kt_checker.specs.Judged.{JudgeOf};
ghost use Rattle.kt_meaning.specs.Passing.{IsPassed};
ghost use Rattle.kt_checker.specs.Streamed.{IsAnswerOf};

use crate::checking::{feed_row, verdict};
use crate::judge::Judge;
use kt_log_text::{LogFault, RowReader};
use kt_spacetime::{Certificate, Verdict};
use std::alloc::Global;
use std::io::Read;

/// Judges a stored log and its certificates in one pass, as `check` judges a list of rows.
///
/// A fault in the log's text is answered before any verdict, so reading goes on after a row that breaks a rule.
pub fn check_stream<R: Read + Drop>(
    alloc: Global,
    log_reader: R,
    certificates: &[Certificate],
) -> Result<Verdict, LogFault>
    ensures answer { IfOk result (IsAnswerOf (R.remaining log_reader) certificates.now) }
    ensures fault { IfErr result (λ e. IfSome (rows_unread (R.remaining log_reader)).left (λ text. IsFirstLogFault text e)) }
    // So, where the reader tells its bytes, a yes is answered exactly where all of the rows that they say passes.
    ensures yes { IfOk result (λ verdict. IfSome (rows_unread (R.remaining log_reader)).left (λ text. (rows : List Event) → IsLogText text rows → (verdict ≡ Yes) ↔ IsPassed rows certificates.now)) }
{
    let mut rows = RowReader::new(alloc, log_reader)?;
    check_rows(alloc, &mut rows, certificates)
}

/// Judges the rows that a reader gives, of which it gave none, and certificates, as `check_stream` does.
///
/// The record at which a fault was met stays with the reader.
pub fn check_rows<R: Read + Drop>(
    alloc: Global,
    rows: &mut RowReader<R>,
    certificates: &[Certificate],
) -> Result<Verdict, LogFault>
    requires unread { IsUnread rows.old }
    ensures answer { (source : Option (List ℕ)) → rows.old ≡ rows_unread source → IfOk result (IsAnswerOf source certificates.now) }
    ensures fault { (source : Option (List ℕ)) → rows.old ≡ rows_unread source → IfErr result (λ e. IfSome (rows_unread source).left (λ text. IsFirstLogFault text e)) }
    // But for memory, the reader of the rows has met it.
    ensures met { IfErr result (λ e. e ≢ log.Memory → rows.new.fault ≡ Some e) }
{
    let mut judge = Judge::new(alloc, certificates)?;
    judge_unread(alloc, &mut judge, rows, certificates)
}

// The answer to the rows that a reader gives, of which neither it nor the judge has seen any, or its fault.
fn judge_unread<R: Read + Drop>(
    alloc: Global,
    judge: &mut Judge,
    rows: &mut RowReader<R>,
    certificates: &[Certificate],
) -> Result<Verdict, LogFault>
    requires unread { IsUnread rows.old }
    requires none_seen { JudgeOf judge.old certificates.now [] }
    ensures answer { (source : Option (List ℕ)) → rows.old ≡ rows_unread source → IfOk result (IsAnswerOf source certificates.now) }
    ensures fault { (source : Option (List ℕ)) → rows.old ≡ rows_unread source → IfErr result (λ e. IfSome (rows_unread source).left (λ text. IsFirstLogFault text e)) }
    // But for memory, the reader of the rows has met it.
    ensures met { IfErr result (λ e. e ≢ log.Memory → rows.new.fault ≡ Some e) }
{
    let mut broken = None;
    while let Some(row) = rows.next()? {
        if broken.is_none() {
            if let Some(answer) = feed_row(judge, certificates, &row)? {
                broken = Some(answer);
            }
        }
    }
    match broken {
        Some(answer) => Ok(answer),
        None => Ok(verdict(alloc, &judge.instances, certificates)?),
    }
}
