//! Stored runs judged.

ghost use Rattle.std.specs.Prelude.{◌≡◌, ◌≢◌, [], IfOk, IfErr, IfSome, OnErr, OnOk};
ghost use Rattle.std.specs.Io.KnownBytes.{Appends};
ghost use Rattle.kt_text.specs.Writing.{WritesFront};
ghost use Rattle.kt_log_text.specs.declared.fault.LogFault.{LogFault as LogFaults};
ghost use Rattle.kt_log_text.specs.Texts as rows;
ghost use Rattle.kt_spacetime.specs.declared.verdict.Verdict.{Verdict as Verdicts};
ghost use Rattle.kt_checker.specs.Streamed.{IsAnswerOf};
ghost use Rattle.kt_program.specs.declared.fault.AppFault.TheVariants as app;
ghost use Rattle.kt_program.specs.Ending.{IsOfJudging, LeavesAnswer};
ghost use Rattle.kt_program.specs.Stored.{IsExact, IsRefusal, IsVerdictOf, JudgesFiles, answer_text, is_yes, of_log, records_told, verdict_line};

use crate::fault::{AppFailure, AppFault, Failure};
use crate::outputs::{print_text, write_text};
use crate::sources::{ReadFiles, Role, open_input};
use crate::stored::{log_failure, read_certificates};
use kt_checker::check_rows;
use kt_explain::Answer;
use kt_log_text::RowReader;
use kt_spacetime::{Certificate, Verdict};
use kt_text::Input;
use std::alloc::Global;
use std::io::{Read, Write};
use std::rt::Files;

/// Judges a stored log with its certificates and writes the one line of the answer; true for a yes.
///
/// It reads the certificates first and then the log, and answers a fault of the log before one of the certificates;
/// want of memory ends it at once.
pub fn check_bytes<L: Read + Drop, C: Read + Drop, W: Write>(
    alloc: Global,
    log_reader: L,
    cert_reader: C,
    writer: &mut W,
) -> Result<bool, AppFault>
    // The line is that of the checker's answer to the rows and the certificates that the bytes say.
    ensures answer { IfOk result (λ passed. (verdict : Verdicts) × (passed ≡ is_yes verdict)
        × IsVerdictOf (L.remaining log_reader) (C.remaining cert_reader) verdict
        × Appends (W.contents writer.old) (W.contents writer.new) (verdict_line verdict)) }
    // So, where both readers tell their bytes, it is true exactly where all that they say passes.
    ensures yes { IfOk result (IsExact (L.remaining log_reader) (C.remaining cert_reader)) }
    // A fault is the first of the log, else that of the certificates, else one of the writer.
    ensures fault { IfErr result (IsRefusal (L.remaining log_reader) (C.remaining cert_reader)) }
    ensures unwritten { IfErr result (λ e. e ≢ app.Write → W.contents writer.new ≡ W.contents writer.old) }
    // Where the writer fails, a front part of that line is written.
    ensures stopped { IfErr result (λ e. e ≡ app.Write → (verdict : Verdicts)
        × IsVerdictOf (L.remaining log_reader) (C.remaining cert_reader) verdict
        × WritesFront (W.contents writer.old) (W.contents writer.new) (verdict_line verdict)) }
{
    let log = Input::new(log_reader, "");
    let cert = Input::new(cert_reader, "");
    match judge_texts(alloc, log, cert) {
        Ok(verdict) => {
            let answer = Answer::Checked(verdict);
            write_text(answer_text(alloc, &answer, "")?.as_slice(), writer)?;
            Ok(answer.passes())
        }
        Err(failure) => Err(failure.fault),
    }
}

// The answer to what the inputs tell.
fn judge_texts<L: Read + Drop, C: Read + Drop>(
    alloc: Global,
    log: Input<L>,
    cert: Input<C>,
) -> Result<Verdict, AppFailure>
    ensures answer { IfOk result (IsVerdictOf (L.remaining log.source) (C.remaining cert.source)) }
    ensures fault { IfErr result (λ failure. (failure.fault ≢ app.Write)
        × IsRefusal (L.remaining log.source) (C.remaining cert.source) failure.fault) }
{
    match read_certificates(alloc, cert) {
        Ok(certificates) => judge_log(alloc, log, certificates.as_slice()),
        Err(failure) => {
            if let AppFault::Memory = failure.fault {
                return Err(failure);
            }
            judge_log(alloc, log, &[])?;
            Err(failure)
        }
    }
}

// The answer to the log that an input tells.
fn judge_log<L: Read + Drop>(
    alloc: Global,
    log: Input<L>,
    certificates: &[Certificate],
) -> Result<Verdict, AppFailure>
    ensures answer { IfOk result (IsAnswerOf (L.remaining log.source) certificates.now) }
    ensures fault { IfErr result (λ failure. (f : LogFaults) × (failure.fault ≡ of_log f)
        × IfSome (records_told (L.remaining log.source)) (λ text. rows.IsFirstLogFault text f)) }
{
    let mut rows = RowReader::new(alloc, log)?;
    match check_rows(alloc, &mut rows, certificates) {
        Ok(verdict) => Ok(verdict),
        Err(fault) => Err(log_failure(&rows, fault)),
    }
}

/// The line of an answer, with these lines below it.
pub(crate) fn answer_text(alloc: Global, answer: &Answer, lines: &str) -> Result<Vec<u8>, AppFault>
    ensures text { IfOk result (λ text. text.items ≡ answer_text answer.now lines.now) }
    ensures fault { IfErr result (λ e. e ≡ app.Memory) }
{
    let mut text = Vec::new(alloc);
    match write!(text, "{answer}\n{lines}") {
        Ok(()) => Ok(text),
        Err(_) => Err(AppFault::Memory),
    }
}

/// Judges the log and the certificates in these files; true for a yes.
#[inline(never)]
pub(crate) fn check_files<F: Files, O: Write>(
    files: &F,
    alloc: Global,
    log: &str,
    cert: &str,
    out: &mut O,
) -> Result<bool, Failure>
    ensures answer { LeavesAnswer result (O.contents out.old) (O.contents out.new) }
    ensures fault { IfErr result (λ failure. IsOfJudging failure.fault) }
    // The line is that of the checker's answer to the bytes of two files.
    ensures judged { IfOk result (JudgesFiles F.File.remaining (O.contents out.old) (O.contents out.new)) }
{
    let mut read = ReadFiles::none();
    let log = open_input(files, Role::Log, log, &mut read)?;
    let cert = open_input(files, Role::Certificates, cert, &mut read)?;
    let answer = Answer::Checked(judge_texts(alloc, log, cert)?);
    let text = answer_text(alloc, &answer, "")?;
    print_text(files, &read, text.as_slice(), out)?;
    Ok(answer.passes())
}
