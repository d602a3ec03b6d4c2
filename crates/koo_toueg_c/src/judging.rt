//! Stored logs judged.

ghost use Rattle.std.specs.Prelude.{◌≡◌, ◌≤◌, ◌<◌, ◌↔◌, ℕ, List, IfOk, IfErr};
ghost use Rattle.kt_spacetime.specs.declared.certificate.Certificate.{Certificate as Certificates};
ghost use Rattle.kt_meaning.specs.Passing.{IsPassed};
ghost use Rattle.kt_spacetime.specs.declared.verdict.Verdict.{Verdict as Verdicts};
ghost use Rattle.kt_explain.specs.declared.answer.Answer.{Answer as Answers};
ghost use Rattle.kt_explain.specs.declared.answer.Answer.TheVariants.{Checked};
ghost use Rattle.kt_spacetime.specs.declared.event.Event.{Event as Events};
ghost use Rattle.koo_toueg_c.specs.declared.fault.Fault.{Fault as Faults};
ghost use Rattle.koo_toueg_c.specs.Numbers.{TellsAnswer, TellsFault, no_answer, of_cert};
ghost use Rattle.koo_toueg_c.specs.Stored.{IsAnswerAlone, IsRefusal, IsRefusalOfCertificates, IsRefusalOfLog, IsVerdictOf, SayCertificates, SaysLog};

use crate::answer::{KtAnswer, tell_answer};
use crate::fault::{Fault, KtFault};
use crate::reading::read_log;
use kt_chain::{CertTextFault, read_certs};
use kt_checker::check_stream;
use kt_explain::{Answer, judge};
use kt_spacetime::Verdict;
use std::alloc::Global;

/// Judges a stored log with its certificates, as `koo_toueg check LOG CERT` does; the log in one pass, of which no rows are kept.
///
/// The status is 0 for a yes, and 1 for a no, of which `answer` says why; both leave no fault. Where it is 2 or more there is no
/// answer, and `fault` says why: 2 the first fault of the log, or else that of the certificates, 3 a text that could not be read,
/// 4 want of memory.
#[unsafe(no_mangle)]
pub extern "C" fn kt_check(
    alloc: Global,
    log: &[u8],
    certificates: &[u8],
    answer: &mut KtAnswer,
    fault: &mut KtFault,
) -> u32
    // It is the checker's answer to the rows and the certificates that the texts say;
    ensures answered { result ≤ 1 → (verdict : Verdicts) × IsVerdictOf log.now certificates.now verdict
        × TellsAnswer (Checked verdict) result answer.new fault.new }
    // so it is a yes exactly where all that they say passes.
    ensures yes { result ≤ 1 → (rows : List Events) (list : List Certificates) → SaysLog log.now rows
        → SayCertificates certificates.now list → (result ≡ 0) ↔ IsPassed rows list }
    ensures refused { 1 < result → (why : Faults) × IsRefusal log.now certificates.now why
        × TellsFault why result fault.new }
    ensures none { 1 < result → answer.new ≡ no_answer }
{
    match verdict_of(alloc, log, certificates) {
        Ok(verdict) => tell_answer(&Answer::Checked(verdict), answer, fault),
        Err(why) => refuse(&why, answer, fault),
    }
}

/// Judges a stored log by the certificates that it means, as `koo_toueg check LOG` does. It keeps the rows in memory.
///
/// The status, the answer and the fault are as those of `kt_check`.
#[unsafe(no_mangle)]
pub extern "C" fn kt_judge(
    alloc: Global,
    log: &[u8],
    answer: &mut KtAnswer,
    fault: &mut KtFault,
) -> u32
    ensures answered { result ≤ 1 → (found : Answers) × IsAnswerAlone log.now found
        × TellsAnswer found result answer.new fault.new }
    ensures refused { 1 < result → (why : Faults) × IsRefusalOfLog log.now why
        × TellsFault why result fault.new }
    ensures none { 1 < result → answer.new ≡ no_answer }
{
    match answer_alone(alloc, log) {
        Ok(found) => tell_answer(&found, answer, fault),
        Err(why) => refuse(&why, answer, fault),
    }
}

// Tells a fault, and no answer; its status.
fn refuse(why: &Fault, answer: &mut KtAnswer, fault: &mut KtFault) -> u32
    ensures told { TellsFault why.now result fault.new }
    ensures none { answer.new ≡ no_answer }
    ensures refused { 1 < result }
{
    *answer = KtAnswer::none();
    *fault = KtFault::of(why);
    why.status()
}

// The checker's answer to stored texts.
fn verdict_of(alloc: Global, log: &[u8], certificates: &[u8]) -> Result<Verdict, Fault>
    ensures answer { IfOk result (IsVerdictOf log.now certificates.now) }
    ensures fault { IfErr result (IsRefusal log.now certificates.now) }
{
    let list = match read_certs(alloc, certificates) {
        Ok(list) => list,
        Err(fault) => return Err(fault_before(alloc, log, fault)),
    };
    match check_stream(alloc, log, list.as_slice()) {
        Ok(verdict) => Ok(verdict),
        Err(fault) => Err(Fault::of_log(fault)),
    }
}

// The fault of a log, or else this one of its certificates.
fn fault_before(alloc: Global, log: &[u8], fault: CertTextFault) -> Fault
    ensures { (also : List ℕ) → IsRefusalOfCertificates also (of_cert fault) → IsRefusal log.now also result }
{
    match check_stream(alloc, log, &[]) {
        Ok(_) => Fault::of_cert(fault),
        Err(fault) => Fault::of_log(fault),
    }
}

// The answer to a stored log by the certificates that it means.
fn answer_alone(alloc: Global, log: &[u8]) -> Result<Answer, Fault>
    ensures answer { IfOk result (IsAnswerAlone log.now) }
    ensures fault { IfErr result (IsRefusalOfLog log.now) }
{
    let read = match read_log(alloc, log) {
        Ok(read) => read,
        Err(why) => return Err(why),
    };
    match judge(alloc, &read.log, None, false, false) {
        Ok(judgement) => Ok(judgement.answer),
        Err(_) => Err(Fault::Memory),
    }
}
