//! Texts made of stored logs: certificates, answers in facts, pictures.

ghost use Rattle.std.specs.Prelude.{◌≡◌, ◌≢◌, ◌≤◌, ℕ, List, [], IfOk, IfErr};
ghost use Rattle.kt_spacetime.specs.declared.unfit.Unfit.{Unfit as Unfits};
ghost use Rattle.kt_meaning.specs.Answers.{IsCheckerAnswer};
ghost use Rattle.kt_draw.specs.Drawn.{IsCertifiedPicture};
ghost use Rattle.koo_toueg_c.specs.Buffers.{IsGiven, IsTooLong};
ghost use Rattle.koo_toueg_c.specs.Numbers.{TellsFault, unfit_numbers};
ghost use Rattle.koo_toueg_c.specs.Stored.{AreExplained, AreExplainedRows, IsPictureOfTexts, IsRefusal, IsRefusalOfLog, IsTextOfCertificates, IsUncertified, IsUndrawn, IsUndrawnRun, IsUnfitText, row_asked, span_of};
ghost use Rattle.koo_toueg_c.specs.declared.fault.Fault.{Fault as Faults};
ghost use Rattle.koo_toueg_c.specs.declared.fault.Fault.TheVariants as fault;

use crate::answer::answer_status;
use crate::buffers::{give, refuse};
use crate::fault::{Fault, KtFault};
use crate::reading::{ReadRun, read_run};
use kt_certify::{StreamFault, certify_stream};
use kt_chain::write_certs;
use kt_checker::check;
use kt_draw::{Span, draw_certified};
use kt_explain::{Answer, Lines, Told, explain};
use kt_log_text::LogFault;
use kt_plan::Names;
use kt_spacetime::{Unfit, Verdict};
use std::alloc::Global;
use std::io::Write;

/// Makes the certificates of a stored log, as `koo_toueg certify LOG` writes them.
///
/// The status is 0 where `out` begins with their text, and `len` is its length; 5 where `out` is too short for the text, and
/// `len` is the length that it needs. It is 1 where the log has no certificates: a row breaks a rule, or a member has no chain.
/// It is 2 to 4 at a fault, as that of `kt_check`. Where there is no text, `len` is 0, and `fault` says why.
#[unsafe(no_mangle)]
pub extern "C" fn kt_certify(
    alloc: Global,
    log: &[u8],
    out: &mut [u8],
    len: &mut usize,
    fault: &mut KtFault,
) -> u32
    ensures written { result ≡ 0 → (text : List ℕ) × IsTextOfCertificates log.now text
        × IsGiven text out.old out.new len.new fault.new }
    ensures short { result ≡ 5 → (text : List ℕ) × IsTextOfCertificates log.now text
        × IsTooLong text out.old out.new len.new fault.new }
    ensures unfit { result ≡ 1 → (why : Unfits) × IsUnfitText log.now why
        × (fault.new ≡ unfit_numbers why) }
    ensures refused { 2 ≤ result → result ≢ 5 → (why : Faults) × IsRefusalOfLog log.now why
        × TellsFault why result fault.new }
    ensures none { result ≢ 0 → result ≢ 5 → (out.new ≡ out.old) × (len.new ≡ 0) }
{
    match certified(alloc, log) {
        Ok(text) => give(text.as_slice(), 0, out, len, fault),
        Err(StreamFault::Unfit(why)) => tell_unfit(why, len, fault),
        Err(StreamFault::Log(why)) => refuse(&Fault::of_log(why), len, fault),
    }
}

// Tells why a log has no certificates, and that there is no text; its status.
fn tell_unfit(why: Unfit, len: &mut usize, fault: &mut KtFault) -> u32
    ensures told { fault.new ≡ unfit_numbers why }
    ensures none { len.new ≡ 0 }
    ensures status { result ≡ 1 }
{
    *len = 0;
    *fault = KtFault::of_unfit(why);
    1
}

/// Judges a stored log with its certificates, and tells the facts of the answer, as `koo_toueg check --explain log certificates`
/// prints them: the line of the answer, and the lines below it. It keeps the rows in memory.
///
/// The status is 0 for a yes and 1 for a no, where `out` begins with the text. It is 2 to 4 at a fault, as that of `kt_check`,
/// and 5 as that of `kt_certify`.
#[unsafe(no_mangle)]
pub extern "C" fn kt_explain(
    alloc: Global,
    log: &[u8],
    certificates: &[u8],
    out: &mut [u8],
    len: &mut usize,
    fault: &mut KtFault,
) -> u32
    ensures written { result ≤ 1 → (text : List ℕ) × AreExplained log.now certificates.now result text
        × IsGiven text out.old out.new len.new fault.new }
    ensures short { result ≡ 5 → (status : ℕ) × (text : List ℕ)
        × AreExplained log.now certificates.now status text
        × IsTooLong text out.old out.new len.new fault.new }
    ensures refused { 2 ≤ result → result ≢ 5 → (why : Faults)
        × IsRefusal log.now certificates.now why × TellsFault why result fault.new }
    ensures none { 2 ≤ result → result ≢ 5 → (out.new ≡ out.old) × (len.new ≡ 0) }
{
    match explained(alloc, log, certificates) {
        Ok(told) => give(told.text.as_slice(), told.status, out, len, fault),
        Err(why) => refuse(&why, len, fault),
    }
}

/// Draws rows of a stored log with its certificates, as `koo_toueg draw LOG --cert CERT --from FROM --to TO` does: one SVG
/// document. `from` and `to` are rows from 1; 0 stands for the first row and for the last one. It keeps the rows in memory.
///
/// The status is 0 where `out` begins with the picture, and 5 as that of `kt_certify`. It is 2 to 4 at a fault, as that of
/// `kt_check`, also where there are no such rows, or more than 4,096 of them.
#[unsafe(no_mangle)]
pub extern "C" fn kt_draw(
    alloc: Global,
    log: &[u8],
    certificates: &[u8],
    from: u32,
    to: u32,
    out: &mut [u8],
    len: &mut usize,
    fault: &mut KtFault,
) -> u32
    ensures written { result ≤ 1 → (text : List ℕ)
        × IsPictureOfTexts log.now certificates.now (span_of from to) text
        × IsGiven text out.old out.new len.new fault.new }
    ensures short { result ≡ 5 → (text : List ℕ)
        × IsPictureOfTexts log.now certificates.now (span_of from to) text
        × IsTooLong text out.old out.new len.new fault.new }
    ensures refused { 2 ≤ result → result ≢ 5 → (why : Faults)
        × IsUndrawn log.now certificates.now (span_of from to) why × TellsFault why result fault.new }
    ensures none { 2 ≤ result → result ≢ 5 → (out.new ≡ out.old) × (len.new ≡ 0) }
    ensures status { result ≢ 1 }
{
    match drawn(alloc, log, certificates, span_of(from, to)) {
        Ok(text) => give(text.as_slice(), 0, out, len, fault),
        Err(why) => refuse(&why, len, fault),
    }
}

// The text of the certificates of a stored log.
fn certified(alloc: Global, log: &[u8]) -> Result<Vec<u8>, StreamFault>
    ensures text { IfOk result (λ text. IsTextOfCertificates log.now text.items) }
    ensures fault { IfErr result (IsUncertified log.now) }
{
    let list = match certify_stream(alloc, log) {
        Ok(list) => list,
        Err(fault) => return Err(fault),
    };
    let mut text = Vec::new(alloc);
    match write_certs(alloc, list.as_slice(), &mut text) {
        Ok(()) => Ok(text),
        Err(_) => Err(StreamFault::Log(LogFault::Memory)),
    }
}

// The text of an answer with what is told of it, and its status.
#[derive(Drop)]
struct Text {
    text: Vec<u8>,
    status: u32,
}

// The answer to stored texts, with what is told of it below.
fn explained(alloc: Global, log: &[u8], certificates: &[u8]) -> Result<Text, Fault>
    ensures text { IfOk result (λ told. AreExplained log.now certificates.now told.status told.text.items) }
    ensures status { IfOk result (λ told. told.status ≤ 1) }
    ensures fault { IfErr result (IsRefusal log.now certificates.now) }
{
    match read_run(alloc, log, certificates) {
        Ok(run) => explained_run(alloc, &run),
        Err(why) => Err(why),
    }
}

// The answer to a log and certificates that were read, with what is told of it below.
fn explained_run(alloc: Global, run: &ReadRun) -> Result<Text, Fault>
    ensures text { IfOk result (λ told. AreExplainedRows run.now.log.log.rows run.now.certificates.list.items
        told.status told.text.items) }
    ensures status { IfOk result (λ told. told.status ≤ 1) }
    ensures fault { IfErr result (λ why. why ≡ fault.Memory) }
{
    let (log, list) = (&run.log.log, run.certificates.list.as_slice());
    let verdict = match check(alloc, log, list) {
        Ok(verdict) => verdict,
        Err(_) => return Err(Fault::Memory),
    };
    let lines = match lines_of(alloc, run, &verdict) {
        Ok(lines) => lines,
        Err(why) => return Err(why),
    };
    let mut text = Vec::new(alloc);
    match write!(text, "{verdict}\n{lines}") {
        Ok(()) => Ok(Text {
            text,
            status: answer_status(Answer::Checked(verdict).passes()),
        }),
        Err(_) => Err(Fault::Memory),
    }
}

// The lines of what is told of the checker's answer to a log and certificates that were read.
fn lines_of(alloc: Global, run: &ReadRun, verdict: &Verdict) -> Result<String, Fault>
    requires { IsCheckerAnswer run.now.log.log.rows run.now.certificates.list.items verdict.now }
    ensures { IfErr result (λ why. why ≡ fault.Memory) }
{
    let (log, list) = (&run.log.log, run.certificates.list.as_slice());
    let explanation = match explain(alloc, log, list, verdict) {
        Ok(explanation) => explanation,
        Err(_) => return Err(Fault::Memory),
    };
    let told = Told {
        alloc,
        log,
        certificates: list,
        row: Answer::Checked(*verdict).row(),
        explanation: &explanation,
        rows: Lines {
            name: "log",
            count: run.log.lines.count,
            runs: run.log.lines.runs.as_slice(),
        },
        records: Lines {
            name: "certificates",
            count: run.certificates.lines.count,
            runs: run.certificates.lines.runs.as_slice(),
        },
    };
    match format!(in alloc; "{told}") {
        Ok(lines) => Ok(lines),
        Err(_) => Err(Fault::Memory),
    }
}

// The picture of rows of a stored log with its certificates.
fn drawn(alloc: Global, log: &[u8], certificates: &[u8], span: Span) -> Result<Vec<u8>, Fault>
    ensures picture { IfOk result (λ text. IsPictureOfTexts log.now certificates.now span text.items) }
    ensures fault { IfErr result (IsUndrawn log.now certificates.now span) }
{
    match read_run(alloc, log, certificates) {
        Ok(run) => drawn_run(alloc, &run, span),
        Err(why) => Err(why),
    }
}

// The picture of rows of a log and certificates that were read.
fn drawn_run(alloc: Global, run: &ReadRun, span: Span) -> Result<Vec<u8>, Fault>
    ensures picture { IfOk result (λ text. IsCertifiedPicture [] span run.now.log.log.rows
        run.now.certificates.list.items text.items) }
    ensures fault { IfErr result (IsUndrawnRun run.now.log.log.rows span) }
{
    let names = Names::new(alloc);
    match draw_certified(
        alloc,
        &run.log.log,
        run.certificates.list.as_slice(),
        &names,
        span,
    ) {
        Ok(text) => Ok(text),
        Err(fault) => Err(Fault::of_draw(fault)),
    }
}

// The rows that are asked for.
fn span_of(from: u32, to: u32) -> Span
    ensures { result ≡ span_of from to }
{
    Span {
        from: row_asked(from),
        to: row_asked(to),
    }
}

// A row that is asked for; none by 0.
fn row_asked(row: u32) -> Option<u32>
    ensures { result ≡ row_asked row }
{
    if row == 0 { None } else { Some(row) }
}
