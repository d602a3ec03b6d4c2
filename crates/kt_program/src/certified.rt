//! Stored logs certified.

ghost use Rattle.std.specs.Prelude.{◌≡◌, ◌≢◌, All, IfOk, IfErr, OnOk};
ghost use Rattle.kt_chain.specs.Spelling.{HasShortChains};
ghost use Rattle.kt_program.specs.declared.fault.AppFault.TheVariants as app;
ghost use Rattle.kt_program.specs.Certified.{CertifiesTo, IsOfCertifying, IsTextOfCertificates, IsUncertified, LeavesCertified, StopsInCertificates, WritesCertificates, text_of_list};

use crate::fault::{AppFailure, AppFault, Failure};
use crate::judging::read_alone;
use crate::outputs::{deliver, write_text};
use crate::sources::{ReadFiles, Role, open_input};
use crate::told::Told;
use kt_certify::{certify, certify_stream};
use kt_chain::write_certs;
use kt_explain::{tell_unfit, unfit_of};
use kt_spacetime::Certificate;
use kt_text::Input;
use std::alloc::Global;
use std::io::{Read, Write};
use std::rt::Files;

/// Writes the certificates of a stored log.
///
/// The log is read to its end, and found fit, before anything is written.
pub fn certify_bytes<L: Read + Drop, W: Write>(
    alloc: Global,
    log_reader: L,
    writer: &mut W,
) -> Result<(), AppFault>
    // What is written is the text of the certificates of the rows that the bytes say, which are fit.
    ensures written { OnOk result (WritesCertificates (L.remaining log_reader)
        (W.contents writer.old) (W.contents writer.new)) }
    // A fault but one of the writer is the first of the log, or why it has no certificates; then nothing is written.
    ensures fault { IfErr result (λ e. e ≢ app.Write → IsUncertified (L.remaining log_reader) e) }
    ensures unwritten { IfErr result (λ e. e ≢ app.Write → W.contents writer.new ≡ W.contents writer.old) }
    // Where the writer fails, a front part of that text is written.
    ensures stopped { IfErr result (λ e. e ≡ app.Write → StopsInCertificates (L.remaining log_reader)
        (W.contents writer.old) (W.contents writer.new)) }
{
    match certify_log(alloc, Input::new(log_reader, ""), false) {
        Ok(text) => write_text(text.as_slice(), writer),
        Err(failure) => Err(failure.fault),
    }
}

// The text of the certificates of the log that an input tells, whose rows are kept where that is asked.
#[tactic(auto, using(crate::proofs::StoredLogs::uncertified))]
fn certify_log<L: Read + Drop>(
    alloc: Global,
    log: Input<L>,
    keeps: bool,
) -> Result<Vec<u8>, AppFailure>
    ensures text { IfOk result (λ text. IsTextOfCertificates (L.remaining log.source) text.items) }
    ensures fault { IfErr result (λ failure. IsUncertified (L.remaining log.source) failure.fault) }
{
    if keeps {
        return certify_kept(alloc, log);
    }
    match certify_stream(alloc, log) {
        Ok(certificates) => Ok(text_of_list(alloc, certificates.as_slice())?),
        Err(fault) => Err(AppFailure {
            fault: AppFault::from(fault),
            told: Told::Nothing,
        }),
    }
}

// The same, of rows that are kept, so that it is known what is told of a log that has no certificates.
fn certify_kept<L: Read + Drop>(alloc: Global, log: Input<L>) -> Result<Vec<u8>, AppFailure>
    ensures text { IfOk result (λ text. IsTextOfCertificates (L.remaining log.source) text.items) }
    ensures fault { IfErr result (λ failure. IsUncertified (L.remaining log.source) failure.fault) }
{
    let file = log.name;
    let stored = read_alone(alloc, log)?;
    match certify(alloc, &stored.log) {
        Ok(certificates) => Ok(text_of_list(alloc, certificates.as_slice())?),
        Err(fault) => {
            let why = unfit_of(stored.log.rows(), fault)?;
            let told = match tell_unfit(alloc, &stored.log, &stored.rows, why) {
                Ok(told) => Told::unfit(file, told.lines.as_str()),
                Err(_) => Told::Nothing,
            };
            Err(AppFailure {
                fault: AppFault::Unfit(why),
                told,
            })
        }
    }
}

// The text of certificates that can be written.
fn text_of_list(alloc: Global, certificates: &[Certificate]) -> Result<Vec<u8>, AppFault>
    requires short { All HasShortChains certificates.now }
    ensures text { IfOk result (λ text. text.items ≡ text_of_list certificates.now) }
    ensures fault { IfErr result (λ e. e ≡ app.Memory) }
{
    let mut text = Vec::new(alloc);
    match write_certs(alloc, certificates, &mut text) {
        Ok(()) => Ok(text),
        Err(_) => Err(AppFault::Memory),
    }
}

/// Writes the certificates of the log in a file into the file that is named for them, else to `out`.
///
/// Their file is opened once the log was found fit, and appears whole. With `hints` its rows are kept, so that what is wrong
/// with it can be told.
#[inline(never)]
pub(crate) fn certify_files<F: Files, O: Write>(
    files: &F,
    alloc: Global,
    log: &str,
    cert: Option<&str>,
    hints: bool,
    out: &mut O,
) -> Result<(), Failure>
    ensures certified { OnOk result (CertifiesTo F.File.remaining cert.entry (O.contents out.old) (O.contents out.new)) }
    ensures fault { IfErr result (λ failure. IsOfCertifying failure.fault) }
    ensures output { LeavesCertified result (O.contents out.old) (O.contents out.new) }
{
    let mut read = ReadFiles::none();
    let log = open_input(files, Role::Log, log, &mut read)?;
    let text = certify_log(alloc, log, hints)?;
    deliver(files, alloc, &read, text.as_slice(), cert, out)
}
