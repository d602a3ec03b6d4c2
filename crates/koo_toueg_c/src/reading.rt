//! Stored texts read.

ghost use Rattle.std.specs.Prelude.{◌≡◌, IfOk, IfErr};
ghost use Rattle.koo_toueg_c.specs.Stored.{IsRefusal, IsRefusalOfCertificates, IsRefusalOfLog, SayCertificates, SaysLog};

use crate::fault::Fault;
use kt_chain::read_certs;
use kt_explain::{Numbered, RecordLines};
use kt_log_text::read_csv;
use kt_spacetime::{Certificate, SpaceTime};
use std::alloc::Global;

/// A log that was read, and on which lines its records begin.
#[derive(Drop)]
pub(crate) struct ReadLog {
    pub(crate) log: SpaceTime,
    pub(crate) lines: RecordLines,
}

/// Certificates that were read, and on which lines their records begin.
#[derive(Drop)]
pub(crate) struct ReadCertificates {
    pub(crate) list: Vec<Certificate>,
    pub(crate) lines: RecordLines,
}

/// A log and certificates that were read.
#[derive(Drop)]
pub(crate) struct ReadRun {
    pub(crate) log: ReadLog,
    pub(crate) certificates: ReadCertificates,
}

/// The log and the certificates that texts say; a fault of the log comes first.
pub(crate) fn read_run(alloc: Global, log: &[u8], certificates: &[u8]) -> Result<ReadRun, Fault>
    ensures rows { IfOk result (λ run. SaysLog log.now run.log.log.rows) }
    ensures certificates { IfOk result (λ run. SayCertificates certificates.now run.certificates.list.items) }
    ensures fault { IfErr result (IsRefusal log.now certificates.now) }
{
    match read_log(alloc, log) {
        Ok(log) => match read_certificates(alloc, certificates) {
            Ok(certificates) => Ok(ReadRun { log, certificates }),
            Err(why) => Err(why),
        },
        Err(why) => Err(why),
    }
}

/// The log that a text says.
pub(crate) fn read_log(alloc: Global, text: &[u8]) -> Result<ReadLog, Fault>
    ensures rows { IfOk result (λ read. SaysLog text.now read.log.rows) }
    ensures fault { IfErr result (IsRefusalOfLog text.now) }
{
    let mut source = Numbered::new(alloc, text);
    match read_csv(alloc, &mut source) {
        Ok(log) => {
            if source.lines.is_short {
                return Err(Fault::Memory);
            }
            Ok(ReadLog {
                log,
                lines: source.lines,
            })
        }
        Err(fault) => Err(Fault::of_log(fault)),
    }
}

// The certificates that a text says.
fn read_certificates(alloc: Global, text: &[u8]) -> Result<ReadCertificates, Fault>
    ensures certificates { IfOk result (λ read. SayCertificates text.now read.list.items) }
    ensures fault { IfErr result (IsRefusalOfCertificates text.now) }
{
    let mut source = Numbered::new(alloc, text);
    match read_certs(alloc, &mut source) {
        Ok(list) => {
            if source.lines.is_short {
                return Err(Fault::Memory);
            }
            Ok(ReadCertificates {
                list,
                lines: source.lines,
            })
        }
        Err(fault) => Err(Fault::of_cert(fault)),
    }
}
