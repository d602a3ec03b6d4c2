//! Stored runs as they are read: a log, certificates, and what is told of their faults.

ghost use Rattle.std.specs.Prelude.{◌≡◌, ◌≢◌, IfOk, IfErr, IfSome};
ghost use Rattle.kt_log_text.specs.declared.fault.LogFault.{LogFault as LogFaults};
ghost use Rattle.kt_log_text.specs.Texts as rows;
ghost use Rattle.kt_chain.specs.declared.fault.CertTextFault.{CertTextFault as CertFaults};
ghost use Rattle.kt_chain.specs.Texts as certs;
ghost use Rattle.kt_checker.specs.Streamed.{SaysRows};
ghost use Rattle.kt_program.specs.declared.fault.AppFault.TheVariants as app;
ghost use Rattle.kt_program.specs.Judging.{Say};
ghost use Rattle.kt_program.specs.Stored.{IsRefusal, SayCertificates, certificates_told, of_cert, of_log, records_told};

use crate::fault::{AppFailure, AppFault};
use crate::told::Told;
use csv::{ByteRecord, Reader};
use kt_chain::{CERTIFICATE_WIDTH, CertTextFault, read_certs_in};
use kt_log_text::{LogFault, RowReader, read_rows};
use kt_spacetime::{Certificate, SpaceTime};
use kt_text::records::read_records;
use kt_text::{Capped, Input};
use std::alloc::Global;
use std::io::Read;

/// A stored run that was read.
#[derive(Drop)]
pub(crate) struct StoredRun {
    pub(crate) log: SpaceTime,
    pub(crate) certificates: Vec<Certificate>,
}

/// The log and the certificates that the inputs tell.
pub(crate) fn read_stored<L: Read + Drop, C: Read + Drop>(
    alloc: Global,
    log: Input<L>,
    cert: Input<C>,
) -> Result<StoredRun, AppFailure>
    ensures read { IfOk result (λ stored. Say (L.remaining log.source) (C.remaining cert.source)
        stored.log.rows stored.certificates.items) }
    ensures fault { IfErr result (λ failure. (failure.fault ≢ app.Write)
        × IsRefusal (L.remaining log.source) (C.remaining cert.source) failure.fault) }
{
    match read_certificates(alloc, cert) {
        Ok(certificates) => Ok(StoredRun {
            log: read_log(alloc, log)?,
            certificates,
        }),
        Err(failure) => {
            if let AppFault::Memory = failure.fault {
                return Err(failure);
            }
            read_log(alloc, log)?;
            Err(failure)
        }
    }
}

/// The log that an input tells.
pub(crate) fn read_log<L: Read + Drop>(
    alloc: Global,
    log: Input<L>,
) -> Result<SpaceTime, AppFailure>
    ensures read { IfOk result (λ read. SaysRows (L.remaining log.source) read.rows) }
    ensures fault { IfErr result (λ failure. (f : LogFaults) × (failure.fault ≡ of_log f)
        × IfSome (records_told (L.remaining log.source)) (λ text. rows.IsFirstLogFault text f)) }
{
    let mut rows = RowReader::new(alloc, log)?;
    match read_rows(alloc, &mut rows) {
        Ok(read) => Ok(read),
        Err(fault) => Err(log_failure(&rows, fault)),
    }
}

/// A fault of the log that a reader of rows tells; want of memory is the program's own.
pub(crate) fn log_failure<L: Read + Drop>(rows: &RowReader<Input<L>>, fault: LogFault) -> AppFailure
    ensures { result.fault ≡ of_log fault }
{
    let told = told_of_log(rows, &fault);
    match fault {
        LogFault::Memory => AppFailure::from(AppFault::Memory),
        _ => AppFailure {
            fault: AppFault::Log(fault),
            told,
        },
    }
}

/// What is told of a fault of a log: the record at which it was met, or why that could not be read.
pub(crate) fn told_of_log<L: Read + Drop>(rows: &RowReader<Input<L>>, fault: &LogFault) -> Told {
    let row = match fault {
        LogFault::Read => return Told::read(rows.source()),
        LogFault::Memory => return Told::Nothing,
        LogFault::Fields(row) | LogFault::Word(row) | LogFault::Number(row) => row.get(),
        LogFault::TooLong | LogFault::Version => 1,
    };
    match rows.record() {
        Some(record) => Told::row(rows.source().name, &record, row),
        None => Told::Nothing,
    }
}

/// The certificates that an input tells.
pub(crate) fn read_certificates<C: Read + Drop>(
    alloc: Global,
    cert: Input<C>,
) -> Result<Vec<Certificate>, AppFailure>
    ensures certificates { IfOk result (λ certificates. SayCertificates (C.remaining cert.source) certificates.items) }
    ensures fault { IfErr result (λ failure. (f : CertFaults) × (failure.fault ≡ of_cert f)
        × IfSome (certificates_told (C.remaining cert.source)) (λ text. certs.IsFirstCertificateFault text f)) }
{
    let mut records = read_records(alloc, cert, CERTIFICATE_WIDTH)?;
    let mut current = ByteRecord::new(alloc);
    match read_certs_in(alloc, &mut records, &mut current) {
        Ok(certificates) => Ok(certificates),
        Err(fault) => Err(certificates_failure(&records, &current, fault)),
    }
}

// A fault of certificates, met at this record; want of memory is the program's own.
fn certificates_failure<C: Read>(
    records: &Reader<Capped<Input<C>>>,
    current: &ByteRecord,
    fault: CertTextFault,
) -> AppFailure
    ensures { result.fault ≡ of_cert fault }
{
    let input = &records.get_ref().source;
    let told = match fault {
        CertTextFault::Memory => return AppFailure::from(AppFault::Memory),
        CertTextFault::Read => Told::read(input),
        _ => Told::record(input.name, current, records.position(), u32::MAX),
    };
    AppFailure {
        fault: AppFault::Cert(fault),
        told,
    }
}
