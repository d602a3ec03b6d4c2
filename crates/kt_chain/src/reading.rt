//! Certificates read from their text.

ghost use Rattle.std.specs.Prelude.{All, IfOk, IfErr, IfSome};
ghost use Rattle.kt_chain.specs.Spelling.{IsCertificateWithin, HasShortChains};
ghost use Rattle.kt_chain.specs.Texts.{certificate_width, IsCertText, IsFirstCertificateFault};
ghost use Rattle.kt_text.specs.Records.{ReadsOn, left_in, text_records};

use crate::fault::CertTextFault;
use crate::records::take_record;
use csv::{ByteRecord, Reader};
use kt_spacetime::Certificate;
use kt_text::records::{next_record, read_records};
use std::alloc::Global;
use std::io::Read;

/// How many records a certificate text may have.
const MAX_RECORDS: u32 = 524_288;

/// How many fields a record of a certificate text has.
pub const CERTIFICATE_WIDTH: u32 = 5;

/// The certificates of a text, in order, as `read_certs_in` gives them of its records.
pub fn read_certs<R: Read + Drop>(
    alloc: Global,
    reader: R,
) -> Result<Vec<Certificate>, CertTextFault>
    ensures found { IfOk result (λ certificates. IfSome (R.remaining reader)
        (λ bytes. IsCertText (text_records certificate_width bytes) certificates.items)) }
    ensures in_range { IfOk result (λ certificates. All IsCertificateWithin certificates.items) }
    ensures short { IfOk result (λ certificates. All HasShortChains certificates.items) }
    ensures fault { IfErr result (λ e. IfSome (R.remaining reader)
        (λ bytes. IsFirstCertificateFault (text_records certificate_width bytes) e)) }
{
    let mut records = read_records(alloc, reader, CERTIFICATE_WIDTH)?;
    let mut current = ByteRecord::new(alloc);
    read_certs_in(alloc, &mut records, &mut current)
}

/// The certificates that a reader of records gives, of which it gave none, in order; `current` has the record that was read
/// last.
///
/// A byte order mark at the start says nothing. Answers the first fault: records in order, and in one record its
/// number of fields, then field by field, then its place.
pub fn read_certs_in<R: Read>(
    alloc: Global,
    records: &mut Reader<R>,
    current: &mut ByteRecord,
) -> Result<Vec<Certificate>, CertTextFault>
    requires { ReadsOn records.old }
    ensures found { IfOk result (λ certificates. IfSome (left_in R.remaining records.old) (λ text. IsCertText text certificates.items)) }
    ensures in_range { IfOk result (λ certificates. All IsCertificateWithin certificates.items) }
    ensures short { IfOk result (λ certificates. All HasShortChains certificates.items) }
    ensures fault { IfErr result (λ e. IfSome (left_in R.remaining records.old) (λ text. IsFirstCertificateFault text e)) }
{
    let mut certificates = Vec::new(alloc);
    let mut count = 0;
    while next_record(records, current)? {
        if count == MAX_RECORDS {
            return Err(CertTextFault::TooLong);
        }
        count += 1;
        if let Err(fault) = take_record(alloc, &mut certificates, current) {
            return Err(fault.at(count));
        }
    }
    Ok(certificates)
}
