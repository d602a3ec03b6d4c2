//! The certificates of a stored log.

ghost use Rattle.std.specs.Prelude.{◌≡◌, ◌<◌, ◌^◌, ◌++◌, ◌∷◌, [], ℕ, All, List, Option, IfOk, IfErr, OnOk};
ghost use Rattle.kt_spacetime.specs.declared.event.Event.{Event as Events};
ghost use Rattle.kt_log_text.specs.Reading.{IsUnread, rows_unread};
ghost use Rattle.kt_chain.specs.Spelling.{HasShortChains, records_of};
ghost use Rattle.kt_chain.specs.Texts.{IsCertText};
ghost use Rattle.kt_certify.specs.PassOf.{PassOf};
ghost use Rattle.kt_certify.specs.Streamed.{AreCertified, IsFaultOfBytes};

use crate::fault::StreamFault;
use crate::pass::Pass;
use kt_base::Memory;
use kt_log_text::{Record, RowReader};
use kt_spacetime::{Certificate, Event};
use std::alloc::Global;
use std::io::Read;

/// The certificates of a stored log, in one pass over its rows, as `certify` makes them of a list of rows; else why there
/// are none.
///
/// Reading goes on to the end of the text, so that a fault of the text is answered before any other.
pub fn certify_stream<R: Read + Drop>(
    alloc: Global,
    log_reader: R,
) -> Result<Vec<Certificate>, StreamFault>
    // Where the reader tells its bytes, the certificates are those of the rows that these say, which are fit, and what
    // these rows mean,
    ensures certificates { IfOk result (λ list. AreCertified (R.remaining log_reader) list.items) }
    // and they can be written, and what is written says them.
    ensures short { IfOk result (λ list. All HasShortChains list.items) }
    ensures text { IfOk result (λ list. IsCertText (records_of list.items) list.items) }
    // A fault is the first of the text; else why the rows are not fit.
    ensures fault { IfErr result (IsFaultOfBytes (R.remaining log_reader)) }
{
    let mut rows = RowReader::new(alloc, log_reader)?;
    let mut unfit = None;
    certify_rows(alloc, &mut rows, &mut unfit)
}

/// The certificates of the rows that a reader gives, of which it gave none, as `certify_stream` makes them.
///
/// The record at which a fault of the text was met stays with the reader. The record of the row that has no certificates, or
/// breaks a rule, goes to `unfit`.
pub fn certify_rows<R: Read + Drop>(
    alloc: Global,
    rows: &mut RowReader<R>,
    unfit: &mut Option<Record>,
) -> Result<Vec<Certificate>, StreamFault>
    requires unread { IsUnread rows.old }
    ensures certificates { (source : Option (List ℕ)) → rows.old ≡ rows_unread source → IfOk result (λ list. AreCertified source list.items) }
    ensures short { IfOk result (λ list. All HasShortChains list.items) }
    ensures text { IfOk result (λ list. IsCertText (records_of list.items) list.items) }
    ensures fault { (source : Option (List ℕ)) → rows.old ≡ rows_unread source → IfErr result (IsFaultOfBytes source) }
{
    let mut pass = Pass::new(alloc)?;
    certify_unread(&mut pass, rows, unfit)
}

// The certificates of the rows that a reader gives, of which neither it nor the pass has seen any.
fn certify_unread<R: Read + Drop>(
    pass: &mut Pass,
    rows: &mut RowReader<R>,
    told: &mut Option<Record>,
) -> Result<Vec<Certificate>, StreamFault>
    requires unread { IsUnread rows.old }
    requires none_seen { PassOf pass.old [] }
    ensures certificates { (source : Option (List ℕ)) → rows.old ≡ rows_unread source → IfOk result (λ list. AreCertified source list.items) }
    ensures short { IfOk result (λ list. All HasShortChains list.items) }
    ensures text { IfOk result (λ list. IsCertText (records_of list.items) list.items) }
    ensures fault { (source : Option (List ℕ)) → rows.old ≡ rows_unread source → IfErr result (IsFaultOfBytes source) }
{
    while let Some(row) = rows.next()? {
        feed_told(pass, &row, rows, told)?;
    }
    match pass.unfit() {
        Some(unfit) => Err(StreamFault::Unfit(unfit)),
        None => Ok(pass.found()?),
    }
}

// One more row, the one that the reader gave last. Its record is kept where the rows are not fit from it on, or for another
// reason than before.
fn feed_told<R: Read + Drop>(
    pass: &mut Pass,
    row: &Event,
    reader: &RowReader<R>,
    told: &mut Option<Record>,
) -> Result<(), Memory>
    requires few { pass.old.walk.rows < 2 ^ 24 }
    ensures { OnOk result ((rows : List Events) → PassOf pass.old rows → PassOf pass.new (rows ++ row.now ∷ [])) }
{
    let before = pass.unfit();
    pass.feed(row)?;
    if pass.unfit() != before {
        *told = reader.record();
    }
    Ok(())
}
