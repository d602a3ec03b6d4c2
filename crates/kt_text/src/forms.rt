//! What records of logs and of certificates are to be, and what their numbers go beyond.

use crate::fields::number_of;
use csv::ByteRecord;
use std::fmt;

// The greatest number of an instance.
const LAST_INSTANCE: u32 = 4096;

/// A number that goes beyond the last one of a log's format.
#[derive(Clone, Copy)]
pub enum Limit {
    /// A message has this number, and the last one that.
    Message { number: u32, last: u32 },
    /// An instance has this number.
    Instance(u32),
}

impl fmt::Display for Limit {
    fn fmt<W: fmt::Write>(&self, f: &mut fmt::Formatter<W>) -> fmt::Result {
        let (what, number, last) = match self {
            Limit::Message { number, last } => ("message", number, last),
            Limit::Instance(number) => ("instance", number, &LAST_INSTANCE),
        };
        write!(
            f,
            "the log has more than its format holds: {what} {number} is over the limit {last}"
        )
    }
}

/// How many fields a record has, and how many it is to have: of those that are too many one is read.
#[derive(Clone, Copy)]
pub struct FieldCount {
    pub found: usize,
    pub expected: usize,
}

impl fmt::Display for FieldCount {
    fn fmt<W: fmt::Write>(&self, f: &mut fmt::Formatter<W>) -> fmt::Result {
        let FieldCount { found, expected } = self;
        if found > expected {
            write!(f, "more than {expected} fields, expected: {expected}")
        } else {
            write!(f, "{found} fields, expected: {expected}")
        }
    }
}

/// What a row of a log is to be that begins with this word: P and Q are processes, K is an instance, M a message.
pub fn row_form(word: &[u8]) -> &'static str {
    match word {
        b"sent" => "expected: sent,P,Q,BODY: P and Q 0 to 63, BODY a whole number",
        b"received" =>
            "expected: received,P,Q,M: P and Q 0 to 63, M the number of the row in which Q sent it",
        b"dropped" =>
            "expected: dropped,P,Q,M: P and Q 0 to 63, M the number of the row in which Q sent it",
        b"began" => "expected: began,P,K,KIND: P 0 to 63, K 1 to 4096, KIND checkpoint or rollback",
        b"took" => "expected: took,P,K,-: P 0 to 63, K 1 to 4096",
        b"ready" => "expected: ready,P,K,-: P 0 to 63, K 1 to 4096",
        b"unwilling" =>
            "expected: unwilling,P,K,CAUSE: P 0 to 63, K 1 to 4096, CAUSE down, nosave or busy-K",
        b"decided" =>
            "expected: decided,P,K,DECISION: P 0 to 63, K 1 to 4096, DECISION commit or abort",
        b"closed" => "expected: closed,P,K,-: P 0 to 63, K 1 to 4096",
        b"failed" => "expected: failed,P,-,-: P 0 to 63",
        b"refused" =>
            "expected: refused,P,COMMAND,CAUSE: P 0 to 63, COMMAND send, checkpoint, rollback or fail, CAUSE down, nosave or busy-K",
        _ =>
            "expected first: sent, received, dropped, began, took, ready, unwilling, decided, closed, failed or refused",
    }
}

/// What a record of certificates is to be that begins with this word.
pub fn certificate_form(word: &[u8]) -> &'static str {
    match word {
        b"cert" =>
            "expected: cert,K,KIND,P,DECISION: K 1 to 4096, KIND checkpoint or rollback, P 0 to 63, DECISION commit or abort",
        b"member" =>
            "expected: member,K,P,N,CHAIN: K that of the cert above, P and N 0 to 63, CHAIN N messages joined by /, or - where N is 0",
        _ => "expected first: cert or member",
    }
}

/// The field at a place of a record, empty where there is none.
pub fn field_at(fields: &ByteRecord, place: usize) -> &[u8] {
    fields.get(place).unwrap_or(b"")
}

/// What a number of a row goes beyond, where messages have numbers up to this one.
pub fn limit_of(fields: &ByteRecord, last: u32) -> Option<Limit> {
    let (instance, other) = (field_at(fields, 2), field_at(fields, 3));
    match field_at(fields, 0) {
        b"received" | b"dropped" => {
            let number = greater(other, last)?;
            Some(Limit::Message { number, last })
        }
        b"began" | b"took" | b"ready" | b"decided" | b"closed" => instance_beyond(instance),
        b"unwilling" => instance_beyond(instance).or(cause_beyond(other)),
        b"refused" => cause_beyond(other),
        _ => None,
    }
}

// The instance beyond the last one that a text is.
fn instance_beyond(text: &[u8]) -> Option<Limit> {
    Some(Limit::Instance(greater(text, LAST_INSTANCE)?))
}

// The instance beyond the last one that a cause names.
fn cause_beyond(cause: &[u8]) -> Option<Limit> {
    instance_beyond(cause.strip_prefix(b"busy-".as_slice())?)
}

// The number greater than this one that a text is.
fn greater(text: &[u8], last: u32) -> Option<u32> {
    number_of(text).filter(|number| *number > last)
}

/// What a record of a part is to be that has this word: T is a clock, P and Q are processes, B a body, and N counts what Q sent
/// or began.
pub fn part_form(word: &[u8]) -> &'static str {
    match word {
        b"sent" => "expected: T,sent,P,Q,B,mP.N: P that of the part, N one more than before",
        b"received" => "expected: T,received,P,Q,mQ.N,-: P that of the part",
        b"dropped" => "expected: T,dropped,P,Q,mQ.N,-: P that of the part",
        b"began" =>
            "expected: T,began,P,iP.N,KIND,-: KIND checkpoint or rollback, N one more than before",
        b"took" => "expected: T,took,P,iQ.N,-,-: P that of the part",
        b"ready" => "expected: T,ready,P,iQ.N,-,-: P that of the part",
        b"unwilling" => "expected: T,unwilling,P,iQ.N,CAUSE,-: CAUSE down, nosave or busy-iQ.N",
        b"decided" => "expected: T,decided,P,iP.N,DECISION,-: DECISION commit or abort",
        b"closed" => "expected: T,closed,P,iQ.N,-,-: P that of the part",
        b"failed" => "expected: T,failed,P,-,-,-: P that of the part",
        b"refused" =>
            "expected: T,refused,P,COMMAND,CAUSE,-: COMMAND send, checkpoint, rollback or fail, CAUSE down, nosave or busy-iQ.N",
        _ =>
            "expected second: sent, received, dropped, began, took, ready, unwilling, decided, closed, failed or refused",
    }
}
