//! What the four fields of a record say.

ghost use Rattle.std.specs.Prelude.{◌≡◌, ◌≢◌, ◌≤◌, ◌^◌, [], ◌∷◌, codes, FitsSigned, IfOk, IfErr, IfSome, IfNone};
ghost use Rattle.std.specs.Int.{w64};
ghost use Rattle.std.specs.Fmt.{decimal, signed_decimal};
ghost use Rattle.kt_base.specs.Numbers.{IsProcNo, IsInstNo, IsMsgNo};
ghost use Rattle.kt_log_text.specs.declared.rows.Format.TheVariants.{One};
ghost use Rattle.kt_log_text.specs.declared.rows.RowWord.{RowWord as row_words};
ghost use Rattle.kt_spacetime.specs.Events.{IsRowInRange, IsCauseInRange};
ghost use Rattle.kt_text.specs.Words.{kind_word, decision_word};
ghost use Rattle.kt_log_text.specs.Spelling.{spelling, row_word, verb_word, cause_word, max_rows, IsInFormat, IsRowMisfit, IsFirstRowMisfit, IsRowFaultAfter, IsRowFieldFault};
ghost use Rattle.kt_log_text.specs.Texts.{fault_at_row};
ghost use Rattle.kt_log_text.specs.Slot as slot;

use crate::fault::LogFault;
use kt_base::{Cause, InstNo, Kind, MsgNo, ProcNo, RowNo, Verb};
use kt_spacetime::Event;
use kt_text::fields::{body_of, decision_of, instance_of, kind_of, message_of, process_of};

/// The two formats of a log's text, which differ in their limits.
#[derive(Clone, Copy)]
pub(crate) enum Format {
    One,
    Two,
}

impl Format {
    /// How many rows a text has at most, and the greatest number of a message in it.
    pub(crate) fn max_rows(self) -> u32
        ensures value { result ≡ max_rows self }
        ensures few { result ≤ 2 ^ 24 }
    {
        match self {
            Format::One => 1_048_576,
            Format::Two => 16_777_216,
        }
    }
}

/// The word that a row begins with.
#[derive(Clone, Copy)]
pub(crate) enum RowWord {
    Sent,
    Received,
    Dropped,
    Began,
    Took,
    Ready,
    Unwilling,
    Decided,
    Closed,
    Failed,
    Refused,
}

/// What is first wrong in the fields of a row.
#[derive(Clone, Copy)]
pub(crate) enum RowFault {
    Word,
    Number,
}

impl RowFault {
    /// The fault of a log whose row this is.
    pub(crate) fn at(self, row: RowNo) -> LogFault
        ensures { result ≡ fault_at_row self row }
    {
        match self {
            RowFault::Word => LogFault::Word(row),
            RowFault::Number => LogFault::Number(row),
        }
    }
}

#[inline(always)]
fn process(text: &[u8]) -> Result<ProcNo, RowFault>
    ensures found { IfOk result (λ p. IsProcNo p × (text.now ≡ decimal p)) }
    ensures fault { IfErr result (IsRowMisfit One slot.process text.now) }
{
    process_of(text).ok_or(RowFault::Number)
}

fn instance(text: &[u8]) -> Result<InstNo, RowFault>
    ensures found { IfOk result (λ k. IsInstNo k × (text.now ≡ decimal k)) }
    ensures fault { IfErr result (IsRowMisfit One slot.instance text.now) }
{
    instance_of(text).ok_or(RowFault::Number)
}

fn message(text: &[u8], format: Format) -> Result<MsgNo, RowFault>
    ensures found { IfOk result (λ m. IsMsgNo m × (m ≤ max_rows format) × (text.now ≡ decimal m)) }
    ensures fault { IfErr result (IsRowMisfit format slot.message text.now) }
{
    let Some(msg) = message_of(text) else {
        return Err(RowFault::Number);
    };
    if msg.get() > format.max_rows() {
        return Err(RowFault::Number);
    }
    Ok(msg)
}

fn body(text: &[u8]) -> Result<i64, RowFault>
    ensures found { IfOk result (λ z. FitsSigned w64 z × (text.now ≡ signed_decimal z)) }
    ensures fault { IfErr result (IsRowMisfit One slot.body text.now) }
{
    body_of(text).ok_or(RowFault::Number)
}

fn nothing(text: &[u8]) -> Result<(), RowFault>
    ensures found { IfOk result (λ _. text.now ≡ codes "-") }
    ensures fault { IfErr result (IsRowMisfit One slot.nothing text.now) }
{
    if text == b"-".as_slice() {
        Ok(())
    } else {
        Err(RowFault::Word)
    }
}

fn kind(text: &[u8]) -> Result<Kind, RowFault>
    ensures found { IfOk result (λ k. text.now ≡ kind_word k) }
    ensures fault { IfErr result (IsRowMisfit One slot.kind text.now) }
{
    kind_of(text).ok_or(RowFault::Word)
}

fn decision(text: &[u8]) -> Result<bool, RowFault>
    ensures found { IfOk result (λ commit. text.now ≡ decision_word commit) }
    ensures fault { IfErr result (IsRowMisfit One slot.decision text.now) }
{
    decision_of(text).ok_or(RowFault::Word)
}

fn verb(text: &[u8]) -> Result<Verb, RowFault>
    ensures found { IfOk result (λ v. text.now ≡ verb_word v) }
    ensures fault { IfErr result (IsRowMisfit One slot.verb text.now) }
{
    if text == b"send".as_slice() {
        return Ok(Verb::Send);
    }
    if text == b"checkpoint".as_slice() {
        return Ok(Verb::Checkpoint);
    }
    if text == b"rollback".as_slice() {
        return Ok(Verb::Rollback);
    }
    if text == b"fail".as_slice() {
        return Ok(Verb::Fail);
    }
    Err(RowFault::Word)
}

fn cause(text: &[u8]) -> Result<Cause, RowFault>
    ensures found { IfOk result (λ c. IsCauseInRange c × (text.now ≡ cause_word c)) }
    ensures fault { IfErr result (IsRowMisfit One slot.cause text.now) }
{
    if text == b"down".as_slice() {
        return Ok(Cause::Down);
    }
    if text == b"nosave".as_slice() {
        return Ok(Cause::NoSave);
    }
    let Some(number) = text.strip_prefix(b"busy-".as_slice()) else {
        return Err(RowFault::Word);
    };
    let Ok(inst) = instance(number) else {
        return Err(RowFault::Number);
    };
    Ok(Cause::Busy(inst))
}

// A process and an instance, with nothing after them.
fn parse_joined(first: &[u8], second: &[u8], third: &[u8]) -> Result<(ProcNo, InstNo), RowFault>
    ensures found { IfOk result (λ r. IsProcNo r.0 × IsInstNo r.1 × (first.now ≡ decimal r.0)
        × (second.now ≡ decimal r.1) × (third.now ≡ codes "-")) }
    ensures fault { IfErr result (IsFirstRowMisfit One slot.process slot.instance slot.nothing first.now second.now third.now) }
{
    let p = process(first)?;
    let inst = instance(second)?;
    nothing(third)?;
    Ok((p, inst))
}

// The process, the sender and the message of a row that takes one.
fn parse_taken(
    first: &[u8],
    second: &[u8],
    third: &[u8],
    format: Format,
) -> Result<(ProcNo, ProcNo, MsgNo), RowFault>
    ensures found { IfOk result (λ r. IsProcNo r.0 × IsProcNo r.1 × IsMsgNo r.2 × (r.2 ≤ max_rows format)
        × (first.now ≡ decimal r.0) × (second.now ≡ decimal r.1) × (third.now ≡ decimal r.2)) }
    ensures fault { IfErr result (IsFirstRowMisfit format slot.process slot.process slot.message first.now second.now third.now) }
{
    let p = process(first)?;
    let from = process(second)?;
    let msg = message(third, format)?;
    Ok((p, from, msg))
}

#[inline(always)]
fn parse_sent(first: &[u8], second: &[u8], third: &[u8]) -> Result<Event, RowFault>
    ensures found { IfOk result (λ e. (spelling e ≡ codes "sent" ∷ first.now ∷ second.now ∷ third.now ∷ [])
        × IsRowInRange e × IsInFormat One e) }
    ensures fault { IfErr result (IsFirstRowMisfit One slot.process slot.process slot.body first.now second.now third.now) }
{
    let p = process(first)?;
    let to = process(second)?;
    let body = body(third)?;
    Ok(Event::Sent { p, to, body })
}

fn parse_began(first: &[u8], second: &[u8], third: &[u8]) -> Result<Event, RowFault>
    ensures found { IfOk result (λ e. (spelling e ≡ codes "began" ∷ first.now ∷ second.now ∷ third.now ∷ [])
        × IsRowInRange e × IsInFormat One e) }
    ensures fault { IfErr result (IsFirstRowMisfit One slot.process slot.instance slot.kind first.now second.now third.now) }
{
    let p = process(first)?;
    let inst = instance(second)?;
    let kind = kind(third)?;
    Ok(Event::Began { p, inst, kind })
}

fn parse_unwilling(first: &[u8], second: &[u8], third: &[u8]) -> Result<Event, RowFault>
    ensures found { IfOk result (λ e. (spelling e ≡ codes "unwilling" ∷ first.now ∷ second.now ∷ third.now ∷ [])
        × IsRowInRange e × IsInFormat One e) }
    ensures fault { IfErr result (IsFirstRowMisfit One slot.process slot.instance slot.cause first.now second.now third.now) }
{
    let p = process(first)?;
    let inst = instance(second)?;
    let cause = cause(third)?;
    Ok(Event::Unwilling { p, inst, cause })
}

fn parse_decided(first: &[u8], second: &[u8], third: &[u8]) -> Result<Event, RowFault>
    ensures found { IfOk result (λ e. (spelling e ≡ codes "decided" ∷ first.now ∷ second.now ∷ third.now ∷ [])
        × IsRowInRange e × IsInFormat One e) }
    ensures fault { IfErr result (IsFirstRowMisfit One slot.process slot.instance slot.decision first.now second.now third.now) }
{
    let p = process(first)?;
    let inst = instance(second)?;
    let commit = decision(third)?;
    Ok(Event::Decided { p, inst, commit })
}

fn parse_failed(first: &[u8], second: &[u8], third: &[u8]) -> Result<Event, RowFault>
    ensures found { IfOk result (λ e. (spelling e ≡ codes "failed" ∷ first.now ∷ second.now ∷ third.now ∷ [])
        × IsRowInRange e × IsInFormat One e) }
    ensures fault { IfErr result (IsFirstRowMisfit One slot.process slot.nothing slot.nothing first.now second.now third.now) }
{
    let p = process(first)?;
    nothing(second)?;
    nothing(third)?;
    Ok(Event::Failed { p })
}

fn parse_refused(first: &[u8], second: &[u8], third: &[u8]) -> Result<Event, RowFault>
    ensures found { IfOk result (λ e. (spelling e ≡ codes "refused" ∷ first.now ∷ second.now ∷ third.now ∷ [])
        × IsRowInRange e × IsInFormat One e) }
    ensures fault { IfErr result (IsFirstRowMisfit One slot.process slot.verb slot.cause first.now second.now third.now) }
{
    let p = process(first)?;
    let verb = verb(second)?;
    let cause = cause(third)?;
    Ok(Event::Refused { p, verb, cause })
}

// The word that a row begins with, which a text spells.
#[inline(always)]
fn word_of(text: &[u8]) -> Option<RowWord>
    ensures found { IfSome result (λ w. text.now ≡ row_word w) }
    ensures none { IfNone result ((w : row_words) → text.now ≢ row_word w) }
{
    if text == b"sent".as_slice() {
        return Some(RowWord::Sent);
    }
    if text == b"received".as_slice() {
        return Some(RowWord::Received);
    }
    if text == b"dropped".as_slice() {
        return Some(RowWord::Dropped);
    }
    if text == b"began".as_slice() {
        return Some(RowWord::Began);
    }
    if text == b"took".as_slice() {
        return Some(RowWord::Took);
    }
    if text == b"ready".as_slice() {
        return Some(RowWord::Ready);
    }
    if text == b"unwilling".as_slice() {
        return Some(RowWord::Unwilling);
    }
    if text == b"decided".as_slice() {
        return Some(RowWord::Decided);
    }
    if text == b"closed".as_slice() {
        return Some(RowWord::Closed);
    }
    if text == b"failed".as_slice() {
        return Some(RowWord::Failed);
    }
    if text == b"refused".as_slice() {
        return Some(RowWord::Refused);
    }
    None
}

/// The row that a word and three more fields spell, or what is first wrong in them: the word, then the others
/// in order.
#[inline(always)]
pub(crate) fn event_of(
    word: &[u8],
    first: &[u8],
    second: &[u8],
    third: &[u8],
    format: Format,
) -> Result<Event, RowFault>
    ensures found { IfOk result (λ e. (spelling e ≡ word.now ∷ first.now ∷ second.now ∷ third.now ∷ [])
        × IsRowInRange e × IsInFormat format e) }
    ensures fault { IfErr result (IsRowFieldFault format word.now first.now second.now third.now) }
{
    let Some(word) = word_of(word) else {
        return Err(RowFault::Word);
    };
    event_after(word, first, second, third, format)
}

// The row that begins with a word, or the first of the fields after it that is wrong.
#[inline(always)]
fn event_after(
    word: RowWord,
    first: &[u8],
    second: &[u8],
    third: &[u8],
    format: Format,
) -> Result<Event, RowFault>
    ensures found { IfOk result (λ e. (spelling e ≡ row_word word ∷ first.now ∷ second.now ∷ third.now ∷ [])
        × IsRowInRange e × IsInFormat format e) }
    ensures fault { IfErr result (IsRowFaultAfter format word first.now second.now third.now) }
{
    match word {
        RowWord::Sent => parse_sent(first, second, third),
        RowWord::Received => {
            let (p, from, msg) = parse_taken(first, second, third, format)?;
            Ok(Event::Received { p, from, msg })
        }
        RowWord::Dropped => {
            let (p, from, msg) = parse_taken(first, second, third, format)?;
            Ok(Event::Dropped { p, from, msg })
        }
        RowWord::Began => parse_began(first, second, third),
        RowWord::Took => {
            let (p, inst) = parse_joined(first, second, third)?;
            Ok(Event::Took { p, inst })
        }
        RowWord::Ready => {
            let (p, inst) = parse_joined(first, second, third)?;
            Ok(Event::Ready { p, inst })
        }
        RowWord::Unwilling => parse_unwilling(first, second, third),
        RowWord::Decided => parse_decided(first, second, third),
        RowWord::Closed => {
            let (p, inst) = parse_joined(first, second, third)?;
            Ok(Event::Closed { p, inst })
        }
        RowWord::Failed => parse_failed(first, second, third),
        RowWord::Refused => parse_refused(first, second, third),
    }
}
