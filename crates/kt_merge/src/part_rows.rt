//! What the six fields of a record say.

ghost use Rattle.std.specs.Prelude.{◌≡◌, ◌≢◌, ◌<◌, ◌≤◌, ◌^◌, ℕ, List, [], ◌∷◌, codes, FitsSigned, IfOk, IfErr, IfSome, IfNone};
ghost use Rattle.std.specs.Int.{w64};
ghost use Rattle.std.specs.Fmt.{decimal, signed_decimal};
ghost use Rattle.kt_base.specs.Numbers.{IsProcNo};
ghost use Rattle.kt_text.specs.Words.{kind_word, decision_word};
ghost use Rattle.kt_log_text.specs.Spelling.{verb_word};
ghost use Rattle.kt_spacetime.specs.Counts.{IsCount};
ghost use Rattle.kt_spacetime.specs.NamedRows.{IsInstNameInRange, IsNamedCauseInRange, IsNamedInRange};
ghost use Rattle.kt_merge.specs.declared.part_rows.EventWord.{EventWord as event_words};
ghost use Rattle.kt_merge.specs.PartSlot as slot;
ghost use Rattle.kt_merge.specs.Spelling.{event_word, name_word, instance_word, named_cause_word, event_spelling, part_spelling, IsFormed, IsPartMisfit, IsFirstPartMisfit, IsFaultAfterWord, IsFieldFault};
ghost use Rattle.kt_merge.specs.Texts.{fault_at_record};

use crate::names::{clock_of, instance_of, own_count};
use crate::part_fault::PartFault;
use kt_base::{Kind, ProcNo, Verb};
use kt_spacetime::{ClockedRow, Count, InstName, NamedCause, NamedEvent, NamedRow};
use kt_text::fields::{body_of, decision_of, kind_of, process_of};

/// The word that names what a row says.
#[derive(Clone, Copy)]
pub(crate) enum EventWord {
    Sent,
    Received,
    Dropped,
    Began,
    Took,
    Ready,
    Unwilling,
    Decided,
    Closed,
    Failed,
    Refused,
}

/// What is first wrong in the fields of a record.
#[derive(Clone, Copy)]
pub(crate) enum FieldFault {
    Word,
    Number,
}

impl FieldFault {
    /// The fault of a part whose record this is.
    pub(crate) fn at(self, number: u32) -> PartFault
        ensures { result ≡ fault_at_record self number }
    {
        match self {
            FieldFault::Word => PartFault::Word(number),
            FieldFault::Number => PartFault::Number(number),
        }
    }
}

#[inline(always)]
fn clock(text: &[u8]) -> Result<u64, FieldFault>
    ensures found { IfOk result (λ n. (n < 2 ^ 64) × (text.now ≡ decimal n)) }
    ensures fault { IfErr result (IsPartMisfit slot.clock text.now) }
{
    clock_of(text).ok_or(FieldFault::Number)
}

#[inline(always)]
fn process(text: &[u8]) -> Result<ProcNo, FieldFault>
    ensures found { IfOk result (λ p. IsProcNo p × (text.now ≡ decimal p)) }
    ensures fault { IfErr result (IsPartMisfit slot.process text.now) }
{
    process_of(text).ok_or(FieldFault::Number)
}

// A message of the process that a text spells.
#[inline(always)]
fn label(text: &[u8], process: &[u8]) -> Result<Count, FieldFault>
    ensures found { IfOk result (λ n. IsCount n × (text.now ≡ name_word 109 process.now n)) }
    ensures fault { IfErr result (IsPartMisfit (slot.message process.now) text.now) }
{
    own_count(text, b'm', process).ok_or(FieldFault::Number)
}

// An instance of the process that a text spells.
fn own_instance(text: &[u8], process: &[u8]) -> Result<Count, FieldFault>
    ensures found { IfOk result (λ n. IsCount n × (text.now ≡ name_word 105 process.now n)) }
    ensures fault { IfErr result (IsPartMisfit (slot.own_instance process.now) text.now) }
{
    own_count(text, b'i', process).ok_or(FieldFault::Number)
}

fn instance(text: &[u8]) -> Result<InstName, FieldFault>
    ensures found { IfOk result (λ i. IsInstNameInRange i × (text.now ≡ instance_word i)) }
    ensures fault { IfErr result (IsPartMisfit slot.instance text.now) }
{
    instance_of(text).ok_or(FieldFault::Number)
}

fn body(text: &[u8]) -> Result<i64, FieldFault>
    ensures found { IfOk result (λ z. FitsSigned w64 z × (text.now ≡ signed_decimal z)) }
    ensures fault { IfErr result (IsPartMisfit slot.body text.now) }
{
    body_of(text).ok_or(FieldFault::Number)
}

fn nothing(text: &[u8]) -> Result<(), FieldFault>
    ensures found { IfOk result (λ _. text.now ≡ codes "-") }
    ensures fault { IfErr result (IsPartMisfit slot.nothing text.now) }
{
    if text == b"-".as_slice() {
        Ok(())
    } else {
        Err(FieldFault::Word)
    }
}

fn kind(text: &[u8]) -> Result<Kind, FieldFault>
    ensures found { IfOk result (λ k. text.now ≡ kind_word k) }
    ensures fault { IfErr result (IsPartMisfit slot.kind text.now) }
{
    kind_of(text).ok_or(FieldFault::Word)
}

fn decision(text: &[u8]) -> Result<bool, FieldFault>
    ensures found { IfOk result (λ commit. text.now ≡ decision_word commit) }
    ensures fault { IfErr result (IsPartMisfit slot.decision text.now) }
{
    decision_of(text).ok_or(FieldFault::Word)
}

fn verb(text: &[u8]) -> Result<Verb, FieldFault>
    ensures found { IfOk result (λ v. text.now ≡ verb_word v) }
    ensures fault { IfErr result (IsPartMisfit slot.verb text.now) }
{
    if text == b"send".as_slice() {
        return Ok(Verb::Send);
    }
    if text == b"checkpoint".as_slice() {
        return Ok(Verb::Checkpoint);
    }
    if text == b"rollback".as_slice() {
        return Ok(Verb::Rollback);
    }
    if text == b"fail".as_slice() {
        return Ok(Verb::Fail);
    }
    Err(FieldFault::Word)
}

fn cause(text: &[u8]) -> Result<NamedCause, FieldFault>
    ensures found { IfOk result (λ c. IsNamedCauseInRange c × (text.now ≡ named_cause_word c)) }
    ensures fault { IfErr result (IsPartMisfit slot.cause text.now) }
{
    if text == b"down".as_slice() {
        return Ok(NamedCause::Down);
    }
    if text == b"nosave".as_slice() {
        return Ok(NamedCause::NoSave);
    }
    let Some(name) = text.strip_prefix(b"busy-".as_slice()) else {
        return Err(FieldFault::Word);
    };
    let Ok(inst) = instance(name) else {
        return Err(FieldFault::Number);
    };
    Ok(NamedCause::Busy(inst))
}

// The process of a row that a name of an instance follows, with nothing after it.
fn parse_joined(
    first: &[u8],
    second: &[u8],
    third: &[u8],
    last: &[u8],
) -> Result<(ProcNo, InstName), FieldFault>
    ensures found { IfOk result (λ r. IsProcNo r.0 × IsInstNameInRange r.1 × (first.now ≡ decimal r.0)
        × (second.now ≡ instance_word r.1) × (third.now ≡ codes "-") × (last.now ≡ codes "-")) }
    ensures fault { IfErr result (IsFirstPartMisfit slot.process slot.instance slot.nothing slot.nothing
        first.now second.now third.now last.now) }
{
    let p = process(first)?;
    let inst = instance(second)?;
    nothing(third)?;
    nothing(last)?;
    Ok((p, inst))
}

// The process, the sender and the label of a row that takes a message.
#[inline(always)]
fn parse_taken(
    first: &[u8],
    second: &[u8],
    third: &[u8],
    last: &[u8],
) -> Result<(ProcNo, ProcNo, Count), FieldFault>
    ensures found { IfOk result (λ r. IsProcNo r.0 × IsProcNo r.1 × IsCount r.2 × (first.now ≡ decimal r.0)
        × (second.now ≡ decimal r.1) × (third.now ≡ name_word 109 (decimal r.1) r.2) × (last.now ≡ codes "-")) }
    ensures fault { IfErr result (IsFirstPartMisfit slot.process slot.process (slot.message second.now) slot.nothing
        first.now second.now third.now last.now) }
{
    let p = process(first)?;
    let from = process(second)?;
    let label = label(third, second)?;
    nothing(last)?;
    Ok((p, from, label))
}

#[inline(always)]
fn parse_sent(
    first: &[u8],
    second: &[u8],
    third: &[u8],
    last: &[u8],
) -> Result<NamedRow, FieldFault>
    ensures found { IfOk result (λ r. (event_spelling r ≡ codes "sent" ∷ first.now ∷ second.now ∷ third.now ∷ last.now ∷ [])
        × IsFormed r) }
    ensures fault { IfErr result (IsFirstPartMisfit slot.process slot.process slot.body (slot.message first.now)
        first.now second.now third.now last.now) }
{
    let p = process(first)?;
    let to = process(second)?;
    let body = body(third)?;
    let label = label(last, first)?;
    Ok(NamedRow {
        p,
        event: NamedEvent::Sent { to, body, label },
    })
}

fn parse_began(
    first: &[u8],
    second: &[u8],
    third: &[u8],
    last: &[u8],
) -> Result<NamedRow, FieldFault>
    ensures found { IfOk result (λ r. (event_spelling r ≡ codes "began" ∷ first.now ∷ second.now ∷ third.now ∷ last.now ∷ [])
        × IsFormed r) }
    ensures fault { IfErr result (IsFirstPartMisfit slot.process (slot.own_instance first.now) slot.kind slot.nothing
        first.now second.now third.now last.now) }
{
    let p = process(first)?;
    let count = own_instance(second, first)?;
    let kind = kind(third)?;
    nothing(last)?;
    let inst = InstName {
        initiator: p,
        count,
    };
    Ok(NamedRow {
        p,
        event: NamedEvent::Began { inst, kind },
    })
}

fn parse_unwilling(
    first: &[u8],
    second: &[u8],
    third: &[u8],
    last: &[u8],
) -> Result<NamedRow, FieldFault>
    ensures found { IfOk result (λ r. (event_spelling r ≡ codes "unwilling" ∷ first.now ∷ second.now ∷ third.now ∷ last.now ∷ [])
        × IsFormed r) }
    ensures fault { IfErr result (IsFirstPartMisfit slot.process slot.instance slot.cause slot.nothing
        first.now second.now third.now last.now) }
{
    let p = process(first)?;
    let inst = instance(second)?;
    let cause = cause(third)?;
    nothing(last)?;
    Ok(NamedRow {
        p,
        event: NamedEvent::Unwilling { inst, cause },
    })
}

fn parse_decided(
    first: &[u8],
    second: &[u8],
    third: &[u8],
    last: &[u8],
) -> Result<NamedRow, FieldFault>
    ensures found { IfOk result (λ r. (event_spelling r ≡ codes "decided" ∷ first.now ∷ second.now ∷ third.now ∷ last.now ∷ [])
        × IsFormed r) }
    ensures fault { IfErr result (IsFirstPartMisfit slot.process (slot.own_instance first.now) slot.decision slot.nothing
        first.now second.now third.now last.now) }
{
    let p = process(first)?;
    let count = own_instance(second, first)?;
    let commit = decision(third)?;
    nothing(last)?;
    let inst = InstName {
        initiator: p,
        count,
    };
    Ok(NamedRow {
        p,
        event: NamedEvent::Decided { inst, commit },
    })
}

fn parse_failed(
    first: &[u8],
    second: &[u8],
    third: &[u8],
    last: &[u8],
) -> Result<NamedRow, FieldFault>
    ensures found { IfOk result (λ r. (event_spelling r ≡ codes "failed" ∷ first.now ∷ second.now ∷ third.now ∷ last.now ∷ [])
        × IsFormed r) }
    ensures fault { IfErr result (IsFirstPartMisfit slot.process slot.nothing slot.nothing slot.nothing
        first.now second.now third.now last.now) }
{
    let p = process(first)?;
    nothing(second)?;
    nothing(third)?;
    nothing(last)?;
    Ok(NamedRow {
        p,
        event: NamedEvent::Failed,
    })
}

fn parse_refused(
    first: &[u8],
    second: &[u8],
    third: &[u8],
    last: &[u8],
) -> Result<NamedRow, FieldFault>
    ensures found { IfOk result (λ r. (event_spelling r ≡ codes "refused" ∷ first.now ∷ second.now ∷ third.now ∷ last.now ∷ [])
        × IsFormed r) }
    ensures fault { IfErr result (IsFirstPartMisfit slot.process slot.verb slot.cause slot.nothing
        first.now second.now third.now last.now) }
{
    let p = process(first)?;
    let verb = verb(second)?;
    let cause = cause(third)?;
    nothing(last)?;
    Ok(NamedRow {
        p,
        event: NamedEvent::Refused { verb, cause },
    })
}

// The word that a text is, if it is one of a row.
#[inline(always)]
fn word_of(text: &[u8]) -> Option<EventWord>
    ensures found { IfSome result (λ w. text.now ≡ event_word w) }
    ensures none { IfNone result ((w : event_words) → text.now ≢ event_word w) }
{
    if text == b"sent".as_slice() {
        return Some(EventWord::Sent);
    }
    if text == b"received".as_slice() {
        return Some(EventWord::Received);
    }
    if text == b"dropped".as_slice() {
        return Some(EventWord::Dropped);
    }
    if text == b"began".as_slice() {
        return Some(EventWord::Began);
    }
    if text == b"took".as_slice() {
        return Some(EventWord::Took);
    }
    if text == b"ready".as_slice() {
        return Some(EventWord::Ready);
    }
    if text == b"unwilling".as_slice() {
        return Some(EventWord::Unwilling);
    }
    if text == b"decided".as_slice() {
        return Some(EventWord::Decided);
    }
    if text == b"closed".as_slice() {
        return Some(EventWord::Closed);
    }
    if text == b"failed".as_slice() {
        return Some(EventWord::Failed);
    }
    if text == b"refused".as_slice() {
        return Some(EventWord::Refused);
    }
    None
}

// The row that begins with a word, or the first of the fields after it that is wrong.
#[inline(always)]
fn row_after(
    word: EventWord,
    first: &[u8],
    second: &[u8],
    third: &[u8],
    last: &[u8],
) -> Result<NamedRow, FieldFault>
    ensures found { IfOk result (λ r. (event_spelling r ≡ event_word word ∷ first.now ∷ second.now ∷ third.now ∷ last.now ∷ [])
        × IsFormed r) }
    ensures fault { IfErr result (IsFaultAfterWord word first.now second.now third.now last.now) }
{
    match word {
        EventWord::Sent => parse_sent(first, second, third, last),
        EventWord::Received => {
            let (p, from, label) = parse_taken(first, second, third, last)?;
            let event = NamedEvent::Received { from, label };
            Ok(NamedRow { p, event })
        }
        EventWord::Dropped => {
            let (p, from, label) = parse_taken(first, second, third, last)?;
            let event = NamedEvent::Dropped { from, label };
            Ok(NamedRow { p, event })
        }
        EventWord::Began => parse_began(first, second, third, last),
        EventWord::Took => {
            let (p, inst) = parse_joined(first, second, third, last)?;
            let event = NamedEvent::Took { inst };
            Ok(NamedRow { p, event })
        }
        EventWord::Ready => {
            let (p, inst) = parse_joined(first, second, third, last)?;
            let event = NamedEvent::Ready { inst };
            Ok(NamedRow { p, event })
        }
        EventWord::Unwilling => parse_unwilling(first, second, third, last),
        EventWord::Decided => parse_decided(first, second, third, last),
        EventWord::Closed => {
            let (p, inst) = parse_joined(first, second, third, last)?;
            let event = NamedEvent::Closed { inst };
            Ok(NamedRow { p, event })
        }
        EventWord::Failed => parse_failed(first, second, third, last),
        EventWord::Refused => parse_refused(first, second, third, last),
    }
}

/// The row that a clock, a word and four more fields spell, or what is first wrong in them, field by field.
#[inline(always)]
pub(crate) fn row_of(
    time: &[u8],
    word: &[u8],
    first: &[u8],
    second: &[u8],
    third: &[u8],
    last: &[u8],
) -> Result<ClockedRow, FieldFault>
    ensures found { IfOk result (λ r. (part_spelling r
        ≡ time.now ∷ word.now ∷ first.now ∷ second.now ∷ third.now ∷ last.now ∷ [])
        × (r.clock < 2 ^ 64) × IsFormed r.row) }
    ensures fault { IfErr result (IsFieldFault time.now word.now first.now second.now third.now last.now) }
{
    let clock = clock(time)?;
    let Some(word) = word_of(word) else {
        return Err(FieldFault::Word);
    };
    let row = row_after(word, first, second, third, last)?;
    Ok(ClockedRow { clock, row })
}
