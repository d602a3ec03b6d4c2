//! Parts written as text.

ghost use Rattle.std.specs.Prelude.{◌≡◌, ◌+◌, ◌<◌, ◌^◌, [], ◌∷◌, ◌++◌, codes, length, map, OnOk, OnErr};
ghost use Rattle.std.specs.Fmt.{decimal, signed_decimal};
ghost use Rattle.std.specs.Io.KnownBytes.{Appends};
ghost use Rattle.kt_log_text.specs.Spelling.{verb_word};
ghost use Rattle.kt_text.specs.Writing.{joined, line_of, text_of, WritesFront};
ghost use Rattle.kt_merge.specs.Spelling.{name_word, instance_word, named_cause_word, fields_by, part_spelling};

use kt_base::{Memory, ProcNo, Verb};
use kt_spacetime::{ClockedRow, Count, InstName, NamedCause, NamedEvent};
use kt_text::WriteFault;
use kt_text::fields::{decision_text, kind_text};
use kt_text::pieces::{new_text, push_field, push_number, write_full, write_rest};
use std::alloc::Global;
use std::io::Write;

/// Writes the rows of a part: a record for each, ended by a line feed.
///
/// The text goes out in pieces of some 32 KiB, whatever the number of rows. After a fault, a front part of it
/// is written.
pub fn write_part<W: Write>(
    alloc: Global,
    rows: &[ClockedRow],
    writer: &mut W,
) -> Result<(), WriteFault>
    ensures written { OnOk result (Appends (W.contents writer.old) (W.contents writer.new)
        (text_of (map part_spelling rows.now))) }
    ensures stopped { OnErr result (WritesFront (W.contents writer.old) (W.contents writer.new)
        (text_of (map part_spelling rows.now))) }
{
    let mut text = new_text(alloc)?;
    for row in rows {
        push_row(&mut text, *row)?;
        write_full(&mut text, writer)?;
    }
    write_rest(&mut text, writer)
}

// Gathers a row's record.
fn push_row(text: &mut Vec<u8>, row: ClockedRow) -> Result<(), Memory>
    ensures { OnOk result (text.new.items ≡ text.old.items ++ line_of (part_spelling row)) }
{
    push_decimal(text, row.clock)?;
    text.extend_from_slice(b",")?;
    push_event(text, row.row.p, row.row.event)?;
    text.extend_from_slice(b"\n")?;
    Ok(())
}

// Gathers the fields after the clock.
fn push_event(text: &mut Vec<u8>, p: ProcNo, event: NamedEvent) -> Result<(), Memory>
    ensures { OnOk result (text.new.items ≡ text.old.items ++ joined (fields_by p event)) }
{
    match event {
        NamedEvent::Sent { to, body, label } => push_sent(text, p, to, body, label),
        NamedEvent::Received { from, label } => push_taken(text, b"received", p, from, label),
        NamedEvent::Dropped { from, label } => push_taken(text, b"dropped", p, from, label),
        NamedEvent::Began { inst, kind } => push_joined(text, b"began", p, inst, kind_text(kind)),
        NamedEvent::Took { inst } => push_joined(text, b"took", p, inst, b"-"),
        NamedEvent::Ready { inst } => push_joined(text, b"ready", p, inst, b"-"),
        NamedEvent::Unwilling { inst, cause } => push_unwilling(text, p, inst, cause),
        NamedEvent::Decided { inst, commit } => {
            push_joined(text, b"decided", p, inst, decision_text(commit))
        }
        NamedEvent::Closed { inst } => push_joined(text, b"closed", p, inst, b"-"),
        NamedEvent::Failed => push_failed(text, p),
        NamedEvent::Refused { verb, cause } => push_refused(text, p, verb, cause),
    }
}

fn push_sent(
    text: &mut Vec<u8>,
    p: ProcNo,
    to: ProcNo,
    body: i64,
    label: Count,
) -> Result<(), Memory>
    ensures { OnOk result (text.new.items ≡ text.old.items ++ joined (codes "sent" ∷ decimal p ∷ decimal to
        ∷ signed_decimal body ∷ name_word 109 (decimal p) label ∷ [])) }
{
    push_head(text, b"sent", p)?;
    push_number(text, b',', u32::from(to.get()))?;
    let mut digits = itoa::Buffer::new();
    push_field(text, digits.format(body).as_bytes())?;
    text.extend_from_slice(b",")?;
    push_name(text, b'm', p, label)
}

// A row that takes a message.
fn push_taken(
    text: &mut Vec<u8>,
    word: &[u8],
    p: ProcNo,
    from: ProcNo,
    label: Count,
) -> Result<(), Memory>
    ensures { OnOk result (text.new.items ≡ text.old.items ++ joined (word.now ∷ decimal p ∷ decimal from
        ∷ name_word 109 (decimal from) label ∷ codes "-" ∷ [])) }
{
    push_head(text, word, p)?;
    push_number(text, b',', u32::from(from.get()))?;
    text.extend_from_slice(b",")?;
    push_name(text, b'm', from, label)?;
    push_field(text, b"-")
}

// A row of an instance.
fn push_joined(
    text: &mut Vec<u8>,
    word: &[u8],
    p: ProcNo,
    inst: InstName,
    third: &[u8],
) -> Result<(), Memory>
    ensures { OnOk result (text.new.items ≡ text.old.items ++ joined (word.now ∷ decimal p ∷ instance_word inst
        ∷ third.now ∷ codes "-" ∷ [])) }
{
    push_head(text, word, p)?;
    text.extend_from_slice(b",")?;
    push_name(text, b'i', inst.initiator, inst.count)?;
    push_field(text, third)?;
    push_field(text, b"-")
}

fn push_unwilling(
    text: &mut Vec<u8>,
    p: ProcNo,
    inst: InstName,
    cause: NamedCause,
) -> Result<(), Memory>
    ensures { OnOk result (text.new.items ≡ text.old.items ++ joined (codes "unwilling" ∷ decimal p
        ∷ instance_word inst ∷ named_cause_word cause ∷ codes "-" ∷ [])) }
{
    push_head(text, b"unwilling", p)?;
    text.extend_from_slice(b",")?;
    push_name(text, b'i', inst.initiator, inst.count)?;
    push_cause(text, cause)?;
    push_field(text, b"-")
}

fn push_failed(text: &mut Vec<u8>, p: ProcNo) -> Result<(), Memory>
    ensures { OnOk result (text.new.items ≡ text.old.items ++ joined (codes "failed" ∷ decimal p ∷ codes "-"
        ∷ codes "-" ∷ codes "-" ∷ [])) }
{
    push_head(text, b"failed", p)?;
    text.extend_from_slice(b",-,-,-")?;
    Ok(())
}

fn push_refused(text: &mut Vec<u8>, p: ProcNo, verb: Verb, cause: NamedCause) -> Result<(), Memory>
    ensures { OnOk result (text.new.items ≡ text.old.items ++ joined (codes "refused" ∷ decimal p ∷ verb_word verb
        ∷ named_cause_word cause ∷ codes "-" ∷ [])) }
{
    push_head(text, b"refused", p)?;
    push_field(text, verb_text(verb))?;
    push_cause(text, cause)?;
    push_field(text, b"-")
}

// The word of a row and its process.
fn push_head(text: &mut Vec<u8>, word: &[u8], p: ProcNo) -> Result<(), Memory>
    ensures { OnOk result (text.new.items ≡ text.old.items ++ joined (word.now ∷ decimal p ∷ [])) }
{
    text.extend_from_slice(word)?;
    push_number(text, b',', u32::from(p.get()))
}

// A comma and a cause.
fn push_cause(text: &mut Vec<u8>, cause: NamedCause) -> Result<(), Memory>
    ensures { OnOk result (text.new.items ≡ text.old.items ++ 44 ∷ named_cause_word cause) }
{
    match cause {
        NamedCause::Busy(inst) => {
            text.extend_from_slice(b",busy-")?;
            push_name(text, b'i', inst.initiator, inst.count)
        }
        NamedCause::Down => push_field(text, b"down"),
        NamedCause::NoSave => push_field(text, b"nosave"),
    }
}

// A mark, a process, a dot and a count.
fn push_name(text: &mut Vec<u8>, mark: u8, p: ProcNo, count: Count) -> Result<(), Memory>
    ensures { OnOk result (text.new.items ≡ text.old.items ++ name_word mark (decimal p) count) }
{
    push_number(text, mark, u32::from(p.get()))?;
    text.extend_from_slice(b".")?;
    push_decimal(text, count.get())
}

fn push_decimal(text: &mut Vec<u8>, number: u64) -> Result<(), Memory>
    ensures { OnOk result (text.new.items ≡ text.old.items ++ decimal number) }
{
    let mut digits = itoa::Buffer::new();
    text.extend_from_slice(digits.format(number).as_bytes())?;
    Ok(())
}

fn verb_text(verb: Verb) -> &'static [u8]
    ensures { result.now ≡ verb_word verb }
{
    match verb {
        Verb::Send => b"send",
        Verb::Checkpoint => b"checkpoint",
        Verb::Rollback => b"rollback",
        Verb::Fail => b"fail",
    }
}
