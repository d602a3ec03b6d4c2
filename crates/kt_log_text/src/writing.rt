//! Logs written as text.

ghost use Rattle.std.specs.Prelude.{◌≡◌, ◌≤◌, ◌<◌, ◌+◌, [], ◌∷◌, ◌++◌, codes, length, map, OnOk, OnErr};
ghost use Rattle.std.specs.Fmt.{decimal, signed_decimal};
ghost use Rattle.std.specs.Io.KnownBytes.{Appends};
ghost use Rattle.kt_base.specs.declared.words.Cause.TheVariants.{Busy};
ghost use Rattle.kt_log_text.specs.Spelling.{spelling, verb_word, cause_word};
ghost use Rattle.kt_log_text.specs.Texts.{header};
ghost use Rattle.kt_text.specs.Writing.{joined, line_of, text_of, WritesFront};

use kt_base::{Cause, InstNo, Memory, MsgNo, ProcNo, Verb};
use kt_spacetime::{Event, SpaceTime};
use kt_text::WriteFault;
use kt_text::fields::{decision_text, kind_text};
use kt_text::lines::Line;
use kt_text::pieces::{new_text, write_full, write_rest};
use std::alloc::Global;
use std::io::Write;

/// Writes a log as a text of format 2: the record `kt,2,-,-` and a record for each row, each ended by a line feed.
///
/// The text goes out in pieces of some 32 KiB, whatever the number of rows. After a fault, a front part of it
/// is written.
pub fn write_csv<W: Write>(alloc: Global, log: &SpaceTime, writer: &mut W) -> Result<(), WriteFault>
    ensures written { OnOk result (Appends (W.contents writer.old) (W.contents writer.new) (text_of (header ∷ map spelling log.now.rows))) }
    ensures stopped { OnErr result (WritesFront (W.contents writer.old) (W.contents writer.new)
        (text_of (header ∷ map spelling log.now.rows))) }
{
    let mut text = new_text(alloc)?;
    push_header(&mut text)?;
    let mut line = Line::new();
    let rows = log.rows();
    for row in rows {
        push_row(&mut text, &mut line, *row)?;
        write_full(&mut text, writer)?;
    }
    write_rest(&mut text, writer)
}

fn push_header(text: &mut Vec<u8>) -> Result<(), Memory>
    ensures { OnOk result (text.new.items ≡ text.old.items ++ line_of header) }
{
    text.extend_from_slice(b"kt,2,-,-\n")?;
    Ok(())
}

fn push_row(text: &mut Vec<u8>, line: &mut Line, row: Event) -> Result<(), Memory>
    ensures { OnOk result (text.new.items ≡ text.old.items ++ line_of (spelling row)) }
{
    line.clear();
    line.put_byte(b'\n');
    put_fields(line, row);
    line.push_to(text)
}

/// Gathers the fields of a row, joined by commas, as a text of format 2 spells them, without the end of its line.
pub fn push_fields(text: &mut Vec<u8>, row: Event) -> Result<(), Memory>
    ensures { OnOk result (text.new.items ≡ text.old.items ++ joined (spelling row)) }
{
    let mut line = Line::new();
    put_fields(&mut line, row);
    line.push_to(text)
}

// Puts the fields of a row before the end of its line.
#[inline(always)]
fn put_fields(line: &mut Line, row: Event)
    requires { length line.old ≤ 1 }
    ensures { line.new ≡ joined (spelling row) ++ line.old }
{
    match row {
        Event::Sent { p, to, body } => put_sent(line, p, to, body),
        Event::Received { p, from, msg } => {
            put_taken(line, p, from, msg);
            line.put(b"received");
        }
        Event::Dropped { p, from, msg } => {
            put_taken(line, p, from, msg);
            line.put(b"dropped");
        }
        Event::Began { p, inst, kind } => {
            put_joined(line, p, inst, kind_text(kind));
            line.put(b"began");
        }
        Event::Took { p, inst } => {
            put_joined(line, p, inst, b"-");
            line.put(b"took");
        }
        Event::Ready { p, inst } => {
            put_joined(line, p, inst, b"-");
            line.put(b"ready");
        }
        Event::Unwilling { p, inst, cause } => put_unwilling(line, p, inst, cause),
        Event::Decided { p, inst, commit } => {
            put_joined(line, p, inst, decision_text(commit));
            line.put(b"decided");
        }
        Event::Closed { p, inst } => {
            put_joined(line, p, inst, b"-");
            line.put(b"closed");
        }
        Event::Failed { p } => put_failed(line, p),
        Event::Refused { p, verb, cause } => put_refused(line, p, verb, cause),
    }
}

#[inline(always)]
fn put_sent(line: &mut Line, p: ProcNo, to: ProcNo, body: i64)
    requires { length line.old ≤ 1 }
    ensures { line.new ≡ joined (codes "sent" ∷ decimal p ∷ decimal to ∷ signed_decimal body ∷ []) ++ line.old }
{
    let mut digits = itoa::Buffer::new();
    put_field(line, digits.format(body).as_bytes());
    put_number(line, u32::from(to.get()));
    put_process(line, b"sent", p);
}

// What follows the word of a row that takes a message.
#[inline(always)]
fn put_taken(line: &mut Line, p: ProcNo, from: ProcNo, msg: MsgNo)
    requires { length line.old ≤ 1 }
    ensures text { line.new ≡ 44 ∷ (joined (decimal p ∷ decimal from ∷ decimal msg ∷ []) ++ line.old) }
    ensures length { length line.new ≤ 34 }
{
    put_number(line, msg.get());
    put_number(line, u32::from(from.get()));
    put_number(line, u32::from(p.get()));
}

// What follows the word of a row of an instance.
#[inline(always)]
fn put_joined(line: &mut Line, p: ProcNo, inst: InstNo, third: &[u8])
    requires empty { length line.old ≤ 1 }
    requires short { length third.now ≤ 10 }
    ensures text { line.new ≡ 44 ∷ (joined (decimal p ∷ decimal inst ∷ third.now ∷ []) ++ line.old) }
    ensures length { length line.new ≤ 34 }
{
    put_field(line, third);
    put_number(line, u32::from(inst.get()));
    put_number(line, u32::from(p.get()));
}

fn put_failed(line: &mut Line, p: ProcNo)
    requires { length line.old ≤ 1 }
    ensures { line.new ≡ joined (codes "failed" ∷ decimal p ∷ codes "-" ∷ codes "-" ∷ []) ++ line.old }
{
    put_field(line, b"-");
    put_field(line, b"-");
    put_process(line, b"failed", p);
}

#[inline(always)]
fn put_unwilling(line: &mut Line, p: ProcNo, inst: InstNo, cause: Cause)
    requires { length line.old ≤ 1 }
    ensures { line.new ≡ joined (codes "unwilling" ∷ decimal p ∷ decimal inst ∷ cause_word cause ∷ []) ++ line.old }
{
    put_cause(line, cause);
    put_number(line, u32::from(inst.get()));
    put_process(line, b"unwilling", p);
}

fn put_refused(line: &mut Line, p: ProcNo, verb: Verb, cause: Cause)
    requires { length line.old ≤ 1 }
    ensures { line.new ≡ joined (codes "refused" ∷ decimal p ∷ verb_word verb ∷ cause_word cause ∷ []) ++ line.old }
{
    put_cause(line, cause);
    put_field(line, verb_text(verb));
    put_process(line, b"refused", p);
}

// The first two of four fields.
#[inline(always)]
fn put_process(line: &mut Line, word: &[u8], p: ProcNo)
    requires { length word.now + length line.old ≤ 53 }
    ensures { line.new ≡ joined (word.now ∷ decimal p ∷ []) ++ line.old }
{
    put_number(line, u32::from(p.get()));
    line.put(word);
}

// A comma and a number.
#[inline(always)]
fn put_number(line: &mut Line, number: u32)
    requires { length line.old ≤ 53 }
    ensures text { line.new ≡ 44 ∷ (decimal number ++ line.old) }
    ensures length { length line.new ≤ length line.old + 11 }
{
    put_digits(line, number);
    line.put_byte(b',');
}

// The digits of a number; most are below 100, and are put without a call.
#[inline(always)]
fn put_digits(line: &mut Line, number: u32)
    requires { length line.old ≤ 53 }
    ensures text { line.new ≡ decimal number ++ line.old }
    ensures length { length line.new ≤ length line.old + 10 }
{
    if number < 10 {
        line.put_byte(b'0' + number as u8);
    } else if number < 100 {
        put_two_digits(line, number as u8);
    } else {
        line.put_decimal(number);
    }
}

// The digits of a number of two digits.
#[inline(always)]
fn put_two_digits(line: &mut Line, number: u8)
    requires short { length line.old ≤ 53 }
    requires two { (10 ≤ number) × (number < 100) }
    ensures text { line.new ≡ decimal number ++ line.old }
    ensures length { length line.new ≡ length line.old + 2 }
{
    line.put_byte(b'0' + number % 10);
    line.put_byte(b'0' + number / 10);
}

// A comma and a field.
#[inline(always)]
fn put_field(line: &mut Line, field: &[u8])
    requires { length field.now + length line.old ≤ 63 }
    ensures text { line.new ≡ 44 ∷ (field.now ++ line.old) }
    ensures length { length line.new ≡ length field.now + length line.old + 1 }
{
    line.put(field);
    line.put_byte(b',');
}

// A comma and a cause.
#[inline(always)]
fn put_cause(line: &mut Line, cause: Cause)
    requires { length line.old ≤ 1 }
    ensures text { line.new ≡ 44 ∷ (cause_word cause ++ line.old) }
    ensures length { length line.new ≤ 17 }
{
    match cause {
        Cause::Busy(inst) => put_busy(line, inst),
        Cause::Down => put_field(line, b"down"),
        Cause::NoSave => put_field(line, b"nosave"),
    }
}

// A comma and the cause of a process that is in another instance.
fn put_busy(line: &mut Line, inst: InstNo)
    requires { length line.old ≤ 1 }
    ensures text { line.new ≡ 44 ∷ (cause_word (Busy inst) ++ line.old) }
    ensures length { length line.new ≤ 17 }
{
    line.put_decimal(u32::from(inst.get()));
    put_field(line, b"busy-");
}

fn verb_text(verb: Verb) -> &'static [u8]
    ensures word { result.now ≡ verb_word verb }
    ensures short { length result.now ≤ 10 }
{
    match verb {
        Verb::Send => b"send",
        Verb::Checkpoint => b"checkpoint",
        Verb::Rollback => b"rollback",
        Verb::Fail => b"fail",
    }
}
