//! The lines of instances.

ghost use Rattle.std.specs.Prelude.{◌≡◌, ◌≤◌, ◌∷◌, ◌++◌, [], ℕ, Some, length, IfOk, OnOk, OnErr};
ghost use Rattle.std.specs.List.{flat_map};
ghost use Rattle.kt_base.specs.Numbers.{IsInstNo};
ghost use Rattle.kt_text.specs.Writing.{Sends, WritesFront};
ghost use Rattle.kt_report.specs.Unwilling.{answer_line, answers_to, unwilling_of};
ghost use Rattle.kt_report.specs.Lines.{chain_words, ends_word, instance_line, instance_lines, member_line, message_word};

use crate::unwilling::Unwilling;
use crate::words::{end_line, name_text, push_word, put_cause, put_word};
use kt_base::{Cause, Memory, MsgNo, ProcNo};
use kt_plan::Names;
use kt_spacetime::{Certificate, Chain, Event};
use kt_text::WriteFault;
use kt_text::fields::{decision_text, kind_text};
use kt_text::lines::Line;
use kt_text::pieces::{push_number, write_full};
use std::alloc::Global;
use std::io::Write;

/// Writes or gathers the lines of every instance that has a certificate.
pub(crate) fn write_instances<W: Write>(
    alloc: Global,
    text: &mut Vec<u8>,
    names: &Names,
    rows: &[Event],
    unwilling: &Unwilling,
    certificates: &[Certificate],
    writer: &mut W,
) -> Result<(), WriteFault>
    requires { (inst : ℕ) → IsInstNo inst → answers_to unwilling.now inst ≡ unwilling_of inst rows.now }
    ensures sent { OnOk result (Sends (W.contents writer.old) (W.contents writer.new) text.old.items text.new.items (flat_map (instance_lines names.now rows.now) certificates.now)) }
    ensures stopped { OnErr result (WritesFront (W.contents writer.old) (W.contents writer.new)
        (text.old.items ++ flat_map (instance_lines names.now rows.now) certificates.now)) }
{
    let mut words = Vec::new(alloc);
    for certificate in certificates {
        write_instance(
            text,
            &mut words,
            names,
            rows,
            unwilling,
            certificate,
            writer,
        )?;
    }
    Ok(())
}

// Writes or gathers the lines of an instance. What is in the list of words before counts for nothing.
fn write_instance<W: Write>(
    text: &mut Vec<u8>,
    words: &mut Vec<u8>,
    names: &Names,
    rows: &[Event],
    unwilling: &Unwilling,
    certificate: &Certificate,
    writer: &mut W,
) -> Result<(), WriteFault>
    requires { (inst : ℕ) → IsInstNo inst → answers_to unwilling.now inst ≡ unwilling_of inst rows.now }
    ensures sent { OnOk result (Sends (W.contents writer.old) (W.contents writer.new) text.old.items text.new.items (instance_lines names.now rows.now certificate.now)) }
    ensures stopped { OnErr result (WritesFront (W.contents writer.old) (W.contents writer.new)
        (text.old.items ++ instance_lines names.now rows.now certificate.now)) }
{
    push_instance(text, names, certificate)?;
    if certificate.commit {
        write_members(text, words, names, rows, certificate, writer)
    } else {
        write_unwilling(text, names, unwilling.of(certificate.inst), writer)
    }
}

// The line of an instance.
fn push_instance(text: &mut Vec<u8>, names: &Names, certificate: &Certificate) -> Result<(), Memory>
    ensures { OnOk result (text.new.items ≡ text.old.items ++ instance_line names.now certificate.now) }
{
    text.extend_from_slice(b"instance")?;
    push_number(text, b' ', u32::from(certificate.inst.get()))?;
    push_word(text, kind_text(certificate.kind))?;
    push_word(text, name_text(names, certificate.initiator))?;
    push_word(text, decision_text(certificate.commit))?;
    end_line(text)
}

// Writes or gathers the lines of the members of an instance. What is in the list of words before counts for nothing.
fn write_members<W: Write>(
    text: &mut Vec<u8>,
    words: &mut Vec<u8>,
    names: &Names,
    rows: &[Event],
    certificate: &Certificate,
    writer: &mut W,
) -> Result<(), WriteFault>
    ensures sent { OnOk result (Sends (W.contents writer.old) (W.contents writer.new) text.old.items text.new.items (flat_map (member_line names.now rows.now) certificate.now.members)) }
    ensures stopped { OnErr result (WritesFront (W.contents writer.old) (W.contents writer.new)
        (text.old.items ++ flat_map (member_line names.now rows.now) certificate.now.members)) }
{
    words.clear();
    let mut told: &[MsgNo] = &[];
    for member in certificate.members.list() {
        told = push_member(text, words, told, names, rows, member)?;
        write_full(text, writer)?;
    }
    Ok(())
}

// The line of a member. The words are those of a chain that was told, and then of the one that is answered.
fn push_member<'a>(
    text: &mut Vec<u8>,
    words: &mut Vec<u8>,
    told: &'a [MsgNo],
    names: &Names,
    rows: &[Event],
    member: &'a (ProcNo, Chain),
) -> Result<&'a [MsgNo], Memory>
    requires { words.old.items ≡ chain_words names.now rows.now told.now }
    ensures line { OnOk result (text.new.items ≡ text.old.items ++ member_line names.now rows.now member.now) }
    ensures words { IfOk result (λ told. words.new.items ≡ chain_words names.now rows.now told.now) }
{
    let (process, chain) = member;
    text.extend_from_slice(b"member")?;
    push_word(text, name_text(names, *process))?;
    let told = push_chain(text, words, told, names, rows, chain.messages())?;
    end_line(text)?;
    Ok(told)
}

// The messages of a chain. The words are those of a chain that was told, and then of the one that is answered.
fn push_chain<'a>(
    text: &mut Vec<u8>,
    words: &mut Vec<u8>,
    told: &'a [MsgNo],
    names: &Names,
    rows: &[Event],
    chain: &'a [MsgNo],
) -> Result<&'a [MsgNo], Memory>
    requires { words.old.items ≡ chain_words names.now rows.now told.now }
    ensures chain { OnOk result (text.new.items ≡ text.old.items ++ chain_words names.now rows.now chain.now) }
    ensures words { IfOk result (λ told. words.new.items ≡ chain_words names.now rows.now told.now) }
{
    // Most chains have one message.
    if let [msg] = chain {
        push_message(text, names, rows, *msg)?;
        return Ok(told);
    }
    retell(words, told, names, rows, chain)?;
    text.extend_from_slice(words.as_slice())?;
    Ok(chain)
}

// Makes the words of a chain out of those of another one. Where it goes on from that one, as along a ring, only the
// messages that it has more are told.
fn retell(
    words: &mut Vec<u8>,
    told: &[MsgNo],
    names: &Names,
    rows: &[Event],
    chain: &[MsgNo],
) -> Result<(), Memory>
    requires { words.old.items ≡ chain_words names.now rows.now told.now }
    ensures { OnOk result (words.new.items ≡ chain_words names.now rows.now chain.now) }
{
    if chain.starts_with(told) {
        return push_messages(words, names, rows, &chain[told.len()..]);
    }
    words.clear();
    push_messages(words, names, rows, chain)
}

// Messages, with a blank before each.
fn push_messages(
    words: &mut Vec<u8>,
    names: &Names,
    rows: &[Event],
    messages: &[MsgNo],
) -> Result<(), Memory>
    ensures { OnOk result (words.new.items ≡ words.old.items ++ chain_words names.now rows.now messages.now) }
{
    for msg in messages {
        push_message(words, names, rows, *msg)?;
    }
    Ok(())
}

// A blank and a message of a chain: its number and between whom it went.
fn push_message(text: &mut Vec<u8>, names: &Names, rows: &[Event], msg: MsgNo) -> Result<(), Memory>
    ensures { OnOk result (text.new.items ≡ text.old.items ++ 32 ∷ message_word names.now rows.now msg) }
{
    let mut line = Line::new();
    if let Some(row) = rows.get(msg.index()) {
        put_ends(&mut line, names, *row);
    }
    line.put_decimal(msg.get());
    line.put_byte(b' ');
    line.push_to(text)
}

// Between whom a message went, if this row sent it.
#[inline(always)]
fn put_ends(line: &mut Line, names: &Names, row: Event)
    requires { line.old ≡ [] }
    ensures text { line.new ≡ ends_word names.now (Some row) }
    ensures length { length line.new ≤ 34 }
{
    match row {
        Event::Sent { p, to, .. } => put_pair(line, name_text(names, p), name_text(names, to)),
        _ => {}
    }
}

// The names of a sender and of a receiver.
#[inline(always)]
fn put_pair(line: &mut Line, sender: &[u8], receiver: &[u8])
    requires empty { line.old ≡ [] }
    requires short { (length sender.now ≤ 16) × (length receiver.now ≤ 16) }
    ensures text { line.new ≡ 58 ∷ (sender.now ++ 62 ∷ receiver.now) }
    ensures length { length line.new ≤ 34 }
{
    line.put(receiver);
    line.put_byte(b'>');
    line.put(sender);
    line.put_byte(b':');
}

// Writes or gathers the lines of those who were unwilling to join an instance.
fn write_unwilling<W: Write>(
    text: &mut Vec<u8>,
    names: &Names,
    unwilling: &[(ProcNo, Cause)],
    writer: &mut W,
) -> Result<(), WriteFault>
    ensures sent { OnOk result (Sends (W.contents writer.old) (W.contents writer.new) text.old.items text.new.items (flat_map (answer_line names.now) unwilling.now)) }
    ensures stopped { OnErr result (WritesFront (W.contents writer.old) (W.contents writer.new)
        (text.old.items ++ flat_map (answer_line names.now) unwilling.now)) }
{
    let mut line = Line::new();
    for answer in unwilling {
        push_unwilling(text, &mut line, names, *answer)?;
        write_full(text, writer)?;
    }
    Ok(())
}

// The line of one who was unwilling.
#[inline(always)]
fn push_unwilling(
    text: &mut Vec<u8>,
    line: &mut Line,
    names: &Names,
    answer: (ProcNo, Cause),
) -> Result<(), Memory>
    ensures { OnOk result (text.new.items ≡ text.old.items ++ answer_line names.now answer) }
{
    let (process, cause) = answer;
    line.clear();
    line.put_byte(b'\n');
    put_cause(line, cause);
    put_word(line, name_text(names, process));
    line.put(b"unwilling");
    line.push_to(text)
}
