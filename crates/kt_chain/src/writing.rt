//! Certificates written as text.

ghost use Rattle.std.specs.Prelude.{◌≡◌, ◌<◌, ◌≤◌, ◌+◌, [], ◌∷◌, ◌++◌, codes, drop, map, length, All, IfOk, OnOk, OnErr};
ghost use Rattle.std.specs.Io.KnownBytes.{Appends};
ghost use Rattle.std.specs.Fmt.{decimal};
ghost use Rattle.kt_text.specs.Writing.{Sends, WritesFront, joined, line_of, text_of};
ghost use Rattle.kt_chain.specs.Spelling.{Member, instance_record, member_record, certificate_records, records_of, chain_word, marked, HasShortChains};

use kt_base::{InstNo, Memory, MsgNo, ProcNo};
use kt_spacetime::{Certificate, Chain};
use kt_text::WriteFault;
use kt_text::fields::{decision_text, kind_text};
use kt_text::lines::Line;
use kt_text::pieces::{new_text, push_field, push_number, write_full, write_rest};
use std::alloc::Global;
use std::io::Write;

/// Writes certificates as text: for each a record `cert`, then a record `member` for each of its members, each ended
/// by a line feed. No chain may have more than 63 numbers.
///
/// The text goes out in pieces of some 32 KiB, whatever the number of certificates. After a fault, a front part of
/// it is written.
pub fn write_certs<W: Write>(
    alloc: Global,
    certificates: &[Certificate],
    writer: &mut W,
) -> Result<(), WriteFault>
    requires { All HasShortChains certificates.now }
    ensures written { OnOk result (Appends (W.contents writer.old) (W.contents writer.new) (text_of (records_of certificates.now))) }
    ensures stopped { OnErr result (WritesFront (W.contents writer.old) (W.contents writer.new)
        (text_of (records_of certificates.now))) }
{
    let mut text = new_text(alloc)?;
    let mut words = Vec::new(alloc);
    for certificate in certificates {
        write_certificate(&mut text, &mut words, certificate, writer)?;
    }
    write_rest(&mut text, writer)
}

// Writes or gathers the records of a certificate. What is in the list of words before counts for nothing.
fn write_certificate<W: Write>(
    text: &mut Vec<u8>,
    words: &mut Vec<u8>,
    certificate: &Certificate,
    writer: &mut W,
) -> Result<(), WriteFault>
    requires { HasShortChains certificate.now }
    ensures sent { OnOk result (Sends (W.contents writer.old) (W.contents writer.new) text.old.items text.new.items (text_of (certificate_records certificate.now))) }
    ensures stopped { OnErr result (WritesFront (W.contents writer.old) (W.contents writer.new)
        (text.old.items ++ text_of (certificate_records certificate.now))) }
{
    push_instance(text, certificate)?;
    words.clear();
    let mut told: &[MsgNo] = &[];
    for member in certificate.members.list() {
        write_full(text, writer)?;
        told = push_member(text, words, told, certificate.inst, member)?;
    }
    write_full(text, writer)
}

// The record of an instance.
fn push_instance(text: &mut Vec<u8>, certificate: &Certificate) -> Result<(), Memory>
    ensures { OnOk result (text.new.items ≡ text.old.items ++ line_of (instance_record certificate.now)) }
{
    text.extend_from_slice(b"cert")?;
    push_number(text, b',', u32::from(certificate.inst.get()))?;
    push_field(text, kind_text(certificate.kind))?;
    push_number(text, b',', u32::from(certificate.initiator.get()))?;
    push_field(text, decision_text(certificate.commit))?;
    text.push(b'\n')?;
    Ok(())
}

// The record of a member. The words are those of a chain that was told, and then of the one that is answered.
fn push_member<'a>(
    text: &mut Vec<u8>,
    words: &mut Vec<u8>,
    told: &'a [MsgNo],
    inst: InstNo,
    member: &'a (ProcNo, Chain),
) -> Result<&'a [MsgNo], Memory>
    requires few { length member.now.1 < 64 }
    requires words { words.old.items ≡ marked told.now }
    ensures record { OnOk result (text.new.items ≡ text.old.items ++ line_of (member_record inst member.now)) }
    ensures words { IfOk result (λ told. words.new.items ≡ marked told.now) }
{
    let (process, chain) = member;
    let messages = chain.messages();
    push_front(text, inst, *process, messages.len() as u32)?;
    let told = push_chain(text, words, told, messages)?;
    text.push(b'\n')?;
    Ok(told)
}

// What the record of a member says before its chain.
fn push_front(text: &mut Vec<u8>, inst: InstNo, process: ProcNo, count: u32) -> Result<(), Memory>
    ensures { OnOk result (text.new.items ≡ text.old.items
        ++ joined (codes "member" ∷ decimal inst ∷ decimal process ∷ decimal count ∷ [])) }
{
    let mut line = Line::new();
    put_number(&mut line, count);
    put_number(&mut line, u32::from(process.get()));
    put_number(&mut line, u32::from(inst.get()));
    line.put(b"member");
    line.push_to(text)
}

// A comma and a chain. The words are those of a chain that was told, and then of the one that is answered.
fn push_chain<'a>(
    text: &mut Vec<u8>,
    words: &mut Vec<u8>,
    told: &'a [MsgNo],
    messages: &'a [MsgNo],
) -> Result<&'a [MsgNo], Memory>
    requires { words.old.items ≡ marked told.now }
    ensures chain { OnOk result (text.new.items ≡ text.old.items ++ 44 ∷ chain_word messages.now) }
    ensures words { IfOk result (λ told. words.new.items ≡ marked told.now) }
{
    match messages {
        [] => {
            push_field(text, b"-")?;
            Ok(told)
        }
        // Most chains have one message.
        [msg] => {
            push_number(text, b',', msg.get())?;
            Ok(told)
        }
        _ => {
            retell(words, told, messages)?;
            push_field(text, unmarked(words.as_slice()))?;
            Ok(messages)
        }
    }
}

// Words without the mark before the first one.
fn unmarked(words: &[u8]) -> &[u8]
    requires { 1 ≤ length words.now }
    ensures { result.now ≡ drop 1 words.now }
{
    &words[1..]
}

// Makes the words of a chain out of those of another one. Where it goes on from that one, as along a ring, only the
// messages that it has more are spelled.
fn retell(words: &mut Vec<u8>, told: &[MsgNo], messages: &[MsgNo]) -> Result<(), Memory>
    requires { words.old.items ≡ marked told.now }
    ensures { OnOk result (words.new.items ≡ marked messages.now) }
{
    if messages.starts_with(told) {
        return push_marked(words, &messages[told.len()..]);
    }
    words.clear();
    push_marked(words, messages)
}

// The numbers of messages, with a mark before each.
fn push_marked(words: &mut Vec<u8>, messages: &[MsgNo]) -> Result<(), Memory>
    ensures { OnOk result (words.new.items ≡ words.old.items ++ marked messages.now) }
{
    for msg in messages {
        push_number(words, b'/', msg.get())?;
    }
    Ok(())
}

// A comma and a number.
#[inline(always)]
fn put_number(line: &mut Line, number: u32)
    requires { length line.old ≤ 53 }
    ensures text { line.new ≡ 44 ∷ (decimal number ++ line.old) }
    ensures length { length line.new ≤ length line.old + 11 }
{
    line.put_decimal(number);
    line.put_byte(b',');
}
