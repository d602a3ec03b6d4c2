//! Records of a certificate text: an instance, or a member of the last one.

ghost use Rattle.std.specs.Prelude.{◌≡◌, ◌≢◌, ◌⊎◌, ◌≤◌, ◌==◌, ℕ, List, [], ◌∷◌, ◌++◌, codes, length, map, All, IfOk, IfErr, OnOk, IfSome, IfNone};
ghost use Rattle.std.specs.List.{slice_split};
ghost use Rattle.std.specs.Fmt.{decimal};
ghost use Rattle.csv.specs.Records.{fields_of};
ghost use Rattle.kt_base.specs.Numbers.{IsProcNo, IsMsgNo, IsInstNo};
ghost use Rattle.kt_text.specs.Words.{kind_word, decision_word};
ghost use Rattle.kt_chain.specs.Spelling.{IsCertificateWithin, IsMemberInRange, instance_record, member_record, chain_word, most_messages};
ghost use Rattle.kt_chain.specs.Texts.{IsCertificateMisfit, IsInstanceMisfit, IsMemberFault, IsOtherInstance, IsCertificateFieldFault, IsRecordFault, fault_at};
ghost use Rattle.kt_chain.specs.Texts as slot;
ghost use Rattle.kt_chain.specs.declared.records.RecordFault.TheVariants as fault;
ghost use Rattle.kt_chain.specs.Reading.{IsIfFew, OrMemory, CertificateTaken};

use crate::fault::CertTextFault;
use csv::ByteRecord;
use kt_base::{InstNo, Kind, Memory, ProcNo};
use kt_spacetime::{Certificate, Chain, Members};
use kt_text::fields::{decision_of, instance_of, kind_of, message_of, number_of, process_of};
use std::alloc::{AllocFailed, Global};

/// The greatest length of a chain.
const MAX_MESSAGES: u32 = 63;

/// What is first wrong in a record.
#[derive(Clone, Copy)]
pub(crate) enum RecordFault {
    Fields,
    Word,
    Number,
    Place,
    Memory,
}

impl RecordFault {
    /// The fault of a text whose record this is.
    pub(crate) fn at(self, number: u32) -> CertTextFault
        ensures { result ≡ fault_at self number }
    {
        match self {
            RecordFault::Fields => CertTextFault::Fields(number),
            RecordFault::Word => CertTextFault::Word(number),
            RecordFault::Number => CertTextFault::Number(number),
            RecordFault::Place => CertTextFault::Place(number),
            RecordFault::Memory => CertTextFault::Memory,
        }
    }
}

impl From<Memory> for RecordFault {
    ghost from_gives = { λ _ f. f ≡ fault.Memory };

    fn from(_fault: Memory) -> RecordFault {
        RecordFault::Memory
    }
}

impl<T: Drop> From<AllocFailed<T>> for RecordFault {
    ghost from_gives = { λ _ f. f ≡ fault.Memory };

    fn from(_fault: AllocFailed<T>) -> RecordFault {
        RecordFault::Memory
    }
}

// The five fields of a record.
fn five_fields(current: &ByteRecord) -> Option<(&[u8], &[u8], &[u8], &[u8], &[u8])>
    ensures found { IfSome result (λ f. fields_of current.now ≡ f.0.now ∷ f.1.now ∷ f.2.now ∷ f.3.now ∷ f.4.now ∷ []) }
    ensures none { IfNone result (length (fields_of current.now) ≢ 5) }
{
    if current.len() != 5 {
        return None;
    }
    let word = current.get(0)?;
    let first = current.get(1)?;
    let second = current.get(2)?;
    let third = current.get(3)?;
    let fourth = current.get(4)?;
    Some((word, first, second, third, fourth))
}

fn instance(text: &[u8]) -> Result<InstNo, RecordFault>
    ensures found { IfOk result (λ k. IsInstNo k × (text.now ≡ decimal k)) }
    ensures fault { IfErr result (IsCertificateMisfit slot.instance text.now) }
{
    instance_of(text).ok_or(RecordFault::Number)
}

fn process(text: &[u8]) -> Result<ProcNo, RecordFault>
    ensures found { IfOk result (λ p. IsProcNo p × (text.now ≡ decimal p)) }
    ensures fault { IfErr result (IsCertificateMisfit slot.process text.now) }
{
    process_of(text).ok_or(RecordFault::Number)
}

fn kind(text: &[u8]) -> Result<Kind, RecordFault>
    ensures found { IfOk result (λ k. text.now ≡ kind_word k) }
    ensures fault { IfErr result (IsCertificateMisfit slot.kind text.now) }
{
    kind_of(text).ok_or(RecordFault::Word)
}

fn decision(text: &[u8]) -> Result<bool, RecordFault>
    ensures found { IfOk result (λ commit. text.now ≡ decision_word commit) }
    ensures fault { IfErr result (IsCertificateMisfit slot.decision text.now) }
{
    decision_of(text).ok_or(RecordFault::Word)
}

// How many messages a member's record says that its chain has.
fn count(text: &[u8]) -> Result<u32, RecordFault>
    ensures found { IfOk result (λ n. (n ≤ most_messages) × (text.now ≡ decimal n)) }
    ensures fault { IfErr result (IsCertificateMisfit slot.count text.now) }
{
    let Some(number) = number_of(text) else {
        return Err(RecordFault::Number);
    };
    if number > MAX_MESSAGES {
        return Err(RecordFault::Number);
    }
    Ok(number)
}

// The messages that the parts of a text between one `/` and the next spell, one each: none where they are more than a
// chain may have. Every part is looked at, and no message past the greatest length is kept. There is room for `count`
// messages from the start.
fn messages_of(alloc: Global, text: &[u8], count: u32) -> Result<Option<Chain>, RecordFault>
    ensures found { IfOk result (λ read. (messages : List ℕ) × All IsMsgNo messages
        × (map decimal messages ≡ slice_split (λ byte. byte == 47) text.now) × IsIfFew messages read) }
    ensures fault { IfErr result (λ f. OrMemory f ((f ≡ RecordFault.Number)
        × ((messages : List ℕ) → All IsMsgNo messages
        → map decimal messages ≢ slice_split (λ byte. byte == 47) text.now))) }
{
    let mut chain = Chain::with_capacity(alloc, count)?;
    let mut is_long = false;
    for part in text.split(|byte| *byte == b'/') {
        let Some(msg) = message_of(part) else {
            return Err(RecordFault::Number);
        };
        if chain.messages().len() < MAX_MESSAGES as usize {
            chain.push(msg)?;
        } else {
            is_long = true;
        }
    }
    Ok(if is_long { None } else { Some(chain) })
}

// The messages of a chain, joined by `/`, or `-` for none: none also where they are more than a chain may have. There
// is room for `count` messages from the start.
fn chain(alloc: Global, text: &[u8], count: u32) -> Result<Option<Chain>, RecordFault>
    ensures found { IfOk result (λ read. (messages : List ℕ) × All IsMsgNo messages
        × (text.now ≡ chain_word messages) × IsIfFew messages read) }
    ensures fault { IfErr result (λ f. OrMemory f (IsCertificateMisfit slot.chain text.now f)) }
{
    if text == b"-".as_slice() {
        return Ok(Some(Chain::new(alloc)));
    }
    messages_of(alloc, text, count)
}

// The certificate of an instance, before any member.
fn certificate(
    alloc: Global,
    first: &[u8],
    second: &[u8],
    third: &[u8],
    fourth: &[u8],
) -> Result<Certificate, RecordFault>
    ensures spelled { IfOk result (λ c. instance_record c ≡ codes "cert" ∷ first.now ∷ second.now ∷ third.now ∷ fourth.now ∷ []) }
    ensures in_range { IfOk result IsCertificateWithin }
    ensures members { IfOk result (λ c. c.members ≡ []) }
    ensures fault { IfErr result (IsInstanceMisfit first.now second.now third.now fourth.now) }
{
    let inst = instance(first)?;
    let kind = kind(second)?;
    let initiator = process(third)?;
    let commit = decision(fourth)?;
    Ok(Certificate {
        inst,
        kind,
        initiator,
        commit,
        members: Members::new(alloc),
    })
}

// Adds a member to the last certificate, if that is of this instance.
fn place(
    certificates: &mut Vec<Certificate>,
    inst: InstNo,
    process: ProcNo,
    chain: Chain,
) -> Result<(), RecordFault>
    ensures placed { OnOk result (IsMemberInRange (process, chain)
        → CertificateTaken certificates.old.items certificates.new.items (member_record inst (process, chain))) }
    ensures fault { IfErr result (λ f. OrMemory f ((f ≡ RecordFault.Place)
        × ((certificates.old.items ≡ []) ⊎ IsOtherInstance certificates.old.items (decimal inst)))) }
{
    let Some(mut last) = certificates.pop() else {
        return Err(RecordFault::Place);
    };
    if last.inst.get() != inst.get() {
        return Err(RecordFault::Place);
    }
    last.members.push(process, chain)?;
    certificates.push(last)?;
    Ok(())
}

// Takes the fields after the word of a record of an instance: a certificate with no member yet.
fn take_instance(
    alloc: Global,
    certificates: &mut Vec<Certificate>,
    first: &[u8],
    second: &[u8],
    third: &[u8],
    fourth: &[u8],
) -> Result<(), RecordFault>
    ensures taken { OnOk result (CertificateTaken certificates.old.items certificates.new.items (codes "cert" ∷ first.now ∷ second.now ∷ third.now ∷ fourth.now ∷ [])) }
    ensures fault { IfErr result (λ f. OrMemory f (IsInstanceMisfit first.now second.now third.now fourth.now f)) }
{
    let certificate = certificate(alloc, first, second, third, fourth)?;
    certificates.push(certificate)?;
    Ok(())
}

// Takes the fields after the word of a member's record: one more member of the last certificate.
fn take_member(
    alloc: Global,
    certificates: &mut Vec<Certificate>,
    first: &[u8],
    second: &[u8],
    third: &[u8],
    fourth: &[u8],
) -> Result<(), RecordFault>
    ensures taken { OnOk result (CertificateTaken certificates.old.items certificates.new.items (codes "member" ∷ first.now ∷ second.now ∷ third.now ∷ fourth.now ∷ [])) }
    ensures fault { IfErr result (λ f. OrMemory f (IsMemberFault certificates.old.items first.now second.now third.now fourth.now f)) }
{
    let inst = instance(first)?;
    let process = process(second)?;
    let count = count(third)?;
    let Some(chain) = chain(alloc, fourth, count)? else {
        return Err(RecordFault::Place);
    };
    if chain.messages().len() != count as usize {
        return Err(RecordFault::Place);
    }
    place(certificates, inst, process, chain)
}

// Takes the word of a record and the fields after it.
fn take_fields(
    alloc: Global,
    certificates: &mut Vec<Certificate>,
    word: &[u8],
    first: &[u8],
    second: &[u8],
    third: &[u8],
    fourth: &[u8],
) -> Result<(), RecordFault>
    ensures taken { OnOk result (CertificateTaken certificates.old.items certificates.new.items (word.now ∷ first.now ∷ second.now ∷ third.now ∷ fourth.now ∷ [])) }
    ensures fault { IfErr result (λ f. OrMemory f (IsCertificateFieldFault certificates.old.items word.now first.now second.now third.now fourth.now f)) }
{
    if word == b"cert".as_slice() {
        return take_instance(alloc, certificates, first, second, third, fourth);
    }
    if word == b"member".as_slice() {
        return take_member(alloc, certificates, first, second, third, fourth);
    }
    Err(RecordFault::Word)
}

/// Takes a record: a certificate, or a member of the last one.
pub(crate) fn take_record(
    alloc: Global,
    certificates: &mut Vec<Certificate>,
    current: &ByteRecord,
) -> Result<(), RecordFault>
    ensures taken { OnOk result (CertificateTaken certificates.old.items certificates.new.items (fields_of current.now)) }
    ensures fault { IfErr result (IsRecordFault certificates.old.items (fields_of current.now)) }
{
    let Some((word, first, second, third, fourth)) = five_fields(current) else {
        return Err(RecordFault::Fields);
    };
    take_fields(alloc, certificates, word, first, second, third, fourth)
}
