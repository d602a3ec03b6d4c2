//! The words of a picture: names, the texts of rows, why a member took part, what stands beside marks, and what is said below.

ghost use Rattle.std.specs.Prelude.{◌≡◌, ◌++◌, IfOk, OnOk, string_bytes};
ghost use Rattle.kt_log_text.specs.Spelling.{spelling};
ghost use Rattle.kt_text.specs.Writing.{joined};
ghost use Rattle.kt_picture.specs.BrokenRow.{caption_of};
ghost use Rattle.kt_picture.specs.Evidence.{chain_for, chain_of, chain_word, ends_of_message};
ghost use Rattle.kt_picture.specs.Pages.{reason_in};
ghost use Rattle.kt_picture.specs.Texts.{drawn, name_text, rule_name, say_class, say_shift};

use crate::rows::Page;
use crate::window::BrokenRow;
use kt_base::{Cause, InstNo, Kind, Memory, MsgNo, ProcNo};
use kt_log_text::push_fields;
use kt_plan::Names;
use kt_spacetime::{Certificate, Event, Rule};
use std::alloc::Global;
use std::fmt;
use std::fmt::Write;

/// Gathers the name of a process, or its number where it has none. A name has no letter that is read as a mark.
pub(crate) fn push_name(text: &mut String, names: &Names, p: ProcNo) -> Result<(), Memory>
    ensures { OnOk result (string_bytes text.new ≡ string_bytes text.old ++ name_text names.now p) }
{
    match names.list().get(p.index()) {
        Some(name) => Ok(write!(text, "{name}")?),
        None => Ok(write!(text, "{p}")?),
    }
}

/// The fields of a row, as a log spells them.
pub(crate) fn fields_of(alloc: Global, row: Event) -> Result<String, Memory>
    ensures { IfOk result (λ t. string_bytes t ≡ joined (spelling row)) }
{
    let mut fields = Vec::new(alloc);
    push_fields(&mut fields, row)?;
    String::from_utf8(fields).or(Err(Memory))
}

/// Gathers why a process took part that joins an instance by a row.
pub(crate) fn push_reason(text: &mut String, page: &Page<'_>, row: Event) -> Result<(), Memory>
    ensures { OnOk result (string_bytes text.new ≡ string_bytes text.old ++ reason_in page.now row) }
{
    let chain = chain_of(page.certificates, row);
    if chain.is_empty() {
        return Ok(());
    }
    write!(text, "; took part because of")?;
    for msg in chain {
        push_link(text, page, *msg)?;
    }
    Ok(())
}

// The chain by which a process joins an instance in a row, as certificates list it.
fn chain_of(certificates: &[Certificate], row: Event) -> &[MsgNo]
    ensures { result.now ≡ chain_of certificates.now row }
{
    match row {
        Event::Took { p, inst } | Event::Ready { p, inst } => chain_for(certificates, inst, p),
        _ => &[],
    }
}

// The chain that the first certificate of an instance lists for a process.
fn chain_for(certificates: &[Certificate], inst: InstNo, p: ProcNo) -> &[MsgNo]
    ensures { result.now ≡ chain_for certificates.now inst p }
{
    match certificates.iter().find(|c| c.inst == inst) {
        Some(certificate) => match certificate.members.list().iter().find(|m| m.0 == p) {
            Some(member) => member.1.messages(),
            None => &[],
        },
        None => &[],
    }
}

// Gathers a message of a chain: its number, and between whom it went.
fn push_link(text: &mut String, page: &Page<'_>, msg: MsgNo) -> Result<(), Memory>
    ensures { OnOk result (string_bytes text.new ≡ string_bytes text.old
        ++ chain_word page.now.names.now page.now.rows.now msg) }
{
    write!(text, " {msg}")?;
    match page.rows.get(msg.index()) {
        Some(row) => push_ends(text, page, *row),
        None => Ok(()),
    }
}

// Gathers between whom a message went that this row sent, if it sends one.
fn push_ends(text: &mut String, page: &Page<'_>, row: Event) -> Result<(), Memory>
    ensures { OnOk result (string_bytes text.new ≡ string_bytes text.old
        ++ ends_of_message page.now.names.now (Some row)) }
{
    match row {
        Event::Sent { p, to, .. } => {
            write!(text, ":")?;
            push_name(text, page.names, p)?;
            write!(text, "&gt;")?;
            push_name(text, page.names, to)
        }
        _ => Ok(()),
    }
}

/// What a word says.
#[derive(Clone, Copy)]
pub(crate) enum Saying {
    /// The number of the row of a column, above the lanes.
    Column(u32),
    /// A rule by number and name.
    Rule(Rule),
    /// The name of an instance.
    Instance(Kind, InstNo),
    /// The number of a row.
    Row(u32),
    /// Why a process did not do what it was asked.
    Why(Cause),
    /// The number of a message, and its body where that is known.
    Message(u32, Option<i64>),
}

impl fmt::Display for Saying {
    ghost use Rattle.std.specs.Prelude.{Some};
    ghost use Rattle.kt_picture.specs.Texts.{say_text};

    ghost output = { λ saying. Some (say_text saying) };

    fn fmt<W: fmt::Write>(&self, f: &mut fmt::Formatter<W>) -> fmt::Result {
        match *self {
            Saying::Column(row) | Saying::Row(row) => write!(f, "{row}"),
            Saying::Rule(rule) => write!(f, "rule {rule}, {}", rule_name(rule)),
            Saying::Instance(Kind::Checkpoint, inst) => write!(f, "C{inst}"),
            Saying::Instance(Kind::Rollback, inst) => write!(f, "R{inst}"),
            Saying::Why(Cause::Busy(inst)) => write!(f, "busy-{inst}"),
            Saying::Why(Cause::Down) => write!(f, "down"),
            Saying::Why(Cause::NoSave) => write!(f, "nosave"),
            Saying::Message(msg, None) => write!(f, "{msg}"),
            Saying::Message(msg, Some(body)) => write!(f, "{msg}: {body}"),
        }
    }
}

impl Saying {
    // The class of the word, as the style sheet names it.
    fn class(self) -> &'static str
        ensures { result.now ≡ say_class self }
    {
        match self {
            Saying::Column(_) => "top",
            Saying::Rule(_) => "rule",
            Saying::Instance(..) => "inst",
            Saying::Row(_) => "num",
            Saying::Why(_) => "bad",
            Saying::Message(..) => "say",
        }
    }

    // Where it begins beside its place; one with a long body is set narrower, no wider than four columns.
    fn shift(self) -> &'static str
        ensures { result.now ≡ say_shift self }
    {
        match self {
            Saying::Column(_) | Saying::Rule(_) => "",
            // A body beyond this one has more than eight letters.
            Saying::Message(_, Some(body)) if body.unsigned_abs() > 9_999_999 => {
                " dx='4' textLength='96' lengthAdjust='spacingAndGlyphs'"
            }
            _ => " dx='4'",
        }
    }
}

fn rule_name(rule: Rule) -> &'static str
    ensures { result.now ≡ rule_name rule }
{
    match rule {
        Rule::Numbers => "numbers",
        Rule::Message => "message",
        Rule::Order => "order",
        Rule::Sending => "sending",
        Rule::Receiving => "receiving",
        Rule::Joining => "joining",
        Rule::Deciding => "deciding",
        Rule::Closing => "closing",
        Rule::Causes => "causes",
    }
}

/// A word, and where it stands, so far from the left and from above, in units of the picture.
#[derive(Clone, Copy)]
pub(crate) struct Word {
    pub(crate) x: u64,
    pub(crate) y: u64,
    pub(crate) saying: Saying,
}

/// Gathers a word, if there is one.
pub(crate) fn push_word(text: &mut String, word: Option<Word>) -> Result<(), Memory>
    ensures { OnOk result (string_bytes text.new ≡ string_bytes text.old ++ drawn word) }
{
    let Some(Word { x, y, saying }) = word else {
        return Ok(());
    };
    let class = saying.class();
    let shift = saying.shift();
    Ok(writeln!(
        text,
        "<text class='{class}' x='{x}' y='{y}'{shift}>{saying}</text>"
    )?)
}

/// What is said below a picture of a log: that the log is legal, or that the row of this number breaks a rule.
pub fn caption(alloc: Global, number: u32, breach: Option<BrokenRow>) -> Result<Vec<u8>, Memory>
    ensures exact { IfOk result (λ t. t.items ≡ caption_of number breach) }
{
    let text = match breach {
        Some(breach) => { format!(in alloc; "Row {number} breaks {}.", Saying::Rule(breach.rule))? }
        None => format!(in alloc; "The log is legal.")?,
    };
    Ok(text.into_bytes())
}
