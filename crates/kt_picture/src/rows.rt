//! What marks are drawn by, certificates among it, and which marks show a row.

ghost use Rattle.std.specs.Prelude.{◌≡◌, ◌==◌, ℕ, IfOk};
ghost use Rattle.kt_picture.specs.Evidence.{has_message, has_chained, link_of};
ghost use Rattle.kt_picture.specs.Links.{NotesMore, link_at};
ghost use Rattle.kt_picture.specs.Marks.{place_at, arrow_look, colour_for, arrow, arrow_at, figure_at, body_of, label, word, word_at, number_at};
ghost use Rattle.kt_picture.specs.Pages.{view_in};

use crate::diagram::Sheet;
use crate::looks::{Look, Outline, Path, Place, x_of, y_of};
use crate::window::{BrokenRow, Lanes, Shown};
use crate::words::{Saying, Word};
use kt_base::{InstNo, Memory, MsgNo, ProcNo};
use kt_plan::Names;
use kt_spacetime::{Certificate, Event};
use std::alloc::Global;

/// What is told of a log by its certificates, for a picture of it.
#[derive(Clone, Copy)]
pub struct Evidence<'a> {
    /// The certificates, whose chains are drawn in the colours of their instances; of a message in several of them, the
    /// first one counts.
    pub certificates: &'a [Certificate],
    /// The orphan that stands out.
    pub orphan: Option<MsgNo>,
}

/// What marks are drawn by.
#[derive(Drop)]
pub(crate) struct Page<'a> {
    pub(crate) alloc: Global,
    pub(crate) names: &'a Names,
    pub(crate) lanes: &'a Lanes,
    pub(crate) sheet: &'a Sheet,
    /// How many columns there are.
    pub(crate) columns: u32,
    /// The column where lanes end: behind the window.
    pub(crate) right: u32,
    /// The row that comes after the window and breaks a rule.
    pub(crate) breach: Option<BrokenRow>,
    pub(crate) certificates: &'a [Certificate],
    pub(crate) orphan: Option<MsgNo>,
    /// The rows up to the window's end.
    pub(crate) rows: &'a [Event],
    /// By message, from 1 on, the instance of the first certificate that has it in a chain.
    pub(crate) links: &'a [Option<InstNo>],
}

impl<'a> Page<'a> {
    /// The instance whose chain has a message.
    pub(crate) fn link(&self, msg: MsgNo) -> Option<InstNo>
        ensures { result ≡ link_at self.now.links.now msg }
    {
        *self.links.get(msg.index())?
    }

    /// Where a column crosses the lane of a process.
    pub(crate) fn place(&self, column: u32, p: ProcNo) -> Place
        ensures { result ≡ place_at (view_in self.now) column p }
    {
        let x = x_of(column);
        let y = y_of(self.lanes.of(p));
        Place { x, y }
    }
}

/// By message of a log with so many rows, from 1 on, the instance of the first certificate that has it in a chain.
pub(crate) fn links_of(
    alloc: Global,
    certificates: &[Certificate],
    count: usize,
) -> Result<Vec<Option<InstNo>>, Memory>
    ensures { IfOk result (λ links. (msg : ℕ) → link_at links.items msg ≡ link_of count certificates.now msg) }
{
    let mut noted = vec![in alloc; None; count]?;
    for certificate in certificates {
        note_certificate(&mut noted, certificate);
    }
    Ok(noted)
}

// Notes the instance of a certificate at the messages of its chains.
fn note_certificate(noted: &mut [Option<InstNo>], certificate: &Certificate)
    ensures { NotesMore noted.old noted.new certificate.now.inst (λ msg. has_chained msg certificate.now) }
{
    for member in certificate.members.list() {
        note_chain(noted, certificate.inst, member.1.messages());
    }
}

// Notes an instance at the messages of a chain.
fn note_chain(noted: &mut [Option<InstNo>], inst: InstNo, chain: &[MsgNo])
    ensures { NotesMore noted.old noted.new inst (λ msg. has_message msg chain.now) }
{
    for msg in chain {
        note(noted, inst, *msg);
    }
}

// Notes an instance at a message of the log that has none.
fn note(noted: &mut [Option<InstNo>], inst: InstNo, msg: MsgNo)
    ensures { NotesMore noted.old noted.new inst (λ m. msg == m) }
{
    let index = msg.index();
    if index < noted.len() && noted[index].is_none() {
        noted[index] = Some(inst);
    }
}

/// The arrow of this row that takes a message, or that sends one which is in transit at the window's end.
pub(crate) fn arrow_at(page: &Page<'_>, s: &Shown, event: Event) -> Option<Path>
    ensures { result ≡ arrow_at (view_in page.now) s.now event }
{
    match event {
        // Short, towards its receiver's lane.
        Event::Sent { p, to, .. } if s.is_in_transit => {
            let down = page.lanes.of(p) < page.lanes.of(to);
            let from = page.place(s.column, s.event.process());
            Some(Path::at(from, Look::Way, None, Outline::Way { down }))
        }
        Event::Received { from, msg, .. } => Some(arrow(page, s, from, msg)),
        Event::Dropped { from, msg, .. } => Some(arrow(page, s, from, msg)),
        _ => None,
    }
}

// The arrow of a message from where it was sent to where a row takes it, in the colour of the instance of its chain. It
// begins in the column of the row which sent it, but not behind its head.
fn arrow(page: &Page<'_>, s: &Shown, from: ProcNo, msg: MsgNo) -> Path
    ensures { result ≡ arrow (view_in page.now) s.now from msg }
{
    let link = page.link(msg);
    let stands_out = page.orphan == Some(msg);
    let look = arrow_look(s.is_undone, s.is_taken_back, stands_out, link.is_some());
    let tail = s.column.min(msg.get().saturating_sub(page.sheet.before));
    let from = page.place(tail, from);
    let outline = Outline::To(page.place(s.column, s.event.process()));
    Path::at(from, look, colour_for(look, link), outline)
}

// How an arrow looks.
fn arrow_look(is_undone: bool, is_taken_back: bool, stands_out: bool, linked: bool) -> Look
    ensures { result ≡ arrow_look is_undone is_taken_back stands_out linked }
{
    match (is_undone, is_taken_back, stands_out, linked) {
        (true, true, _, _) => Look::Vanished,
        (false, true, _, _) => Look::Unreceived,
        (_, false, true, _) => Look::Orphan,
        (true, false, false, _) => Look::Unsent,
        (false, false, false, true) => Look::Linked,
        (false, false, false, false) => Look::Message,
    }
}

// The number of the instance whose colour an arrow has: a message of a chain alone has one.
fn colour_for(look: Look, link: Option<InstNo>) -> Option<u16>
    ensures { result ≡ colour_for look link }
{
    match look {
        Look::Linked => Some(link?.get()),
        _ => None,
    }
}

/// What shows a row at its place.
pub(crate) fn figure_at(at: Place, s: &Shown) -> Path
    ensures { result ≡ figure_at at s.now s.now.event }
{
    let crossed = s.decision == Some(false);
    let joined = if s.decision == Some(true) {
        Look::Full
    } else {
        Look::Open
    };
    match s.event {
        Event::Sent { .. } if s.is_undone => Path::at(at, Look::PaleDot, None, Outline::Dot),
        Event::Sent { .. } => Path::at(at, Look::Dot, None, Outline::Dot),
        Event::Received { .. } if s.is_undone || s.is_taken_back => {
            Path::at(at, Look::PaleTick, None, Outline::Tick)
        }
        Event::Received { .. } => Path::at(at, Look::Tick, None, Outline::Tick),
        Event::Dropped { .. } => Path::at(at, Look::Dropped, None, Outline::Cross),
        Event::Began { inst, .. } => Path::at(at, Look::Bar, Some(inst.get()), Outline::Beginning),
        Event::Took { inst, .. } => {
            Path::at(at, joined, Some(inst.get()), Outline::Square { crossed })
        }
        Event::Ready { inst, .. } => {
            Path::at(at, joined, Some(inst.get()), Outline::Triangle { crossed })
        }
        Event::Decided { inst, commit, .. } => {
            let look = if commit { Look::Full } else { Look::Open };
            let crossed = !commit;
            Path::at(at, look, Some(inst.get()), Outline::Diamond { crossed })
        }
        Event::Closed { inst, .. } => Path::at(at, Look::Open, Some(inst.get()), Outline::Ending),
        Event::Failed { .. } => Path::at(at, Look::Failed, None, Outline::Bolt),
        Event::Unwilling { .. } | Event::Refused { .. } => {
            Path::at(at, Look::Refused, None, Outline::Ban)
        }
    }
}

/// The number of the row of each fifth column.
pub(crate) fn number_at(s: &Shown) -> Option<Word>
    ensures { result ≡ number_at s.now.row s.now.column }
{
    if s.column % 5 != 0 {
        return None;
    }
    let x = x_of(s.column);
    let saying = Saying::Column(s.row);
    Some(Word { x, y: 20, saying })
}

/// The word beside the mark of this row, or beside its arrow.
pub(crate) fn word_at(page: &Page<'_>, s: &Shown, event: Event) -> Option<Word>
    ensures { result ≡ word_at (view_in page.now) s.now event }
{
    match event {
        Event::Sent { p, to, body } if s.is_in_transit => {
            label(page, s, p, to, Saying::Message(s.row, Some(body)))
        }
        Event::Received { p, from, msg } | Event::Dropped { p, from, msg } => {
            let body = body_of(page, msg);
            label(page, s, p, from, Saying::Message(msg.get(), body))
        }
        Event::Began { inst, kind, .. } => Some(word(page, s, false, Saying::Instance(kind, inst))),
        Event::Decided { .. } => Some(word(page, s, true, Saying::Row(s.row))),
        Event::Unwilling { cause, .. } | Event::Refused { cause, .. } => {
            Some(word(page, s, true, Saying::Why(cause)))
        }
        _ => None,
    }
}

// A word below or above the place of a row, in one of four lines between two lanes, the next column's in the next line.
fn word(page: &Page<'_>, s: &Shown, below: bool, saying: Saying) -> Word
    ensures { result ≡ word (view_in page.now) s.now below saying }
{
    let x = x_of(s.column);
    let lane = y_of(page.lanes.of(s.event.process()));
    let first = if below { lane + 20 } else { lane - 44 };
    let y = first + 10 * (u64::from(s.column) % 4);
    Word { x, y, saying }
}

// What is said beside the arrow of a message between a process and another one, on the other one's side.
fn label(page: &Page<'_>, s: &Shown, p: ProcNo, other: ProcNo, saying: Saying) -> Option<Word>
    ensures { result ≡ label (view_in page.now) s.now p other saying }
{
    if page.columns > MOST_LABELLED {
        return None;
    }
    let below = page.lanes.of(p) < page.lanes.of(other);
    Some(word(page, s, below, saying))
}

// How many columns a picture has at most whose messages have words.
const MOST_LABELLED: u32 = 64;

// The body of a message that a row of the window sent.
fn body_of(page: &Page<'_>, msg: MsgNo) -> Option<i64>
    ensures { result ≡ body_of (view_in page.now) msg }
{
    let index = msg.index().checked_sub(page.sheet.before as usize)?;
    match page.sheet.shown.get(index)?.event {
        Event::Sent { body, .. } => Some(body),
        _ => None,
    }
}
