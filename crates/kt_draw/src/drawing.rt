//! Rows of a stored log drawn while they are read, by a walk over the log beside the window of a picture.

ghost use Rattle.std.specs.Prelude.{◌≡◌, ◌≤◌, ◌<◌, ◌+◌, ◌^◌, ◌++◌, ◌∷◌, [], ℕ, List, Option, Some, Err, IfOk, IfErr, OnOk, length, take};
ghost use Rattle.kt_spacetime.specs.declared.event.Event.{Event};
ghost use Rattle.kt_spacetime.specs.declared.rules.Rule.{Rule};
ghost use Rattle.kt_rules.specs.declared.legality.LegalFault.TheVariants as legality;
ghost use Rattle.kt_meaning.specs.Answers.{IsCheckerAnswer};
ghost use Rattle.kt_meaning.specs.Legal.{first_broken};
ghost use Rattle.kt_log_text.specs.Reading.{IsUnread, rows_unread};
ghost use Rattle.kt_picture.specs.BrokenRow.{caption_of};
ghost use Rattle.kt_picture.specs.DiagramOf.{SheetOf};
ghost use Rattle.kt_draw.specs.declared.span.Span.{Span as Spans};
ghost use Rattle.kt_draw.specs.Drawn.{answer_sentence, IsCertifiedPicture, IsNoPictureOf, IsOrphanDrawn, IsPictureOf, IsPictureTo, IsUndrawnLog, orphan_told};
ghost use Rattle.kt_draw.specs.Followed.{AreRowsRead, FollowedOf, ReadingOf};

use crate::span::{DrawFault, Span, first_row, last_drawn, last_wanted};
use kt_base::{Memory, MsgNo};
use kt_checker::check;
use kt_explain::{Explanation, explain};
use kt_log_text::RowReader;
use kt_picture::{BrokenRow, Diagram, Evidence, Sheet, caption};
use kt_plan::Names;
use kt_rules::LegalFault;
use kt_spacetime::{Certificate, Event, SpaceTime, Verdict, Why};
use kt_walk::Walk;
use std::alloc::Global;
use std::io::Read;

/// The picture of rows of the log that a reader tells, as one SVG document, with these names of its processes, or else
/// their numbers.
///
/// A log is drawn up to the first row that breaks a rule; that row is marked, and what comes after it is not read as rows.
/// The line below says so, or that the log is legal.
///
/// Fails at the first fault of the log's text, which is read to its end; then where there are no such rows, or more than
/// 4,096 of them. Where memory is wanting it fails at any time. It keeps no rows of the log, but for those of the picture.
pub fn draw_stream<L: Read + Drop>(
    alloc: Global,
    reader: L,
    names: &Names,
    span: Span,
) -> Result<Vec<u8>, DrawFault>
    ensures picture { IfOk result (λ text. IsPictureOf names.now span (L.remaining reader) text.items) }
    ensures fault { IfErr result (IsNoPictureOf span (L.remaining reader)) }
{
    let mut rows = RowReader::new(alloc, reader)?;
    draw_rows(alloc, &mut rows, names, span)
}

/// The picture of rows of the log that a reader of its rows tells, of which it gave none, as `draw_stream` makes it.
///
/// The record at which a fault of the text was met stays with the reader.
pub fn draw_rows<L: Read + Drop>(
    alloc: Global,
    rows: &mut RowReader<L>,
    names: &Names,
    span: Span,
) -> Result<Vec<u8>, DrawFault>
    requires unread { IsUnread rows.old }
    ensures picture { (source : Option (List ℕ)) → rows.old ≡ rows_unread source
        → IfOk result (λ text. IsPictureOf names.now span source text.items) }
    ensures fault { (source : Option (List ℕ)) → rows.old ≡ rows_unread source → IfErr result (IsNoPictureOf span source) }
{
    let mut reading = Reading::new(alloc, span)?;
    while let Some(row) = rows.next()? {
        reading.feed(&row, span)?;
    }
    let evidence = Evidence {
        certificates: &[],
        orphan: None,
    };
    let line = reading.caption(alloc)?;
    reading.picture(alloc, names, span, &[], &evidence, line.as_slice())
}

/// The picture of rows of a log as `draw_stream` has it, with what certificates tell of it: the messages of their chains in
/// the colours of the instances, and why each member took part. The line below says the checker's answer; where that is an
/// orphan, the least one stands out.
///
/// Fails where there are no such rows, or more than 4,096 of them, or where memory is wanting.
pub fn draw_certified(
    alloc: Global,
    log: &SpaceTime,
    certificates: &[Certificate],
    names: &Names,
    span: Span,
) -> Result<Vec<u8>, DrawFault>
    ensures picture { IfOk result (λ text. IsCertifiedPicture names.now span log.now.rows certificates.now text.items) }
    ensures fault { IfErr result (IsUndrawnLog span log.now.rows) }
{
    let verdict = check(alloc, log, certificates)?;
    let orphan = orphan_in(alloc, log, certificates, &verdict)?;
    let line = line_of(alloc, &verdict)?;
    let evidence = Evidence {
        certificates,
        orphan,
    };
    let mut reading = read_log(alloc, log, span)?;
    reading.picture(alloc, names, span, log.rows(), &evidence, line.as_bytes())
}

// The orphan that is told of the checker's answer to a log and certificates, where the answer is that there is one.
fn orphan_in(
    alloc: Global,
    log: &SpaceTime,
    certificates: &[Certificate],
    verdict: &Verdict,
) -> Result<Option<MsgNo>, Memory>
    requires { IsCheckerAnswer log.now.rows certificates.now verdict.now }
    ensures { IfOk result (IsOrphanDrawn log.now.rows certificates.now verdict.now) }
{
    match *verdict {
        Verdict::No {
            why: Why::Orphan,
            ..
        } => Ok(orphan_told(&explain(alloc, log, certificates, verdict)?)),
        _ => Ok(None),
    }
}

// The orphan that is told of an answer.
fn orphan_told(told: &Explanation) -> Option<MsgNo>
    ensures { result ≡ orphan_told told.now }
{
    match told {
        Explanation::Orphan { orphan, .. } => Some(orphan.msg),
        _ => None,
    }
}

// The line of an answer, as a sentence.
fn line_of(alloc: Global, verdict: &Verdict) -> Result<String, Memory>
    ensures { IfOk result (λ line. line.bytes.items ≡ answer_sentence verdict.now) }
{
    Ok(format!(in alloc; "The checker answers: {verdict}.")?)
}

// A log of which all rows are read.
fn read_log(alloc: Global, log: &SpaceTime, span: Span) -> Result<Reading, Memory>
    ensures { IfOk result (λ r. ReadingOf r span log.now.rows) }
{
    let mut reading = Reading::new(alloc, span)?;
    for row in log.rows() {
        reading.feed(row, span)?;
    }
    Ok(reading)
}

// A log that is drawn while its rows are read, of which none is kept: its legal rows so far, the row that breaks a rule, and
// how many rows there are.
#[derive(Drop)]
struct Reading {
    followed: Followed,
    breach: Option<BrokenRow>,
    count: usize,
}

impl Reading {
    // A log of which no row is read.
    fn new(alloc: Global, span: Span) -> Result<Reading, Memory>
        ensures { IfOk result (λ r. ReadingOf r span []) }
    {
        let before = first_row(span.from).saturating_sub(1);
        Ok(Reading {
            followed: Followed {
                alloc,
                walk: Walk::new(alloc)?,
                diagram: Diagram::new(alloc),
                sheet: None,
                before,
                last: last_wanted(before, span.to),
            },
            breach: None,
            count: 0,
        })
    }

    // One more row. After a row that breaks a rule rows are counted alone.
    fn feed(&mut self, row: &Event, span: Span) -> Result<(), Memory>
        requires few { (rows : List Event) × ReadingOf self.old span rows × (length rows < 2 ^ 24) }
        ensures { OnOk result ((rows : List Event) → ReadingOf self.old span rows → ReadingOf self.new span (rows ++ row.now ∷ [])) }
    {
        self.count += 1;
        if self.breach.is_some() {
            return Ok(());
        }
        let Err(fault) = self.followed.add(row) else {
            return Ok(());
        };
        let LegalFault::Broken(_number, rule) = fault else {
            return Err(Memory);
        };
        self.breach = Some(BrokenRow { event: *row, rule });
        Ok(())
    }

    // What is said below a picture of all rows that were read: that they are legal, or which one breaks which rule.
    fn caption(&self, alloc: Global) -> Result<Vec<u8>, Memory>
        requires few { (span : Spans) × (read : List Event) × ReadingOf self.now span read × (length read ≤ 2 ^ 24) }
        ensures { IfOk result (λ line. (span : Spans) (read : List Event) (h : ReadingOf self.now span read)
            → line.items ≡ caption_of (length h.kept + 1) self.now.breach) }
    {
        caption(alloc, self.followed.walk.rows() as u32 + 1, self.breach)
    }

    // The picture of the rows that are asked for, of all rows that were read, with what certificates tell of them, and this
    // line below. The rows are asked for by the chains of certificates alone.
    fn picture(
        &mut self,
        alloc: Global,
        names: &Names,
        span: Span,
        rows: &[Event],
        evidence: &Evidence<'_>,
        line: &[u8],
    ) -> Result<Vec<u8>, DrawFault>
        requires few { (read : List Event) × ReadingOf self.old span read × (length read ≤ 2 ^ 24) }
        ensures picture { (read : List Event) (h : ReadingOf self.old span read)
            → AreRowsRead rows.now read evidence.now.certificates.now
            → IfOk result (λ text. IsPictureTo names.now span read (length h.kept) self.old.breach
            evidence.now.certificates.now evidence.now.orphan line.now text.items) }
        ensures fault { (read : List Event) → ReadingOf self.old span read → IfErr result (IsUndrawnLog span read) }
    {
        let kept = self.followed.walk.rows();
        let seen = kept + usize::from(self.breach.is_some());
        let last = last_drawn(self.count, seen, span)?;
        let breach = if kept < last { self.breach } else { None };
        let sheet = self.followed.sheet()?;
        Ok(sheet.picture(alloc, rows, breach, evidence, names, line)?)
    }
}

// A walk over a log, and what is drawn of its window: a diagram while the window goes on, and its sheet once a row comes
// after it.
#[derive(Drop)]
struct Followed {
    alloc: Global,
    walk: Walk,
    diagram: Diagram,
    sheet: Option<Sheet>,
    // How many rows come before the window.
    before: usize,
    // The number of the last row that it may have.
    last: usize,
}

impl Followed {
    // One more row, where it breaks no rule of a legal log.
    fn add(&mut self, row: &Event) -> Result<(), LegalFault>
        requires few { (rows : List Event) × FollowedOf self.old rows × (length rows < 2 ^ 24) }
        ensures added { OnOk result ((rows : List Event) → FollowedOf self.old rows → FollowedOf self.new (rows ++ row.now ∷ [])) }
        ensures still { (number : ℕ) (rule : Rule) → result ≡ Err (legality.Broken number rule)
            → (rows : List Event) → FollowedOf self.old rows → FollowedOf self.new rows }
        ensures broken { (number : ℕ) (rule : Rule) → result ≡ Err (legality.Broken number rule)
            → (rows : List Event) → FollowedOf self.old rows → first_broken (rows ++ row.now ∷ []) ≡ Some (number, rule) }
        ensures before { self.new.before ≡ self.old.before }
        ensures last { self.new.last ≡ self.old.last }
    {
        let rows = self.walk.rows();
        if rows < self.before {
            return self.diagram.pass(&mut self.walk, row);
        }
        if rows < self.last {
            return self.diagram.add(&mut self.walk, row);
        }
        // Its sheet is kept, since this row comes after it.
        let sheet = self.sheet()?;
        self.sheet = Some(sheet);
        self.walk.feed(row)
    }

    // The window, with what became of its rows by its end; it is given away.
    fn sheet(&mut self) -> Result<Sheet, Memory>
        requires few { (rows : List Event) × FollowedOf self.old rows × (length rows ≤ 2 ^ 24) }
        ensures exact { IfOk result (λ sheet. (rows : List Event) → FollowedOf self.old rows → self.old.before ≤ length rows
            → SheetOf sheet (take self.old.last rows) self.old.before) }
        ensures walk { self.new.walk ≡ self.old.walk }
        ensures diagram { self.new.diagram ≡ self.old.diagram }
        ensures before { self.new.before ≡ self.old.before }
        ensures last { self.new.last ≡ self.old.last }
    {
        match self.sheet.take() {
            Some(sheet) => Ok(sheet),
            None => self.diagram.sheet(self.alloc, &self.walk),
        }
    }
}
