//! A space-time diagram under way: rows come one after another, and are not kept.

ghost use Rattle.std.specs.Prelude.{◌≡◌, ◌≤◌, ◌<◌, ◌^◌, ◌+◌, ◌++◌, ◌∷◌, [], ℕ, List, Some, Err, IfOk, OnOk, OnErr, length};
ghost use Rattle.kt_spacetime.specs.declared.event.Event.{Event};
ghost use Rattle.kt_spacetime.specs.declared.rules.Rule.{Rule};
ghost use Rattle.kt_base.specs.Sets.{has};
ghost use Rattle.kt_rules.specs.declared.legality.LegalFault.TheVariants as fault;
ghost use Rattle.kt_meaning.specs.Legal.{first_broken};
ghost use Rattle.kt_walk.specs.WalkOf.{WalkOf};
ghost use Rattle.kt_walk.specs.WalkParts.{WalkParts};
ghost use Rattle.kt_picture.specs.DiagramOf.{DiagramOf, HasRowsFor, SheetOf};
ghost use Rattle.kt_picture.specs.BrokenRow.{breach_rows};
ghost use Rattle.kt_picture.specs.Lanes.{is_named};
ghost use Rattle.kt_picture.specs.Picture.{picture_of};

use crate::entry::{Entry, follow, message_of, shown_rows, taken_by};
use crate::layers::text_of;
use crate::rows::{Evidence, Page, links_of};
use crate::window::{
    BrokenRow, CutMark, Known, Lanes, Shown, Stretch, lane_ends, push_cut, push_item, with_named,
};
use kt_base::{Memory, MsgNo, ProcSet};
use kt_plan::Names;
use kt_rules::LegalFault;
use kt_spacetime::Event;
use kt_walk::Walk;
use std::alloc::Global;

/// A space-time diagram under way: beside a walk, what is drawn of the rows of a window. Of the rows before the window
/// only the processes that they name are noted; the walk knows what came of them.
#[derive(Drop)]
pub struct Diagram {
    pub(crate) known: Known,
    pub(crate) named: ProcSet,
    pub(crate) entries: Vec<Entry>,
    pub(crate) cuts: Vec<CutMark>,
}

impl Diagram {
    /// A diagram of no rows.
    pub fn new(alloc: Global) -> Diagram
        ensures { (w : WalkParts) → WalkOf w [] → DiagramOf result w [] [] }
    {
        Diagram {
            known: Known {
                column: 0,
                latest: [0; 64],
                taken: [0; 64],
                places: [0; 64],
            },
            named: ProcSet::empty(),
            entries: Vec::new(alloc),
            cuts: Vec::new(alloc),
        }
    }

    /// One more row before the window, which the walk takes; both are unchanged where it does not.
    pub fn pass(&mut self, walk: &mut Walk, row: &Event) -> Result<(), LegalFault>
        requires few { walk.old.rows < 2 ^ 24 }
        ensures passed { OnOk result ((front : List Event) → DiagramOf self.old walk.old front []
            → DiagramOf self.new walk.new (front ++ row.now ∷ []) []) }
        ensures broken { (number : ℕ) (rule : Rule) → result ≡ Err (fault.Broken number rule) → (rows : List Event)
            → WalkOf walk.old rows → first_broken (rows ++ row.now ∷ []) ≡ Some (number, rule) }
        ensures unchanged { OnErr result (self.new ≡ self.old) }
        ensures still { OnErr result (walk.new ≡ walk.old) }
    {
        walk.feed(row)?;
        self.named = with_named(self.named, row);
        Ok(())
    }

    /// One more row of the window, which the walk takes; both are unchanged where it breaks a rule.
    pub fn add(&mut self, walk: &mut Walk, row: &Event) -> Result<(), LegalFault>
        requires few { walk.old.rows < 2 ^ 24 }
        requires short { self.old.known.column < 2 ^ 24 }
        ensures added { OnOk result ((front window : List Event) → DiagramOf self.old walk.old front window
            → DiagramOf self.new walk.new front (window ++ row.now ∷ [])) }
        ensures broken { (number : ℕ) (rule : Rule) → result ≡ Err (fault.Broken number rule) → (rows : List Event)
            → WalkOf walk.old rows → first_broken (rows ++ row.now ∷ []) ≡ Some (number, rule) }
        ensures unchanged { (number : ℕ) (rule : Rule) → result ≡ Err (fault.Broken number rule) → self.new ≡ self.old }
        ensures still { (number : ℕ) (rule : Rule) → result ≡ Err (fault.Broken number rule) → walk.new ≡ walk.old }
    {
        let msg = MsgNo::after(walk.rows());
        let plain = self.known.plain(walk, row);
        let after = self.known.after(walk, row);
        let taken = taken_by(walk, row);
        walk.feed(row)?;
        follow(&mut self.entries, walk, row);
        let message = message_of(walk, row, msg, taken);
        self.named = with_named(self.named, row);
        push_cut(&mut self.cuts, &self.known.places, &after.places, row)?;
        self.known = after;
        push_item(&mut self.entries, Entry { plain, message })?;
        Ok(())
    }

    /// The window, with what became of its rows.
    pub fn sheet(&self, alloc: Global, walk: &Walk) -> Result<Sheet, Memory>
        requires few { walk.now.rows ≤ 2 ^ 24 }
        ensures exact { IfOk result (λ sheet. (front window : List Event) → DiagramOf self.now walk.now front window
            → SheetOf sheet (front ++ window) (length front)) }
        ensures few { IfOk result (λ sheet. sheet.before + sheet.columns ≤ 2 ^ 24) }
    {
        let shown = shown_rows(alloc, walk, self.entries.as_slice())?;
        let ends = lane_ends(alloc, walk, &self.known)?;
        let rows = walk.rows() as u32;
        let before = rows.saturating_sub(self.known.column);
        Ok(Sheet {
            named: self.named,
            before,
            columns: rows - before,
            shown,
            ends,
            cuts: Vec::from_slice(alloc, self.cuts.as_slice())?,
        })
    }
}

/// A window of a log, with what became of its rows: what a picture shows.
#[derive(Drop)]
pub struct Sheet {
    /// The processes that rows up to the window's end name.
    pub(crate) named: ProcSet,
    /// How many rows come before the window.
    pub(crate) before: u32,
    /// How many rows the window has.
    pub(crate) columns: u32,
    pub(crate) shown: Vec<Shown>,
    /// By process, how its lane goes on to the right end.
    pub(crate) ends: Vec<Stretch>,
    pub(crate) cuts: Vec<CutMark>,
}

impl Sheet {
    /// The picture of the window, as one SVG document, with a line of text below. The row after the window that breaks a
    /// rule, where there is one, is drawn as what it says in a column of its own, in the colour of a warning, and lanes end
    /// there. The rows begin with those up to the window's end; they are asked for by the chains of certificates alone.
    ///
    /// The processes that the log names have a lane each, from above by rising number, with their names or else their
    /// numbers; each row has a column, from left to right, and a tooltip with its number and its text. A lane is dashed
    /// while its process is down, and lies on a bar while its process is in an instance. What became of a message or an
    /// instance is what the log says at the window's end: an arrow is grey and dashed where the send is undone, grey and
    /// thin where the receive is, short where the message is in transit; squares (`took`) and triangles (`ready`) are filled
    /// after a commit and crossed after an abort. A permanent cut is drawn where it differs from the one before. Up to 64
    /// columns messages have their numbers and bodies; each fifth column and each decision has its row's number. The text
    /// below is escaped; under it stands a legend of the marks that there are.
    ///
    /// A message that certificates have in a chain is drawn in the colour of the instance, and the row in which a member
    /// joins tells in its tooltip which messages bound it; the orphan that is named stands out.
    pub fn picture<'a>(
        &'a self,
        alloc: Global,
        rows: &'a [Event],
        breach: Option<BrokenRow>,
        evidence: &Evidence<'a>,
        names: &'a Names,
        caption: &[u8],
    ) -> Result<Vec<u8>, Memory>
        requires few { self.now.before + self.now.columns ≤ 2 ^ 24 }
        ensures { IfOk result (λ t. (log : List Event) (before : ℕ) → SheetOf self.now log before
            → HasRowsFor rows.now log evidence.now.certificates.now
            → t.items ≡ picture_of names.now log before breach
            evidence.now.certificates.now evidence.now.orphan caption.now) }
    {
        let lanes = Lanes::of_named(alloc, with_breach(self.named, breach))?;
        let count = (self.before + self.columns) as usize;
        let rows = &rows[..count.min(rows.len())];
        let links = links_of(alloc, evidence.certificates, rows.len())?;
        let page = Page {
            alloc,
            names,
            lanes: &lanes,
            sheet: self,
            columns: self.columns + u32::from(breach.is_some()),
            right: self.columns + 1,
            breach,
            certificates: evidence.certificates,
            orphan: evidence.orphan,
            rows,
            links: links.as_slice(),
        };
        text_of(alloc, &page, caption)
    }
}

// The processes that rows name, with those of the row that breaks a rule.
fn with_breach(named: ProcSet, breach: Option<BrokenRow>) -> ProcSet
    ensures { (rows : List Event) → ((q : ℕ) → q < 64 → has named q ≡ is_named rows q)
        → (q : ℕ) → q < 64 → has result q ≡ is_named (rows ++ breach_rows breach) q }
{
    match breach {
        Some(breach) => with_named(named, &breach.event),
        None => named,
    }
}
