//! What the window of a picture shows: its lanes, what is known at each of its rows, and the row after it that breaks a rule.

ghost use Rattle.std.specs.Prelude.{◌≡◌, ◌≤◌, ◌<◌, ◌^◌, ◌+◌, ◌++◌, ◌∷◌, ◌||◌, [], ℕ, List, IfOk, OnOk, filter, length, map, slice_set};
ghost use Rattle.std.specs.List.{range_with_len};
ghost use Rattle.kt_base.specs.Sets.{has};
ghost use Rattle.kt_spacetime.specs.declared.event.Event.{Event};
ghost use Rattle.kt_spacetime.specs.Events.{process_of};
ghost use Rattle.kt_meaning.specs.Past.{past};
ghost use Rattle.kt_walk.specs.WalkOf.{WalkOf};
ghost use Rattle.kt_picture.specs.BrokenRow.{breach_shown};
ghost use Rattle.kt_picture.specs.KnownAtRow.{KnownAtRow, cut_in, plain_at, taken_after, places_after, place_after, stretch_from};
ghost use Rattle.kt_picture.specs.KnownOf.{KnownOf};
ghost use Rattle.kt_picture.specs.Lanes.{names_process, lane_of};

use kt_base::{InstNo, Memory, ProcNo, ProcSet};
use kt_spacetime::{Event, Rule};
use kt_walk::Walk;
use std::alloc::Global;
use std::marker::Model;

/// The processes that have a lane, by rising number.
#[derive(Drop)]
pub(crate) struct Lanes {
    processes: Vec<ProcNo>,
}

impl Model for Lanes {
    ghost use Rattle.std.specs.Prelude.{ℕ, ◌≤◌, List, length};

    ghost Value = { List ℕ };

    ghost view = { λ l. l.processes.items };

    ghost invariant = { λ l. length l.processes.items ≤ 64 };
}

impl Lanes {
    /// A lane for each process that rows name.
    pub(crate) fn of_named(alloc: Global, named: ProcSet) -> Result<Lanes, Memory>
        ensures { IfOk result (λ l. l ≡ filter (has named) (range_with_len 0 64)) }
    {
        let mut processes = Vec::new(alloc);
        for number in 0..ProcNo::COUNT {
            let p = ProcNo::nth(number);
            if named.has(p) {
                push_item(&mut processes, p)?;
            }
        }
        Ok(Lanes { processes })
    }

    /// The processes, by lane.
    pub(crate) fn processes(&self) -> &[ProcNo]
        ensures processes { result.now ≡ self.now }
        ensures few { length result.now ≤ 64 }
    {
        self.processes.as_slice()
    }

    /// How many lanes there are.
    pub(crate) fn count(&self) -> u8
        ensures { result ≡ length self.now }
    {
        self.processes.len() as u8
    }

    /// The lane of a process, from 0: how many lanes are of lesser processes.
    pub(crate) fn of(&self, p: ProcNo) -> u8
        ensures { result ≡ lane_of self.now p }
    {
        let lesser = self.processes.iter().filter(|q| q.get() < p.get());
        lesser.count() as u8
    }
}

/// The processes that rows name, with those that one more row names.
pub(crate) fn with_named(named: ProcSet, row: &Event) -> ProcSet
    ensures { (q : ℕ) → has result q ≡ (has named q || names_process q row.now) }
{
    match *row {
        Event::Sent { p, to: peer, .. }
        | Event::Received { p, from: peer, .. }
        | Event::Dropped { p, from: peer, .. } => named.with(p).with(peer),
        _ => named.with(row.process()),
    }
}

/// What a row of the window shows, with what became of it by the window's end. Columns are counted from 1; 0 is the
/// left end.
#[derive(Clone, Copy)]
pub(crate) struct Shown {
    /// The row's number in the log.
    pub(crate) row: u32,
    pub(crate) column: u32,
    pub(crate) event: Event,
    /// How the process's lane comes to this row.
    pub(crate) stretch: Stretch,
    /// Whether the send of the row's message is undone.
    pub(crate) is_undone: bool,
    /// Whether the row receives a message, and that is undone.
    pub(crate) is_taken_back: bool,
    /// Whether the row sends a message that is in transit.
    pub(crate) is_in_transit: bool,
    /// How the instance is decided that the process joins in this row.
    pub(crate) decision: Option<bool>,
}

/// A stretch of a process's lane, from its last row on.
#[derive(Clone, Copy)]
pub(crate) struct Stretch {
    /// The column of that row.
    pub(crate) since: u32,
    /// Whether the process is up after it.
    pub(crate) up: bool,
    /// The instance that the process is in after it.
    pub(crate) open_in: Option<InstNo>,
}

/// The permanent cut after the commit of an instance: by process the column of its permanent position.
#[derive(Clone, Copy)]
pub(crate) struct CutMark {
    pub(crate) inst: InstNo,
    pub(crate) columns: [u32; 64],
    /// Whether it differs from the one before.
    pub(crate) is_new: bool,
}

/// The row that comes after those of a legal log, and the least rule that it breaks.
#[derive(Clone, Copy)]
pub struct BrokenRow {
    pub event: Event,
    pub rule: Rule,
}

impl BrokenRow {
    /// The row as what it says, in a column of its own.
    pub(crate) fn shown(&self, number: u32, column: u32) -> Shown
        ensures { result ≡ breach_shown number column self.now }
    {
        Shown {
            row: number,
            column,
            event: self.event,
            stretch: Stretch {
                since: 0,
                up: true,
                open_in: None,
            },
            is_undone: false,
            is_taken_back: false,
            is_in_transit: true,
            decision: None,
        }
    }
}

/// What is known at a row of the window, beside a walk: how many rows of the window came before it, and where marks of
/// processes are there.
#[derive(Clone, Copy)]
pub(crate) struct Known {
    pub(crate) column: u32,
    /// By process: the column of its last row.
    pub(crate) latest: [u32; 64],
    /// By process: the column of its last `took` row.
    pub(crate) taken: [u32; 64],
    /// By process: the column of its permanent position.
    pub(crate) places: [u32; 64],
}

impl Known {
    /// What the next row shows, but for what becomes of it.
    pub(crate) fn plain(&self, walk: &Walk, row: &Event) -> Shown
        requires few { walk.now.rows < 2 ^ 24 }
        requires column { self.now.column < 2 ^ 24 }
        ensures { (s : KnownAtRow) (rows : List Event) → KnownOf self.now walk.now s rows → result ≡ plain_at s row.now }
    {
        Shown {
            row: walk.rows() as u32 + 1,
            column: self.column + 1,
            event: *row,
            stretch: self.stretch(walk, row.process()),
            is_undone: false,
            is_taken_back: false,
            is_in_transit: false,
            decision: None,
        }
    }

    /// The stretch of a process's lane from its last row on.
    pub(crate) fn stretch(&self, walk: &Walk, p: ProcNo) -> Stretch
        ensures { (s : KnownAtRow) (rows : List Event) → KnownOf self.now walk.now s rows → result ≡ stretch_from s p }
    {
        Stretch {
            since: self.latest[p.index()],
            up: walk.is_up(p),
            open_in: walk.open_in(p),
        }
    }

    /// What is known after one more row, which the walk has not taken yet.
    pub(crate) fn after(&self, walk: &Walk, row: &Event) -> Known
        requires { self.now.column < 2 ^ 24 }
        ensures column { result.column ≡ self.now.column + 1 }
        ensures latest { result.latest ≡ slice_set self.now.latest (process_of row.now) (self.now.column + 1) }
        ensures taken { result.taken ≡ taken_after self.now.column self.now.taken row.now }
        ensures places { (rows : List Event) → WalkOf walk.now rows
            → result.places ≡ places_after (past rows) self.now.taken self.now.places row.now }
    {
        let column = self.column + 1;
        Known {
            column,
            latest: with_column(&self.latest, row.process(), column),
            taken: match *row {
                Event::Took { p, .. } => with_column(&self.taken, p, column),
                _ => self.taken,
            },
            places: match *row {
                Event::Decided { inst, commit, .. } if commit => self.promoted(walk, inst),
                _ => self.places,
            },
        }
    }

    // The columns of permanent positions after the commit of an instance: those of its `took` rows, where there are some.
    fn promoted(&self, walk: &Walk, inst: InstNo) -> [u32; 64]
        ensures { (rows : List Event) → WalkOf walk.now rows
            → result ≡ map (place_after (past rows) inst self.now.taken self.now.places) (range_with_len 0 64) }
    {
        let mut after = self.places;
        for number in 0..ProcNo::COUNT {
            if walk.position(inst, ProcNo::nth(number)).is_some() {
                after[number as usize] = self.taken[number as usize];
            }
        }
        after
    }
}

// These columns with another one of a process.
fn with_column(columns: &[u32; 64], p: ProcNo, column: u32) -> [u32; 64]
    ensures { result ≡ slice_set columns.now p column }
{
    let mut after = *columns;
    after[p.index()] = column;
    after
}

/// How the lane of each process goes on to the right end.
pub(crate) fn lane_ends(alloc: Global, walk: &Walk, known: &Known) -> Result<Vec<Stretch>, Memory>
    ensures { IfOk result (λ v. (s : KnownAtRow) (rows : List Event) → KnownOf known.now walk.now s rows
        → v.items ≡ map (stretch_from s) (range_with_len 0 64)) }
{
    let mut ends = Vec::new(alloc);
    for number in 0..ProcNo::COUNT {
        push_item(&mut ends, known.stretch(walk, ProcNo::nth(number)))?;
    }
    Ok(ends)
}

/// Adds the permanent cut after a row that commits an instance, where permanent positions are in the first columns before it
/// and in the second ones after it.
pub(crate) fn push_cut(
    cuts: &mut Vec<CutMark>,
    before: &[u32; 64],
    places: &[u32; 64],
    row: &Event,
) -> Result<(), Memory>
    ensures { OnOk result (cuts.new.items ≡ cuts.old.items ++ cut_in before.now places.now row.now) }
{
    match *row {
        Event::Decided { inst, commit, .. } if commit => {
            let cut = CutMark {
                inst,
                columns: *places,
                is_new: !(*before == *places),
            };
            push_item(cuts, cut)
        }
        _ => Ok(()),
    }
}

/// Gathers one more item.
pub(crate) fn push_item<T: Copy>(items: &mut Vec<T>, item: T) -> Result<(), Memory>
    ensures { OnOk result (items.new.items ≡ items.old.items ++ item ∷ []) }
{
    Ok(items.push(item)?)
}
