//! What is told of a log that passes: what was judged, and what it leaves open.

ghost use Rattle.std.specs.Prelude.{◌≡◌, ◌≢◌, ◌≤◌, ◌<◌, ◌+◌, ◌^◌, ◌||◌, ◌↔◌, not, ℕ, List, Some, true, length, count_by, Contains, IfOk};
ghost use Rattle.std.specs.List.{AllZip};
ghost use Rattle.kt_base.specs.Sets.{has};
ghost use Rattle.kt_spacetime.specs.declared.event.Event.{Event as Events};
ghost use Rattle.kt_meaning.specs.Past.{past};
ghost use Rattle.kt_meaning.specs.Legal.{IsLegal, is_in};
ghost use Rattle.kt_histories.specs.HistoriesOf.{HistoriesOf};
ghost use Rattle.kt_explain.specs.Judged.{AreDecided, IsJudgedSo, IsOpenInstance, is_anyone_in, is_decided, is_left_open, begun_open, open_instances, receiver_in_transit, receivers_in_transit, is_drop};

use kt_base::{InstNo, Kind, Memory, MsgNo, ProcNo, ProcSet};
use kt_histories::Histories;
use kt_histories::breach::before::begun_in;
use kt_histories::words::{Count, Instance, Process, say};
use kt_spacetime::{Certificate, Event, SpaceTime};
use std::alloc::Global;
use std::fmt;

/// How many instances of a kind were committed, and how many aborted.
#[derive(Clone, Copy)]
pub struct Decided {
    pub committed: usize,
    pub aborted: usize,
}

/// An instance that is undecided, or that not all of its members have closed.
#[derive(Clone, Copy)]
pub struct OpenInstance {
    pub inst: InstNo,
    /// The processes that are in it.
    pub inside: ProcSet,
}

/// What was judged, and what is left open.
#[derive(Drop)]
pub struct Judged {
    /// How many rows the log has.
    pub rows: usize,
    /// How many instances began.
    pub instances: usize,
    pub checkpoints: Decided,
    pub rollbacks: Decided,
    /// The open instances, in the order in which they began.
    pub open: Vec<OpenInstance>,
    /// How many messages are in transit.
    pub in_transit: usize,
    /// The processes that they are sent to.
    pub receivers: ProcSet,
    /// The processes that are down.
    pub down: ProcSet,
    /// How many messages were dropped.
    pub dropped: usize,
}

impl fmt::Display for Judged {
    fn fmt<W: fmt::Write>(&self, f: &mut fmt::Formatter<W>) -> fmt::Result {
        let (one, other) = (self.checkpoints, self.rollbacks);
        let read = [Count(self.rows), Count(self.instances)];
        say(f, "rows #, instances #: checkpoints ", &read)?;
        let one = [Count(one.committed), Count(one.aborted)];
        say(f, "# committed # aborted, rollbacks ", &one)?;
        let other = [Count(other.committed), Count(other.aborted)];
        say(f, "# committed # aborted\n", &other)?;
        for open in self.open.iter() {
            say(f, "open: instance #: ", &[Instance(open.inst)])?;
            write_processes(f, open.inside)?;
        }
        if self.in_transit > 0 {
            say(f, "in transit: # to ", &[Count(self.in_transit)])?;
            write_processes(f, self.receivers)?;
        }
        if self.down.count() > 0 {
            f.write_str("down: ")?;
            write_processes(f, self.down)?;
        }
        if self.dropped > 0 {
            say(f, "dropped: #\n", &[Count(self.dropped)])?;
        }
        Ok(())
    }
}

// The processes of a set, by rising number, to the end of the line.
fn write_processes<W: fmt::Write>(f: &mut fmt::Formatter<W>, set: ProcSet) -> fmt::Result {
    if set.count() == 0 {
        return f.write_str("no process\n");
    }
    f.write_str("processes")?;
    for number in 0..ProcNo::COUNT {
        let p = ProcNo::nth(number);
        if set.has(p) {
            say(f, " #", &[Process(p)])?;
        }
    }
    f.write_str("\n")
}

/// What is told of a legal log that passes with these certificates.
pub(crate) fn at_end(
    alloc: Global,
    log: &SpaceTime,
    certificates: &[Certificate],
) -> Result<Judged, Memory>
    requires legal { IsLegal log.now.rows }
    ensures { IfOk result (IsJudgedSo log.now.rows certificates.now) }
{
    let rows = log.rows();
    let histories = Histories::of(alloc, log, rows.len())?;
    let open = open_instances(alloc, &histories, rows)?;
    let transit = in_transit(&histories, rows);
    Ok(Judged {
        rows: rows.len(),
        instances: begun_in(rows),
        checkpoints: decided_by(certificates, Kind::Checkpoint),
        rollbacks: decided_by(certificates, Kind::Rollback),
        open,
        in_transit: transit.count,
        receivers: transit.receivers,
        down: down(&histories),
        dropped: dropped(rows),
    })
}

// How many certificates are of committed and of aborted instances of a kind.
fn decided_by(certificates: &[Certificate], kind: Kind) -> Decided
    ensures { AreDecided certificates.now kind result }
{
    Decided {
        committed: count_decided(certificates, kind, true),
        aborted: count_decided(certificates, kind, false),
    }
}

// How many are of instances of a kind that were decided so.
fn count_decided(certificates: &[Certificate], kind: Kind, commit: bool) -> usize
    ensures { result ≡ count_by (is_decided kind commit) certificates.now }
{
    certificates
        .iter()
        .filter(|c| c.kind == kind && c.commit == commit)
        .count()
}

// The open instances, in the order in which they began, with the processes that are in each.
fn open_instances(
    alloc: Global,
    histories: &Histories,
    rows: &[Event],
) -> Result<Vec<OpenInstance>, Memory>
    requires histories { HistoriesOf histories.now rows.now }
    ensures { IfOk result (λ list. AllZip (IsOpenInstance (past rows.now)) (open_instances rows.now) list.items) }
{
    let mut list = Vec::new(alloc);
    for row in rows {
        if let Some(inst) = begun_open(histories, row) {
            let inside = inside(histories, inst);
            list.push(OpenInstance { inst, inside })?;
        }
    }
    Ok(list)
}

// The instance that a row begins, if it is open.
fn begun_open(histories: &Histories, row: &Event) -> Option<InstNo>
    ensures { (rows : List Events) → HistoriesOf histories.now rows → result ≡ begun_open (past rows) row.now }
{
    match *row {
        Event::Began { inst, .. } if is_left_open(histories, inst) => Some(inst),
        _ => None,
    }
}

// Whether an instance that began is open.
fn is_left_open(histories: &Histories, inst: InstNo) -> bool
    ensures { (rows : List Events) → HistoriesOf histories.now rows → result ≡ is_left_open (past rows) inst }
{
    histories.decision(inst).is_none() || is_anyone_in(histories, inst)
}

// Whether a process is in an instance.
fn is_anyone_in(histories: &Histories, inst: InstNo) -> bool
    ensures { (rows : List Events) → HistoriesOf histories.now rows → result ≡ is_anyone_in (past rows) inst }
{
    for number in 0..ProcNo::COUNT {
        if is_in(histories, ProcNo::nth(number), inst) {
            return true;
        }
    }
    false
}

// The processes that are in an instance.
fn inside(histories: &Histories, inst: InstNo) -> ProcSet
    ensures { (rows : List Events) (p : ℕ) → HistoriesOf histories.now rows → p < 64
        → has result p ≡ is_in (past rows) p inst }
{
    let mut set = ProcSet::empty();
    for number in 0..ProcNo::COUNT {
        let p = ProcNo::nth(number);
        set = with_if(set, p, is_in(histories, p, inst));
    }
    set
}

// Whether this process is in an instance.
fn is_in(histories: &Histories, p: ProcNo, inst: InstNo) -> bool
    ensures { (rows : List Events) → HistoriesOf histories.now rows → result ≡ is_in (past rows) p inst }
{
    histories.open_in(p) == Some(inst)
}

// The set with this process too, if that is wanted.
fn with_if(set: ProcSet, p: ProcNo, is_wanted: bool) -> ProcSet
    ensures itself { has result p ≡ (is_wanted || has set p) }
    ensures others { (q : ℕ) → q ≢ p → has result q ≡ has set q }
{
    if is_wanted { set.with(p) } else { set }
}

// Messages in transit.
#[derive(Clone, Copy)]
struct Transit {
    count: usize,
    receivers: ProcSet,
}

// The messages in transit after these rows.
fn in_transit(histories: &Histories, rows: &[Event]) -> Transit
    requires few { length rows.now ≤ 2 ^ 24 }
    requires histories { HistoriesOf histories.now rows.now }
    ensures count { result.count ≡ length (receivers_in_transit rows.now) }
    ensures receivers { (q : ℕ) → has result.receivers q ≡ true ↔ Contains (receivers_in_transit rows.now) q }
{
    let mut transit = Transit {
        count: 0,
        receivers: ProcSet::empty(),
    };
    for place in 0..rows.len() {
        if let Some(to) = receiver(histories, place, &rows[place]) {
            transit.count += 1;
            transit.receivers = transit.receivers.with(to);
        }
    }
    transit
}

// Who is to receive the message that the row at a place sent, if it is in transit.
fn receiver(histories: &Histories, place: usize, row: &Event) -> Option<ProcNo>
    requires { place < 2 ^ 24 }
    ensures { (rows : List Events) → HistoriesOf histories.now rows
        → result ≡ receiver_in_transit (past rows) (place + 1) (Some row.now) }
{
    let Event::Sent { p, to, .. } = *row else {
        return None;
    };
    let is_waiting = histories.is_undelivered(to, p, MsgNo::after(place));
    is_waiting.then_some(to)
}

// The processes that are down.
fn down(histories: &Histories) -> ProcSet
    ensures { (rows : List Events) (p : ℕ) → HistoriesOf histories.now rows → p < 64
        → has result p ≡ not ((past rows).up p) }
{
    let mut set = ProcSet::empty();
    for number in 0..ProcNo::COUNT {
        let p = ProcNo::nth(number);
        set = with_if(set, p, !histories.is_up(p));
    }
    set
}

// How many messages were dropped.
fn dropped(rows: &[Event]) -> usize
    ensures { result ≡ count_by is_drop rows.now }
{
    rows.iter()
        .filter(|row| matches!(row, Event::Dropped { .. }))
        .count()
}
