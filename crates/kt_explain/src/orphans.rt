//! What is told of a cut that has an orphan.

ghost use Rattle.std.specs.Prelude.{◌≡◌, ◌<◌, ◌≤◌, ◌^◌, ◌↔◌, ℕ, List, Some, Contains, IfOk, IfNone, IfSome, IsTrue, length, slice_index, take};
ghost use Rattle.kt_spacetime.specs.declared.event.Event.{Event as Events};
ghost use Rattle.kt_meaning.specs.Past.{past, kind_of};
ghost use Rattle.kt_meaning.specs.Legal.{IsLegal};
ghost use Rattle.kt_meaning.specs.Cuts.{IsConsistent, IsOrphan};
ghost use Rattle.kt_meaning.specs.Chains.{joins, members};
ghost use Rattle.kt_spacetime.specs.declared.verdict.Verdict.TheVariants.{No};
ghost use Rattle.kt_spacetime.specs.declared.verdict.Why.TheVariants as why;
ghost use Rattle.kt_meaning.specs.Answers.{IsCheckerAnswer};
ghost use Rattle.kt_meaning.specs.Passing.{decided_cut};
ghost use Rattle.kt_histories.specs.HistoriesOf.{HistoriesOf};
ghost use Rattle.kt_explain.specs.Told.{HasParts, IsOrphanTold, IsExplanation};
ghost use Rattle.kt_histories.specs.Breaches.{IsUndoing};

use crate::compared::first_of;
use crate::explanation::Explanation;
use kt_base::{InstNo, Kind, Memory, MsgNo, ProcNo, RowNo};
use kt_histories::Histories;
use kt_histories::finding::{Sought, last_number};
use kt_histories::undoing::undoing;
use kt_histories::words::{Message, Process, Row, say};
use kt_rules::Cut;
use kt_spacetime::{Certificate, Event, SpaceTime};
use std::alloc::Global;
use std::fmt;

/// An orphan of the cut that the decision of an instance makes. Its number is that of the row that sent it.
#[derive(Clone, Copy)]
pub struct Orphan {
    pub msg: MsgNo,
    pub from: ProcNo,
    pub to: ProcNo,
    /// The row in which it was received.
    pub received: RowNo,
    /// The row that undid its send, if one did.
    pub undone: Option<RowNo>,
    /// Whether its sender is a member of the instance.
    pub is_sender_member: bool,
    /// Whether its receiver is.
    pub is_receiver_member: bool,
}

impl fmt::Display for Orphan {
    fn fmt<W: fmt::Write>(&self, f: &mut fmt::Formatter<W>) -> fmt::Result {
        let Orphan { msg, from, to, .. } = *self;
        let sent = "message # is an orphan: process # sent it in row #";
        say(f, sent, &[Message(msg), Process(from), Message(msg)])?;
        if let Some(row) = self.undone {
            say(f, ", which row # undid", &[Row(row)])?;
        }
        let received = "; process # received it in row #\nits sender is ";
        say(f, received, &[Process(to), Row(self.received)])?;
        let sender = member_word(self.is_sender_member);
        let receiver = member_word(self.is_receiver_member);
        writeln!(f, "{sender} of the instance, its receiver is {receiver}")
    }
}

// Whether a process is a member.
fn member_word(is_member: bool) -> &'static str {
    if is_member { "a member" } else { "no member" }
}

/// The least orphan of the cut that the decision of an instance makes, of which this is the row.
pub(crate) fn orphan_at(
    alloc: Global,
    log: &SpaceTime,
    certificates: &[Certificate],
    inst: InstNo,
    row: RowNo,
) -> Result<Explanation, Memory>
    requires answer { IsCheckerAnswer log.now.rows certificates.now (No (Some inst) (Some row) why.Orphan) }
    ensures { IfOk result (IsExplanation log.now.rows certificates.now (No (Some inst) (Some row) why.Orphan)) }
{
    let Some(first) = first_of(certificates, inst) else {
        return Ok(Explanation::Nothing);
    };
    match orphan_before(alloc, log, row.get() as usize - 1, inst, first.kind)? {
        Some(orphan) => Ok(Explanation::Orphan { inst, orphan }),
        None => Ok(Explanation::Nothing),
    }
}

// The least orphan of the cut that the decision of an instance of this kind makes, after so many rows.
fn orphan_before(
    alloc: Global,
    log: &SpaceTime,
    before: usize,
    inst: InstNo,
    kind: Kind,
) -> Result<Option<Orphan>, Memory>
    requires legal { IsLegal log.now.rows }
    requires before { before ≤ length log.now.rows }
    requires kind { kind_of (past (take before log.now.rows)) inst ≡ Some kind }
    ensures orphan { IfOk result (λ found. IfSome found (IsOrphanTold (take before log.now.rows) inst kind)) }
    ensures none { IfOk result (λ found. IfNone found (IsConsistent (past (take before log.now.rows))
        (decided_cut (past (take before log.now.rows)) inst kind))) }
{
    let histories = Histories::of(alloc, log, before)?;
    let rows = &log.rows()[..before];
    let joined = joined_in(alloc, rows, inst)?;
    least_orphan(alloc, &histories, rows, joined.as_slice(), inst, kind)
}

// The members of an instance, in the order in which they joined.
fn joined_in(alloc: Global, rows: &[Event], inst: InstNo) -> Result<Vec<ProcNo>, Memory>
    ensures { IfOk result (λ list. list.items ≡ members rows.now inst) }
{
    let list = rows
        .iter()
        .filter_map(|row| joining(inst, row))
        .collect(alloc)?;
    Ok(list)
}

// The process that joins an instance by a row.
fn joining(inst: InstNo, row: &Event) -> Option<ProcNo>
    ensures { result ≡ joins inst row.now }
{
    match *row {
        Event::Took { p, inst: joined } if joined == inst => Some(p),
        Event::Ready { p, inst: joined } if joined == inst => Some(p),
        _ => None,
    }
}

// The least orphan of the cut that the decision of an instance of this kind makes, of which these joined.
fn least_orphan(
    alloc: Global,
    histories: &Histories,
    rows: &[Event],
    joined: &[ProcNo],
    inst: InstNo,
    kind: Kind,
) -> Result<Option<Orphan>, Memory>
    requires few { length rows.now ≤ 2 ^ 24 }
    requires histories { HistoriesOf histories.now rows.now }
    requires legal { IsLegal rows.now }
    requires kind { kind_of (past rows.now) inst ≡ Some kind }
    requires joined { joined.now ≡ members rows.now inst }
    ensures orphan { IfOk result (λ found. IfSome found (IsOrphanTold rows.now inst kind)) }
    ensures none { IfOk result (λ found. IfNone found (IsConsistent (past rows.now)
        (decided_cut (past rows.now) inst kind))) }
{
    let cut = cut_of(histories, inst, kind, joined);
    let Some(msg) = histories.first_orphan(&cut) else {
        return Ok(None);
    };
    let undone = undoing(alloc, rows, msg)?;
    Ok(told_of(rows, joined, msg, undone))
}

// What is told of an orphan.
fn told_of(rows: &[Event], joined: &[ProcNo], msg: MsgNo, undone: Option<RowNo>) -> Option<Orphan>
    requires few { length rows.now ≤ 2 ^ 24 }
    requires legal { IsLegal rows.now }
    requires undone { IfSome undone (IsUndoing rows.now msg) }
    ensures orphan { IfSome result (λ o. HasParts rows.now joined.now msg o) }
    ensures none { IfNone result ((cut : ℕ → ℕ) → IsOrphan (past rows.now) cut msg → ⊥) }
{
    let index = msg.index();
    if index >= rows.len() {
        return None;
    }
    let Event::Sent { p: from, to, .. } = rows[index] else {
        return None;
    };
    match last_number(rows, &Sought::Received(to, from, msg)) {
        Some(received) => Some(Orphan {
            msg,
            from,
            to,
            received,
            undone,
            is_sender_member: is_among(joined, from),
            is_receiver_member: is_among(joined, to),
        }),
        None => None,
    }
}

// The cut that the decision of an instance makes, of which these joined.
fn cut_of(histories: &Histories, inst: InstNo, kind: Kind, joined: &[ProcNo]) -> Cut
    ensures { (rows : List Events) (p : ℕ) → HistoriesOf histories.now rows → IsLegal rows
        → kind_of (past rows) inst ≡ Some kind → joined.now ≡ members rows inst → p < 64
        → slice_index result p ≡ decided_cut (past rows) inst kind p }
{
    let mut cut = Cut::new([0; 64]);
    for number in 0..ProcNo::COUNT {
        let p = ProcNo::nth(number);
        cut.set(p, length_in_cut(histories, inst, kind, joined, p));
    }
    cut
}

// A process's length in that cut.
fn length_in_cut(
    histories: &Histories,
    inst: InstNo,
    kind: Kind,
    joined: &[ProcNo],
    p: ProcNo,
) -> usize
    ensures { (rows : List Events) → HistoriesOf histories.now rows → IsLegal rows
        → kind_of (past rows) inst ≡ Some kind → joined.now ≡ members rows inst
        → result ≡ decided_cut (past rows) inst kind p }
{
    match kind {
        Kind::Checkpoint => match histories.position(inst, p) {
            Some(position) => position,
            None => histories.permanent(p),
        },
        Kind::Rollback => {
            if is_among(joined, p) {
                histories.permanent(p)
            } else {
                histories.length(p)
            }
        }
    }
}

// Whether a process joined.
fn is_among(joined: &[ProcNo], p: ProcNo) -> bool
    ensures { IsTrue result ↔ Contains joined.now p }
{
    joined.contains(&p)
}
