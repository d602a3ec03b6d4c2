//! What is known before a row, and whether what the rules demand of the row is so: an error tells what is against it.

ghost use Rattle.std.specs.Prelude.{◌≡◌, ◌≤◌, ◌+◌, ◌^◌, ◌==◌, ℕ, not, is_none, true, false, Some, IfOk, IfNone, IfSome, length};
ghost use Rattle.kt_base.specs.declared.words.Kind.{Kind as Kinds};
ghost use Rattle.kt_spacetime.specs.declared.event.Event.TheVariants as event;
ghost use Rattle.kt_meaning.specs.Past.{Past, past, after};
ghost use Rattle.kt_meaning.specs.Legal.{IsLegal, follows};
ghost use Rattle.kt_histories.specs.Breaches.{IsJudged};

use crate::Histories;
use crate::breach::demands::{Demand, demands};
use crate::breach::{Breach, Open, Outside};
use crate::finding::{Found, Sought, first_row, is_sought, last_number};
use kt_base::{InstNo, Kind, Memory, ProcNo, RowNo};
use kt_spacetime::{Event, Rule, SpaceTime};
use std::alloc::Global;

/// The rows before a row, and their histories.
#[derive(Drop)]
pub struct Before<'a> {
    pub rows: &'a [Event],
    pub histories: Histories,
}

// Who began an instance, of which kind, and in which row.
#[derive(Clone, Copy)]
struct BegunIn {
    row: RowNo,
    p: ProcNo,
    kind: Kind,
}

impl Before<'_> {
    ghost use Rattle.kt_spacetime.specs.declared.event.Event.{Event as Row};
    ghost use Rattle.kt_meaning.specs.Past.{past, is_rollback, is_member, initiator_of, beginning_of};
    ghost use Rattle.kt_meaning.specs.Legal.{IsLegal, has_begun, is_in, is_in_none, is_instance, is_join, is_rolling, keeps};
    ghost use Rattle.kt_histories.specs.declared.breach.demands.Demand.TheVariants.{OfKind};
    ghost use Rattle.kt_histories.specs.Demands.{asks, IsDemandOn};
    ghost use Rattle.kt_histories.specs.Breaches.{KnowsBefore, IsDecidedIn, IsJudged, IsJudgedOf, IsLastIn, IsFirstUnmet, IsOpen};
    ghost use Rattle.kt_histories.specs.Finding.{IsFirstRow, begins_inst};

    /// Those of the rows of a legal log.
    pub fn of(alloc: Global, rows: &[Event]) -> Result<Before<'_>, Memory>
        requires few { length rows.now ≤ 2 ^ 24 }
        requires legal { IsLegal rows.now }
        ensures before { IfOk result (λ b. KnowsBefore b) }
        ensures rows { IfOk result (λ b. b.rows.now ≡ rows.now) }
    {
        let mut histories = Histories::of(alloc, &SpaceTime::new(alloc), 0)?;
        for row in rows {
            histories.add(row)?;
        }
        Ok(Before { rows, histories })
    }

    /// What breaks the first demand of a rule on a row that is not met.
    pub fn broken(&self, rule: Rule, row: &Event) -> Option<Breach>
        requires before { KnowsBefore self.now }
        ensures unmet { IfSome result (IsFirstUnmet self.now.rows.now rule row.now) }
        ensures kept { IfNone result (keeps rule (past self.now.rows.now) row.now ≡ true) }
    {
        for demand in &demands(rule, row) {
            if let Some(breach) = self.against(demand) {
                return Some(breach);
            }
        }
        None
    }

    // What is against a demand.
    fn against(&self, demand: &Demand) -> Option<Breach>
        requires before { KnowsBefore self.now }
        ensures { (row : Row) → IsDemandOn row demand.now → IsJudgedOf self.now.rows.now row (asks demand.now) result }
    {
        match *demand {
            Demand::Nothing => None,
            Demand::Never => Some(Breach::NoCause),
            Demand::OtherPeer(p, peer) => (peer == p).then_some(Breach::OwnPeer(p)),
            Demand::OtherCause(inst, cause) => (cause == inst).then_some(Breach::OwnCause(inst)),
            Demand::Next(inst) => self.next(inst),
            Demand::Begun(inst) => self.begun(inst),
            Demand::Sent(p, from, msg) => self.sent(p, from, msg),
            Demand::NotReceived(p, from, msg) => self.not_received(p, from, msg),
            Demand::NotDropped(msg) => self.not_dropped(msg),
            Demand::AfterReceived(p, from, msg) => self.after_received(p, from, msg),
            Demand::AfterDropped(p, from, msg) => self.after_dropped(p, from, msg),
            Demand::Up(p) => self.up(p),
            Demand::Down(p) => self.histories.is_up(p).then_some(Breach::Up(p)),
            Demand::Idle(p) => self.idle(p),
            Demand::NotRolling(p) => self.not_rolling(p),
            Demand::Inside(p, inst) => self.inside(p, inst),
            Demand::NotInside(p, inst) => self.not_member(p, inst),
            Demand::NotJoined(p, inst) => self.not_joined(p, inst),
            Demand::Follows(row) => self.follows(&row),
            Demand::OfKind(inst, kind) => self.of_kind(inst, kind),
            Demand::Initiator(p, inst) => self.initiator(p, inst),
            Demand::Undecided(inst) => self.undecided(inst),
            Demand::Decided(inst) => self
                .histories
                .decision(inst)
                .is_none()
                .then_some(Breach::Undecided(inst)),
        }
    }

    // The process is up.
    fn up(&self, p: ProcNo) -> Option<Breach>
        requires before { KnowsBefore self.now }
        ensures { IsJudged self.now.rows.now (λ s. s.up p) result }
    {
        if self.histories.is_up(p) {
            return None;
        }
        let row = last_number(self.rows, &Sought::Failed(p))?;
        Some(Breach::Down(p, row))
    }

    // The process is in no open instance.
    fn idle(&self, p: ProcNo) -> Option<Breach>
        requires before { KnowsBefore self.now }
        ensures { IsJudged self.now.rows.now (λ s. is_in_none s p) result }
    {
        let inst = self.histories.open_in(p)?;
        let row = last_number(self.rows, &Sought::Joined(p, inst))?;
        Some(Breach::Inside(self.open_at(p, inst, row)))
    }

    // The open instance that the process is in, which it joined last in this row.
    fn open_at(&self, p: ProcNo, inst: InstNo, row: RowNo) -> Open
        requires before { KnowsBefore self.now }
        requires open_in { (past self.now.rows.now).open_in p ≡ Some inst }
        requires joined { IsLastIn (is_join p inst) self.now.rows.now row }
        ensures told { IsOpen self.now.rows.now result }
        ensures p { result.p ≡ p }
        ensures inst { result.inst ≡ inst }
    {
        Open {
            p,
            inst,
            row,
            decided: last_number(self.rows, &Sought::Decided(inst)),
        }
    }

    // The process is in no open rollback.
    fn not_rolling(&self, p: ProcNo) -> Option<Breach>
        requires before { KnowsBefore self.now }
        ensures { IsJudged self.now.rows.now (λ s. not (is_rolling s p)) result }
    {
        let inst = self.histories.open_in(p)?;
        if !self.is_rollback(inst) {
            return None;
        }
        let row = last_number(self.rows, &Sought::Joined(p, inst))?;
        Some(Breach::Rolling(self.open_at(p, inst, row)))
    }

    // The process is not in this open instance, which it is asked to join.
    fn not_member(&self, p: ProcNo, inst: InstNo) -> Option<Breach>
        requires before { KnowsBefore self.now }
        ensures { IsJudged self.now.rows.now (λ s. not (is_in s p inst)) result }
    {
        if self.histories.open_in(p) != Some(inst) {
            return None;
        }
        let row = last_number(self.rows, &Sought::Joined(p, inst))?;
        Some(Breach::Member(p, inst, row))
    }

    // The process is in this open instance.
    fn inside(&self, p: ProcNo, inst: InstNo) -> Option<Breach>
        requires before { KnowsBefore self.now }
        ensures { IsJudged self.now.rows.now (λ s. is_in s p inst) result }
    {
        let open_in = self.histories.open_in(p);
        if open_in == Some(inst) {
            return None;
        }
        Some(Breach::NotInside(Outside {
            p,
            inst,
            open_in,
            decided: self.decided_in(open_in),
            joined: last_number(self.rows, &Sought::Joined(p, inst)),
            closed: last_number(self.rows, &Sought::Closed(p, inst)),
        }))
    }

    // The row that decided an open instance.
    fn decided_in(&self, open_in: Option<InstNo>) -> Option<RowNo>
        requires before { KnowsBefore self.now }
        ensures { IsDecidedIn self.now.rows.now open_in result }
    {
        last_number(self.rows, &Sought::Decided(open_in?))
    }

    // The process has not joined the instance.
    fn not_joined(&self, p: ProcNo, inst: InstNo) -> Option<Breach>
        requires before { KnowsBefore self.now }
        ensures { IsJudged self.now.rows.now (λ s. not (is_member s inst p)) result }
    {
        let row = last_number(self.rows, &Sought::Joined(p, inst))?;
        Some(Breach::Joined(p, inst, row))
    }

    // The instance has begun.
    fn begun(&self, inst: InstNo) -> Option<Breach>
        requires before { KnowsBefore self.now }
        ensures { IsJudged self.now.rows.now (λ s. has_begun s inst) result }
    {
        match self.beginning(inst) {
            Some(_) => None,
            None => Some(Breach::NotBegun(inst)),
        }
    }

    // The instance has the number of the next one to begin.
    fn next(&self, inst: InstNo) -> Option<Breach>
        requires before { KnowsBefore self.now }
        ensures { IsJudged self.now.rows.now (λ s. inst == length s.begun + 1) result }
    {
        let next = begun_in(self.rows) + 1;
        if inst.get() as usize == next {
            None
        } else {
            Some(Breach::Next(next))
        }
    }

    // The instance is not decided.
    fn undecided(&self, inst: InstNo) -> Option<Breach>
        requires before { KnowsBefore self.now }
        ensures { IsJudged self.now.rows.now (λ s. is_none (s.decision inst)) result }
    {
        let row = last_number(self.rows, &Sought::Decided(inst))?;
        Some(Breach::Decided(inst, row))
    }

    // The instance is of this kind.
    fn of_kind(&self, inst: InstNo, kind: Kind) -> Option<Breach>
        requires before { KnowsBefore self.now }
        ensures { IsJudged self.now.rows.now (asks (OfKind inst kind)) result }
    {
        let Some(begun) = self.beginning(inst) else {
            return Some(Breach::NotBegun(inst));
        };
        (begun.kind != kind).then_some(Breach::OfKind(inst, begun.kind, begun.row))
    }

    // The process is the initiator of the instance.
    fn initiator(&self, p: ProcNo, inst: InstNo) -> Option<Breach>
        requires before { KnowsBefore self.now }
        ensures { IsJudged self.now.rows.now (λ s. is_instance (initiator_of s inst) p) result }
    {
        let Some(BegunIn { row, p: first, .. }) = self.beginning(inst) else {
            return Some(Breach::NotBegun(inst));
        };
        (first != p).then_some(Breach::Initiator(inst, first, row))
    }

    // The row after a beginning is the initiator's joining.
    fn follows(&self, row: &Event) -> Option<Breach>
        requires before { KnowsBefore self.now }
        ensures { IsJudged self.now.rows.now (λ s. follows s.last row.now) result }
    {
        let Some(Event::Began { p, inst, kind }) = self.rows.last() else {
            return None;
        };
        if is_sought(&Sought::Joined(*p, *inst), row) {
            None
        } else {
            Some(Breach::JustBegun(*p, *inst, *kind))
        }
    }

    // Whether the instance is a rollback.
    fn is_rollback(&self, inst: InstNo) -> bool
        requires before { KnowsBefore self.now }
        ensures { result ≡ is_rollback (past self.now.rows.now) inst }
    {
        match self.beginning(inst) {
            Some(begun) => begun.kind == Kind::Rollback,
            None => false,
        }
    }

    // How an instance began.
    fn beginning(&self, inst: InstNo) -> Option<BegunIn>
        requires before { KnowsBefore self.now }
        ensures row { IfSome result (λ b. IsFirstRow (begins_inst inst) self.now.rows.now b.row
            (event.Began b.p inst b.kind)) }
        ensures known { IfSome result (λ b. beginning_of (past self.now.rows.now) inst
            ≡ Some (record { initiator = b.p; kind = b.kind })) }
        ensures none { IfNone result (has_begun (past self.now.rows.now) inst ≡ false) }
    {
        match first_row(self.rows, &Sought::Began(inst)) {
            Some(found) => begun_by(&found),
            None => None,
        }
    }
}

// How the instance began that a row begins.
fn begun_by(found: &Found) -> Option<BegunIn>
    ensures some { IfSome result (λ b. (b.row ≡ found.now.number)
        × (k : ℕ) × (found.now.row ≡ event.Began b.p k b.kind)) }
    ensures none { IfNone result ((p k : ℕ) (kind : Kinds) → found.now.row ≡ event.Began p k kind → ⊥) }
{
    let Event::Began { p, kind, .. } = found.row else {
        return None;
    };
    Some(BegunIn {
        row: found.number,
        p,
        kind,
    })
}

/// How many instances began.
pub fn begun_in(rows: &[Event]) -> usize
    requires few { length rows.now ≤ 2 ^ 24 }
    ensures begun { result ≡ length (past rows.now).begun }
    ensures few { result ≤ 2 ^ 24 }
{
    let mut count = 0;
    for place in 0..rows.len() {
        count += count_of(&rows[place]);
    }
    count
}

// How many instances a row begins.
fn count_of(row: &Event) -> usize
    ensures begun { (s : Past) → length (after s row.now).begun ≡ length s.begun + result }
    ensures one { result ≤ 1 }
{
    match *row {
        Event::Began { .. } => 1,
        _ => 0,
    }
}
