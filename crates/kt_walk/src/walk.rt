//! A reader of a log row by row, which keeps no rows.

ghost use Rattle.std.specs.Prelude.{◌≡◌, ◌<◌, ◌^◌, ◌+◌, ◌*◌, ◌++◌, ◌∷◌, ◌||◌, [], ℕ, List, length, IfOk, OnOk, OnErr, IfNone, IfSome, Err, None, Some, true, false, slice_get, slice_index, ◌≤◌};
ghost use Rattle.kt_spacetime.specs.declared.event.Event.{Event};
ghost use Rattle.kt_spacetime.specs.declared.event.Event.TheVariants as event;
ghost use Rattle.kt_rules.specs.declared.traces.Trace.{Trace};
ghost use Rattle.kt_spacetime.specs.declared.rules.Rule.{Rule};
ghost use Rattle.kt_rules.specs.declared.legality.LegalFault.TheVariants as fault;
ghost use Rattle.kt_meaning.specs.Past.{past};
ghost use Rattle.kt_meaning.specs.Legal.{IsLegal, broken_rule, first_broken};
ghost use Rattle.kt_base.specs.Sets.{has};
ghost use Rattle.kt_meaning.specs.Cuts.{IsOrphan};
ghost use Rattle.kt_rules.specs.Orphans.{IsOrphanBetween};
ghost use Rattle.kt_walk.specs.declared.in_transit.Sent.{Sent};
ghost use Rattle.kt_walk.specs.Keeping.{kept_trace, held_of};
ghost use Rattle.kt_walk.specs.Arrivals.{KeepsPermanent};
ghost use Rattle.kt_walk.specs.PartsOf.{takes_in_transit, follows, moves_message};
ghost use Rattle.kt_walk.specs.Pairs.{PairState};
ghost use Rattle.kt_walk.specs.Searching.{IsFoundPast};
ghost use Rattle.kt_walk.specs.WalkOf.{WalkOf, IsFoundAt};

use crate::all_pairs::Pairs;
use crate::control::ControlState;
use crate::in_transit::Sent;
use crate::queue::Arrival;
use kt_base::{InstNo, Memory, MsgNo, ProcNo, ProcSet, RowNo};
use kt_rules::{Cut, LegalFault, Trace, is_after};
use kt_spacetime::Event;
use std::alloc::Global;
use std::marker::Model;

/// A reader of a log row by row, which keeps no rows: what is known after the rows fed so far.
///
/// Where it stands for some rows, its answers are what these rows say. It keeps a message only while it was not
/// dropped, is live or in its receiver's live history, and one of its rows lies past the permanent positions. The
/// messages from one process to another are kept together.
#[derive(Drop)]
pub struct Walk {
    control: ControlState,
    pairs: Pairs,
}

impl Model for Walk {
    ghost use Rattle.kt_walk.specs.WalkParts.{WalkParts, walk_parts};

    ghost Value = { WalkParts };

    ghost view = { λ w. walk_parts w.control w.pairs };
}

impl Walk {
    /// A walk that was fed no rows.
    pub fn new(alloc: Global) -> Result<Walk, Memory>
        ensures { IfOk result (λ w. WalkOf w []) }
    {
        let control = ControlState::new(alloc)?;
        let pairs = Pairs::new(alloc);
        Ok(Walk { control, pairs })
    }

    /// Takes one more row, where it breaks no rule of a legal log; else the number of this row and the least rule that
    /// it breaks. A walk that refuses a row, or lacks the memory for it, is unchanged.
    pub fn feed(&mut self, row: &Event) -> Result<(), LegalFault>
        requires few { self.old.rows < 2 ^ 24 }
        ensures fed { OnOk result ((rows : List Event) → WalkOf self.old rows → IsLegal (rows ++ row.now ∷ [])
            × WalkOf self.new (rows ++ row.now ∷ [])) }
        ensures broken { (number : ℕ) (rule : Rule) → result ≡ Err (fault.Broken number rule) → (rows : List Event)
            → WalkOf self.old rows → IsLegal rows × (first_broken (rows ++ row.now ∷ []) ≡ Some (number, rule)) }
        ensures unchanged { OnErr result (self.new ≡ self.old) }
    {
        match *row {
            Event::Sent { p, to, .. } => {
                if !self.control.may_send(p, to) {
                    self.test(row, false)?;
                }
                self.send(p, to)?;
                Ok(())
            }
            Event::Received { p, from, msg } => self.feed_received(p, from, msg),
            Event::Dropped { p, from, msg } => self.feed_dropped(p, from, msg),
            _ => {
                self.test(row, false)?;
                self.add(row)?;
                Ok(())
            }
        }
    }

    // Takes a row that receives a message.
    fn feed_received(&mut self, p: ProcNo, from: ProcNo, msg: MsgNo) -> Result<(), LegalFault>
        requires few { self.old.rows < 2 ^ 24 }
        ensures fed { OnOk result ((rows : List Event) → WalkOf self.old rows
            → IsLegal (rows ++ event.Received p from msg ∷ [])
            × WalkOf self.new (rows ++ event.Received p from msg ∷ [])) }
        ensures broken { (number : ℕ) (rule : Rule) → result ≡ Err (fault.Broken number rule) → (rows : List Event)
            → WalkOf self.old rows → IsLegal rows
            × (first_broken (rows ++ event.Received p from msg ∷ []) ≡ Some (number, rule)) }
        ensures unchanged { OnErr result (self.new ≡ self.old) }
    {
        let Some((index, message)) = self.pairs.find(p, from, msg) else {
            // The message is not in transit, so the row breaks a rule.
            return self.test(&Event::Received { p, from, msg }, false);
        };
        let in_turn = is_after(msg, self.pairs.last(p, from));
        if !self.control.may_receive(p, from, msg, in_turn) {
            self.test(&Event::Received { p, from, msg }, true)?;
        }
        self.receive(p, from, index, message)?;
        Ok(())
    }

    // Takes a row that drops a message.
    fn feed_dropped(&mut self, p: ProcNo, from: ProcNo, msg: MsgNo) -> Result<(), LegalFault>
        requires few { self.old.rows < 2 ^ 24 }
        ensures fed { OnOk result ((rows : List Event) → WalkOf self.old rows
            → IsLegal (rows ++ event.Dropped p from msg ∷ [])
            × WalkOf self.new (rows ++ event.Dropped p from msg ∷ [])) }
        ensures broken { (number : ℕ) (rule : Rule) → result ≡ Err (fault.Broken number rule) → (rows : List Event)
            → WalkOf self.old rows → IsLegal rows
            × (first_broken (rows ++ event.Dropped p from msg ∷ []) ≡ Some (number, rule)) }
        ensures unchanged { OnErr result (self.new ≡ self.old) }
    {
        let Some((index, message)) = self.pairs.find(p, from, msg) else {
            // The message is not in transit, so the row breaks a rule.
            return self.test(&Event::Dropped { p, from, msg }, false);
        };
        self.test(&Event::Dropped { p, from, msg }, true)?;
        self.drop_message(p, from, index, message)?;
        Ok(())
    }

    /// Takes one more row of a legal log, and tests no rule. A walk that lacks the memory for it is unchanged.
    pub fn feed_legal(&mut self, row: &Event) -> Result<(), Memory>
        requires few { self.old.rows < 2 ^ 24 }
        ensures fed { OnOk result ((rows : List Event) → WalkOf self.old rows → IsLegal (rows ++ row.now ∷ [])
            → WalkOf self.new (rows ++ row.now ∷ [])) }
        ensures unchanged { OnErr result (self.new ≡ self.old) }
    {
        match *row {
            Event::Sent { p, to, .. } => self.send(p, to),
            Event::Received { p, from, msg } => self.receive_legal(p, from, msg),
            Event::Dropped { p, from, msg } => self.drop_legal(p, from, msg),
            _ => self.add(row),
        }
    }

    // Takes a row of a legal log that receives a message.
    fn receive_legal(&mut self, p: ProcNo, from: ProcNo, msg: MsgNo) -> Result<(), Memory>
        requires few { self.old.rows < 2 ^ 24 }
        ensures fed { OnOk result ((rows : List Event) → WalkOf self.old rows
            → IsLegal (rows ++ event.Received p from msg ∷ [])
            → WalkOf self.new (rows ++ event.Received p from msg ∷ [])) }
        ensures unchanged { OnErr result (self.new ≡ self.old) }
    {
        match self.pairs.find(p, from, msg) {
            Some((index, message)) => self.receive(p, from, index, message),
            // In a legal log the message is in transit.
            None => Ok(()),
        }
    }

    // Takes a row of a legal log that drops a message.
    fn drop_legal(&mut self, p: ProcNo, from: ProcNo, msg: MsgNo) -> Result<(), Memory>
        requires few { self.old.rows < 2 ^ 24 }
        ensures fed { OnOk result ((rows : List Event) → WalkOf self.old rows
            → IsLegal (rows ++ event.Dropped p from msg ∷ [])
            → WalkOf self.new (rows ++ event.Dropped p from msg ∷ [])) }
        ensures unchanged { OnErr result (self.new ≡ self.old) }
    {
        match self.pairs.find(p, from, msg) {
            Some((index, message)) => self.drop_message(p, from, index, message),
            // In a legal log the message is in transit.
            None => Ok(()),
        }
    }

    // The number of the next row and the least rule that it breaks, where it breaks one; it is tested rule by rule.
    // Whether the message that it takes is in transit is given.
    #[inline(never)]
    fn test(&self, row: &Event, is_in_transit: bool) -> Result<(), LegalFault>
        requires few { self.now.rows < 2 ^ 24 }
        ensures unbroken { OnOk result ((rows : List Event) → WalkOf self.now rows
            → is_in_transit ≡ takes_in_transit (past rows) row.now
            → broken_rule (past rows) row.now ≡ None) }
        ensures broken { (number : ℕ) (rule : Rule) → result ≡ Err (fault.Broken number rule) → (rows : List Event)
            → WalkOf self.now rows → is_in_transit ≡ takes_in_transit (past rows) row.now
            → IsLegal rows × (first_broken (rows ++ row.now ∷ []) ≡ Some (number, rule)) }
    {
        let in_turn = self.follows(row);
        match self.control.broken_rule(row, is_in_transit, in_turn) {
            Some(rule) => Err(LegalFault::Broken(RowNo::after(self.control.rows), rule)),
            None => Ok(()),
        }
    }

    /// Whether a row takes a message that is in transit to the row's process: whether it receives or drops a message that
    /// was sent to it live by the process that it names, is not in its live history and was not dropped.
    pub fn takes_in_transit(&self, row: &Event) -> bool
        ensures takes { (rows : List Event) → WalkOf self.now rows → result ≡ takes_in_transit (past rows) row.now }
    {
        match *row {
            Event::Received { p, from, msg } | Event::Dropped { p, from, msg } => {
                self.pairs.find(p, from, msg).is_some()
            }
            _ => false,
        }
    }

    // Whether the message that a row takes comes after all that the live history received from its sender.
    fn follows(&self, row: &Event) -> bool
        ensures { (rows : List Event) → WalkOf self.now rows → result ≡ follows (past rows) row.now }
    {
        match *row {
            Event::Received { p, from, msg } | Event::Dropped { p, from, msg } => {
                is_after(msg, self.pairs.last(p, from))
            }
            _ => true,
        }
    }

    // Takes one more row that breaks no rule, and neither sends, receives nor drops a message.
    fn add(&mut self, row: &Event) -> Result<(), Memory>
        requires few { self.old.rows < 2 ^ 24 }
        requires other { moves_message row.now ≡ false }
        ensures fed { OnOk result ((rows : List Event) → WalkOf self.old rows
            → broken_rule (past rows) row.now ≡ None → WalkOf self.new (rows ++ row.now ∷ [])) }
        ensures unchanged { OnErr result (self.new ≡ self.old) }
    {
        match *row {
            Event::Decided { inst, commit, .. } => {
                self.pairs.shrink();
                self.control.decide(&mut self.pairs, inst, commit);
                Ok(())
            }
            _ => self.control.add(row),
        }
    }

    // A process sends a message to another one, which breaks no rule.
    #[inline(always)]
    fn send(&mut self, p: ProcNo, to: ProcNo) -> Result<(), Memory>
        requires few { self.old.rows < 2 ^ 24 }
        ensures fed { OnOk result ((rows : List Event) (body : _) → WalkOf self.old rows
            → broken_rule (past rows) (event.Sent p to body) ≡ None
            → WalkOf self.new (rows ++ event.Sent p to body ∷ [])) }
        ensures unchanged { OnErr result (self.new ≡ self.old) }
    {
        let message = Sent {
            msg: MsgNo::after(self.control.rows),
            place: self.control.process_state(p).length,
        };
        self.pairs.send(p, to, message)?;
        self.control.extend(p);
        Ok(())
    }

    // A process receives a message, which breaks no rule, at this place among those in transit.
    #[inline(always)]
    fn receive(
        &mut self,
        p: ProcNo,
        from: ProcNo,
        index: usize,
        message: Sent,
    ) -> Result<(), Memory>
        requires few { self.old.rows < 2 ^ 24 }
        requires found { IsFoundAt self.old.pair_states p from index message }
        ensures fed { OnOk result ((rows : List Event) → WalkOf self.old rows
            → broken_rule (past rows) (event.Received p from message.msg) ≡ None
            → WalkOf self.new (rows ++ event.Received p from message.msg ∷ [])) }
        ensures unchanged { OnErr result (self.new ≡ self.old) }
    {
        let arrival = Arrival {
            msg: message.msg,
            sent: message.place,
            received: self.control.process_state(p).length,
        };
        self.pairs.receive(p, from, index, arrival)?;
        self.control.extend(p);
        Ok(())
    }

    // A process drops a message, which breaks no rule, at this place among those in transit.
    fn drop_message(
        &mut self,
        p: ProcNo,
        from: ProcNo,
        index: usize,
        message: Sent,
    ) -> Result<(), Memory>
        requires few { self.old.rows < 2 ^ 24 }
        requires found { IsFoundAt self.old.pair_states p from index message }
        ensures fed { OnOk result ((rows : List Event) → WalkOf self.old rows
            → broken_rule (past rows) (event.Dropped p from message.msg) ≡ None
            → WalkOf self.new (rows ++ event.Dropped p from message.msg ∷ [])) }
        ensures unchanged { OnErr result (self.new ≡ self.old) }
    {
        let msg = message.msg;
        self.pairs.drop_message(p, from, index, message)?;
        self.control.drop_message(p, from, msg);
        Ok(())
    }

    /// How many rows were fed.
    pub fn rows(&self) -> usize
        ensures count { (rows : List Event) → WalkOf self.now rows → result ≡ length rows }
        ensures rows { result ≡ self.now.rows }
        ensures range { result < 2 ^ 64 }
    {
        self.control.rows
    }

    /// The length of a process's live history.
    pub fn length(&self, p: ProcNo) -> usize
        ensures { (rows : List Event) → WalkOf self.now rows → result ≡ length ((past rows).live p) }
    {
        self.control.process_state(p).length as usize
    }

    /// A process's permanent position.
    pub fn permanent(&self, p: ProcNo) -> usize
        ensures { (rows : List Event) → WalkOf self.now rows → result ≡ (past rows).permanent p }
    {
        self.control.process_state(p).permanent
    }

    /// The new position of a process in an instance; None where it has no `took` row of it.
    pub fn position(&self, inst: InstNo, p: ProcNo) -> Option<usize>
        ensures { (rows : List Event) → WalkOf self.now rows → result ≡ (past rows).new inst p }
    {
        self.control.instance(inst)?.position(p)
    }

    /// Whether a process is up.
    pub fn is_up(&self, p: ProcNo) -> bool
        ensures { (rows : List Event) → WalkOf self.now rows → result ≡ (past rows).up p }
    {
        self.control.process_state(p).up
    }

    /// The open instance that a process is in; None where it is in none.
    pub fn open_in(&self, p: ProcNo) -> Option<InstNo>
        ensures { (rows : List Event) → WalkOf self.now rows → result ≡ (past rows).open_in p }
    {
        self.control.process_state(p).open_in
    }

    /// Whether an instance was committed; None where it is not decided.
    pub fn decision(&self, inst: InstNo) -> Option<bool>
        ensures { (rows : List Event) → WalkOf self.now rows → result ≡ (past rows).decision inst }
    {
        self.control.instance(inst)?.decision
    }

    /// A message and its places, counted from 1; None where it is not kept. It looks through all pairs of processes.
    pub fn trace(&self, msg: MsgNo) -> Option<Trace>
        ensures { (rows : List Event) → WalkOf self.now rows → result ≡ kept_trace rows msg }
    {
        self.pairs.trace(msg)
    }

    /// The places, counted from 1, of the send and the receive of a message from one process to another; None where it is
    /// not kept, or is not in both live histories.
    pub fn places(&self, from: ProcNo, to: ProcNo, msg: MsgNo) -> Option<(usize, usize)>
        ensures found { IfSome result (λ r. (rows : List Event) → WalkOf self.now rows
            → kept_trace rows msg ≡ Some (record { from = from; to = to; sent = Some r.0; received = Some r.1 })) }
        ensures none { IfNone result ((rows : List Event) (sent received : ℕ) → WalkOf self.now rows
            → kept_trace rows msg ≡ Some (record { from = from; to = to; sent = Some sent; received = Some received }) → ⊥) }
    {
        self.pairs.places(from, to, msg)
    }

    /// Whether a message from one process to another may be kept; where none is, `link` finds none.
    #[inline(always)]
    pub fn may_link(&self, from: ProcNo, to: ProcNo) -> bool
        ensures { result ≡ false → (sent received : ℕ) → (v : PairState)
            × (slice_get self.now.pair_states (to * 64 + from) ≡ Some v)
            × IsFoundPast v.received_from.arrivals sent received None }
    {
        self.pairs.may_link(to, from)
    }

    /// The least message from one process to another that is in both live histories, was sent at one place or later and
    /// received before another one, of those that are kept. Places are counted from 0.
    pub fn link(&self, from: ProcNo, to: ProcNo, sent: usize, received: usize) -> Option<MsgNo>
        ensures { (rows : List Event) → WalkOf self.now rows
            → (v : PairState) × (slice_get self.now.pair_states (to * 64 + from) ≡ Some v)
            × IsFoundPast v.received_from.arrivals sent received result }
    {
        self.pairs.link(to, from, sent, received)
    }

    /// How many messages are kept.
    pub fn held(&self) -> usize
        ensures { (rows : List Event) → WalkOf self.now rows → result ≡ held_of rows }
    {
        self.pairs.count().min(self.rows())
    }

    /// The least orphan of a cut: a message that is received within its receiver's part and not sent within its
    /// sender's. No part is longer than the history, or shorter than its permanent part.
    pub fn orphan(&self, cut: &Cut) -> Option<MsgNo>
        ensures none { IfNone result ((rows : List Event) (msg : ℕ) → WalkOf self.now rows
            → KeepsPermanent (past rows) cut.now → IsOrphan (past rows) (slice_index cut.now) msg → ⊥) }
        ensures orphan { IfSome result (λ msg. (rows : List Event) → WalkOf self.now rows
            → IsOrphan (past rows) (slice_index cut.now) msg) }
        ensures least { IfSome result (λ msg. (rows : List Event) (other : ℕ) → WalkOf self.now rows
            → KeepsPermanent (past rows) cut.now → IsOrphan (past rows) (slice_index cut.now) other → msg ≤ other) }
    {
        self.pairs.orphan(cut)
    }

    /// An orphan of a cut, the least of those between two processes of which one is a member: no other pair is looked at.
    /// No part is longer than the history, or shorter than its permanent part.
    pub fn orphan_among(&self, members: ProcSet, cut: &Cut) -> Option<MsgNo>
        ensures none { IfNone result ((rows : List Event) (p q msg : ℕ) → WalkOf self.now rows
            → KeepsPermanent (past rows) cut.now → (has members p || has members q) ≡ true
            → IsOrphanBetween (past rows) (slice_index cut.now) p q msg → ⊥) }
        ensures orphan { IfSome result (λ msg. (rows : List Event) → WalkOf self.now rows → (p : ℕ) × (q : ℕ)
            × IsOrphanBetween (past rows) (slice_index cut.now) p q msg × ((has members p || has members q) ≡ true)) }
        ensures least { IfSome result (λ msg. (rows : List Event) (p q other : ℕ) → WalkOf self.now rows
            → KeepsPermanent (past rows) cut.now → (has members p || has members q) ≡ true
            → IsOrphanBetween (past rows) (slice_index cut.now) p q other → msg ≤ other) }
    {
        self.pairs.orphan_among(members, cut)
    }
}
