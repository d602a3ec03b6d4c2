//! What a walk knows after the rows so far, without the rows.

ghost use Rattle.std.specs.Prelude.{◌≡◌, ◌||◌, not, is_none, ◌<◌, ◌+◌, ◌^◌, [], ℕ, Some, true, List, length, slice_get, slice_index, IfOk};
ghost use Rattle.std.specs.Option.{option_copied};
ghost use Rattle.std.specs.List.{list_all};
ghost use Rattle.kt_spacetime.specs.declared.event.Event.{Event};
ghost use Rattle.kt_spacetime.specs.declared.event.Event.TheVariants as event;
ghost use Rattle.kt_meaning.specs.Past.{Past, start};
ghost use Rattle.kt_meaning.specs.Legal.{keeps_message, is_later};
ghost use Rattle.kt_walk.specs.PartsOf.{ShowsProcessStates, takes_in_transit, follows};

mod decisions;
mod rows;

use crate::drops::Drops;
use crate::process_state::ProcessState;
use kt_base::{InstNo, Memory, MsgNo, ProcNo};
use kt_rules::instances::Instance;
use kt_rules::is_after;
use kt_rules::rule_context::RuleContext;
use kt_spacetime::{Event, Rule};
use std::alloc::Global;
use std::marker::Model;

/// What is known after the rows so far.
#[derive(Drop)]
pub(crate) struct ControlState {
    pub(crate) rows: usize,
    pub(crate) process_states: Vec<ProcessState>,
    pub(crate) instances: Vec<Instance>,
    /// Who began which instance in the last row.
    pub(crate) beginning: Option<(ProcNo, InstNo)>,
    pub(crate) drops: Drops,
    ghost processes_there: { length process_states.items ≡ 64 },
}

/// The 64 processes before the first row.
fn initial_process_states(alloc: Global) -> Result<Vec<ProcessState>, Memory>
    ensures { IfOk result (λ ws. ShowsProcessStates ws.items start) }
{
    let mut process_states = Vec::new(alloc);
    process_states.resize(ProcNo::COUNT as usize, ProcessState::new())?;
    Ok(process_states)
}

impl ControlState {
    ghost use Rattle.kt_spacetime.specs.Events.{process_of};
    ghost use Rattle.kt_walk.specs.declared.process_state.ProcessState.{ProcessState};
    ghost use Rattle.kt_meaning.specs.Past.{past};
    ghost use Rattle.kt_meaning.specs.Legal.{broken_rule, keeps_order, is_undelivered, is_latest};
    ghost use Rattle.kt_rules.specs.RuleContext.{ShowsRuleContext};
    ghost use Rattle.kt_rules.specs.Standing.{at_number};
    ghost use Rattle.kt_walk.specs.ControlOf.{ControlOf};

    /// What is known before the first row.
    pub(crate) fn new(alloc: Global) -> Result<ControlState, Memory>
        ensures { IfOk result (λ t. ControlOf t []) }
    {
        let process_states = initial_process_states(alloc)?;
        let drops = Drops::new(alloc)?;
        Ok(ControlState {
            rows: 0,
            process_states,
            instances: Vec::new(alloc),
            beginning: None,
            drops,
        })
    }

    /// The process, after the rows so far.
    pub(crate) fn process_state(&self, p: ProcNo) -> &ProcessState
        ensures { slice_get self.now.process_states.items p ≡ Some result.now }
    {
        &self.process_states[p.get() as usize]
    }

    /// The instance, if it has begun.
    pub(crate) fn instance(&self, inst: InstNo) -> Option<&Instance>
        ensures { option_copied result ≡ at_number self.now.instances.items inst }
    {
        self.instances.get(inst.get() as usize - 1)
    }

    /// The permanent positions, by process.
    pub(crate) fn permanent_lengths(&self) -> [usize; 64]
        ensures { (q : ℕ) (v : ProcessState) → slice_get self.now.process_states.items q ≡ Some v
            → slice_index result q ≡ v.permanent }
    {
        let mut lengths = [0; 64];
        for number in 0..ProcNo::COUNT {
            lengths[number as usize] = self.process_states[number as usize].permanent;
        }
        lengths
    }

    /// The least rule that the next row would break. Whether the message that it takes is in transit is given, and whether
    /// it comes after all that the live history received from its sender.
    pub(crate) fn broken_rule(
        &self,
        row: &Event,
        is_in_transit: bool,
        in_turn: bool,
    ) -> Option<Rule>
        ensures { (rows : List Event) → ControlOf self.now rows
            → is_in_transit ≡ takes_in_transit (past rows) row.now → in_turn ≡ follows (past rows) row.now
            → result ≡ broken_rule (past rows) row.now }
    {
        let message_kept = is_in_transit || !takes_message(row);
        let order_kept = self.keeps_order(row, in_turn);
        let rule_context = self.rule_context(row.process());
        rule_context.broken_rule(row, message_kept, order_kept)
    }

    /// Whether a row in which this process sends a message to another one breaks no rule.
    pub(crate) fn may_send(&self, p: ProcNo, to: ProcNo) -> bool
        ensures { (rows : List Event) (body : _) → ControlOf self.now rows
            → result ≡ is_none (broken_rule (past rows) (event.Sent p to body)) }
    {
        self.rule_context(p).may_send(p, to)
    }

    /// Whether a row in which this process receives a message that is in transit breaks no rule; whether it comes after all
    /// that the live history received from its sender is given.
    pub(crate) fn may_receive(&self, p: ProcNo, from: ProcNo, msg: MsgNo, in_turn: bool) -> bool
        ensures { (rows : List Event) → ControlOf self.now rows → is_undelivered (past rows) p from msg ≡ true
            → in_turn ≡ list_all (is_later from msg) ((past rows).live p)
            → result ≡ is_none (broken_rule (past rows) (event.Received p from msg)) }
    {
        let order_kept = in_turn && self.follows_dropped(p, from, msg);
        self.rule_context(p).may_receive(p, from, true, order_kept)
    }

    // What the rules ask of the instances and of this process.
    fn rule_context(&self, p: ProcNo) -> RuleContext<'_>
        ensures { (rows : List Event) → ControlOf self.now rows → ShowsRuleContext result (past rows) p }
    {
        let process_state = self.process_state(p);
        RuleContext {
            instances: self.instances.as_slice(),
            beginning: self.beginning,
            open_in: process_state.open_in,
            up: process_state.up,
        }
    }

    fn keeps_order(&self, row: &Event, in_turn: bool) -> bool
        ensures { (rows : List Event) → ControlOf self.now rows → in_turn ≡ follows (past rows) row.now
            → result ≡ keeps_order (past rows) row.now }
    {
        match *row {
            Event::Received { p, from, msg } | Event::Dropped { p, from, msg } => {
                in_turn && self.follows_dropped(p, from, msg)
            }
            _ => true,
        }
    }

    // Whether a message comes after all that this process dropped from its sender.
    fn follows_dropped(&self, p: ProcNo, from: ProcNo, msg: MsgNo) -> bool
        ensures { (rows : List Event) → ControlOf self.now rows
            → result ≡ list_all (is_later from msg) ((past rows).dropped_since p) }
    {
        is_after(msg, self.drops.last(p, from))
    }
}

// Whether a row receives or drops a message.
fn takes_message(row: &Event) -> bool
    ensures { (s : Past) → keeps_message s row.now ≡ (takes_in_transit s row.now || not result) }
{
    match *row {
        Event::Received { .. } | Event::Dropped { .. } => true,
        _ => false,
    }
}
