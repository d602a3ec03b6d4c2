//! The rules of a legal log, on what they rest on.

ghost use Rattle.std.specs.Prelude.{◌≡◌, ◌==◌, ◌&&◌, ◌||◌, ℕ, is_none};
ghost use Rattle.std.specs.Option.{option_copied};
ghost use Rattle.kt_spacetime.specs.declared.event.Event.TheVariants as event;

use crate::instances::Instance;
use kt_base::{Cause, InstNo, Kind, ProcNo, Verb};
use kt_spacetime::{Event, Rule};

/// What is known of the instances, and of the process whose row is tested, after the rows so far.
#[derive(Clone, Copy)]
pub struct RuleContext<'a> {
    /// The instances that have begun, by number, from 1.
    pub instances: &'a [Instance],
    /// Who began which instance in the last row.
    pub beginning: Option<(ProcNo, InstNo)>,
    /// The open instance that the process is in.
    pub open_in: Option<InstNo>,
    /// Whether the process is up.
    pub up: bool,
}

impl RuleContext<'_> {
    ghost use Rattle.kt_spacetime.specs.Events.{process_of};
    ghost use Rattle.kt_meaning.specs.Past.{Past};
    ghost use Rattle.kt_meaning.specs.Legal.{broken_rule, has_begun, names_begun, keeps_numbers, keeps_message, keeps_order, keeps_sending, keeps_receiving, keeps_joining, keeps_deciding, keeps_closing, keeps_causes, may_join, follows, is_undelivered, is_latest, is_undecided, excuses, refuses, is_in, is_in_none, is_rolling};
    ghost use Rattle.kt_rules.specs.Standing.{at_number};
    ghost use Rattle.kt_rules.specs.Tests.{is_open_to};
    ghost use Rattle.kt_rules.specs.RuleContext.{ShowsRuleContext};

    /// The least rule that a row of this process would break; whether it keeps the rules on messages and on their
    /// order is given.
    pub fn broken_rule(&self, row: &Event, message_kept: bool, order_kept: bool) -> Option<Rule>
        ensures { (s : Past) → ShowsRuleContext self.now s (process_of row.now)
            → message_kept ≡ keeps_message s row.now → order_kept ≡ keeps_order s row.now
            → result ≡ broken_rule s row.now }
    {
        if !self.keeps_numbers(row) {
            return Some(Rule::Numbers);
        }
        if !message_kept {
            return Some(Rule::Message);
        }
        if !order_kept {
            return Some(Rule::Order);
        }
        if !self.keeps_sending(row) {
            return Some(Rule::Sending);
        }
        if !self.keeps_receiving(row) {
            return Some(Rule::Receiving);
        }
        if !self.keeps_joining(row) {
            return Some(Rule::Joining);
        }
        if !self.keeps_deciding(row) {
            return Some(Rule::Deciding);
        }
        if !self.keeps_closing(row) {
            return Some(Rule::Closing);
        }
        if !self.keeps_causes(row) {
            return Some(Rule::Causes);
        }
        None
    }

    /// Whether a row in which this process, p, sends a message to another one breaks no rule.
    pub fn may_send(&self, p: ProcNo, to: ProcNo) -> bool
        ensures { (s : Past) (body : _) → ShowsRuleContext self.now s p
            → result ≡ is_none (broken_rule s (event.Sent p to body)) }
    {
        to != p && self.up && self.is_in_none() && self.beginning.is_none()
    }

    /// Whether a row in which this process, p, receives a message breaks no rule; whether the message is in transit, and
    /// comes after what was received from its sender, is given.
    pub fn may_receive(&self, p: ProcNo, from: ProcNo, message_kept: bool, order_kept: bool) -> bool
        ensures { (s : Past) (msg : ℕ) → ShowsRuleContext self.now s p → message_kept ≡ is_undelivered s p from msg
            → order_kept ≡ is_latest s p from msg → result ≡ is_none (broken_rule s (event.Received p from msg)) }
    {
        from != p
            && message_kept
            && order_kept
            && self.up
            && !self.is_rolling()
            && self.beginning.is_none()
    }

    // The instance, if it has begun.
    fn instance(&self, inst: InstNo) -> Option<&Instance>
        ensures { option_copied result ≡ at_number self.now.instances.now inst }
    {
        self.instances.get(inst.get() as usize - 1)
    }

    fn has_begun(&self, inst: InstNo) -> bool
        ensures { (s : Past) (p : ℕ) → ShowsRuleContext self.now s p → result ≡ has_begun s inst }
    {
        inst.get() as usize <= self.instances.len()
    }

    fn names_begun(&self, cause: Cause) -> bool
        ensures { (s : Past) (p : ℕ) → ShowsRuleContext self.now s p → result ≡ names_begun s cause }
    {
        match cause {
            Cause::Busy(inst) => self.has_begun(inst),
            Cause::Down | Cause::NoSave => true,
        }
    }

    fn keeps_numbers(&self, row: &Event) -> bool
        ensures { (s : Past) → ShowsRuleContext self.now s (process_of row.now) → result ≡ keeps_numbers s row.now }
    {
        match *row {
            Event::Sent { p, to, .. } => to != p,
            Event::Received { p, from, .. } | Event::Dropped { p, from, .. } => from != p,
            Event::Began { inst, .. } => inst.get() as usize == self.instances.len() + 1,
            Event::Took { inst, .. }
            | Event::Ready { inst, .. }
            | Event::Decided { inst, .. }
            | Event::Closed { inst, .. } => self.has_begun(inst),
            Event::Unwilling { inst, cause, .. } => self.has_begun(inst) && self.names_begun(cause),
            Event::Failed { .. } => true,
            Event::Refused { cause, .. } => self.names_begun(cause),
        }
    }

    fn keeps_sending(&self, row: &Event) -> bool
        ensures { (s : Past) → ShowsRuleContext self.now s (process_of row.now) → result ≡ keeps_sending s row.now }
    {
        match *row {
            Event::Sent { .. } => self.up && self.is_in_none(),
            _ => true,
        }
    }

    fn keeps_receiving(&self, row: &Event) -> bool
        ensures { (s : Past) → ShowsRuleContext self.now s (process_of row.now) → result ≡ keeps_receiving s row.now }
    {
        match *row {
            Event::Received { .. } => !self.is_rolling() && self.up,
            Event::Dropped { .. } => !self.is_rolling() && !self.up,
            _ => true,
        }
    }

    fn keeps_joining(&self, row: &Event) -> bool
        ensures { (s : Past) → ShowsRuleContext self.now s (process_of row.now) → result ≡ keeps_joining s row.now }
    {
        self.may_join(row) && self.follows(row)
    }

    fn may_join(&self, row: &Event) -> bool
        ensures { (s : Past) → ShowsRuleContext self.now s (process_of row.now) → result ≡ may_join s row.now }
    {
        match *row {
            Event::Began { kind, .. } => self.is_in_none() && (kind == Kind::Rollback || self.up),
            Event::Took { p, inst } => self.is_open_to(p, inst, Kind::Checkpoint) && self.up,
            Event::Ready { p, inst } => self.is_open_to(p, inst, Kind::Rollback),
            _ => true,
        }
    }

    // Whether the process may still join this instance, of this kind.
    fn is_open_to(&self, p: ProcNo, inst: InstNo, kind: Kind) -> bool
        ensures { (s : Past) → ShowsRuleContext self.now s p → result ≡ is_open_to s p inst kind }
    {
        let Some(instance) = self.instance(inst) else {
            return false;
        };
        self.is_in_none()
            && !instance.joined.has(p)
            && instance.decision.is_none()
            && instance.kind == kind
    }

    // The row after a beginning is the initiator's joining.
    fn follows(&self, row: &Event) -> bool
        ensures { (s : Past) → ShowsRuleContext self.now s (process_of row.now) → result ≡ follows s.last row.now }
    {
        let Some((first, begun)) = self.beginning else {
            return true;
        };
        match *row {
            Event::Took { p, inst } | Event::Ready { p, inst } => p == first && inst == begun,
            _ => false,
        }
    }

    fn keeps_deciding(&self, row: &Event) -> bool
        ensures { (s : Past) → ShowsRuleContext self.now s (process_of row.now) → result ≡ keeps_deciding s row.now }
    {
        let Event::Decided { p, inst, .. } = *row else {
            return true;
        };
        let Some(instance) = self.instance(inst) else {
            return false;
        };
        instance.initiator == p && self.is_in(inst) && instance.decision.is_none()
    }

    fn keeps_closing(&self, row: &Event) -> bool
        ensures { (s : Past) → ShowsRuleContext self.now s (process_of row.now) → result ≡ keeps_closing s row.now }
    {
        let Event::Closed { p, inst } = *row else {
            return true;
        };
        let Some(instance) = self.instance(inst) else {
            return false;
        };
        self.is_in(inst) && instance.decision.is_some()
    }

    fn keeps_causes(&self, row: &Event) -> bool
        ensures { (s : Past) → ShowsRuleContext self.now s (process_of row.now) → result ≡ keeps_causes s row.now }
    {
        match *row {
            Event::Failed { .. } => self.up,
            Event::Unwilling { inst, cause, .. } => self.excuses(inst, cause),
            Event::Refused { verb, cause, .. } => self.refuses(verb, cause),
            _ => true,
        }
    }

    // Whether the process may be unwilling to join, for this cause.
    fn excuses(&self, inst: InstNo, cause: Cause) -> bool
        ensures { (s : Past) (p : ℕ) → ShowsRuleContext self.now s p
            → result ≡ (is_undecided s inst && excuses s p inst cause) }
    {
        let Some(instance) = self.instance(inst) else {
            return false;
        };
        if instance.decision.is_some() {
            return false;
        }
        let idle = instance.kind == Kind::Checkpoint && self.is_in_none();
        match cause {
            Cause::Busy(other) => self.is_in(other) && other != inst,
            Cause::Down => idle && !self.up,
            Cause::NoSave => idle && self.up,
        }
    }

    // Whether the process may refuse a command, for this cause.
    fn refuses(&self, verb: Verb, cause: Cause) -> bool
        ensures { (s : Past) (p : ℕ) → ShowsRuleContext self.now s p → result ≡ refuses s p verb cause }
    {
        let up = self.up;
        match cause {
            Cause::Busy(inst) => {
                self.is_in(inst) && (verb == Verb::Checkpoint || verb == Verb::Rollback)
            }
            Cause::Down => match verb {
                Verb::Send | Verb::Checkpoint => self.is_in_none() && !up,
                Verb::Rollback => false,
                Verb::Fail => !up,
            },
            Cause::NoSave => verb == Verb::Checkpoint && self.is_in_none() && up,
        }
    }

    fn is_in(&self, inst: InstNo) -> bool
        ensures { (s : Past) (p : ℕ) → ShowsRuleContext self.now s p → result ≡ is_in s p inst }
    {
        self.open_in == Some(inst)
    }

    fn is_in_none(&self) -> bool
        ensures { (s : Past) (p : ℕ) → ShowsRuleContext self.now s p → result ≡ is_in_none s p }
    {
        self.open_in.is_none()
    }

    fn is_rolling(&self) -> bool
        ensures { (s : Past) (p : ℕ) → ShowsRuleContext self.now s p → result ≡ is_rolling s p }
    {
        let Some(inst) = self.open_in else {
            return false;
        };
        self.instance(inst)
            .is_some_and(|instance| instance.kind == Kind::Rollback)
    }
}
