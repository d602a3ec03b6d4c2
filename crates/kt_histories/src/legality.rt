//! Whether a log is legal, row by row.

ghost use Rattle.std.specs.Prelude.{◌≡◌, ◌<◌, ◌^◌, ◌==◌, ◌&&◌, ◌||◌, not, is_none, is_some, ℕ, true, Option, Some, None, Err, vec_len, OnOk, find};
ghost use Rattle.kt_base.specs.declared.words.Kind.{Kind};
ghost use Rattle.kt_spacetime.specs.declared.rules.Rule.{Rule};
ghost use Rattle.kt_rules.specs.declared.legality.LegalFault.TheVariants as fault;
ghost use Rattle.kt_meaning.specs.Legal.{IsLegal, first_broken};
ghost use Rattle.kt_rules.specs.Tests.{is_after};

use crate::replay::Replay;
use crate::tables::Message;
use kt_base::{MsgNo, ProcNo, RowNo};
use kt_rules::rule_context::RuleContext;
use kt_rules::{LegalFault, is_after};
use kt_spacetime::{Deed, Event, Rule, SpaceTime};
use std::alloc::Global;

/// Whether the rows of a log keep the rules of a legal log; else the first row that breaks one, and the least rule
/// that it breaks.
pub fn legal(alloc: Global, log: &SpaceTime) -> Result<(), LegalFault>
    ensures legal { OnOk result (IsLegal log.now.rows) }
    ensures broken { (row : ℕ) (rule : Rule) → result ≡ Err (fault.Broken row rule)
        → first_broken log.now.rows ≡ Some (row, rule) }
{
    let mut replay = Replay::new(alloc)?;
    for row in log.rows() {
        if let Some(rule) = replay.broken_rule(row) {
            return Err(LegalFault::Broken(RowNo::after(replay.messages.len()), rule));
        }
        replay.add(row)?;
    }
    Ok(())
}

impl Replay {
    ghost use Rattle.kt_meaning.specs.Past.{Past};
    ghost use Rattle.kt_meaning.specs.Legal.{broken_rule, keeps_message, keeps_order, is_undelivered, is_latest, has_deed};
    ghost use Rattle.kt_rules.specs.RuleContext.{ShowsRuleContext};
    ghost use Rattle.kt_histories.specs.Standing.{ShowsPast, message_at};
    ghost use Rattle.kt_spacetime.specs.declared.deeds.Deed.TheVariants as deed;

    /// The least rule that the next row would break.
    pub(crate) fn broken_rule(&self, row: &Event) -> Option<Rule>
        ensures { (s : Past) → ShowsPast self.now s → result ≡ broken_rule s row.now }
    {
        let message_kept = self.keeps_message(row);
        let order_kept = self.keeps_order(row);
        let rule_context = self.rule_context(row.process());
        rule_context.broken_rule(row, message_kept, order_kept)
    }

    // What the rules ask of the instances and of this process.
    fn rule_context(&self, p: ProcNo) -> RuleContext<'_>
        ensures { (s : Past) → ShowsPast self.now s → ShowsRuleContext result s p }
    {
        let process = self.process(p);
        RuleContext {
            instances: self.instances.as_slice(),
            beginning: self.beginning,
            open_in: process.open_in,
            up: process.up,
        }
    }

    /// Whether a message from one process to another is live, not in its receiver's live history, and was not dropped.
    pub(crate) fn is_undelivered(&self, p: ProcNo, from: ProcNo, msg: MsgNo) -> bool
        ensures { (s : Past) → ShowsPast self.now s → result ≡ is_undelivered s p from msg }
    {
        let Some(message) = self.message(msg) else {
            return false;
        };
        if !is_between(&message, from, p) {
            return false;
        }
        self.is_live(msg, &message) && !self.is_received(msg, &message) && !message.dropped
    }

    // Whether the message's send is in its sender's history.
    fn is_live(&self, msg: MsgNo, message: &Message) -> bool
        ensures { (s : Past) → ShowsPast self.now s → message_at self.now.messages.items msg ≡ Some message.now
            → result ≡ has_deed (deed.Sent msg message.now.to) (s.live message.now.from) }
    {
        let to = message.to;
        let process = self.process(message.from);
        process
            .history
            .has_at(message.sent, &Deed::Sent { msg, to })
    }

    // Whether the message's receive is in its receiver's history.
    fn is_received(&self, msg: MsgNo, message: &Message) -> bool
        ensures { (s : Past) → ShowsPast self.now s → message_at self.now.messages.items msg ≡ Some message.now
            → result ≡ has_deed (deed.Received msg message.now.from) (s.live message.now.to) }
    {
        let Some(place) = message.received else {
            return false;
        };
        let from = message.from;
        let process = self.process(message.to);
        process.history.has_at(place, &Deed::Received { msg, from })
    }

    fn keeps_message(&self, row: &Event) -> bool
        ensures { (s : Past) → ShowsPast self.now s → result ≡ keeps_message s row.now }
    {
        match *row {
            Event::Received { p, from, msg } | Event::Dropped { p, from, msg } => {
                self.is_undelivered(p, from, msg)
            }
            _ => true,
        }
    }

    fn keeps_order(&self, row: &Event) -> bool
        ensures { (s : Past) → ShowsPast self.now s → result ≡ keeps_order s row.now }
    {
        match *row {
            Event::Received { p, from, msg } | Event::Dropped { p, from, msg } => {
                self.is_latest(p, from, msg)
            }
            _ => true,
        }
    }

    fn is_latest(&self, p: ProcNo, from: ProcNo, msg: MsgNo) -> bool
        ensures { (s : Past) → ShowsPast self.now s → result ≡ is_latest s p from msg }
    {
        let process = self.process(p);
        let received = process.history.last_received(from);
        let dropped = process.last_dropped(from);
        is_after(msg, received) && is_after(msg, dropped)
    }
}

// Whether a message goes from the one process to the other.
fn is_between(message: &Message, from: ProcNo, to: ProcNo) -> bool
    ensures { result ≡ (message.now.from == from && message.now.to == to) }
{
    message.from == from && message.to == to
}
