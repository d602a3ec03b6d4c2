//! The part of one process in one instance.

ghost use Rattle.std.specs.Prelude.{◌≡◌, ◌<◌, ℕ, All};
ghost use Rattle.kt_process.specs.Joins.{IsNewPart, Joins};
ghost use Rattle.kt_process.specs.Counts.{counts_of, counts_at_join, counts_at_reply};
ghost use Rattle.kt_process.specs.PartRules.{way_on, after_reply, reply_action, settle_action};

use crate::actions::{Action, Then};
use crate::asks::Asks;
use kt_base::{InstNo, ProcNo, ProcSet};
use std::marker::Model;

/// One process's part in one instance: whose ask it joined by, whom it asked, and what they replied so far.
#[derive(Drop)]
pub struct Part {
    inst: InstNo,
    parent: Option<ProcNo>,
    asked: ProcSet,
    awaited: u32,
    willing: bool,
}

impl Model for Part {
    ghost use Rattle.kt_process.specs.Parts.{Part};

    ghost Value = { Part };

    ghost view = { λ p. record { inst = p.inst; parent = p.parent; asked = p.asked; awaited = p.awaited; willing = p.willing } };
}

impl Part {
    /// The part of a process that has just joined, by an ask of its parent or as the one that begins the instance, and
    /// what follows: it sends these asks, and awaits a reply to each.
    pub fn join(inst: InstNo, parent: Option<ProcNo>, asks: Asks) -> (Part, Action)
        ensures part { IsNewPart inst parent asks result.0 }
        ensures action { result.1 ≡ Action.Join asks (way_on result.0) }
        ensures counts { counts_of result.1 ≡ counts_at_join result.0 }
        ensures joins { (n : ℕ) → All (λ ask. ask.0 < n) asks → Joins n inst parent result.0 result.1 }
    {
        let asked = asks.targets();
        let part = Part {
            inst,
            parent,
            asked,
            awaited: asks.list().len() as u32,
            willing: true,
        };
        let goes = part.way_on();
        (part, Action::Join { ask: asks, goes })
    }

    /// The part in an instance that was joined by an ask of this parent or begun, where these were asked, so many replies are
    /// awaited, and all were willing so far or not.
    pub fn of(
        inst: InstNo,
        parent: Option<ProcNo>,
        asked: ProcSet,
        awaited: u32,
        willing: bool,
    ) -> Part
        ensures { result
            ≡ record { inst = inst; parent = parent; asked = asked; awaited = awaited; willing = willing } }
    {
        Part {
            inst,
            parent,
            asked,
            awaited,
            willing,
        }
    }

    /// The instance.
    pub fn inst(&self) -> InstNo
        ensures { result ≡ self.now.inst }
    {
        self.inst
    }

    /// The process whose ask it joined by; None where it began the instance.
    pub fn parent(&self) -> Option<ProcNo>
        ensures { result ≡ self.now.parent }
    {
        self.parent
    }

    /// The processes that it asked.
    pub fn asked(&self) -> ProcSet
        ensures { result ≡ self.now.asked }
    {
        self.asked
    }

    /// How many replies it still awaits.
    pub fn awaited(&self) -> u32
        ensures { result ≡ self.now.awaited }
    {
        self.awaited
    }

    /// Whether all that have replied were willing.
    pub fn willing(&self) -> bool
        ensures { result ≡ self.now.willing }
    {
        self.willing
    }

    /// How the process goes on that has just joined.
    fn way_on(&self) -> Then
        ensures { result ≡ way_on self.now }
    {
        if self.awaited > 0 {
            return Then::Wait;
        }
        match self.parent {
            Some(to) => Then::Answer(to),
            None => Then::Commit,
        }
    }

    /// A reply to one of its asks has come. A reply that it doesn't await changes nothing.
    pub fn take_reply(&mut self, willing: bool) -> Action
        ensures part { self.new ≡ after_reply self.old willing }
        ensures action { result ≡ reply_action self.old willing }
        ensures counts { counts_of result ≡ counts_at_reply self.old }
    {
        if self.awaited == 0 {
            return Action::Nothing;
        }
        self.awaited -= 1;
        self.willing = self.willing && willing;
        if self.awaited > 0 {
            return Action::Nothing;
        }
        match self.parent {
            Some(to) => Action::Reply {
                to,
                willing: self.willing,
                cause: None,
            },
            None => Action::Settle {
                commit: self.willing,
                tell: self.asked,
            },
        }
    }

    /// The instance is decided: it tells those that it asked.
    pub fn settle(self, commit: bool) -> Action
        ensures { result ≡ settle_action self commit }
    {
        Action::Settle {
            commit,
            tell: self.asked,
        }
    }
}
