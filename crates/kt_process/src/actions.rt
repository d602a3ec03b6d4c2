//! What follows from a step of an instance.

ghost use Rattle.std.specs.Prelude.{◌≡◌, true, false};
ghost use Rattle.kt_process.specs.PartRules.{reply_in};

use crate::asks::Asks;
use kt_base::{Cause, InstNo, ProcNo, ProcSet};

/// What follows for a process and its channels.
#[derive(Drop)]
pub enum Action {
    /// Nothing.
    Nothing,
    /// The command to begin an instance is refused.
    Refuse(Cause),
    /// The process joins the instance and asks these processes.
    Join {
        ask: Asks,
        goes: Then,
    },
    /// It replies to an ask; a cause stands where that makes a row.
    Reply {
        to: ProcNo,
        willing: bool,
        cause: Option<Cause>,
    },
    /// The instance is decided and over for it, and it tells these processes the decision.
    Settle {
        commit: bool,
        tell: ProcSet,
    },
}

/// How a process goes on that has just joined.
#[derive(Clone, Copy)]
pub enum Then {
    /// It waits for replies.
    Wait,
    /// It asked nobody, and replies to its parent that it is willing.
    Answer(ProcNo),
    /// It asked nobody and began the instance, and commits.
    Commit,
}

impl Action {
    /// A willing reply.
    pub fn willing(to: ProcNo) -> Action
        ensures { result ≡ Action.Reply to true None }
    {
        Action::Reply {
            to,
            willing: true,
            cause: None,
        }
    }

    /// An unwilling reply, and why.
    pub fn unwilling(to: ProcNo, cause: Cause) -> Action
        ensures { result ≡ Action.Reply to false (Some cause) }
    {
        Action::Reply {
            to,
            willing: false,
            cause: Some(cause),
        }
    }

    /// What a process replies that is in an instance already: it is willing in this one, and busy for any other.
    pub fn reply_in(current: InstNo, inst: InstNo, to: ProcNo) -> Action
        ensures { result ≡ reply_in current inst to }
    {
        if current.get() == inst.get() {
            Action::willing(to)
        } else {
            Action::unwilling(to, Cause::Busy(current))
        }
    }
}
