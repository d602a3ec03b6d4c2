//! The chain that was followed last, with the processes that it leads through.

ghost use Rattle.std.specs.Prelude.{◌≡◌, ◌<◌, ◌≤◌, ◌-◌, ◌++◌, ◌∷◌, [], Some, IfSome, IfNone, length, map, take, slice_get};
ghost use Rattle.kt_checker.specs.Followed.{message_of};

use kt_base::{MsgNo, ProcNo};
use std::marker::Model;

/// A message of a chain, and the process that it leads to.
#[derive(Clone, Copy)]
pub(crate) struct Step {
    pub(crate) msg: MsgNo,
    pub(crate) to: ProcNo,
}

/// The first steps of the chain that was followed last: all of them, or 64 of a longer one.
///
/// The chains of a certificate mostly begin alike, and of two that do the processes are the same so far.
#[derive(Drop)]
pub(crate) struct Path {
    steps: [Step; Path::MAX],
    length: usize,
}

impl Model for Path {
    ghost use Rattle.std.specs.Prelude.{List, ◌≡◌, ◌≤◌, take, length as count};
    ghost use Rattle.kt_checker.specs.declared.path.Step.{Step};

    ghost Value = { List Step };

    ghost view = { λ p. take p.length p.steps };

    ghost invariant = { λ p. (count p.steps ≡ 64) × (p.length ≤ 64) };
}

impl Path {
    /// How many steps are kept at most.
    const MAX: usize = 64;

    /// No steps.
    pub(crate) fn new() -> Path
        ensures { result ≡ [] }
    {
        let unused = Step {
            msg: MsgNo::after(0),
            to: ProcNo::nth(0),
        };
        Path {
            steps: [unused; Path::MAX],
            length: 0,
        }
    }

    /// How many of these messages the steps begin with.
    pub(crate) fn front(&self, messages: &[MsgNo]) -> usize
        ensures steps { result ≤ length self.now }
        ensures messages { result ≤ length messages.now }
        ensures same { map message_of (take result self.now) ≡ take result messages.now }
    {
        let most = messages.len().min(self.length);
        for index in 0..most {
            if self.steps[index].msg != messages[index] {
                return index;
            }
        }
        most
    }

    /// Keeps the first steps alone.
    pub(crate) fn truncate(&mut self, length: usize)
        ensures { self.new ≡ take length self.old }
    {
        self.length = self.length.min(length);
    }

    /// The last step.
    pub(crate) fn last(&self) -> Option<Step>
        ensures some { IfSome result (λ step. slice_get self.now (length self.now - 1) ≡ Some step) }
        ensures none { IfNone result (self.now ≡ []) }
    {
        if self.length == 0 {
            return None;
        }
        Some(self.steps[self.length - 1])
    }

    /// Adds a step at the end, while there is room.
    pub(crate) fn push(&mut self, msg: MsgNo, to: ProcNo)
        ensures room { length self.old < 64 → self.new ≡ self.old ++ record { msg = msg; to = to } ∷ [] }
        ensures full { 64 ≤ length self.old → self.new ≡ self.old }
    {
        if self.length < Path::MAX {
            self.steps[self.length] = Step { msg, to };
            self.length += 1;
        }
    }
}
