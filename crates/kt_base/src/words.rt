//! The kinds of instances and commands, and why one is refused.

use crate::numbers::InstNo;

/// What an instance does: take checkpoints, or roll back to them.
#[derive(Clone, Copy, Debug, PartialEq, Eq)]
pub enum Kind {
    Checkpoint,
    Rollback,
}

/// What a command asks of its process.
#[derive(Clone, Copy, Debug, PartialEq, Eq)]
pub enum Verb {
    Send,
    Checkpoint,
    Rollback,
    Fail,
}

/// Why a process refuses: it is in another open instance, its object is down, or could not be saved.
#[derive(Clone, Copy, Debug, PartialEq, Eq)]
pub enum Cause {
    Busy(InstNo),
    Down,
    NoSave,
}

/// How a process stands: the open instance that it is in, whether its object is up, and whether that can be saved.
#[derive(Clone, Copy)]
pub struct Standing {
    pub in_inst: Option<InstNo>,
    pub up: bool,
    pub able: bool,
}
