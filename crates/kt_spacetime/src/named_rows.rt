//! The rows of a log by names.

ghost use Rattle.std.specs.Prelude.{◌≡◌, FitsSigned};
ghost use Rattle.std.specs.Int.{w64};
ghost use Rattle.kt_base.specs.Numbers.{IsProcNo};
ghost use Rattle.kt_spacetime.specs.Counts.{IsCount};
ghost use Rattle.kt_spacetime.specs.NamedRows.{IsInstNameInRange, IsNamedCauseInRange, IsNamedInRange};

use crate::names::{Count, InstName};
use kt_base::{Kind, ProcNo, Verb};

/// Why a process refuses, where the instance that it is in has a name.
#[derive(Clone, Copy)]
pub enum NamedCause {
    Busy(InstName),
    Down,
    NoSave,
}

/// What one process did in one row, by names.
///
/// A message is named by its sender and the count of the sender's messages.
#[derive(Clone, Copy)]
pub enum NamedEvent {
    /// It sent a message with this body, and counts it by this label.
    Sent { to: ProcNo, body: i64, label: Count },
    /// Its object took a message.
    Received { from: ProcNo, label: Count },
    /// A message came while its object was down, and is lost.
    Dropped { from: ProcNo, label: Count },
    /// It began an instance.
    Began { inst: InstName, kind: Kind },
    /// It joined a checkpoint instance and took a tentative checkpoint.
    Took { inst: InstName },
    /// It joined a rollback instance.
    Ready { inst: InstName },
    /// It refused to join an instance.
    Unwilling { inst: InstName, cause: NamedCause },
    /// It decided the instance that it had begun.
    Decided { inst: InstName, commit: bool },
    /// It carried out the decision of an instance, and left it.
    Closed { inst: InstName },
    /// Its object failed.
    Failed,
    /// It refused a command.
    Refused { verb: Verb, cause: NamedCause },
}

/// A row by names: whose it is, and what it says.
#[derive(Clone, Copy)]
pub struct NamedRow {
    pub p: ProcNo,
    pub event: NamedEvent,
}

/// A row by names, with the clock of the step that told it.
#[derive(Clone, Copy)]
pub struct ClockedRow {
    pub clock: u64,
    pub row: NamedRow,
}
