//! What may come to a node.

ghost use Rattle.std.specs.Prelude.{◌≡◌};
ghost use Rattle.kt_node.specs.Looks.{clock_of};

use crate::node::Envelope;
use kt_base::{Kind, ProcNo};

/// A command, the first message that a node holds of a process, or a parcel of a process.
#[derive(Clone, Copy)]
pub enum Input {
    /// To send a message with this body to a process.
    Send { to: ProcNo, body: i64 },
    /// To begin an instance of a kind.
    Begin(Kind),
    /// Its object fails.
    Fail,
    /// To take the first message that it holds of a process.
    Redeliver(ProcNo),
    /// To take a parcel of a process.
    Deliver { from: ProcNo, envelope: Envelope },
}

impl Input {
    /// The clock of what comes, 0 for a command.
    pub(crate) fn clock(&self) -> u64
        ensures { result ≡ clock_of self.now }
    {
        match self {
            Input::Deliver { envelope, .. } => envelope.clock,
            _ => 0,
        }
    }
}
