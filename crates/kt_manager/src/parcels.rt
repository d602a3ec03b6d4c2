//! What nodes put into channels.

ghost use Rattle.std.specs.Prelude.{◌≡◌};

use kt_base::{Kind, Label};
use kt_spacetime::{Count, InstName};

/// What one node sends to another: an application message, or a step of an instance, by names.
#[derive(Clone, Copy)]
pub enum NodeParcel {
    /// An application message, by its sender's count of messages.
    App {
        label: Count,
        body: i64,
    },
    /// The question whether the receiver takes part in an instance, with the label that it turns on.
    Ask {
        inst: InstName,
        kind: Kind,
        label: Label,
    },
    /// The answer to the question of an instance.
    Reply {
        inst: InstName,
        willing: bool,
    },
    /// How an instance was decided.
    Decide {
        inst: InstName,
        commit: bool,
    },
}
