//! What may stand in the way of a step.

/// What stands in the way of a step that is not enabled.
#[derive(Clone, Copy)]
pub enum Hindrance {
    /// The process has no command left.
    NoCommand,
    /// The phase of its next command is not open.
    PhaseNotOpen,
    /// Its next command is a send, and the process is in an instance.
    SendInInstance,
    /// There is no parcel that it could take of the other process.
    NoParcel,
}
