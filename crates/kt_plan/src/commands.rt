//! What processes are to do.

use kt_base::ProcNo;

/// What a process is to do.
#[derive(Clone, Copy, Debug, PartialEq, Eq)]
pub enum Job {
    /// It sends a message to another process; with no body, the one that its object offers at that moment.
    Send { to: ProcNo, body: Option<i64> },
    /// It begins a checkpoint instance.
    Checkpoint,
    /// It begins a rollback instance.
    Rollback,
    /// Its object fails.
    Fail,
}

/// A command: whose it is, the phase in which it is done, from 0, and what is to be done.
#[derive(Clone, Copy, Debug, PartialEq, Eq)]
pub struct Command {
    pub by: ProcNo,
    pub phase: u32,
    pub job: Job,
}
