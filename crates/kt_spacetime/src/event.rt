//! The rows of a log.

ghost use Rattle.std.specs.Prelude.{◌≡◌, FitsSigned};
ghost use Rattle.std.specs.Int.{w64};
ghost use Rattle.kt_base.specs.Numbers.{IsProcNo, IsInstNo};
ghost use Rattle.kt_spacetime.specs.Events.{process_of, IsRowInRange, IsCauseInRange};

use kt_base::{Cause, InstNo, Kind, MsgNo, ProcNo, Verb};

/// What one process did in one row of a log.
///
/// `p` is the process. A message is named by the number of its `Sent` row.
#[derive(Clone, Copy, Debug, PartialEq, Eq)]
pub enum Event {
    /// It sent a message with this body.
    Sent {
        p: ProcNo,
        to: ProcNo,
        body: i64,
    },
    /// Its object took a message.
    Received {
        p: ProcNo,
        from: ProcNo,
        msg: MsgNo,
    },
    /// A message came while its object was down, and is lost.
    Dropped {
        p: ProcNo,
        from: ProcNo,
        msg: MsgNo,
    },
    /// It began an instance.
    Began {
        p: ProcNo,
        inst: InstNo,
        kind: Kind,
    },
    /// It joined a checkpoint instance and took a tentative checkpoint.
    Took {
        p: ProcNo,
        inst: InstNo,
    },
    /// It joined a rollback instance.
    Ready {
        p: ProcNo,
        inst: InstNo,
    },
    /// It refused to join an instance.
    Unwilling {
        p: ProcNo,
        inst: InstNo,
        cause: Cause,
    },
    /// It decided the instance that it had begun.
    Decided {
        p: ProcNo,
        inst: InstNo,
        commit: bool,
    },
    /// It carried out the decision of an instance, and left it.
    Closed {
        p: ProcNo,
        inst: InstNo,
    },
    /// Its object failed.
    Failed {
        p: ProcNo,
    },
    /// It refused a command.
    Refused {
        p: ProcNo,
        verb: Verb,
        cause: Cause,
    },
}

impl Event {
    /// The process whose row this is.
    pub fn process(self) -> ProcNo
        ensures { result ≡ process_of self }
    {
        match self {
            Event::Sent { p, .. }
            | Event::Received { p, .. }
            | Event::Dropped { p, .. }
            | Event::Began { p, .. }
            | Event::Took { p, .. }
            | Event::Ready { p, .. }
            | Event::Unwilling { p, .. }
            | Event::Decided { p, .. }
            | Event::Closed { p, .. }
            | Event::Failed { p }
            | Event::Refused { p, .. } => p,
        }
    }

    // Reads each number, so that the range which its type keeps is known.
    pub(crate) fn read_numbers(&self)
        ensures { IsRowInRange self.now }
    {
        match *self {
            Event::Sent { p, to, body } => {
                read_pair(p, to);
                read_body(body);
            }
            Event::Received { p, from, msg } | Event::Dropped { p, from, msg } => {
                read_pair(p, from);
                msg.get();
            }
            Event::Began { p, inst, .. }
            | Event::Took { p, inst }
            | Event::Ready { p, inst }
            | Event::Decided { p, inst, .. }
            | Event::Closed { p, inst } => read_inst(p, inst),
            Event::Unwilling { p, inst, cause } => {
                read_inst(p, inst);
                read_cause(cause);
            }
            Event::Failed { p } => {
                p.get();
            }
            Event::Refused { p, cause, .. } => {
                p.get();
                read_cause(cause);
            }
        }
    }
}

fn read_pair(p: ProcNo, q: ProcNo)
    ensures { IsProcNo p × IsProcNo q }
{
    p.get();
    q.get();
}

fn read_body(body: i64)
    ensures { FitsSigned w64 body }
{}

fn read_inst(p: ProcNo, inst: InstNo)
    ensures { IsProcNo p × IsInstNo inst }
{
    p.get();
    inst.get();
}

fn read_cause(cause: Cause)
    ensures { IsCauseInRange cause }
{
    if let Cause::Busy(inst) = cause {
        inst.get();
    }
}
