//! Rows in numbers.

ghost use Rattle.std.specs.Prelude.{◌≡◌, Some};
ghost use Rattle.koo_toueg_c.specs.NodeNumbers.{by_cause, cause_meant, count_meant, event_numbers, inst_meant, inst_row, inst_row_meant, message_row, no_row, process_meant, row_meant, row_numbers, verb_meant, verb_number};

use crate::node::parcel::{inst_meant, kind_meant, kind_number, process_meant};
use kt_base::{ProcNo, Verb};
use kt_spacetime::{Count, InstName, NamedCause, NamedEvent};

/// A row of a process, by names, in numbers. A number is 0 where nothing is named, and where it says no.
#[repr(C)]
#[derive(Clone, Copy)]
pub struct KtRow {
    /// 1 `sent`, 2 `received`, 3 `dropped`, 4 `began`, 5 `took`, 6 `ready`, 7 `unwilling`, 8 `decided`, 9 `closed`, 10 `failed`,
    /// 11 `refused`; 0 no row.
    pub kind: u32,
    /// The receiver of what it sent, or the sender of what it received or dropped, 0 to 63.
    pub peer: u32,
    /// Who began the instance, 0 to 63.
    pub initiator: u32,
    /// Whether the instance that it began is a rollback.
    pub rollback: u32,
    /// Whether it decided to commit.
    pub commit: u32,
    /// The command that it refused: 1 to send, 2 a checkpoint, 3 a rollback, 4 to fail.
    pub verb: u32,
    /// Why it refused, or is unwilling: 1 it is in another instance, 2 its object is down, 3 that could not be saved.
    pub cause: u32,
    /// Who began the instance that it is in, 0 to 63.
    pub busy_initiator: u32,
    /// Which one of those that its initiator began the instance is, 1 to 2^48 - 1.
    pub count: u64,
    /// The same of the instance that it is in.
    pub busy_count: u64,
    /// The label of the message, 1 to 2^48 - 1.
    pub label: u64,
    /// The body of the message that it sent.
    pub body: i64,
}

impl KtRow {
    /// No row.
    pub(crate) fn none() -> KtRow
        ensures { result ≡ no_row }
    {
        KtRow {
            kind: 0,
            peer: 0,
            initiator: 0,
            rollback: 0,
            commit: 0,
            verb: 0,
            cause: 0,
            busy_initiator: 0,
            count: 0,
            busy_count: 0,
            label: 0,
            body: 0,
        }
    }

    /// A row in numbers, or no row.
    pub(crate) fn of(row: Option<NamedEvent>) -> KtRow
        ensures numbers { result ≡ row_numbers row }
        ensures meant { row_meant result ≡ row }
    {
        match row {
            Some(event) => KtRow::told(&event),
            None => KtRow::none(),
        }
    }

    // What a row says, in numbers.
    fn told(event: &NamedEvent) -> KtRow
        ensures numbers { result ≡ event_numbers event.now }
        ensures meant { row_meant result ≡ Some event.now }
    {
        match event {
            NamedEvent::Sent { to, body, label } => KtRow {
                body: *body,
                ..KtRow::of_message(1, *to, *label)
            },
            NamedEvent::Received { from, label } => KtRow::of_message(2, *from, *label),
            NamedEvent::Dropped { from, label } => KtRow::of_message(3, *from, *label),
            NamedEvent::Began { inst, kind } => KtRow {
                rollback: kind_number(*kind),
                ..KtRow::of_inst(4, inst)
            },
            NamedEvent::Took { inst } => KtRow::of_inst(5, inst),
            NamedEvent::Ready { inst } => KtRow::of_inst(6, inst),
            NamedEvent::Unwilling { inst, cause } => KtRow::of_inst(7, inst).by(cause),
            NamedEvent::Decided { inst, commit } => KtRow {
                commit: u32::from(*commit),
                ..KtRow::of_inst(8, inst)
            },
            NamedEvent::Closed { inst } => KtRow::of_inst(9, inst),
            NamedEvent::Failed => KtRow {
                kind: 10,
                ..KtRow::none()
            },
            NamedEvent::Refused { verb, cause } => KtRow {
                kind: 11,
                verb: verb_number(*verb),
                ..KtRow::none().by(cause)
            },
        }
    }

    // A row of a message.
    fn of_message(kind: u32, peer: ProcNo, label: Count) -> KtRow
        ensures numbers { result ≡ message_row kind peer label }
        ensures peer { process_meant peer ≡ Some peer }
        ensures label { count_meant label ≡ Some label }
    {
        KtRow {
            kind,
            peer: u32::from(peer.get()),
            label: label.get(),
            ..KtRow::none()
        }
    }

    // A row of an instance.
    fn of_inst(kind: u32, inst: &InstName) -> KtRow
        ensures numbers { result ≡ inst_row kind inst.now }
        ensures inst { inst_meant inst.now.initiator inst.now.count ≡ Some inst.now }
    {
        KtRow {
            kind,
            initiator: u32::from(inst.initiator.get()),
            count: inst.count.get(),
            ..KtRow::none()
        }
    }

    // The same row with a cause.
    fn by(self, cause: &NamedCause) -> KtRow
        ensures numbers { result ≡ by_cause cause.now self }
        ensures cause { cause_meant result ≡ Some cause.now }
    {
        match cause {
            NamedCause::Busy(inst) => KtRow {
                cause: 1,
                busy_initiator: u32::from(inst.initiator.get()),
                busy_count: inst.count.get(),
                ..self
            },
            NamedCause::Down => KtRow { cause: 2, ..self },
            NamedCause::NoSave => KtRow { cause: 3, ..self },
        }
    }

    /// The row that its numbers mean, if they mean one.
    pub(crate) fn event(&self) -> Option<NamedEvent>
        ensures { result ≡ row_meant self.now }
    {
        match self.kind {
            1 => Some(NamedEvent::Sent {
                to: process_meant(self.peer)?,
                body: self.body,
                label: Count::new(self.label)?,
            }),
            2 => Some(NamedEvent::Received {
                from: process_meant(self.peer)?,
                label: Count::new(self.label)?,
            }),
            3 => Some(NamedEvent::Dropped {
                from: process_meant(self.peer)?,
                label: Count::new(self.label)?,
            }),
            10 => Some(NamedEvent::Failed),
            11 => Some(NamedEvent::Refused {
                verb: verb_meant(self.verb)?,
                cause: self.cause_meant()?,
            }),
            _ => self.event_of(&inst_meant(self.initiator, self.count)?),
        }
    }

    // The row of an instance that its numbers mean, if they mean one.
    fn event_of(&self, inst: &InstName) -> Option<NamedEvent>
        ensures { result ≡ inst_row_meant self.now inst.now }
    {
        let inst = *inst;
        match self.kind {
            4 => Some(NamedEvent::Began {
                inst,
                kind: kind_meant(self.rollback),
            }),
            5 => Some(NamedEvent::Took { inst }),
            6 => Some(NamedEvent::Ready { inst }),
            7 => Some(NamedEvent::Unwilling {
                inst,
                cause: self.cause_meant()?,
            }),
            8 => Some(NamedEvent::Decided {
                inst,
                commit: self.commit != 0,
            }),
            9 => Some(NamedEvent::Closed { inst }),
            _ => None,
        }
    }

    // The cause that its numbers mean, if they mean one.
    fn cause_meant(&self) -> Option<NamedCause>
        ensures { result ≡ cause_meant self.now }
    {
        match self.cause {
            1 => Some(NamedCause::Busy(inst_meant(self.busy_initiator, self.busy_count)?)),
            2 => Some(NamedCause::Down),
            3 => Some(NamedCause::NoSave),
            _ => None,
        }
    }
}

fn verb_number(verb: Verb) -> u32
    ensures { result ≡ verb_number verb }
{
    match verb {
        Verb::Send => 1,
        Verb::Checkpoint => 2,
        Verb::Rollback => 3,
        Verb::Fail => 4,
    }
}

// The command with this number.
fn verb_meant(number: u32) -> Option<Verb>
    ensures { result ≡ verb_meant number }
{
    match number {
        1 => Some(Verb::Send),
        2 => Some(Verb::Checkpoint),
        3 => Some(Verb::Rollback),
        4 => Some(Verb::Fail),
        _ => None,
    }
}
