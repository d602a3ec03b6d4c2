//! What breaks a rule, as it is told.

pub mod before;
pub mod deliveries;
pub mod demands;

use crate::words::{Count, Instance, Message, NO, Name, Process, Row, say};
use kt_base::{InstNo, Kind, MsgNo, ProcNo, RowNo};
use std::fmt;

/// What is so before a row, and is against what a rule demands of it.
#[derive(Clone, Copy)]
pub enum Breach {
    /// No row sends this message.
    NotSent(MsgNo),
    /// It was sent by this process to that one.
    SentBetween(MsgNo, ProcNo, ProcNo),
    /// Its send by this process to that one was undone.
    Undone(MsgNo, ProcNo, ProcNo),
    /// This process received from that one this message, in this row.
    Received(ProcNo, ProcNo, MsgNo, RowNo),
    /// It was dropped in this row.
    Dropped(MsgNo, RowNo),
    /// The latest message that this process received from that one is this one, in this row.
    ReceivedLater(ProcNo, ProcNo, MsgNo, RowNo),
    /// The latest message of that process that this one dropped since it is down is this one, in this row.
    DroppedLater(ProcNo, ProcNo, MsgNo, RowNo),
    /// This process is both processes of the row's message.
    OwnPeer(ProcNo),
    /// It is down since this row.
    Down(ProcNo, RowNo),
    /// It is up.
    Up(ProcNo),
    /// It is in an open instance.
    Inside(Open),
    /// It is in an open instance, a rollback.
    Rolling(Open),
    /// It is not in the instance.
    NotInside(Outside),
    /// It joined the instance in this row.
    Joined(ProcNo, InstNo, RowNo),
    /// It is in the instance, which it joined in this row, and is asked to join it.
    Member(ProcNo, InstNo, RowNo),
    /// It began the instance in the row before, as one of this kind.
    JustBegun(ProcNo, InstNo, Kind),
    /// The next instance to begin has this number.
    Next(usize),
    /// The instance has not begun.
    NotBegun(InstNo),
    /// It began as one of this kind, in this row.
    OfKind(InstNo, Kind, RowNo),
    /// It was begun by this process, in this row.
    Initiator(InstNo, ProcNo, RowNo),
    /// It was decided in this row.
    Decided(InstNo, RowNo),
    /// It is not decided.
    Undecided(InstNo),
    /// It is the one that is refused, and the one that the cause names.
    OwnCause(InstNo),
    /// No such command is refused for such a cause.
    NoCause,
}

/// An open instance that a process is in, which it joined in this row.
#[derive(Clone, Copy)]
pub struct Open {
    pub p: ProcNo,
    pub inst: InstNo,
    pub row: RowNo,
    /// The row that decided it.
    pub decided: Option<RowNo>,
}

/// A process that is not in an instance.
#[derive(Clone, Copy)]
pub struct Outside {
    pub p: ProcNo,
    pub inst: InstNo,
    /// The open instance that it is in.
    pub open_in: Option<InstNo>,
    /// The row that decided that.
    pub decided: Option<RowNo>,
    /// The row in which it joined the instance.
    pub joined: Option<RowNo>,
    /// The row in which it closed the instance.
    pub closed: Option<RowNo>,
}

impl fmt::Display for Breach {
    fn fmt<W: fmt::Write>(&self, f: &mut fmt::Formatter<W>) -> fmt::Result {
        match self {
            Breach::Inside(open) => write!(f, "{open}"),
            Breach::Rolling(open) => write!(f, "{open}; it is a rollback"),
            Breach::NotInside(outside) => write!(f, "{outside}"),
            _ => say(f, text_of(self), &names_of(self)),
        }
    }
}

// What is so, but of open instances; each # stands for the next of its names.
fn text_of(breach: &Breach) -> &'static str {
    match breach {
        Breach::NotSent(_) => "no row before this one sends message #",
        Breach::SentBetween(..) => "message # is one of process # to process #",
        Breach::Undone(..) => "the send of message # was undone",
        Breach::Received(..) => "process # received message # before, in row #",
        Breach::Dropped(..) => "message # was dropped before, in row #",
        Breach::ReceivedLater(..) =>
            "process # received the later message # of process # before, in row #",
        Breach::DroppedLater(..) =>
            "process # dropped the later message # of process # before, in row #",
        Breach::OwnPeer(_) => "both processes of the row are process #",
        Breach::Down(..) => "process # is down since row #",
        Breach::Up(_) => "process # is up",
        Breach::Joined(..) => "process # joined instance # before, in row #",
        Breach::Member(..) => "process # is in instance # since row #",
        Breach::JustBegun(..) =>
            "process # began instance # in the row before, and does not join it in this one",
        Breach::Next(_) => "the next instance to begin is #",
        Breach::NotBegun(_) => "no row before this one begins instance #",
        Breach::OfKind(_, Kind::Checkpoint, _) => "instance # began in row #, as a checkpoint",
        Breach::OfKind(_, Kind::Rollback, _) => "instance # began in row #, as a rollback",
        Breach::Initiator(..) => "process # began instance #, in row #",
        Breach::Decided(..) => "instance # was decided before, in row #",
        Breach::Undecided(_) => "no row before this one decides instance #",
        Breach::OwnCause(_) =>
            "instance # is the one that is refused and the one that the cause names",
        _ => "no such command is refused for such a cause",
    }
}

// What that names.
fn names_of(breach: &Breach) -> [Name; 4] {
    match *breach {
        Breach::NotSent(m) | Breach::Undone(m, ..) => [Message(m), NO, NO, NO],
        Breach::SentBetween(m, p, q) => [Message(m), Process(p), Process(q), NO],
        Breach::Received(p, _, m, row) => [Process(p), Message(m), Row(row), NO],
        Breach::Dropped(m, row) => [Message(m), Row(row), NO, NO],
        Breach::ReceivedLater(p, q, m, row) | Breach::DroppedLater(p, q, m, row) => {
            [Process(p), Message(m), Process(q), Row(row)]
        }
        Breach::OwnPeer(p) | Breach::Up(p) => [Process(p), NO, NO, NO],
        Breach::Down(p, row) => [Process(p), Row(row), NO, NO],
        Breach::Joined(p, k, row) | Breach::Member(p, k, row) | Breach::Initiator(k, p, row) => {
            [Process(p), Instance(k), Row(row), NO]
        }
        Breach::JustBegun(p, k, _) => [Process(p), Instance(k), NO, NO],
        Breach::Next(number) => [Count(number), NO, NO, NO],
        Breach::NotBegun(k) | Breach::Undecided(k) | Breach::OwnCause(k) => {
            [Instance(k), NO, NO, NO]
        }
        Breach::OfKind(k, _, row) | Breach::Decided(k, row) => [Instance(k), Row(row), NO, NO],
        _ => [NO; 4],
    }
}

impl fmt::Display for Open {
    fn fmt<W: fmt::Write>(&self, f: &mut fmt::Formatter<W>) -> fmt::Result {
        let Open { p, inst, row, .. } = *self;
        let since = "process # is in instance # since row #";
        say(f, since, &[Process(p), Instance(inst), Row(row)])?;
        write_decision(f, self.decided)
    }
}

// In which row an open instance was decided, or that it was not.
fn write_decision<W: fmt::Write>(f: &mut fmt::Formatter<W>, decided: Option<RowNo>) -> fmt::Result {
    match decided {
        Some(row) => say(f, ", which was decided in row #", &[Row(row)]),
        None => f.write_str(", which is not decided"),
    }
}

impl fmt::Display for Outside {
    fn fmt<W: fmt::Write>(&self, f: &mut fmt::Formatter<W>) -> fmt::Result {
        let Outside { p, inst, .. } = *self;
        match self.open_in {
            Some(other) => {
                say(
                    f,
                    "process # is in instance #",
                    &[Process(p), Instance(other)],
                )?;
                write_decision(f, self.decided)?;
            }
            None => say(f, "process # is in no instance", &[Process(p)])?,
        }
        match self.joined {
            Some(row) => say(
                f,
                "; it joined instance # in row #",
                &[Instance(inst), Row(row)],
            )?,
            None => say(f, "; it has not joined instance #", &[Instance(inst)])?,
        }
        match self.closed {
            Some(row) => say(f, " and closed it in row #", &[Row(row)]),
            None => Ok(()),
        }
    }
}
