//! A row of the window with its message, which is followed row by row, and what became of it by the window's end.

ghost use Rattle.std.specs.Prelude.{◌≡◌, ◌++◌, ◌∷◌, [], None, ℕ, Option, List, IfOk, length, map, option_map};
ghost use Rattle.std.specs.List.{list_any};
ghost use Rattle.kt_spacetime.specs.declared.event.Event.{Event};
ghost use Rattle.kt_meaning.specs.Past.{past};
ghost use Rattle.kt_meaning.specs.Legal.{broken_rule};
ghost use Rattle.kt_walk.specs.WalkOf.{WalkOf};
ghost use Rattle.kt_picture.specs.Fates.{receives, is_message_undone, is_receive_undone, is_sent_in_transit, joined_decision};
ghost use Rattle.kt_picture.specs.Followed.{AreFollowed, IsFollowed, IsFollowedAs, event_of, if_within, message_in, message_taken, plain_of, told_rows, trace_after};
ghost use Rattle.kt_picture.specs.KnownAtRow.{told_at};

use crate::window::{Shown, push_item};
use kt_base::{Memory, MsgNo};
use kt_rules::Trace;
use kt_spacetime::Event;
use kt_walk::Walk;
use std::alloc::Global;

/// A message of the window, and where its rows stand so far.
#[derive(Clone, Copy)]
pub(crate) struct Message {
    pub(crate) msg: MsgNo,
    pub(crate) trace: Trace,
}

/// A row of the window: what it shows, but for what becomes of it, and its message, if it has one.
#[derive(Clone, Copy)]
pub(crate) struct Entry {
    pub(crate) plain: Shown,
    pub(crate) message: Option<Message>,
}

/// The message that the next row takes, as it stands before that row.
pub(crate) fn taken_by(walk: &Walk, row: &Event) -> Option<Message>
    ensures { (rows : List Event) → WalkOf walk.now rows → broken_rule (past rows) row.now ≡ None
        → IsFollowedAs rows (message_taken row.now) result }
{
    match *row {
        Event::Received { msg, .. } | Event::Dropped { msg, .. } => {
            let trace = walk.trace(msg)?;
            Some(Message { msg, trace })
        }
        _ => None,
    }
}

/// The message of the last row, which has this number; what the row takes is given as it stood before.
pub(crate) fn message_of(
    walk: &Walk,
    row: &Event,
    number: MsgNo,
    taken: Option<Message>,
) -> Option<Message>
    ensures { (rows : List Event) → WalkOf walk.now (rows ++ row.now ∷ []) → number ≡ length (rows ++ row.now ∷ [])
        → IsFollowedAs rows (message_taken row.now) taken
        → IsFollowedAs (rows ++ row.now ∷ []) (message_in number row.now) result }
{
    match *row {
        Event::Sent { p: from, to, .. } => {
            let trace = Trace {
                from,
                to,
                sent: Some(walk.length(from)),
                received: None,
            };
            Some(Message { msg: number, trace })
        }
        _ => followed(walk, row, taken),
    }
}

/// Follows the messages of entries over the last row.
pub(crate) fn follow(entries: &mut [Entry], walk: &Walk, row: &Event)
    ensures plain { map plain_of entries.new ≡ map plain_of entries.old }
    ensures followed { (rows : List Event) → WalkOf walk.now (rows ++ row.now ∷ []) → AreFollowed rows entries.old
        → AreFollowed (rows ++ row.now ∷ []) entries.new }
{
    for entry in entries.iter_mut() {
        entry.message = followed(walk, row, entry.message);
    }
}

// A message after the last row, if there is one.
fn followed(walk: &Walk, row: &Event, message: Option<Message>) -> Option<Message>
    ensures { (rows : List Event) (wanted : Option ℕ) → WalkOf walk.now (rows ++ row.now ∷ [])
        → IsFollowedAs rows wanted message → IsFollowedAs (rows ++ row.now ∷ []) wanted result }
{
    let message = message?;
    let msg = message.msg;
    let trace = trace_after(walk, row, msg, message.trace);
    Some(Message { msg, trace })
}

// The trace of a message after the last row.
fn trace_after(walk: &Walk, row: &Event, msg: MsgNo, trace: Trace) -> Trace
    ensures { (rows : List Event) → WalkOf walk.now rows → result ≡ trace_after (past rows) row.now msg trace }
{
    let length = walk.length(trace.to);
    let received = if receives(*row, msg) {
        Some(length)
    } else {
        if_within(trace.received, length)
    };
    Trace {
        sent: if_within(trace.sent, walk.length(trace.from)),
        received,
        ..trace
    }
}

// A place, counted from 1, where a history of this length has it.
fn if_within(place: Option<usize>, length: usize) -> Option<usize>
    ensures { result ≡ if_within place length }
{
    let place = place?;
    if place <= length { Some(place) } else { None }
}

/// What each row of the window shows at its end.
pub(crate) fn shown_rows(
    alloc: Global,
    walk: &Walk,
    entries: &[Entry],
) -> Result<Vec<Shown>, Memory>
    ensures { IfOk result (λ v. (upto : List Event) → WalkOf walk.now upto → AreFollowed upto entries.now
        → v.items ≡ told_rows upto entries.now) }
{
    let mut shown = Vec::new(alloc);
    for index in 0..entries.len() {
        let row = told(walk, &entries[index], &entries[index + 1..]);
        push_item(&mut shown, row)?;
    }
    Ok(shown)
}

// What a row shows with what became of it, where the window goes on with the rest.
fn told(walk: &Walk, entry: &Entry, rest: &[Entry]) -> Shown
    ensures { (upto : List Event) → WalkOf walk.now upto → IsFollowed upto entry.now
        → result ≡ told_at upto entry.now.plain (map event_of rest.now) }
{
    let plain = entry.plain;
    let row = &entry.plain.event;
    Shown {
        is_undone: is_message_undone(entry.message),
        is_taken_back: is_receive_undone(row, entry.message, rest),
        is_in_transit: is_in_transit(walk, row, entry.message),
        decision: joined_decision(walk, row),
        ..plain
    }
}

// Whether the send of a row's message is undone.
fn is_message_undone(message: Option<Message>) -> bool
    ensures { (upto : List Event) (n : ℕ) (row : Event) → IsFollowedAs upto (message_in n row) message
        → result ≡ is_message_undone upto n row }
{
    matches!(message, Some(message) if message.trace.sent.is_none())
}

// Whether the row receives a message, and that is undone, where the window goes on with the rest.
fn is_receive_undone(row: &Event, message: Option<Message>, rest: &[Entry]) -> bool
    ensures { (upto : List Event) (n : ℕ) → IsFollowedAs upto (message_in n row.now) message
        → result ≡ is_receive_undone upto row.now (map event_of rest.now) }
{
    let Event::Received { msg, .. } = *row else {
        return false;
    };
    match message {
        Some(message) => message.trace.received.is_none() || is_received_in(rest, msg),
        None => true,
    }
}

// Whether a row of one of these entries receives a message.
fn is_received_in(rest: &[Entry], msg: MsgNo) -> bool
    ensures { result ≡ list_any (receives msg) (map event_of rest.now) }
{
    rest.iter().any(|entry| receives(entry.plain.event, msg))
}

// Whether a row receives this message.
fn receives(row: Event, message: MsgNo) -> bool
    ensures { result ≡ receives message row }
{
    match row {
        Event::Received { msg, .. } => msg == message,
        _ => false,
    }
}

// Whether the row sends a message that is in transit.
fn is_in_transit(walk: &Walk, row: &Event, message: Option<Message>) -> bool
    ensures { (upto : List Event) (n : ℕ) → WalkOf walk.now upto → IsFollowedAs upto (message_in n row.now) message
        → result ≡ is_sent_in_transit upto n row.now }
{
    let Event::Sent { p: from, to: p, .. } = *row else {
        return false;
    };
    match message {
        Some(Message { msg, .. }) => walk.takes_in_transit(&Event::Received { p, from, msg }),
        None => false,
    }
}

// How the instance is decided that the process joins in the row.
fn joined_decision(walk: &Walk, row: &Event) -> Option<bool>
    ensures { (upto : List Event) → WalkOf walk.now upto → result ≡ joined_decision upto row.now }
{
    match *row {
        Event::Took { inst, .. } | Event::Ready { inst, .. } => walk.decision(inst),
        _ => None,
    }
}
