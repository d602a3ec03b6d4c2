//! Rows that are sought in a log.

ghost use Rattle.std.specs.Prelude.{◌≡◌, ◌≤◌, ◌^◌, length};
ghost use Rattle.kt_histories.specs.Finding.{IsFirstFound, IsFirstNumber, IsLastNumber, is_sought};

use kt_base::{InstNo, MsgNo, ProcNo, RowNo};
use kt_spacetime::Event;

/// What a row that is sought says.
#[derive(Clone, Copy, PartialEq)]
pub enum Sought {
    /// A process was unwilling to join this instance.
    Unwilling(InstNo),
    /// This instance began.
    Began(InstNo),
    /// This instance was decided.
    Decided(InstNo),
    /// This process received from that one this message.
    Received(ProcNo, ProcNo, MsgNo),
    /// This process failed.
    Failed(ProcNo),
    /// This message was dropped.
    Dropped(MsgNo),
    /// This process joined this instance.
    Joined(ProcNo, InstNo),
    /// This process closed this instance.
    Closed(ProcNo, InstNo),
}

/// A row that was found, with its number.
#[derive(Clone, Copy)]
pub struct Found {
    pub number: RowNo,
    pub row: Event,
}

/// The first row that says what is sought.
pub fn first_row(rows: &[Event], sought: &Sought) -> Option<Found>
    requires few { length rows.now ≤ 2 ^ 24 }
    ensures { IsFirstFound (is_sought sought.now) rows.now result }
{
    for place in 0..rows.len() {
        if is_sought(sought, &rows[place]) {
            return Some(Found {
                number: RowNo::after(place),
                row: rows[place],
            });
        }
    }
    None
}

/// The number of the last row that says what is sought.
pub fn last_number(rows: &[Event], sought: &Sought) -> Option<RowNo>
    requires few { length rows.now ≤ 2 ^ 24 }
    ensures { IsLastNumber (is_sought sought.now) rows.now result }
{
    let mut last = None;
    for place in 0..rows.len() {
        if is_sought(sought, &rows[place]) {
            last = Some(RowNo::after(place));
        }
    }
    last
}

/// The number of the first row that says what is sought.
pub fn first_number(rows: &[Event], sought: &Sought) -> Option<RowNo>
    requires few { length rows.now ≤ 2 ^ 24 }
    ensures { IsFirstNumber (is_sought sought.now) rows.now result }
{
    Some(first_row(rows, sought)?.number)
}

/// Whether a row says what is sought.
pub fn is_sought(sought: &Sought, row: &Event) -> bool
    ensures { result ≡ is_sought sought.now row.now }
{
    match *row {
        Event::Unwilling { inst, .. } => *sought == Sought::Unwilling(inst),
        Event::Began { inst, .. } => *sought == Sought::Began(inst),
        Event::Decided { inst, .. } => *sought == Sought::Decided(inst),
        Event::Received { p, from, msg } => *sought == Sought::Received(p, from, msg),
        Event::Failed { p } => *sought == Sought::Failed(p),
        Event::Dropped { msg, .. } => *sought == Sought::Dropped(msg),
        Event::Took { p, inst } | Event::Ready { p, inst } => *sought == Sought::Joined(p, inst),
        Event::Closed { p, inst } => *sought == Sought::Closed(p, inst),
        _ => false,
    }
}
