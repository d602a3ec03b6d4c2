//! The row that undid the send of a message.

ghost use Rattle.std.specs.Prelude.{◌≡◌, ◌≤◌, ◌^◌, List, IfOk, IfSome, length};
ghost use Rattle.kt_spacetime.specs.declared.event.Event.{Event as Events};
ghost use Rattle.kt_meaning.specs.Legal.{IsLegal};
ghost use Rattle.kt_rules.specs.Traces.{trace_of};
ghost use Rattle.kt_histories.specs.HistoriesOf.{HistoriesOf};
ghost use Rattle.kt_histories.specs.Breaches.{IsUndoing, IsUndoneIn, is_send_live};

use crate::Histories;
use crate::breach::Breach;
use kt_base::{Memory, MsgNo, RowNo};
use kt_spacetime::{Event, SpaceTime};
use std::alloc::Global;

/// The row that undid what a breach tells as undone.
pub fn undone_in(alloc: Global, rows: &[Event], breach: &Breach) -> Result<Option<RowNo>, Memory>
    requires few { length rows.now ≤ 2 ^ 24 }
    requires legal { IsLegal rows.now }
    ensures { IfOk result (λ row. IfSome row (IsUndoneIn rows.now breach.now)) }
{
    match *breach {
        Breach::Undone(msg, _, _) => undoing(alloc, rows, msg),
        _ => Ok(None),
    }
}

/// The last row that undid the send of a message.
pub fn undoing(alloc: Global, rows: &[Event], msg: MsgNo) -> Result<Option<RowNo>, Memory>
    requires few { length rows.now ≤ 2 ^ 24 }
    requires legal { IsLegal rows.now }
    ensures { IfOk result (λ row. IfSome row (IsUndoing rows.now msg)) }
{
    let mut histories = Histories::of(alloc, &SpaceTime::new(alloc), 0)?;
    let mut undone = None;
    for place in 0..rows.len() {
        let was = is_send_live(&histories, msg);
        histories.add(&rows[place])?;
        let is = is_send_live(&histories, msg);
        if was && !is {
            undone = Some(RowNo::after(place));
        }
    }
    Ok(undone)
}

// Whether the send of a message is live.
fn is_send_live(histories: &Histories, msg: MsgNo) -> bool
    ensures { (rows : List Events) → HistoriesOf histories.now rows → result ≡ is_send_live (trace_of rows msg) }
{
    match histories.trace(msg) {
        Some(trace) => trace.sent.is_some(),
        None => false,
    }
}
