//! What the rules demand of a row, one by one, in the order in which it is told.

ghost use Rattle.std.specs.Prelude.{◌≡◌, ◌&&◌};
ghost use Rattle.kt_spacetime.specs.declared.event.Event.{Event as Row};
ghost use Rattle.kt_spacetime.specs.declared.event.Event.TheVariants as event;
ghost use Rattle.kt_meaning.specs.Past.{Past};
ghost use Rattle.kt_meaning.specs.Legal.{keeps, keeps_numbers, keeps_receiving, keeps_joining, keeps_deciding, keeps_causes, excuses, is_undecided, names_begun, refuses};
ghost use Rattle.kt_histories.specs.Demands.{asks, ask_all, AreDemandsOn, IsDemandOn};

use crate::breach::demands::Demand::{
    AfterDropped, AfterReceived, Begun, Decided, Down, Follows, Idle, Initiator, Inside, Never,
    Next, NotDropped, NotInside, NotJoined, NotReceived, NotRolling, Nothing, OfKind, OtherCause,
    OtherPeer, Sent, Undecided, Up,
};
use kt_base::{Cause, InstNo, Kind, MsgNo, ProcNo, Verb};
use kt_spacetime::{Event, Rule};

/// What a rule demands of what is so before a row.
#[derive(Clone, Copy)]
pub enum Demand {
    /// Nothing, where there is no more.
    Nothing,
    /// What no log has.
    Never,
    /// The other process of a message is another one.
    OtherPeer(ProcNo, ProcNo),
    /// The instance that a cause names is another one than the instance that is refused.
    OtherCause(InstNo, InstNo),
    /// The instance has the number of the next one to begin.
    Next(InstNo),
    /// The instance has begun.
    Begun(InstNo),
    /// The process was sent this message by that one, and the send was not undone.
    Sent(ProcNo, ProcNo, MsgNo),
    /// The process has not received it from that one.
    NotReceived(ProcNo, ProcNo, MsgNo),
    /// It was not dropped.
    NotDropped(MsgNo),
    /// The process has received no later message of that one.
    AfterReceived(ProcNo, ProcNo, MsgNo),
    /// Nor dropped one since it is down.
    AfterDropped(ProcNo, ProcNo, MsgNo),
    Up(ProcNo),
    Down(ProcNo),
    /// The process is in no open instance.
    Idle(ProcNo),
    /// It is in no open rollback.
    NotRolling(ProcNo),
    /// It is in this open instance.
    Inside(ProcNo, InstNo),
    /// It is not in this open instance.
    NotInside(ProcNo, InstNo),
    /// It has not joined the instance.
    NotJoined(ProcNo, InstNo),
    /// The row after a beginning is the initiator's joining.
    Follows(Event),
    /// The instance is of this kind.
    OfKind(InstNo, Kind),
    /// This process began it.
    Initiator(ProcNo, InstNo),
    /// It is not decided.
    Undecided(InstNo),
    Decided(InstNo),
}

// No more is demanded.
const NO: Demand = Nothing;

/// What a rule demands of a row.
pub fn demands(rule: Rule, row: &Event) -> [Demand; 7]
    ensures rule { (s : Past) → ask_all result s ≡ keeps rule s row.now }
    ensures on { AreDemandsOn row.now result }
{
    match rule {
        Rule::Numbers => numbers(row),
        Rule::Message => match *row {
            Event::Received { p, from, msg } | Event::Dropped { p, from, msg } => {
                let once = NotReceived(p, from, msg);
                [Sent(p, from, msg), once, NotDropped(msg), NO, NO, NO, NO]
            }
            _ => [NO; 7],
        },
        Rule::Order => match *row {
            Event::Received { p, from, msg } | Event::Dropped { p, from, msg } => {
                let last = AfterDropped(p, from, msg);
                [AfterReceived(p, from, msg), last, NO, NO, NO, NO, NO]
            }
            _ => [NO; 7],
        },
        Rule::Sending => match *row {
            Event::Sent { p, .. } => [Up(p), Idle(p), NO, NO, NO, NO, NO],
            _ => [NO; 7],
        },
        Rule::Receiving => receiving(row),
        Rule::Joining => joining(row),
        Rule::Deciding => deciding(row),
        Rule::Closing => match *row {
            Event::Closed { p, inst } => [Inside(p, inst), Decided(inst), NO, NO, NO, NO, NO],
            _ => [NO; 7],
        },
        Rule::Causes => causes(row),
    }
}

fn numbers(row: &Event) -> [Demand; 7]
    ensures rule { (s : Past) → ask_all result s ≡ keeps_numbers s row.now }
    ensures on { AreDemandsOn row.now result }
{
    match *row {
        Event::Sent { p, to, .. } => [OtherPeer(p, to), NO, NO, NO, NO, NO, NO],
        Event::Received { p, from, .. } | Event::Dropped { p, from, .. } => {
            [OtherPeer(p, from), NO, NO, NO, NO, NO, NO]
        }
        Event::Began { inst, .. } => [Next(inst), NO, NO, NO, NO, NO, NO],
        Event::Took { inst, .. }
        | Event::Ready { inst, .. }
        | Event::Decided { inst, .. }
        | Event::Closed { inst, .. } => [Begun(inst), NO, NO, NO, NO, NO, NO],
        Event::Unwilling { inst, cause, .. } => { [Begun(inst), named(cause), NO, NO, NO, NO, NO] }
        Event::Failed { .. } => [NO; 7],
        Event::Refused { cause, .. } => [named(cause), NO, NO, NO, NO, NO, NO],
    }
}

// The instance that a cause names has begun.
fn named(cause: Cause) -> Demand
    ensures rule { (s : Past) → asks result s ≡ names_begun s cause }
    ensures on { (row : Row) → IsDemandOn row result }
{
    match cause {
        Cause::Busy(inst) => Begun(inst),
        Cause::Down | Cause::NoSave => NO,
    }
}

fn receiving(row: &Event) -> [Demand; 7]
    ensures rule { (s : Past) → ask_all result s ≡ keeps_receiving s row.now }
    ensures on { AreDemandsOn row.now result }
{
    match *row {
        Event::Received { p, .. } => [NotRolling(p), Up(p), NO, NO, NO, NO, NO],
        Event::Dropped { p, .. } => [NotRolling(p), Down(p), NO, NO, NO, NO, NO],
        _ => [NO; 7],
    }
}

fn joining(row: &Event) -> [Demand; 7]
    ensures rule { (s : Past) → ask_all result s ≡ keeps_joining s row.now }
    ensures on { AreDemandsOn row.now result }
{
    let follows = Follows(*row);
    match *row {
        Event::Began { p, kind, .. } => match kind {
            Kind::Checkpoint => [follows, Idle(p), Up(p), NO, NO, NO, NO],
            Kind::Rollback => [follows, Idle(p), NO, NO, NO, NO, NO],
        },
        Event::Took { p, inst } => {
            let (once, kind) = (NotJoined(p, inst), OfKind(inst, Kind::Checkpoint));
            let (begun, open) = (Begun(inst), Undecided(inst));
            [follows, once, begun, open, Idle(p), kind, Up(p)]
        }
        Event::Ready { p, inst } => {
            let (once, kind) = (NotJoined(p, inst), OfKind(inst, Kind::Rollback));
            let (begun, open) = (Begun(inst), Undecided(inst));
            [follows, once, begun, open, Idle(p), kind, NO]
        }
        _ => [follows, NO, NO, NO, NO, NO, NO],
    }
}

fn deciding(row: &Event) -> [Demand; 7]
    ensures rule { (s : Past) → ask_all result s ≡ keeps_deciding s row.now }
    ensures on { AreDemandsOn row.now result }
{
    match *row {
        Event::Decided { p, inst, .. } => {
            let (begun, open) = (Begun(inst), Undecided(inst));
            [Initiator(p, inst), Inside(p, inst), begun, open, NO, NO, NO]
        }
        _ => [NO; 7],
    }
}

fn causes(row: &Event) -> [Demand; 7]
    ensures rule { (s : Past) → ask_all result s ≡ keeps_causes s row.now }
    ensures on { AreDemandsOn row.now result }
{
    match *row {
        Event::Failed { p } => [Up(p), NO, NO, NO, NO, NO, NO],
        Event::Unwilling { p, inst, cause } => unwilling(p, inst, cause),
        Event::Refused { p, verb, cause } => refused(p, verb, cause),
        _ => [NO; 7],
    }
}

// The process may be unwilling to join the instance, for this cause.
fn unwilling(p: ProcNo, inst: InstNo, cause: Cause) -> [Demand; 7]
    ensures rule { (s : Past) → ask_all result s ≡ (is_undecided s inst && excuses s p inst cause) }
    ensures on { AreDemandsOn (event.Unwilling p inst cause) result }
{
    let (begun, open) = (Begun(inst), Undecided(inst));
    let outside = NotInside(p, inst);
    let checkpoint = OfKind(inst, Kind::Checkpoint);
    match cause {
        Cause::Busy(other) => {
            let apart = OtherCause(inst, other);
            [begun, open, outside, apart, Inside(p, other), NO, NO]
        }
        Cause::Down => [begun, open, outside, checkpoint, Idle(p), Down(p), NO],
        Cause::NoSave => [begun, open, outside, checkpoint, Idle(p), Up(p), NO],
    }
}

// The process may refuse a command, for this cause.
fn refused(p: ProcNo, verb: Verb, cause: Cause) -> [Demand; 7]
    ensures rule { (s : Past) → ask_all result s ≡ refuses s p verb cause }
    ensures on { AreDemandsOn (event.Refused p verb cause) result }
{
    match cause {
        Cause::Busy(inst) => match verb {
            Verb::Checkpoint | Verb::Rollback => [Inside(p, inst), NO, NO, NO, NO, NO, NO],
            Verb::Send | Verb::Fail => [Never, NO, NO, NO, NO, NO, NO],
        },
        Cause::Down => match verb {
            Verb::Send | Verb::Checkpoint => [Idle(p), Down(p), NO, NO, NO, NO, NO],
            Verb::Rollback => [Never, NO, NO, NO, NO, NO, NO],
            Verb::Fail => [Down(p), NO, NO, NO, NO, NO, NO],
        },
        Cause::NoSave => match verb {
            Verb::Checkpoint => [Idle(p), Up(p), NO, NO, NO, NO, NO],
            Verb::Send | Verb::Rollback | Verb::Fail => [Never, NO, NO, NO, NO, NO, NO],
        },
    }
}
