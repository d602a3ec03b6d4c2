//! Steps by their words.

use kt_base::{Kind, Label, ProcNo};
use kt_node::{ClusterStep, Envelope, Input, NodeParcel};
use kt_spacetime::{Count, InstName};

/// A process, by its number.
pub(crate) fn process_of(word: Option<&str>) -> Option<ProcNo> {
    ProcNo::new(word?.parse().ok()?)
}

/// The step that a line says, if it says one. A last word says that the object can't be saved.
pub(crate) fn step_of(line: &str) -> Option<ClusterStep> {
    let mut words = line.split(' ');
    let verb = words.next()?;
    let at = process_of(words.next())?;
    match verb {
        "send" => {
            let to = process_of(words.next())?;
            let body: i64 = words.next()?.parse().ok()?;
            Some(ClusterStep::Send { at, to, body })
        }
        "checkpoint" | "rollback" => {
            let kind = if verb == "rollback" {
                Kind::Rollback
            } else {
                Kind::Checkpoint
            };
            let able = words.next().is_none();
            Some(ClusterStep::Begin { at, kind, able })
        }
        "fail" => Some(ClusterStep::Fail { at }),
        "take" => {
            let from = process_of(words.next())?;
            let able = words.next().is_none();
            Some(ClusterStep::Take { at, from, able })
        }
        _ => None,
    }
}

/// The forged parcel that a line says, if it says one, and who takes it: who is said to have put it, its number, and the
/// instance that it names.
pub(crate) fn forged_of(line: &str) -> Option<(ProcNo, Input)> {
    let mut words = line.split(' ');
    let verb = words.next()?;
    let at = process_of(words.next())?;
    let from = process_of(words.next())?;
    let number: u64 = words.next()?.parse().ok()?;
    let initiator = process_of(words.next())?;
    let count = Count::new(words.next()?.parse().ok()?)?;
    let inst = InstName { initiator, count };
    let (kind, label) = (Kind::Rollback, Label::new(0)?);
    let (willing, commit) = (false, true);
    let parcel = match verb {
        "ask" => NodeParcel::Ask { inst, kind, label },
        "reply" => NodeParcel::Reply { inst, willing },
        "decide" => NodeParcel::Decide { inst, commit },
        _ => return None,
    };
    let clock = 0;
    let envelope = Envelope {
        from,
        to: at,
        number,
        clock,
        parcel,
    };
    Some((at, Input::Deliver { from, envelope }))
}
