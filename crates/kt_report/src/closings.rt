//! What closing an instance asks of a process.

ghost use Rattle.std.specs.Prelude.{◌≡◌, ◌++◌, ◌∷◌, [], ℕ, List, Some, true, OnOk};
ghost use Rattle.kt_spacetime.specs.declared.event.Event.{Event};
ghost use Rattle.kt_spacetime.specs.declared.event.Event.TheVariants as event;
ghost use Rattle.kt_meaning.specs.Past.{Past, past, after, is_rollback, is_committed, is_rollback_kind};
ghost use Rattle.kt_meaning.specs.Legal.{IsLegal, has_begun};
ghost use Rattle.kt_machine.specs.Values.{closing};
ghost use Rattle.kt_report.specs.Shown.{ShowsReportInstances, act_of};

use kt_base::{InstNo, Kind, Memory};
use kt_plan::Act;
use kt_spacetime::Event;

/// An instance that has begun: its kind, and whether it is decided and committed.
#[derive(Clone, Copy)]
pub(crate) struct Instance {
    pub(crate) kind: Kind,
    pub(crate) is_committed: bool,
}

/// Notes what one more row says of the instances.
#[inline(always)]
pub(crate) fn note(instances: &mut Vec<Instance>, row: &Event) -> Result<(), Memory>
    ensures { OnOk result ((rows : List Event) → IsLegal (rows ++ row.now ∷ [])
        → ShowsReportInstances instances.old.items (past rows) → ShowsReportInstances instances.new.items (past (rows ++ row.now ∷ []))) }
{
    match *row {
        Event::Began { kind, .. } => {
            instances.push(Instance {
                kind,
                is_committed: false,
            })?;
            Ok(())
        }
        Event::Decided { inst, commit, .. } => {
            decide(instances, inst, commit);
            Ok(())
        }
        _ => Ok(()),
    }
}

// Notes how an instance was decided.
fn decide(instances: &mut Vec<Instance>, inst: InstNo, commit: bool)
    ensures { (s : Past) (p : ℕ) → has_begun s inst ≡ true → ShowsReportInstances instances.old.items s
        → ShowsReportInstances instances.new.items (after s (event.Decided p inst commit)) }
{
    let index = inst.index();
    if index < instances.len() {
        instances[index].is_committed = commit;
    }
}

/// What who closes an instance does to its object and its saved states.
pub(crate) fn closing(instances: &[Instance], inst: InstNo) -> Act
    ensures { (s : Past) → ShowsReportInstances instances.now s
        → act_of result ≡ closing (is_rollback s inst) (is_committed s inst) }
{
    match instances.get(inst.index()) {
        Some(instance) => closing_of(*instance),
        None => Act::Discard,
    }
}

// The same of an instance that is there.
fn closing_of(instance: Instance) -> Act
    ensures { act_of result ≡ closing (is_rollback_kind (Some instance.kind)) instance.is_committed }
{
    match (instance.kind, instance.is_committed) {
        (Kind::Checkpoint, true) => Act::Promote,
        (Kind::Checkpoint, false) => Act::Discard,
        (Kind::Rollback, true) => Act::Restore,
        (Kind::Rollback, false) => Act::Nothing,
    }
}
