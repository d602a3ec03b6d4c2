//! The instances of a log, after the rows so far.

ghost use Rattle.std.specs.Prelude.{◌≡◌, ◌≢◌, ◌<◌, ◌&&◌, ℕ, true, Some, None, slice_set, IfNone};
ghost use Rattle.kt_base.specs.Sets.{has};

use kt_base::{InstNo, Kind, ProcNo, ProcSet};

/// An instance, from its `began` row on.
#[derive(Clone, Copy)]
pub struct Instance {
    /// Who began it.
    pub initiator: ProcNo,
    /// Whether it is a checkpoint or a rollback.
    pub kind: Kind,
    /// Whether it was committed; None before its decision.
    pub decision: Option<bool>,
    /// Who has joined it.
    pub joined: ProcSet,
    /// By process: the length of its live history when it joined; nothing is said of who has not joined.
    pub positions: [usize; 64],
}

ghost use Rattle.kt_rules.specs.declared.instances.Instance.{Instance};
ghost use Rattle.kt_rules.specs.Changes.{HasOneMore, IsDecided};
ghost use Rattle.kt_rules.specs.Standing.{at_number};

impl Instance {
    ghost use Rattle.kt_meaning.specs.Past.{is_rollback_kind};
    ghost use Rattle.kt_rules.specs.Tables.{is_committed_decision};
    ghost use Rattle.kt_rules.specs.Standing.{new_shown};

    // One more member, whose history has this length.
    fn add(&mut self, p: ProcNo, position: usize)
        ensures initiator { self.new.initiator ≡ self.old.initiator }
        ensures kind { self.new.kind ≡ self.old.kind }
        ensures decision { self.new.decision ≡ self.old.decision }
        ensures joined { has self.new.joined p ≡ true }
        ensures others { (q : ℕ) → q ≢ p → has self.new.joined q ≡ has self.old.joined q }
        ensures positions { self.new.positions ≡ slice_set self.old.positions p position }
    {
        self.joined = self.joined.with(p);
        self.positions[p.get() as usize] = position;
    }

    /// The length of a process's live history when it joined this checkpoint; None where it has not joined, and in a
    /// rollback.
    pub fn position(&self, p: ProcNo) -> Option<usize>
        ensures { result ≡ new_shown (Some self.now) p }
    {
        if self.kind == Kind::Checkpoint && self.joined.has(p) {
            Some(self.positions[p.get() as usize])
        } else {
            None
        }
    }

    /// Whether the process of this number, at most 63, has joined.
    pub fn has_joined(&self, number: u8) -> bool
        requires { number < 64 }
        ensures { result ≡ has self.now.joined number }
    {
        self.joined.has(ProcNo::nth(number))
    }

    /// Whether it is a committed rollback.
    pub fn is_committed_rollback(&self) -> bool
        ensures { result ≡ (is_rollback_kind (Some self.now.kind) && is_committed_decision self.now.decision) }
    {
        self.kind == Kind::Rollback && self.decision == Some(true)
    }
}

/// One more member of an instance that has begun, whose live history has this length. The list has the instances by
/// number, from 1.
pub fn join(instances: &mut [Instance], inst: InstNo, p: ProcNo, position: usize)
    ensures { (v : Instance) → at_number instances.old inst ≡ Some v → (w : Instance)
        × HasOneMore instances.old instances.new inst p position v w }
{
    let index = inst.get() as usize - 1;
    if index < instances.len() {
        instances[index].add(p, position);
    }
}

/// Gives an instance that has begun a decision, and answers the instance then; None where it has not begun. The list has
/// the instances by number, from 1.
pub fn decide(instances: &mut [Instance], inst: InstNo, commit: bool) -> Option<Instance>
    ensures decided { (v : Instance) → at_number instances.old inst ≡ Some v
        → IsDecided instances.old instances.new inst commit v }
    ensures instance { (v : Instance) → at_number instances.old inst ≡ Some v
        → result ≡ Some (record v { decision = Some commit }) }
    ensures none { IfNone result (at_number instances.old inst ≡ None) }
{
    let index = inst.get() as usize - 1;
    if index >= instances.len() {
        return None;
    }
    instances[index].decision = Some(commit);
    Some(instances[index])
}
