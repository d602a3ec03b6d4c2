//! A walk takes a decision.

ghost use Rattle.std.specs.Prelude.{◌≡◌, ◌<◌, ◌≤◌, ◌^◌, ◌++◌, ◌∷◌, [], ℕ, List, None, length, take};
ghost use Rattle.kt_spacetime.specs.declared.event.Event.{Event};
ghost use Rattle.kt_spacetime.specs.declared.event.Event.TheVariants as event;

use super::ControlState;
use crate::all_pairs::Pairs;
use kt_base::{InstNo, Kind, ProcNo};
use kt_rules::instances::{Instance, decide};

impl ControlState {
    ghost use Rattle.kt_meaning.specs.Past.{Past, past, at_one};
    ghost use Rattle.kt_meaning.specs.Legal.{broken_rule};
    ghost use Rattle.kt_walk.specs.Pairs.{ShowsPairs};
    ghost use Rattle.kt_walk.specs.PartsOf.{ShowsProcessStates};
    ghost use Rattle.kt_walk.specs.ControlOf.{ControlOf, KeepsRest};
    ghost use Rattle.kt_walk.specs.Stages.{with_permanent, with_live, permanent_below, permanent_at, undone_below, undone_at, IsWithin};

    /// An instance is decided.
    pub(crate) fn decide(&mut self, pairs: &mut Pairs, inst: InstNo, commit: bool)
        requires few { self.old.rows < 2 ^ 24 }
        ensures fed { (rows : List Event) (p : ℕ) → ControlOf self.old rows
            → broken_rule (past rows) (event.Decided p inst commit) ≡ None → ShowsPairs pairs.old (past rows)
            → ControlOf self.new (rows ++ event.Decided p inst commit ∷ []) }
        ensures messages { (rows : List Event) (p : ℕ) → ControlOf self.old rows
            → broken_rule (past rows) (event.Decided p inst commit) ≡ None → ShowsPairs pairs.old (past rows)
            → ShowsPairs pairs.new (past (rows ++ event.Decided p inst commit ∷ [])) }
    {
        let Some(instance) = decide(&mut self.instances, inst, commit) else {
            self.count_row();
            return;
        };
        if !commit {
            self.count_row();
            return;
        }
        match instance.kind {
            Kind::Checkpoint => {
                self.make_members_permanent(&instance);
                let permanent = self.permanent_lengths();
                pairs.commit_checkpoint(instance.joined, &permanent);
                self.count_row();
            }
            Kind::Rollback => {
                self.roll_back_members(&instance);
                let permanent = self.permanent_lengths();
                pairs.roll_back(instance.joined, &permanent);
                self.count_row();
            }
        }
    }

    // Makes the members' new positions permanent.
    fn make_members_permanent(&mut self, instance: &Instance)
        ensures rest { KeepsRest self.old self.new }
        ensures last_permanent { (s : Past) → ShowsProcessStates self.old.process_states.items s
            → IsWithin instance.now s
            → ShowsProcessStates self.new.process_states.items (with_permanent s (permanent_below 64 instance.now s.permanent)) }
    {
        for number in 0..ProcNo::COUNT {
            self.make_permanent_if(instance, number);
        }
    }

    fn make_permanent_if(&mut self, instance: &Instance, number: u8)
        requires { number < 64 }
        ensures rest { KeepsRest self.old self.new }
        ensures last_permanent { (s : Past) → ShowsProcessStates self.old.process_states.items s
            → IsWithin instance.now s
            → ShowsProcessStates self.new.process_states.items (with_permanent s (permanent_at number instance.now s.permanent)) }
    {
        if instance.has_joined(number) {
            self.make_permanent(number, instance.positions[number as usize]);
        }
    }

    // Makes a process's history permanent up to this position.
    fn make_permanent(&mut self, number: u8, position: usize)
        requires { number < 64 }
        ensures rest { KeepsRest self.old self.new }
        ensures last_permanent { (s : Past) → ShowsProcessStates self.old.process_states.items s
            → s.permanent number ≤ position → position ≤ length (s.live number)
            → ShowsProcessStates self.new.process_states.items (with_permanent s (at_one number position s.permanent)) }
    {
        self.process_states[number as usize].permanent = position;
    }

    // Cuts the members' histories back to their permanent positions.
    fn roll_back_members(&mut self, instance: &Instance)
        ensures rest { KeepsRest self.old self.new }
        ensures undone { (s : Past) → ShowsProcessStates self.old.process_states.items s
            → ((q : ℕ) → s.permanent q ≤ length (s.live q))
            → ShowsProcessStates self.new.process_states.items (with_live s (undone_below 64 instance.now s.permanent s.live)) }
    {
        for number in 0..ProcNo::COUNT {
            self.roll_back_if(instance, number);
        }
    }

    fn roll_back_if(&mut self, instance: &Instance, number: u8)
        requires { number < 64 }
        ensures rest { KeepsRest self.old self.new }
        ensures undone { (s : Past) → ShowsProcessStates self.old.process_states.items s
            → s.permanent number ≤ length (s.live number)
            → ShowsProcessStates self.new.process_states.items (with_live s (undone_at number instance.now s.permanent s.live)) }
    {
        if instance.has_joined(number) {
            self.undo(number);
        }
    }

    // Cuts a process's history back to its permanent position.
    fn undo(&mut self, number: u8)
        requires { number < 64 }
        ensures rest { KeepsRest self.old self.new }
        ensures undone { (s : Past) → ShowsProcessStates self.old.process_states.items s
            → s.permanent number ≤ length (s.live number)
            → ShowsProcessStates self.new.process_states.items (with_live s (at_one number (take (s.permanent number) (s.live number)) s.live)) }
    {
        self.process_states[number as usize].cut_back();
    }
}
