//! A walk takes one more row.

ghost use Rattle.std.specs.Prelude.{◌≡◌, ◌<◌, ◌^◌, ◌+◌, ◌++◌, ◌∷◌, [], ℕ, List, OnOk, OnErr, Some, None, true};
ghost use Rattle.kt_spacetime.specs.declared.event.Event.{Event};
ghost use Rattle.kt_spacetime.specs.declared.event.Event.TheVariants as event;

use super::ControlState;
use kt_base::{InstNo, Kind, Memory, MsgNo, ProcNo, ProcSet};
use kt_rules::instances::{Instance, join};
use kt_spacetime::Event;

impl ControlState {
    ghost use Rattle.kt_meaning.specs.Past.{past};
    ghost use Rattle.kt_meaning.specs.Legal.{broken_rule};
    ghost use Rattle.kt_rules.specs.Standing.{at_number, rolled_back_shown};
    ghost use Rattle.kt_walk.specs.PartsOf.{is_plain};
    ghost use Rattle.kt_walk.specs.ControlOf.{ControlOf, parts_of};

    /// Takes one more row that breaks no rule, of those that concern no message and decide nothing.
    pub(crate) fn add(&mut self, row: &Event) -> Result<(), Memory>
        requires few { self.old.rows < 2 ^ 24 }
        requires plain { is_plain row.now ≡ true }
        ensures fed { OnOk result ((rows : List Event) → ControlOf self.old rows
            → broken_rule (past rows) row.now ≡ None → ControlOf self.new (rows ++ row.now ∷ [])) }
        ensures unchanged { OnErr result (parts_of self.new ≡ parts_of self.old) }
    {
        match *row {
            Event::Began { p, inst, kind } => self.begin(p, inst, kind)?,
            Event::Took { p, inst } | Event::Ready { p, inst } => self.join(p, inst),
            Event::Closed { p, inst } => self.close(p, inst),
            Event::Failed { p } => self.fail(p),
            Event::Unwilling { .. } => self.count_row(),
            Event::Refused { .. } => self.count_row(),
            _ => unreachable!(),
        }
        Ok(())
    }

    /// Sends or receives a message.
    pub(crate) fn extend(&mut self, p: ProcNo)
        requires few { self.old.rows < 2 ^ 24 }
        ensures sent { (rows : List Event) (to : ℕ) (body : _) → ControlOf self.old rows
            → broken_rule (past rows) (event.Sent p to body) ≡ None
            → ControlOf self.new (rows ++ event.Sent p to body ∷ []) }
        ensures received { (rows : List Event) (from msg : ℕ) → ControlOf self.old rows
            → broken_rule (past rows) (event.Received p from msg) ≡ None
            → ControlOf self.new (rows ++ event.Received p from msg ∷ []) }
    {
        self.process_states[p.get() as usize].extend();
        self.count_row();
    }

    /// Drops a message.
    pub(crate) fn drop_message(&mut self, p: ProcNo, from: ProcNo, msg: MsgNo)
        requires few { self.old.rows < 2 ^ 24 }
        ensures { (rows : List Event) → ControlOf self.old rows
            → broken_rule (past rows) (event.Dropped p from msg) ≡ None
            → ControlOf self.new (rows ++ event.Dropped p from msg ∷ []) }
    {
        self.drops.drop_message(p, from, msg);
        self.count_row();
    }

    fn begin(&mut self, p: ProcNo, inst: InstNo, kind: Kind) -> Result<(), Memory>
        requires few { self.old.rows < 2 ^ 24 }
        ensures fed { OnOk result ((rows : List Event) → ControlOf self.old rows
            → broken_rule (past rows) (event.Began p inst kind) ≡ None
            → ControlOf self.new (rows ++ event.Began p inst kind ∷ [])) }
        ensures unchanged { OnErr result (parts_of self.new ≡ parts_of self.old) }
    {
        self.instances.push(Instance {
            initiator: p,
            kind,
            decision: None,
            joined: ProcSet::empty(),
            positions: [0; 64],
        })?;
        self.count_row();
        self.beginning = Some((p, inst));
        Ok(())
    }

    fn join(&mut self, p: ProcNo, inst: InstNo)
        requires few { self.old.rows < 2 ^ 24 }
        ensures took { (rows : List Event) → ControlOf self.old rows
            → broken_rule (past rows) (event.Took p inst) ≡ None
            → ControlOf self.new (rows ++ event.Took p inst ∷ []) }
        ensures ready { (rows : List Event) → ControlOf self.old rows
            → broken_rule (past rows) (event.Ready p inst) ≡ None
            → ControlOf self.new (rows ++ event.Ready p inst ∷ []) }
    {
        let process_state = &mut self.process_states[p.get() as usize];
        let position = process_state.length as usize;
        process_state.open_in = Some(inst);
        join(&mut self.instances, inst, p, position);
        self.count_row();
    }

    // Whether the instance is a committed rollback.
    fn was_rolled_back(&self, inst: InstNo) -> bool
        ensures { result ≡ rolled_back_shown (at_number self.now.instances.items inst) }
    {
        match self.instance(inst) {
            Some(instance) => instance.is_committed_rollback(),
            None => false,
        }
    }

    fn close(&mut self, p: ProcNo, inst: InstNo)
        requires few { self.old.rows < 2 ^ 24 }
        ensures { (rows : List Event) → ControlOf self.old rows
            → broken_rule (past rows) (event.Closed p inst) ≡ None
            → ControlOf self.new (rows ++ event.Closed p inst ∷ []) }
    {
        let was_rolled_back = self.was_rolled_back(inst);
        self.drops.close(p, was_rolled_back);
        let process_state = &mut self.process_states[p.get() as usize];
        process_state.close(was_rolled_back);
        self.count_row();
    }

    fn fail(&mut self, p: ProcNo)
        requires few { self.old.rows < 2 ^ 24 }
        ensures { (rows : List Event) → ControlOf self.old rows → broken_rule (past rows) (event.Failed p) ≡ None
            → ControlOf self.new (rows ++ event.Failed p ∷ []) }
    {
        let process_state = &mut self.process_states[p.get() as usize];
        process_state.up = false;
        self.count_row();
    }

    // One more row, which does not begin an instance.
    pub(crate) fn count_row(&mut self)
        requires few { self.old.rows < 2 ^ 24 }
        ensures { self.new ≡ record self.old { rows = self.old.rows + 1; beginning = None } }
    {
        self.rows += 1;
        self.beginning = None;
    }
}
