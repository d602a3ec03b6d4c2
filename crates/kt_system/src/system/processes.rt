//! One process of a system: how it is read, and each of its turns.

ghost use Rattle.std.specs.Prelude.{◌≡◌, ◌<◌, ◌+◌, ◌-◌, ◌^◌, ℕ, true, OnErr, IfOk, IfSome, IfNone, length};
ghost use Rattle.std.specs.Option.{option_map};
ghost use Rattle.kt_base.specs.Sets.{has};
ghost use Rattle.kt_base.specs.declared.words.Kind.TheVariants as kind;
ghost use Rattle.kt_process.specs.Replies.{IsReplyTo};
ghost use Rattle.kt_process.specs.PartRules.{after_reply};
ghost use Rattle.kt_process.specs.Turns.{joins_by, reply_of, IsBegin, IsHeard};
ghost use Rattle.kt_system.specs.Systems.{state_of};
ghost use Rattle.std.specs.Prelude.{[], ◌∷◌, ◌++◌, None, false};
ghost use Rattle.kt_tables.specs.Calls.{sent, received, Speaks};
ghost use Rattle.kt_machine.specs.Seen.{Seen};
ghost use Rattle.kt_process.specs.ProcessStates.{part_of_side, is_ready, inst_of, asked_of};
ghost use Rattle.kt_process.specs.Shown.{IsSeenAs, BeginsAs, HearsAs, counted_as, closed_as, mark_of, no_mark};
ghost use Rattle.kt_system.specs.Shown.{ShowsState, IsTurned};

use super::System;
use kt_base::{InstNo, Label, Memory, ProcNo, ProcSet};
use kt_process::{Action, Process};

impl System {
    /// A process.
    pub(super) fn process(&self, p: ProcNo) -> &Process
        requires { p < self.now.size }
        ensures process { result.now ≡ state_of self.now p }
        ensures tables { (state_of self.now p).tables.processes ≡ self.now.size }
    {
        &self.processes[p.index()]
    }

    /// A process notes that it sends a message, and gives the label.
    pub(super) fn note_sent(&mut self, p: ProcNo, to: ProcNo) -> Label
        requires p { p < self.old.size }
        requires to { to < self.old.size }
        requires left { (state_of self.old p).used < 2 ^ 48 - 1 }
        ensures label { result ≡ (state_of self.old p).used + 1 }
        ensures turned { IsTurned self.old self.new p }
        ensures shows { (v : Seen) → ShowsState self.old v → Speaks ((v.states p).calls ++ sent to ((v.states p).used + 1) ∷ []) →
            IsSeenAs (state_of self.new p) (record (v.states p) { calls = (v.states p).calls ++ sent to ((v.states p).used + 1) ∷ []; used = (v.states p).used + 1 }) }
    {
        self.processes[p.index()].send(to)
    }

    /// A process notes that it receives a message.
    pub(super) fn note_received(&mut self, p: ProcNo, from: ProcNo, label: Label)
        requires p { p < self.old.size }
        requires from { from < self.old.size }
        ensures turned { IsTurned self.old self.new p }
        ensures shows { (v : Seen) → ShowsState self.old v → Speaks ((v.states p).calls ++ received from label ∷ []) →
            IsSeenAs (state_of self.new p) (record (v.states p) { calls = (v.states p).calls ++ received from label ∷ [] }) }
    {
        self.processes[p.index()].receive(from, label);
    }

    /// A process's object fails.
    pub(super) fn put_down(&mut self, p: ProcNo)
        requires { p < self.old.size }
        ensures turned { IsTurned self.old self.new p }
        ensures shows { (v : Seen) → ShowsState self.old v → IsSeenAs (state_of self.new p) (record (v.states p) { up = false }) }
    {
        self.processes[p.index()].fail();
    }

    /// A process is to begin a checkpoint.
    pub(super) fn tell_to_save(
        &mut self,
        p: ProcNo,
        able: bool,
        inst: InstNo,
        marks: Vec<usize>,
    ) -> Result<Action, Memory>
        requires p { p < self.old.size }
        requires marks { length marks.items ≡ self.old.size }
        ensures err { OnErr result (self.new ≡ self.old) }
        ensures begins { IfOk result (λ action.
            IsBegin kind.Checkpoint inst (state_of self.old p) (state_of self.new p) action) }
        ensures turned { IsTurned self.old self.new p }
        ensures shows { IfOk result (λ action. (v : Seen) → ShowsState self.old v → BeginsAs kind.Checkpoint able v.processes inst (mark_of marks.items) (v.states p) (state_of self.new p) action) }
    {
        self.processes[p.index()].begin_checkpoint(able, inst, marks)
    }

    /// A process is to begin a rollback.
    pub(super) fn tell_to_roll(&mut self, p: ProcNo, inst: InstNo) -> Result<Action, Memory>
        requires { p < self.old.size }
        ensures err { OnErr result (self.new ≡ self.old) }
        ensures begins { IfOk result (λ action.
            IsBegin kind.Rollback inst (state_of self.old p) (state_of self.new p) action) }
        ensures turned { IsTurned self.old self.new p }
        ensures shows { IfOk result (λ action. (v : Seen) → ShowsState self.old v → BeginsAs kind.Rollback true v.processes inst no_mark (v.states p) (state_of self.new p) action) }
    {
        self.processes[p.index()].begin_rollback(inst)
    }

    /// The reply of a process to an ask to take part in a checkpoint that does not make it join; None where it joins.
    #[inline(always)]
    pub(super) fn answer_to_save(
        &self,
        p: ProcNo,
        able: bool,
        from: ProcNo,
        inst: InstNo,
        label: Label,
    ) -> Option<Action>
        requires p { p < self.now.size }
        requires from { from < self.now.size }
        ensures replies { IfSome result (λ action. IsReplyTo from action) }
        ensures shows { IfSome result (λ action. (v : Seen) (marks : ℕ → ℕ) → ShowsState self.now v → HearsAs kind.Checkpoint able v.processes from inst label marks (v.states p) (state_of self.now p) action) }
        ensures none { IfNone result (joins_by (state_of self.now p) kind.Checkpoint able from label ≡ true) }
        ensures tables { (state_of self.now p).tables.processes ≡ self.now.size }
    {
        self.process(p).answer_to_save(able, from, inst, label)
    }

    /// A process hears an ask to take part in a checkpoint. The marks count only where it joins.
    pub(super) fn ask_to_save(
        &mut self,
        p: ProcNo,
        able: bool,
        from: ProcNo,
        inst: InstNo,
        label: Label,
        marks: Vec<usize>,
    ) -> Result<Action, Memory>
        requires p { p < self.old.size }
        requires from { from < self.old.size }
        requires marks { joins_by (state_of self.old p) kind.Checkpoint able from label ≡ true → length marks.items ≡ self.old.size }
        ensures err { OnErr result (self.new ≡ self.old) }
        ensures hears { IfOk result (λ action.
            IsHeard kind.Checkpoint able from inst label (state_of self.old p) (state_of self.new p) action) }
        ensures turned { IsTurned self.old self.new p }
        ensures shows { IfOk result (λ action. (v : Seen) → ShowsState self.old v → HearsAs kind.Checkpoint able v.processes from inst label (mark_of marks.items) (v.states p) (state_of self.new p) action) }
    {
        self.processes[p.index()].hear_ask_to_save(able, from, inst, label, marks)
    }

    /// A process hears an ask to take part in a rollback.
    pub(super) fn ask_to_roll(
        &mut self,
        p: ProcNo,
        from: ProcNo,
        inst: InstNo,
        label: Label,
    ) -> Result<Action, Memory>
        requires p { p < self.old.size }
        requires from { from < self.old.size }
        ensures err { OnErr result (self.new ≡ self.old) }
        ensures hears { IfOk result (λ action.
            IsHeard kind.Rollback true from inst label (state_of self.old p) (state_of self.new p) action) }
        ensures turned { IsTurned self.old self.new p }
        ensures shows { IfOk result (λ action. (v : Seen) → ShowsState self.old v → HearsAs kind.Rollback true v.processes from inst label no_mark (v.states p) (state_of self.new p) action) }
    {
        self.processes[p.index()].hear_ask_to_roll(from, inst, label)
    }

    /// A process hears a reply.
    #[inline(always)]
    pub(super) fn hear_reply(&mut self, p: ProcNo, willing: bool) -> Action
        requires { p < self.old.size }
        ensures action { result ≡ reply_of (part_of_side (state_of self.old p).side) willing }
        ensures part { part_of_side (state_of self.new p).side ≡
            option_map (λ part. after_reply part willing) (part_of_side (state_of self.old p).side) }
        ensures ready { is_ready (state_of self.new p).side ≡ is_ready (state_of self.old p).side }
        ensures turned { IsTurned self.old self.new p }
        ensures shows { (v : Seen) → ShowsState self.old v → IsSeenAs (state_of self.new p) (counted_as willing (v.states p)) }
    {
        self.processes[p.index()].hear_reply(willing)
    }

    /// A process leaves its instance, and answers whom it tells the decision.
    pub(super) fn leave(&mut self, p: ProcNo, commit: bool) -> ProcSet
        requires { p < self.old.size }
        ensures tell { (q : ℕ) → has result q ≡ asked_of (state_of self.old p).side q }
        ensures within { (q : ℕ) → has result q ≡ true → q < self.old.size }
        ensures turned { IsTurned self.old self.new p }
        ensures shows { (v : Seen) → ShowsState self.old v → (inst_of (state_of self.old p).side ≡ None → ⊥) → IsSeenAs (state_of self.new p) (closed_as commit (v.states p)) }
    {
        self.processes[p.index()].close(commit)
    }
}
