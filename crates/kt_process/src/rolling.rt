//! The part of one process in one instance of rollback.

ghost use Rattle.std.specs.Prelude.{◌≡◌, ◌<◌, IfSome, IfNone, IfOk};
ghost use Rattle.kt_process.specs.PartRules.{after_reply, reply_action, settle_action};
ghost use Rattle.kt_process.specs.Counts.{counts_of, counts_at_reply};
ghost use Rattle.kt_process.specs.Notes.{note_of, AreNotes};
ghost use Rattle.kt_process.specs.RollingSides.{IsSideAfter};

use crate::actions::Action;
use crate::notes::Notes;
use crate::part::Part;
use kt_base::{Label, Memory, ProcNo};
use std::alloc::Global;
use std::marker::Model;

/// One process's part in one instance of rollback: what it has in any instance, and the labels that it noted of those
/// that asked it.
#[derive(Drop)]
pub struct Rolling {
    part: Part,
    notes: Notes,
}

impl Model for Rolling {
    ghost use Rattle.kt_process.specs.RollingSides.{RollSide};

    ghost Value = { RollSide };

    ghost view = { λ s. record { part = s.part; notes = s.notes } };
}

impl Rolling {
    /// The part of a process that has just joined.
    pub(crate) fn new(part: Part, notes: Notes) -> Rolling
        ensures part { result.part ≡ part }
        ensures notes { result.notes ≡ notes }
    {
        Rolling { part, notes }
    }

    /// The part of a process, among that many, that noted the labels of these pairs; None where the pairs do not stand by
    /// rising process.
    pub fn of(
        alloc: Global,
        processes: usize,
        part: Part,
        noted: &[(ProcNo, Label)],
    ) -> Result<Option<Rolling>, Memory>
        ensures some { IfOk result (λ made. IfSome made (λ s.
            s ≡ record { part = part; notes = record { processes = processes; pairs = noted.now } })) }
        ensures none { IfOk result (λ made. IfNone made (AreNotes 0 processes noted.now → ⊥)) }
    {
        match Notes::of(alloc, processes, noted)? {
            Some(notes) => Ok(Some(Rolling { part, notes })),
            None => Ok(None),
        }
    }

    /// The pairs of a process that asked this one and the label that it noted of it, by rising process.
    pub fn notes(&self) -> &[(ProcNo, Label)]
        ensures pairs { result.now ≡ self.now.notes.pairs }
        ensures notes { AreNotes 0 self.now.notes.processes result.now }
    {
        self.notes.pairs()
    }

    /// What it has in any instance: whom it asked, and what they replied.
    pub fn part(&self) -> &Part
        ensures { result.now ≡ self.now.part }
    {
        &self.part
    }

    /// How many processes it has room for a note of.
    pub fn processes(&self) -> usize
        ensures { result ≡ self.now.notes.processes }
    {
        self.notes.processes()
    }

    /// The label noted of a process that asked this one; None where it didn't ask.
    pub fn noted(&self, from: ProcNo) -> Option<Label>
        ensures { result ≡ note_of self.now.notes from }
    {
        self.notes.label(from)
    }

    /// Notes the label of a process that asked this one, if it is to.
    pub(crate) fn note_if(&mut self, notes: bool, from: ProcNo, label: Label)
        requires { from < self.old.notes.processes }
        ensures { IsSideAfter notes from label self.old self.new }
    {
        if notes {
            self.notes.note(from, label);
        }
    }

    /// A reply to one of its asks has come.
    pub(crate) fn take_reply(&mut self, willing: bool) -> Action
        ensures part { self.new.part ≡ after_reply self.old.part willing }
        ensures notes { self.new.notes ≡ self.old.notes }
        ensures action { result ≡ reply_action self.old.part willing }
        ensures counts { counts_of result ≡ counts_at_reply self.old.part }
    {
        self.part.take_reply(willing)
    }

    /// The instance is decided.
    pub(crate) fn settle(self, commit: bool) -> Action
        ensures { result ≡ settle_action self.part commit }
    {
        self.part.settle(commit)
    }
}
