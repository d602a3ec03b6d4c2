//! What the processes of a run were told.

ghost use Rattle.std.specs.Prelude.{◌≡◌, ◌<◌, [], true, false, length, map, IfOk, OnOk};
ghost use Rattle.kt_promises.specs.Steps.{process_of_step};
ghost use Rattle.kt_run.specs.Telling.{AreEmpty, IsNoted};

use kt_base::{Memory, ProcNo};
use kt_plan::{Step, Told};
use std::alloc::Global;
use std::marker::Model;

/// What each process was told, in order; or nothing, where nobody asks for it.
#[derive(Drop)]
pub(crate) struct Journals {
    lists: Vec<Vec<Told>>,
}

impl Model for Journals {
    ghost use Rattle.std.specs.Prelude.{List, Vec, map};
    ghost use Rattle.kt_plan.specs.declared.steps.Told.{Told};

    ghost Value = { List (List Told) };

    ghost view = { λ j. map (λ l. l.items) j.lists.items };
}

impl Journals {
    /// None are kept.
    pub(crate) fn none(alloc: Global) -> Journals
        ensures empty { AreEmpty result }
        ensures none { length result ≡ 0 }
    {
        Journals {
            lists: Vec::new(alloc),
        }
    }

    /// One for each of so many processes.
    pub(crate) fn of(alloc: Global, processes: usize) -> Result<Journals, Memory>
        ensures empty { IfOk result (λ journals. AreEmpty journals) }
        ensures count { IfOk result (λ journals. length journals ≡ processes) }
    {
        let mut lists = Vec::with_capacity(alloc, processes)?;
        for _number in 0..processes {
            lists.push(Vec::new(alloc))?;
        }
        Ok(Journals { lists })
    }

    /// Whether any are kept.
    pub(crate) fn are_kept(&self) -> bool
        ensures none { result ≡ false → self.now ≡ [] }
        ensures some { result ≡ true → 0 < length self.now }
    {
        !self.lists.is_empty()
    }

    /// Notes what the process was told whose step it was.
    pub(crate) fn note(&mut self, told: Told) -> Result<(), Memory>
        ensures { OnOk result (IsNoted told self.old self.new) }
    {
        let p = process_of(&told.step);
        if let Some(list) = self.lists.get_mut(p.index()) {
            list.extend_from_slice(&[told])?;
        }
        Ok(())
    }

    /// What each process was told.
    pub(crate) fn into_lists(self) -> Vec<Vec<Told>>
        ensures { map (λ list. list.items) result.items ≡ self }
    {
        self.lists
    }
}

/// Whose step it is.
pub(crate) fn process_of(step: &Step) -> ProcNo
    ensures { result ≡ process_of_step step.now }
{
    match step {
        Step::Do(p) => *p,
        Step::Take { at, .. } => *at,
    }
}
