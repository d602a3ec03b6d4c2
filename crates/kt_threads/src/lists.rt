//! What is noted of steps: a list for each process, or for none where nobody asks for it, and a list of all.

ghost use Rattle.std.specs.Prelude.{◌≡◌, false, [], ◌∷◌, ◌++◌, Some, None, map, option_map, slice_index_or, if◌then◌else◌, IfOk, OnOk};
ghost use Rattle.kt_threads.specs.Noted.{IsNotedBy};

use kt_base::{Memory, ProcNo};
use kt_plan::{Step, Told};
use std::alloc::Global;
use std::marker::Model;

/// What the steps of each process told it, in order.
#[derive(Drop)]
pub(crate) struct ToldLists {
    lists: Vec<Vec<Told>>,
}

impl Model for ToldLists {
    ghost use Rattle.std.specs.Prelude.{List, Vec, map};
    ghost use Rattle.kt_plan.specs.declared.steps.Told.{Told};

    ghost Value = { List (List Told) };

    ghost view = { λ j. map (λ l. l.items) j.lists.items };
}

impl ToldLists {
    /// One for each of so many processes.
    pub(crate) fn of(alloc: Global, processes: usize) -> Result<ToldLists, Memory>
        ensures empty { IfOk result (λ lists. (p : _) → slice_index_or lists p [] ≡ []) }
    {
        let mut lists = Vec::with_capacity(alloc, processes)?;
        for _number in 0..processes {
            lists.push(Vec::new(alloc))?;
        }
        Ok(ToldLists { lists })
    }

    /// Whether there are any.
    pub(crate) fn are_kept(&self) -> bool
        ensures { result ≡ false → self.now ≡ [] }
    {
        !self.lists.is_empty()
    }

    /// Notes what a step of a process told it.
    pub(crate) fn note(&mut self, p: ProcNo, item: Told) -> Result<(), Memory>
        ensures { OnOk result (IsNotedBy p item self.old self.new) }
    {
        if let Some(list) = self.lists.get_mut(p.index()) {
            list.extend_from_slice(&[item])?;
        }
        Ok(())
    }

    /// The lists themselves.
    pub(crate) fn into_lists(self) -> Vec<Vec<Told>>
        ensures { map (λ list. list.items) result.items ≡ self }
    {
        self.lists
    }
}

/// The steps of all processes, in the order in which they were made, where somebody asks for them.
#[derive(Drop)]
pub(crate) struct StepList {
    list: Option<Vec<Step>>,
}

impl Model for StepList {
    ghost use Rattle.std.specs.Prelude.{List, Option, option_map};
    ghost use Rattle.kt_plan.specs.declared.steps.Step.{Step};

    ghost Value = { Option (List Step) };

    ghost view = { λ s. option_map (λ list. list.items) s.list };
}

impl StepList {
    /// A list without a step, where `lists`; else none.
    pub(crate) fn of(alloc: Global, lists: bool) -> StepList
        ensures { result ≡ (if lists then Some [] else None) }
    {
        StepList {
            list: if lists { Some(Vec::new(alloc)) } else { None },
        }
    }

    /// Notes a step.
    pub(crate) fn note(&mut self, step: Step) -> Result<(), Memory>
        ensures { OnOk result (self.new ≡ option_map (λ list. list ++ step ∷ []) self.old) }
    {
        if let Some(list) = &mut self.list {
            list.push(step)?;
        }
        Ok(())
    }

    /// The list itself.
    pub(crate) fn into_list(self) -> Option<Vec<Step>>
        ensures { option_map (λ list. list.items) result ≡ self }
    {
        self.list
    }
}
