//! Who was unwilling to join an instance.

ghost use Rattle.std.specs.Prelude.{◌≡◌, ◌<◌, ◌≤◌, ◌++◌, ◌∷◌, ◌≢◌, [], ℕ, length, OnOk, IfOk};
ghost use Rattle.kt_base.specs.Numbers.{IsInstNo};
ghost use Rattle.kt_spacetime.specs.declared.event.Event.TheVariants as event;
ghost use Rattle.kt_report.specs.Unwilling.{answers_to, unwilling_in, unwilling_of};

use kt_base::{Cause, InstNo, Memory, ProcNo};
use kt_spacetime::Event;
use std::alloc::Global;
use std::marker::Model;

/// By instance the processes that were unwilling to join it, each with its cause, in the order of the log.
#[derive(Drop)]
pub(crate) struct Unwilling {
    lists: Vec<Vec<(ProcNo, Cause)>>,
}

impl Model for Unwilling {
    ghost use Rattle.std.specs.Prelude.{List, Vec, map};
    ghost use Rattle.kt_report.specs.Unwilling.{UnwillingAnswer};

    ghost Value = { List (List UnwillingAnswer) };

    ghost view = { λ u. map (λ l. l.items) u.lists.items };
}

impl Unwilling {
    /// Nobody was.
    pub(crate) fn nobody(alloc: Global) -> Unwilling
        ensures { result ≡ [] }
    {
        Unwilling {
            lists: Vec::new(alloc),
        }
    }

    /// Those of an instance.
    pub(crate) fn of(&self, inst: InstNo) -> &[(ProcNo, Cause)]
        ensures answers { result.now ≡ answers_to self.now inst }
        ensures in_range { IsInstNo inst }
    {
        match self.lists.get(inst.index()) {
            Some(list) => list.as_slice(),
            None => &[],
        }
    }

    /// Adds one.
    pub(crate) fn add(
        &mut self,
        alloc: Global,
        inst: InstNo,
        p: ProcNo,
        cause: Cause,
    ) -> Result<(), Memory>
        ensures { OnOk result ((other : ℕ) → IsInstNo other → answers_to self.new other ≡ answers_to self.old other ++ unwilling_in other (event.Unwilling p inst cause)) }
    {
        self.make_room(alloc, inst)?;
        self.push(inst, p, cause)
    }

    // Adds one where there is a list for its instance.
    fn push(&mut self, inst: InstNo, p: ProcNo, cause: Cause) -> Result<(), Memory>
        requires { inst ≤ length self.old }
        ensures { OnOk result ((other : ℕ) → IsInstNo other → answers_to self.new other ≡ answers_to self.old other ++ unwilling_in other (event.Unwilling p inst cause)) }
    {
        let place = inst.index();
        let list = &mut self.lists[place];
        list.push((p, cause))?;
        Ok(())
    }

    // Makes lists up to that of an instance.
    fn make_room(&mut self, alloc: Global, inst: InstNo) -> Result<(), Memory>
        ensures room { OnOk result (inst ≤ length self.new) }
        ensures same { OnOk result ((other : ℕ) → IsInstNo other → answers_to self.new other ≡ answers_to self.old other) }
    {
        for _ in self.lists.len()..inst.index() + 1 {
            self.lists.push(Vec::new(alloc))?;
        }
        Ok(())
    }
}
