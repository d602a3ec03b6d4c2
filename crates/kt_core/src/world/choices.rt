//! How many steps are enabled, and the one at a place among them.

ghost use Rattle.std.specs.Prelude.{◌≡◌, ◌<◌, ◌≤◌, ℕ, true, false, [], Some, None, IfSome, filter, length, slice_get};
ghost use Rattle.kt_core.specs.Choices.{choices, enabled_steps, steps_of, HasTakesAlone, HasNoOthers, AreMovers};
ghost use Rattle.kt_core.specs.Shown.{Mirrors};
ghost use Rattle.kt_core.specs.Worlds.{can_make};
ghost use Rattle.kt_promises.specs.Progress.{Progress};

use super::World;
use crate::laws::laws_of_runs;
use kt_base::{ProcNo, ProcSet};
use kt_plan::Step;

impl World {
    /// The processes that may have an enabled step: those for which there are parcels, and those whose next command is of
    /// the open phase. None where all that can be enabled are takes of parcels in channels.
    #[inline(always)]
    pub fn movers(&self) -> Option<ProcSet>
        ensures { AreMovers self.now result }
    {
        if self.has_takes_alone() {
            return None;
        }
        Some(self.agenda.with_open(self.system.receivers()))
    }

    /// How many steps are enabled: as channels count them where takes are all, else as the movers have them.
    #[inline(always)]
    pub fn count_enabled(&self, movers: &Option<ProcSet>) -> usize
        requires { AreMovers self.now movers.now }
        ensures choices { result ≡ length (choices self.now) }
        ensures none { result ≡ 0 → (step : Step) → can_make self.now step ≡ false }
        ensures in_runs { (first : ℕ) (v : Progress) → Mirrors self.now.agenda self.now.system first v →
            result ≡ length (enabled_steps self.now.agenda.plan v) }
    {
        laws_of_runs();
        match *movers {
            Some(movers) => self.count_of_movers(movers),
            None => self.system.takes(),
        }
    }

    /// The enabled step at a place: by process, what it can take, by the senders' numbers, and then its next command. None
    /// past all.
    #[inline(always)]
    pub fn enabled_at(&self, movers: &Option<ProcSet>, place: usize) -> Option<Step>
        requires { AreMovers self.now movers.now }
        ensures choices { result ≡ slice_get (choices self.now) place }
        ensures enabled { IfSome result (λ step. can_make self.now step ≡ true) }
        ensures in_runs { (first : ℕ) (v : Progress) → Mirrors self.now.agenda self.now.system first v →
            result ≡ slice_get (enabled_steps self.now.agenda.plan v) place }
    {
        laws_of_runs();
        match *movers {
            Some(movers) => self.step_of_movers(movers, place),
            None => self.take_at(place),
        }
    }

    /// The enabled step at a place, where takes of parcels in channels are all.
    #[inline(always)]
    fn take_at(&self, place: usize) -> Option<Step>
        requires { HasTakesAlone self.now }
        ensures { result ≡ slice_get (choices self.now) place }
    {
        let (at, from) = self.system.take_at(place)?;
        Some(Step::Take { at, from })
    }

    /// Whether all that can be enabled are takes of parcels in channels: none is held, and no command is of the open phase.
    #[inline(always)]
    fn has_takes_alone(&self) -> bool
        ensures { result ≡ true → HasTakesAlone self.now }
    {
        let _count = self.system.processes();
        if !self.system.holds_none() {
            return false;
        }
        !self.agenda.has_open()
    }

    /// How many steps of some processes are enabled, where no other process has one.
    fn count_of_movers(&self, movers: ProcSet) -> usize
        requires { HasNoOthers self.now movers }
        ensures { result ≡ length (choices self.now) }
    {
        let mut left = movers;
        let mut count: usize = 0;
        for _number in 0..self.system.processes() {
            let Some(p) = left.first() else {
                return count;
            };
            count += self.count_of(p);
            left = left.without(p);
        }
        count
    }

    /// The enabled step at a place, where no process but these has one.
    fn step_of_movers(&self, movers: ProcSet, place: usize) -> Option<Step>
        requires { HasNoOthers self.now movers }
        ensures { result ≡ slice_get (choices self.now) place }
    {
        let mut left = movers;
        let mut after = place;
        for _number in 0..self.system.processes() {
            let p = left.first()?;
            let count = self.count_of(p);
            if after < count {
                return Some(self.step_at(p, after));
            }
            after -= count;
            left = left.without(p);
        }
        None
    }

    /// How many steps of a process are enabled.
    #[inline(always)]
    fn count_of(&self, p: ProcNo) -> usize
        requires { p < self.now.system.size }
        ensures count { result ≡ length (filter (can_make self.now) (steps_of self.now.system.size p)) }
        ensures few { result ≤ 65 }
    {
        let takes = self.system.take_count(p);
        if self.can_do(p) { takes + 1 } else { takes }
    }

    /// The enabled step of a process at a place among its own: what it can take, and then its next command.
    fn step_at(&self, p: ProcNo, place: usize) -> Step
        requires there { p < self.now.system.size }
        requires within { place < length (filter (can_make self.now) (steps_of self.now.system.size p)) }
        ensures { slice_get (filter (can_make self.now) (steps_of self.now.system.size p)) place ≡ Some result }
    {
        match self.system.sender_at(p, place) {
            Some(from) => Step::Take { at: p, from },
            None => Step::Do(p),
        }
    }
}
