//! Who steps first of those that can step.

ghost use Rattle.std.specs.Prelude.{◌≡◌, ◌<◌, ◌&&◌, not, ℕ, is_none, nat_lt};
ghost use Rattle.kt_base.specs.Sets.{has, count_of};
ghost use Rattle.kt_core.specs.Priorities.{priority_of, is_down_outside};
ghost use Rattle.kt_process.specs.ProcessStates.{part_of_side};
ghost use Rattle.kt_system.specs.Reads.{awaited_of, can_take};
ghost use Rattle.kt_system.specs.Systems.{state_of};

use super::World;
use crate::priority::Priority;
use kt_base::ProcNo;

impl World {
    /// How well a process steps now, where others can step too. It costs less to take several parcels in a row than to
    /// come back for each: so who awaits replies comes last, and before it who only answers.
    pub fn priority(&self, p: ProcNo) -> Priority
        ensures { (senders : ℕ) → p < self.now.system.size → ((from : ℕ) → has senders from ≡ can_take self.now.system p from)
            → result ≡ priority_of (state_of self.now.system p) senders }
    {
        if !self.is_there(p) {
            Priority::Now
        } else if self.awaits_more(p) {
            Priority::Awaits
        } else if self.is_down_outside(p) {
            Priority::Down
        } else {
            Priority::Now
        }
    }

    /// Whether a process awaits more replies than there are processes with a parcel for it.
    fn awaits_more(&self, p: ProcNo) -> bool
        requires { p < self.now.system.size }
        ensures { (senders : ℕ) → ((from : ℕ) → has senders from ≡ can_take self.now.system p from)
            → result ≡ nat_lt (count_of senders) (awaited_of (part_of_side (state_of self.now.system p).side)) }
    {
        kt_base::same_members();
        let _processes = self.system.processes();
        let _senders = self.system.all_senders(p);
        let awaited = self.system.awaited(p);
        awaited > 0 && self.system.take_count(p) < awaited as usize
    }

    /// Whether a process's object is down, and the process in no instance.
    fn is_down_outside(&self, p: ProcNo) -> bool
        requires { p < self.now.system.size }
        ensures { result ≡ is_down_outside (state_of self.now.system p) }
    {
        !self.system.is_up(p) && self.system.in_inst(p).is_none()
    }
}
