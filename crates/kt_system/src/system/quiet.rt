//! Takes that need nothing of their process's object, and ask nothing of it.

ghost use Rattle.std.specs.Prelude.{◌≡◌, true, false, [], OnErr, IfOk};
ghost use Rattle.kt_protocol.specs.States.{Take as TakeStep};
ghost use Rattle.kt_machine.specs.Seen.{Seen};
ghost use Rattle.kt_machine.specs.Transition.{transition};
ghost use Rattle.kt_machine.specs.SeenActs.{seen_acts};
ghost use Rattle.kt_system.specs.Keeps.{CanStep};
ghost use Rattle.kt_system.specs.Reads.{would_save};
ghost use Rattle.kt_system.specs.Shown.{ShowsState};
ghost use Rattle.kt_system.specs.Systems.{IsSameSystem, LogGrows};
ghost use Rattle.kt_system.specs.Tallies.{TalliesPut, taken_off};

use super::System;
use super::messages::NO_ACTS;
use kt_base::{Kind, Memory, ProcNo};
use kt_fifo::Parcel;
use std::alloc::Global;

impl System {
    /// A process takes the next parcel of another one, where that needs nothing of its object and asks nothing of it: an ask
    /// to take part in a checkpoint that it does not join, a reply that is not the last one that it awaits, or the decision
    /// of an instance that it is not in. Whether it did so; else nothing is done.
    #[inline(always)]
    pub fn take_quietly(&mut self, alloc: Global, at: ProcNo, from: ProcNo) -> Result<bool, Memory>
        requires can { CanStep self.old at from }
        ensures size { self.new.size ≡ self.old.size }
        ensures grows { LogGrows 4 self.old self.new }
        ensures err { OnErr result (IsSameSystem self.new self.old) }
        ensures left { IfOk result (λ made. made ≡ false → self.new ≡ self.old) }

        // What is taken so needs no saved state, and asks for no act.
        ensures plain { IfOk result (λ made. made ≡ true → would_save self.old at from ≡ false) }
        ensures acts { IfOk result (λ made. made ≡ true → (v : Seen) → ShowsState self.old v → seen_acts v (TakeStep at from false) ≡ []) }
        ensures tallies { IfOk result (λ made. made ≡ true → TalliesPut (taken_off self.old at from) self.old self.new) }
        ensures shows { IfOk result (λ made. made ≡ true → (v : Seen) → ShowsState self.old v → ShowsState self.new (transition v (TakeStep at from false))) }
    {
        if self.takes_held(at) {
            return Ok(false);
        }
        let Some(parcel) = self.channels.front(from, at).copied() else {
            return Ok(false);
        };
        match parcel {
            Parcel::App { .. } => Ok(false),
            Parcel::Ask { inst, kind, label } => match kind {
                Kind::Rollback => Ok(false),
                Kind::Checkpoint => {
                    if self.would_save(at, from) {
                        return Ok(false);
                    }
                    let mut acts = NO_ACTS;
                    self.take_ask_to_save(alloc, at, from, inst, label, false, &mut acts)?;
                    Ok(true)
                }
            },
            Parcel::Reply { willing, .. } => {
                if self.awaited(at) == 1 {
                    return Ok(false);
                }
                self.pop(at, from);
                let _action = self.hear_reply(at, willing);
                Ok(true)
            }
            Parcel::Decide { inst, .. } => {
                if self.is_in(at, inst) {
                    return Ok(false);
                }
                self.pop(at, from);
                Ok(true)
            }
        }
    }
}
