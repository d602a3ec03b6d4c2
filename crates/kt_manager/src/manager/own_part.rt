//! Whether a part in an instance is a manager's own.

ghost use Rattle.std.specs.Prelude.{◌≡◌, ◌↔◌, ◌<◌, ◌≤◌, ℕ, List, length, IsTrue};
ghost use Rattle.kt_process.specs.Shown.{inst_shown, mark_of};
ghost use Rattle.kt_manager.specs.Inboxes.{processes_of, kept_of};
ghost use Rattle.kt_manager.specs.Managers.{IsSoundManager, number_in};
ghost use Rattle.kt_manager.specs.ManagerParts.{state_of};
ghost use Rattle.kt_manager.specs.OwnParts.{HasOwnPart};

use crate::inbox::Inbox;
use crate::manager::ManagerParts;
use kt_base::ProcNo;
use kt_process::Side;

/// Whether its process is in an instance exactly where that has a name.
fn is_named(parts: &ManagerParts) -> bool
    ensures { IsTrue result ↔ (inst_shown parts.now.process.side ≡ number_in parts.now.inst) }
{
    match parts.process.in_inst() {
        Some(number) => parts.inst.is_some() && number.get() == 1,
        None => parts.inst.is_none(),
    }
}

/// Whether of each process as many messages are kept as are marked.
fn are_within(marks: &[usize], inbox: &Inbox) -> bool
    requires { length marks.now ≡ processes_of inbox.now }
    ensures { IsTrue result ↔ ((q : ℕ) → q < processes_of inbox.now →
        mark_of marks.now q ≤ length (kept_of inbox.now q)) }
{
    for number in 0..inbox.processes() as u8 {
        let from = ProcNo::nth(number);
        if marks[from.index()] > inbox.kept_count(from) {
            return false;
        }
    }
    true
}

/// Whether these parts have a part in an instance of their own.
pub(super) fn has_own_part(parts: &ManagerParts) -> bool
    requires { IsSoundManager (state_of parts.now) }
    ensures { IsTrue result ↔ HasOwnPart (state_of parts.now) }
{
    if !is_named(parts) {
        return false;
    }
    let _tables = parts.process.tables();
    match parts.process.side() {
        Some(Side::Checkpoint(side)) => are_within(side.marks(), &parts.inbox),
        Some(Side::Rollback(_)) | None => true,
    }
}
