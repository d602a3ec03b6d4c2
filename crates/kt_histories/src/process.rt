//! A process, after the rows so far.

ghost use Rattle.std.specs.Prelude.{◌≡◌, ℕ, ◌<◌, ◌≤◌, None, [], take, length, replicate, slice_get, slice_set, IfOk, OnOk, Contains, true, ◌||◌, if◌then◌else◌};
ghost use Rattle.kt_spacetime.specs.declared.deeds.Deed.TheVariants as deed;
ghost use Rattle.kt_meaning.specs.Past.{start};
ghost use Rattle.kt_histories.specs.Standing.{ShowsProcesses};

use crate::history::History;
use crate::messages::Messages;
use kt_base::{InstNo, Memory, MsgNo, ProcNo};
use kt_spacetime::Deed;
use std::alloc::Global;

/// A process, after the rows so far.
#[derive(Drop)]
pub(crate) struct Process {
    pub(crate) history: History,
    pub(crate) permanent: usize,
    pub(crate) open_in: Option<InstNo>,
    pub(crate) up: bool,
    /// By sender: what was dropped last, since the last closed row of a committed rollback.
    pub(crate) last_dropped: [Option<MsgNo>; 64],
}

impl Process {
    /// A process before the first row.
    pub(crate) fn new(alloc: Global) -> Result<Process, Memory>
        ensures { IfOk result (λ p. (p.history ≡ []) × (p.permanent ≡ 0) × (p.open_in ≡ None) × (p.up ≡ true)
            × (p.last_dropped ≡ replicate 64 None)) }
    {
        let history = History::new(alloc)?;
        Ok(Process {
            history,
            permanent: 0,
            open_in: None,
            up: true,
            last_dropped: [None; 64],
        })
    }

    /// What was dropped last from this sender, since the last closed row of a committed rollback.
    pub(crate) fn last_dropped(&self, from: ProcNo) -> Option<MsgNo>
        ensures there { slice_get self.now.last_dropped from ≡ Some result }
        ensures in_range { from < 64 }
    {
        self.last_dropped[from.get() as usize]
    }

    /// Is in no instance; where that was a committed rollback, is up, and forgets what it dropped.
    pub(crate) fn close(&mut self, was_rolled_back: bool)
        ensures { self.new ≡ record self.old {
          open_in = None;
          up = self.old.up || was_rolled_back;
          last_dropped = (if was_rolled_back then replicate 64 None else self.old.last_dropped);
        } }
    {
        self.open_in = None;
        if was_rolled_back {
            self.up = true;
            self.last_dropped.fill(None);
        }
    }

    /// Cuts the history back to the permanent position, and adds the sends that this undoes to a list.
    pub(crate) fn cut_back(&mut self, undone: &mut Messages) -> Result<(), Memory>
        ensures process { OnOk result (self.new ≡ record self.old { history = take self.old.permanent self.old.history }) }
        ensures undone { OnOk result ((i m to : ℕ) → slice_get self.old.history i ≡ Some (deed.Sent m to)
            → self.old.permanent ≤ i → Contains undone.new m) }
        ensures kept { OnOk result ((m : ℕ) → Contains undone.old m → Contains undone.new m) }
    {
        while self.history.len() > self.permanent {
            let Some(last) = self.history.pop() else {
                return Ok(());
            };
            add_sent(undone, &last)?;
        }
        Ok(())
    }
}

// Adds the message that a deed sends, if it is a send, to a list.
fn add_sent(list: &mut Messages, last: &Deed) -> Result<(), Memory>
    ensures sent { OnOk result ((m to : ℕ) → last.now ≡ deed.Sent m to → Contains list.new m) }
    ensures kept { OnOk result ((m : ℕ) → Contains list.old m → Contains list.new m) }
{
    if let Deed::Sent { msg, .. } = *last {
        list.push(msg)?;
    }
    Ok(())
}

/// The 64 processes before the first row.
pub(crate) fn initial_processes(alloc: Global) -> Result<Vec<Process>, Memory>
    ensures { IfOk result (λ ps. ShowsProcesses ps.items start) }
{
    let mut processes = Vec::new(alloc);
    for _number in 0..ProcNo::COUNT {
        processes.push(Process::new(alloc)?)?;
    }
    Ok(processes)
}
