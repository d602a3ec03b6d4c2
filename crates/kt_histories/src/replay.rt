//! The rows of a log replayed one after another: what is known after them, in tables.

ghost use Rattle.std.specs.Prelude.{◌≡◌, ◌<◌, ◌≤◌, ◌+◌, ◌^◌, ◌++◌, ◌∷◌, [], ℕ, Some, None, length, vec_len, slice_get, OnOk, IfOk};
ghost use Rattle.std.specs.Option.{option_copied};
ghost use Rattle.kt_spacetime.specs.declared.event.Event.TheVariants as event;

use crate::messages::Messages;
use crate::process::{Process, initial_processes};
use crate::tables::{
    Message, add_undone_received, make_permanent, mark_dropped, mark_received, roll_back,
};
use kt_base::{InstNo, Kind, Memory, MsgNo, ProcNo, ProcSet};
use kt_rules::instances::{Instance, decide, join};
use kt_spacetime::Event;
use std::alloc::Global;

/// What is known after the rows so far.
#[derive(Drop)]
pub(crate) struct Replay {
    alloc: Global,
    pub(crate) processes: Vec<Process>,
    // By row: the message that it sent.
    pub(crate) messages: Vec<Option<Message>>,
    pub(crate) instances: Vec<Instance>,
    // What was undone while it stood in its receiver's history, and perhaps still does.
    pub(crate) dead: Messages,
    /// Who began which instance in the last row.
    pub(crate) beginning: Option<(ProcNo, InstNo)>,
    ghost processes_there: { length processes.items ≡ 64 },
}

impl Replay {
    ghost use Rattle.kt_meaning.specs.Past.{Past, start, after};
    ghost use Rattle.kt_rules.specs.Standing.{IsAllowed, parties_of_row, at_number, rolled_back_shown};
    ghost use Rattle.kt_histories.specs.Standing.{ShowsPast, ReplayStandsFor, parties_shown, message_at};

    /// What is known before the first row.
    pub(crate) fn new(alloc: Global) -> Result<Replay, Memory>
        ensures { IfOk result (λ r. ReplayStandsFor r []) }
    {
        let processes = initial_processes(alloc)?;
        Ok(Replay {
            alloc,
            processes,
            messages: Vec::new(alloc),
            instances: Vec::new(alloc),
            dead: Messages::new(alloc),
            beginning: None,
        })
    }

    /// One more row.
    pub(crate) fn add(&mut self, row: &Event) -> Result<(), Memory>
        requires { vec_len self.old.messages < 2 ^ 24 }
        ensures shows { OnOk result ((s : Past) → ShowsPast self.old s → IsAllowed s row.now
            → ShowsPast self.new (after s row.now)) }
        ensures parties { OnOk result (parties_shown self.new ≡ parties_shown self.old ++ parties_of_row row.now ∷ []) }
    {
        match *row {
            Event::Sent { p, to, .. } => self.send(p, to),
            Event::Received { p, from, msg } => self.receive(p, from, msg),
            Event::Dropped { p, from, msg } => self.drop_message(p, from, msg),
            Event::Began { p, inst, kind } => self.begin(p, inst, kind),
            Event::Took { p, inst } => self.join(p, inst),
            Event::Ready { p, inst } => self.join(p, inst),
            Event::Decided { inst, commit, .. } => self.decide(inst, commit),
            Event::Closed { p, inst } => self.close(p, inst),
            Event::Failed { p } => self.fail(p),
            Event::Unwilling { .. } => {
                self.count_row()?;
                Ok(())
            }
            Event::Refused { .. } => {
                self.count_row()?;
                Ok(())
            }
        }
    }

    /// The process, after the rows so far.
    pub(crate) fn process(&self, p: ProcNo) -> &Process
        ensures { slice_get self.now.processes.items p ≡ Some result.now }
    {
        &self.processes[p.get() as usize]
    }

    /// The message that this row sent.
    pub(crate) fn message(&self, msg: MsgNo) -> Option<Message>
        ensures { result ≡ message_at self.now.messages.items msg }
    {
        *self.messages.get(msg.get() as usize - 1)?
    }

    /// The instance, if it has begun.
    pub(crate) fn instance(&self, inst: InstNo) -> Option<&Instance>
        ensures { option_copied result ≡ at_number self.now.instances.items inst }
    {
        self.instances.get(inst.get() as usize - 1)
    }

    // Whether the instance is a committed rollback.
    fn was_rolled_back(&self, inst: InstNo) -> bool
        ensures { result ≡ rolled_back_shown (at_number self.now.instances.items inst) }
    {
        match self.instance(inst) {
            Some(instance) => instance.is_committed_rollback(),
            None => false,
        }
    }

    fn send(&mut self, p: ProcNo, to: ProcNo) -> Result<(), Memory>
        requires { vec_len self.old.messages < 2 ^ 24 }
        ensures shows { OnOk result ((s : Past) (body : _) → ShowsPast self.old s
            → IsAllowed s (event.Sent p to body) → ShowsPast self.new (after s (event.Sent p to body))) }
        ensures parties { OnOk result (parties_shown self.new ≡ parties_shown self.old ++ Some (p, to) ∷ []) }
    {
        let msg = MsgNo::after(self.messages.len());
        let process = &mut self.processes[p.get() as usize];
        let sent = process.history.len();
        process.history.send(msg, to)?;
        self.messages.push(Some(Message {
            from: p,
            to,
            sent,
            received: None,
            dropped: false,
        }))?;
        self.beginning = None;
        Ok(())
    }

    fn receive(&mut self, p: ProcNo, from: ProcNo, msg: MsgNo) -> Result<(), Memory>
        ensures shows { OnOk result ((s : Past) → ShowsPast self.old s → IsAllowed s (event.Received p from msg)
            → ShowsPast self.new (after s (event.Received p from msg))) }
        ensures parties { OnOk result (parties_shown self.new ≡ parties_shown self.old ++ None ∷ []) }
    {
        let process = &mut self.processes[p.get() as usize];
        let place = process.history.len();
        process.history.receive(msg, from)?;
        mark_received(&mut self.messages, msg, place);
        self.count_row()?;
        Ok(())
    }

    fn drop_message(&mut self, p: ProcNo, from: ProcNo, msg: MsgNo) -> Result<(), Memory>
        ensures shows { OnOk result ((s : Past) → ShowsPast self.old s → IsAllowed s (event.Dropped p from msg)
            → ShowsPast self.new (after s (event.Dropped p from msg))) }
        ensures parties { OnOk result (parties_shown self.new ≡ parties_shown self.old ++ None ∷ []) }
    {
        let process = &mut self.processes[p.get() as usize];
        process.last_dropped[from.get() as usize] = Some(msg);
        mark_dropped(&mut self.messages, msg);
        self.count_row()?;
        Ok(())
    }

    fn begin(&mut self, p: ProcNo, inst: InstNo, kind: Kind) -> Result<(), Memory>
        ensures shows { OnOk result ((s : Past) → ShowsPast self.old s → IsAllowed s (event.Began p inst kind)
            → ShowsPast self.new (after s (event.Began p inst kind))) }
        ensures parties { OnOk result (parties_shown self.new ≡ parties_shown self.old ++ None ∷ []) }
    {
        self.instances.push(Instance {
            initiator: p,
            kind,
            decision: None,
            joined: ProcSet::empty(),
            positions: [0; 64],
        })?;
        self.count_row()?;
        self.beginning = Some((p, inst));
        Ok(())
    }

    fn join(&mut self, p: ProcNo, inst: InstNo) -> Result<(), Memory>
        ensures took { OnOk result ((s : Past) → ShowsPast self.old s → IsAllowed s (event.Took p inst)
            → ShowsPast self.new (after s (event.Took p inst))) }
        ensures ready { OnOk result ((s : Past) → ShowsPast self.old s → IsAllowed s (event.Ready p inst)
            → ShowsPast self.new (after s (event.Ready p inst))) }
        ensures parties { OnOk result (parties_shown self.new ≡ parties_shown self.old ++ None ∷ []) }
    {
        let process = &mut self.processes[p.get() as usize];
        let position = process.history.len();
        process.open_in = Some(inst);
        join(&mut self.instances, inst, p, position);
        self.count_row()?;
        Ok(())
    }

    fn decide(&mut self, inst: InstNo, commit: bool) -> Result<(), Memory>
        ensures shows { OnOk result ((s : Past) (p : ℕ) → ShowsPast self.old s
            → IsAllowed s (event.Decided p inst commit)
            → ShowsPast self.new (after s (event.Decided p inst commit))) }
        ensures parties { OnOk result (parties_shown self.new ≡ parties_shown self.old ++ None ∷ []) }
    {
        let Some(instance) = decide(&mut self.instances, inst, commit) else {
            return self.count_row();
        };
        if !commit {
            self.count_row()?;
            return Ok(());
        }
        match instance.kind {
            Kind::Checkpoint => {
                make_permanent(&mut self.processes, &instance);
                self.count_row()?;
                Ok(())
            }
            Kind::Rollback => {
                let mut undone = Messages::new(self.alloc);
                roll_back(&mut self.processes, &instance, &mut undone)?;
                add_undone_received(&mut self.dead, &undone, &self.processes, &self.messages)?;
                self.count_row()?;
                Ok(())
            }
        }
    }

    fn close(&mut self, p: ProcNo, inst: InstNo) -> Result<(), Memory>
        ensures shows { OnOk result ((s : Past) → ShowsPast self.old s → IsAllowed s (event.Closed p inst)
            → ShowsPast self.new (after s (event.Closed p inst))) }
        ensures parties { OnOk result (parties_shown self.new ≡ parties_shown self.old ++ None ∷ []) }
    {
        let was_rolled_back = self.was_rolled_back(inst);
        let process = &mut self.processes[p.get() as usize];
        process.close(was_rolled_back);
        self.count_row()?;
        Ok(())
    }

    fn fail(&mut self, p: ProcNo) -> Result<(), Memory>
        ensures shows { OnOk result ((s : Past) → ShowsPast self.old s → IsAllowed s (event.Failed p)
            → ShowsPast self.new (after s (event.Failed p))) }
        ensures parties { OnOk result (parties_shown self.new ≡ parties_shown self.old ++ None ∷ []) }
    {
        let process = &mut self.processes[p.get() as usize];
        process.up = false;
        self.count_row()?;
        Ok(())
    }

    // A row that neither sends a message nor begins an instance.
    fn count_row(&mut self) -> Result<(), Memory>
        ensures processes { OnOk result (self.new.processes ≡ self.old.processes) }
        ensures messages { OnOk result (self.new.messages.items ≡ self.old.messages.items ++ None ∷ []) }
        ensures instances { OnOk result (self.new.instances ≡ self.old.instances) }
        ensures dead { OnOk result (self.new.dead ≡ self.old.dead) }
        ensures beginning { OnOk result (self.new.beginning ≡ None) }
    {
        self.messages.push(None)?;
        self.beginning = None;
        Ok(())
    }
}
