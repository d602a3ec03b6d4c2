//! Numbers for names, by what rows gave so far.

ghost use Rattle.std.specs.Prelude.{◌≡◌, ◌<◌, ◌≤◌, ◌+◌, ◌^◌, ℕ, ℤ, [], ◌∷◌, ◌++◌, Some, None, IfOk, IfErr, IfSome, OnOk, length, slice_get};
ghost use Rattle.kt_base.specs.declared.words.Kind.{Kind as kinds};
ghost use Rattle.kt_spacetime.specs.declared.event.Event.TheVariants as row;
ghost use Rattle.kt_spacetime.specs.declared.named_rows.NamedEvent.TheVariants as own;
ghost use Rattle.kt_meaning.specs.Names.{Given, nothing_given, given_after, message_number, instance_number, numbered_cause, numbered_event};
ghost use Rattle.kt_merge.specs.Numbering.{IsRowFault, ShowsGiven, ShowsProcess, IsNumberedRow, MayFollow, IsNextRow};

use crate::fault::RowFault;
use crate::tables::{Gave, Numbers};
use kt_base::{Cause, InstNo, Kind, Memory, MsgNo, ProcNo};
use kt_spacetime::{Count, Event, InstName, NamedCause, NamedEvent};
use std::alloc::Global;

// The most rows that a log has.
const MAX_ROWS: u32 = 16_777_216;

impl Numbers {
    /// Before the first row.
    pub(crate) fn new(alloc: Global) -> Result<Numbers, Memory>
        ensures { IfOk result (λ n. ShowsGiven n nothing_given) }
    {
        let mut gave = Vec::with_capacity(alloc, usize::from(ProcNo::COUNT))?;
        for _ in 0..ProcNo::COUNT {
            gave.push(Gave {
                sent: Vec::new(alloc),
                begun: Vec::new(alloc),
            })?;
        }
        Ok(Numbers {
            rows: 0,
            begun: 0,
            gave,
        })
    }

    /// The row by numbers that comes after the rows so far, or what is first wrong with it.
    #[inline(always)]
    pub(crate) fn number(&self, p: ProcNo, event: NamedEvent) -> Result<Event, RowFault>
        ensures found { IfOk result (λ row. (g : Given) → ShowsGiven self.now g → MayFollow g p event row) }
        ensures fault { IfErr result (λ e. (g : Given) → ShowsGiven self.now g → IsRowFault g p event e) }
    {
        let row = self.event_of(p, event)?;
        if self.rows >= MAX_ROWS {
            return Err(RowFault::TooManyRows);
        }
        Ok(row)
    }

    // The row by numbers, or what is first wrong with it but for the number of rows.
    #[inline(always)]
    fn event_of(&self, p: ProcNo, event: NamedEvent) -> Result<Event, RowFault>
        ensures found { IfOk result (λ row. (g : Given) → ShowsGiven self.now g → IsNumberedRow g p event row) }
        ensures fault { IfErr result (λ e. (g : Given) → ShowsGiven self.now g → IsRowFault g p event e) }
    {
        match event {
            NamedEvent::Sent { to, body, label } => self.sent_of(p, to, body, label),
            NamedEvent::Received { from, label } => {
                let msg = self.message(from, label)?;
                Ok(Event::Received { p, from, msg })
            }
            NamedEvent::Dropped { from, label } => {
                let msg = self.message(from, label)?;
                Ok(Event::Dropped { p, from, msg })
            }
            NamedEvent::Began { inst, kind } => self.began_of(p, inst, kind),
            NamedEvent::Took { inst } => {
                let inst = self.instance(inst)?;
                Ok(Event::Took { p, inst })
            }
            NamedEvent::Ready { inst } => {
                let inst = self.instance(inst)?;
                Ok(Event::Ready { p, inst })
            }
            NamedEvent::Unwilling { inst, cause } => {
                let inst = self.instance(inst)?;
                let cause = self.cause(cause)?;
                Ok(Event::Unwilling { p, inst, cause })
            }
            NamedEvent::Decided { inst, commit } => {
                let inst = self.instance(inst)?;
                Ok(Event::Decided { p, inst, commit })
            }
            NamedEvent::Closed { inst } => {
                let inst = self.instance(inst)?;
                Ok(Event::Closed { p, inst })
            }
            NamedEvent::Failed => Ok(Event::Failed { p }),
            NamedEvent::Refused { verb, cause } => {
                let cause = self.cause(cause)?;
                Ok(Event::Refused { p, verb, cause })
            }
        }
    }

    // The row of a message that is sent, if its label is the next one of its sender.
    #[inline(always)]
    fn sent_of(&self, p: ProcNo, to: ProcNo, body: i64, label: Count) -> Result<Event, RowFault>
        ensures found { IfOk result (λ event. (g : Given) → ShowsGiven self.now g
            → numbered_event g p (own.Sent to body label) ≡ Some event) }
        ensures fault { IfErr result (λ e. (g : Given) → ShowsGiven self.now g
            → (e ≡ RowFault.Name) × (numbered_event g p (own.Sent to body label) ≡ None)) }
    {
        if label.index() != self.gave(p).sent.len() {
            return Err(RowFault::Name);
        }
        Ok(Event::Sent { p, to, body })
    }

    // The row of an instance that begins, if its name is the next one of its initiator and there is a number for it.
    fn began_of(&self, p: ProcNo, inst: InstName, kind: Kind) -> Result<Event, RowFault>
        ensures found { IfOk result (λ event. (g : Given) → ShowsGiven self.now g
            → IsNumberedRow g p (own.Began inst kind) event) }
        ensures fault { IfErr result (λ e. (g : Given) → ShowsGiven self.now g
            → IsRowFault g p (own.Began inst kind) e) }
    {
        if inst.initiator != p || inst.count.index() != self.gave(p).begun.len() {
            return Err(RowFault::Name);
        }
        if self.rows >= MAX_ROWS {
            return Err(RowFault::TooManyRows);
        }
        let Some(inst) = InstNo::new(self.begun + 1) else {
            return Err(RowFault::TooManyInstances);
        };
        Ok(Event::Began { p, inst, kind })
    }

    // What a process gave.
    #[inline(always)]
    fn gave(&self, p: ProcNo) -> &Gave
        ensures { (g : Given) → ShowsGiven self.now g → ShowsProcess result.now g p }
    {
        p.get();
        &self.gave[p.index()]
    }

    /// The number of a message.
    #[inline(always)]
    pub(crate) fn message(&self, from: ProcNo, label: Count) -> Result<MsgNo, RowFault>
        ensures found { IfOk result (λ m. (g : Given) → ShowsGiven self.now g → message_number g from label ≡ Some m) }
        ensures fault { IfErr result (λ e. (e ≡ RowFault.NotSent) × ((g : Given) → ShowsGiven self.now g
            → message_number g from label ≡ None)) }
    {
        match self.gave(from).sent.get(label.index()) {
            Some(msg) => Ok(*msg),
            None => Err(RowFault::NotSent),
        }
    }

    /// The number of an instance.
    #[inline(always)]
    pub(crate) fn instance(&self, inst: InstName) -> Result<InstNo, RowFault>
        ensures found { IfOk result (λ k. (g : Given) → ShowsGiven self.now g → instance_number g inst ≡ Some k) }
        ensures fault { IfErr result (λ e. (e ≡ RowFault.NotBegun) × ((g : Given) → ShowsGiven self.now g
            → instance_number g inst ≡ None)) }
    {
        match self.gave(inst.initiator).begun.get(inst.count.index()) {
            Some(number) => Ok(*number),
            None => Err(RowFault::NotBegun),
        }
    }

    fn cause(&self, cause: NamedCause) -> Result<Cause, RowFault>
        ensures found { IfOk result (λ d. (g : Given) → ShowsGiven self.now g → numbered_cause g cause ≡ Some d) }
        ensures fault { IfErr result (λ e. (e ≡ RowFault.NotBegun) × ((g : Given) → ShowsGiven self.now g
            → numbered_cause g cause ≡ None)) }
    {
        match cause {
            NamedCause::Busy(inst) => {
                let inst = self.instance(inst)?;
                Ok(Cause::Busy(inst))
            }
            NamedCause::Down => Ok(Cause::Down),
            NamedCause::NoSave => Ok(Cause::NoSave),
        }
    }

    /// Keeps what a row by numbers gave.
    #[inline(always)]
    pub(crate) fn keep(&mut self, event: Event) -> Result<(), Memory>
        requires { (g : Given) × ShowsGiven self.old g × IsNextRow g event }
        ensures { OnOk result ((g : Given) → ShowsGiven self.old g → IsNextRow g event
            → ShowsGiven self.new (given_after g event)) }
    {
        match event {
            Event::Sent { p, .. } => self.keep_sent(p),
            Event::Began { p, inst, .. } => self.keep_begun(p, inst),
            _ => {
                self.rows += 1;
                Ok(())
            }
        }
    }

    // Keeps the next row's number as that of its process's next message.
    fn keep_sent(&mut self, p: ProcNo) -> Result<(), Memory>
        requires { self.old.rows < 2 ^ 24 }
        ensures { OnOk result ((g : Given) (to : ℕ) (body : ℤ) → ShowsGiven self.old g →
            ShowsGiven self.new (given_after g (row.Sent p to body))) }
    {
        let msg = MsgNo::after(self.rows as usize);
        self.rows += 1;
        p.get();
        push_item(&mut self.gave[p.index()].sent, msg)
    }

    // Keeps a number as that of its process's next instance.
    fn keep_begun(&mut self, p: ProcNo, inst: InstNo) -> Result<(), Memory>
        requires few { (self.old.rows < 2 ^ 24) × (self.old.begun < 4096) }
        requires next { inst ≡ self.old.begun + 1 }
        ensures { OnOk result ((g : Given) (kind : kinds) → ShowsGiven self.old g →
            ShowsGiven self.new (given_after g (row.Began p inst kind))) }
    {
        self.rows += 1;
        self.begun += 1;
        p.get();
        push_item(&mut self.gave[p.index()].begun, inst)
    }
}

// Adds an item at the end.
fn push_item<T: Drop>(items: &mut Vec<T>, item: T) -> Result<(), Memory>
    ensures { OnOk result (items.new.items ≡ items.old.items ++ item ∷ []) }
{
    items.push(item)?;
    Ok(())
}
