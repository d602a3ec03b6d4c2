//! What objects offer, and the instances, along the rows of a log.

ghost use Rattle.std.specs.Prelude.{◌≡◌, ◌++◌, ◌∷◌, [], ℕ, ℤ, List, length, OnOk, IfOk};
ghost use Rattle.kt_spacetime.specs.declared.event.Event.{Event};
ghost use Rattle.kt_spacetime.specs.declared.event.Event.TheVariants as event;
ghost use Rattle.kt_spacetime.specs.Events.{process_of};
ghost use Rattle.kt_meaning.specs.Past.{past};
ghost use Rattle.kt_meaning.specs.Legal.{IsLegal};
ghost use Rattle.kt_machine.specs.Done.{done};
ghost use Rattle.kt_machine.specs.Values.{acts_of};
ghost use Rattle.kt_report.specs.Shown.{ReplayOf, ShowsReportInstances, ShowsOffers, act_of};

use crate::closings::{Instance, closing, note};
use crate::offers::Offers;
use kt_base::{Memory, MsgNo, ProcNo};
use kt_plan::Act;
use kt_spacetime::Event;
use std::alloc::Global;

/// What is known after some rows of a log: what the object of each process offers, and the instances that have begun.
#[derive(Drop)]
pub(crate) struct Replay {
    pub(crate) objects: Vec<Offers>,
    instances: Vec<Instance>,
}

impl Replay {
    /// What is known after all rows of a legal log, where the processes have objects of these kinds. Of another log no
    /// more is said than how many objects there are.
    pub(crate) fn of_rows(alloc: Global, kinds: &[u8], rows: &[Event]) -> Result<Replay, Memory>
        ensures count { IfOk result (λ replay. length replay.objects.items ≡ length kinds.now) }
        ensures exact { IfOk result (λ replay. IsLegal rows.now → ReplayOf replay kinds.now rows.now) }
    {
        let mut replay = Replay::new(alloc, kinds)?;
        for place in 0..rows.len() {
            replay.feed(&rows[..place], &rows[place])?;
        }
        Ok(replay)
    }

    // What is known before the first row.
    fn new(alloc: Global, kinds: &[u8]) -> Result<Replay, Memory>
        ensures { IfOk result (λ replay. ReplayOf replay kinds.now []) }
    {
        Ok(Replay {
            objects: new_objects(alloc, kinds)?,
            instances: Vec::new(alloc),
        })
    }

    // Takes one more row after those before.
    #[inline(always)]
    fn feed(&mut self, before: &[Event], row: &Event) -> Result<(), Memory>
        ensures fed { OnOk result (IsLegal (before.now ++ row.now ∷ []) → (kinds : List ℕ)
            → ReplayOf self.old kinds before.now → ReplayOf self.new kinds (before.now ++ row.now ∷ [])) }
        ensures count { length self.new.objects.items ≡ length self.old.objects.items }
    {
        let act = act_at(self.instances.as_slice(), before, row);
        note(&mut self.instances, row)?;
        act_on(&mut self.objects, row.process(), act);
        Ok(())
    }
}

// What new objects of these kinds offer.
fn new_objects(alloc: Global, kinds: &[u8]) -> Result<Vec<Offers>, Memory>
    ensures { IfOk result (λ objects. ShowsOffers objects.items kinds.now []) }
{
    let mut objects = Vec::new(alloc);
    for kind in kinds {
        objects.push(Offers::new(*kind))?;
    }
    Ok(objects)
}

// What a row's process does to its object and its saved states, after the rows before.
#[inline(always)]
fn act_at(instances: &[Instance], before: &[Event], row: &Event) -> Act
    ensures { IsLegal (before.now ++ row.now ∷ []) → ShowsReportInstances instances.now (past before.now)
        → act_of result ≡ acts_of (done before.now) row.now }
{
    match *row {
        Event::Received { from, msg, .. } => Act::Apply {
            from,
            body: body_of(before, msg),
        },
        Event::Took { .. } => Act::Keep,
        Event::Closed { inst, .. } => closing(instances, inst),
        Event::Failed { .. } => Act::Drop,
        _ => Act::Nothing,
    }
}

// The body of a message that these rows sent, or 0.
fn body_of(rows: &[Event], msg: MsgNo) -> i64
    ensures { (p from : ℕ) → IsLegal (rows.now ++ event.Received p from msg ∷ []) → result ≡ (done rows.now).body msg }
{
    match rows.get(msg.index()) {
        Some(row) => body_in(*row),
        None => 0,
    }
}

// The body that a row sent, or 0.
fn body_in(row: Event) -> i64
    ensures { (from to : ℕ) (body : ℤ) → row ≡ event.Sent from to body → result ≡ body }
{
    match row {
        Event::Sent { body, .. } => body,
        _ => 0,
    }
}

// Does an act of a process to what its object offers.
#[inline(always)]
fn act_on(objects: &mut Vec<Offers>, p: ProcNo, act: Act)
    ensures shows { (kinds : List ℕ) (rows : List Event) (row : Event) → p ≡ process_of row
        → act_of act ≡ acts_of (done rows) row → IsLegal (rows ++ row ∷ []) → ShowsOffers objects.old.items kinds rows
        → ShowsOffers objects.new.items kinds (rows ++ row ∷ []) }
    ensures count { length objects.new.items ≡ length objects.old.items }
{
    match act {
        Act::Nothing => {}
        _ => change(objects, p, act),
    }
}

// Does an act that changes something.
#[inline(always)]
fn change(objects: &mut Vec<Offers>, p: ProcNo, act: Act)
    ensures shows { (kinds : List ℕ) (rows : List Event) (row : Event) → p ≡ process_of row
        → act_of act ≡ acts_of (done rows) row → IsLegal (rows ++ row ∷ []) → ShowsOffers objects.old.items kinds rows
        → ShowsOffers objects.new.items kinds (rows ++ row ∷ []) }
    ensures count { length objects.new.items ≡ length objects.old.items }
{
    let place = p.index();
    if place < objects.len() {
        let object = &mut objects[place];
        object.act(act);
    }
}
