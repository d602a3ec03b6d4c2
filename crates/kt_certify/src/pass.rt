//! One pass over the rows of a log.

ghost use Rattle.std.specs.Prelude.{◌≡◌, ◌<◌, ◌^◌, ◌++◌, ◌∷◌, [], ℕ, true, false, Some, List, IfOk, IfErr, IfSome, IfNone, OnOk};
ghost use Rattle.std.specs.List.{filter_map};
ghost use Rattle.kt_spacetime.specs.declared.event.Event.{Event};
ghost use Rattle.kt_spacetime.specs.declared.event.Event.TheVariants as event;
ghost use Rattle.kt_meaning.specs.Past.{past};
ghost use Rattle.kt_meaning.specs.Legal.{IsLegal};
ghost use Rattle.kt_rules.specs.Standing.{at_number};
ghost use Rattle.kt_walk.specs.WalkOf.{WalkOf};
ghost use Rattle.kt_meaning.specs.Fitness.{HasNoChain};
ghost use Rattle.kt_meaning.specs.Decisions.{is_commit};
ghost use Rattle.kt_certify.specs.Instances.{InstanceParts, AreInstancesOf, changed, joined_by, decided_as, instances_after};
ghost use Rattle.kt_certify.specs.Stops.{HasChains, StopsIn, StopsOn};
ghost use Rattle.kt_certify.specs.PassOf.{AreEntered, IsBroken, PassOf, tells_rule};

use crate::fault::Stop;
use crate::instance::Instance;
use kt_base::{InstNo, Memory, ProcNo, RowNo};
use kt_rules::LegalFault;
use kt_spacetime::{Certificate, Event, Unfit};
use kt_walk::Walk;
use std::alloc::Global;

/// What is known after the rows so far, the instances by number, and why the rows are not fit, if they are not.
#[derive(Drop)]
pub(crate) struct Pass {
    alloc: Global,
    walk: Walk,
    instances: Vec<Instance>,
    unfit: Option<Unfit>,
}

impl Pass {
    /// A pass before the first row.
    pub(crate) fn new(alloc: Global) -> Result<Pass, Memory>
        ensures { IfOk result (λ pass. PassOf pass []) }
    {
        let walk = Walk::new(alloc)?;
        Ok(Pass {
            alloc,
            walk,
            instances: Vec::new(alloc),
            unfit: None,
        })
    }

    /// One more row. Where it decides an instance, the certificate is made just before it. After a row that breaks a rule
    /// nothing counts.
    ///
    /// After an error a pass stands for no rows.
    pub(crate) fn feed(&mut self, row: &Event) -> Result<(), Memory>
        requires few { self.old.walk.rows < 2 ^ 24 }
        ensures { OnOk result ((rows : List Event) → PassOf self.old rows → PassOf self.new (rows ++ row.now ∷ [])) }
    {
        if self.is_broken() {
            return Ok(());
        }
        let unlinked = self.enter(row)?;
        self.unfit = feed(&mut self.walk, row)?.or(unlinked);
        Ok(())
    }

    // Whether a row broke a rule.
    fn is_broken(&self) -> bool
        ensures { result ≡ tells_rule self.now.unfit }
    {
        match self.unfit {
            Some(Unfit::BadLog(..)) => true,
            Some(Unfit::NoChain(..)) => false,
            None => false,
        }
    }

    // What the next row changes of the instances, while no member lacks a chain; else the first member that does.
    fn enter(&mut self, row: &Event) -> Result<Option<Unfit>, Memory>
        requires few { self.old.walk.rows < 2 ^ 24 }
        ensures entered { IfOk result (λ unlinked. (rows : List Event) → PassOf self.old rows
            → WalkOf self.old.walk rows → IsLegal (rows ++ row.now ∷ [])
            → AreEntered self.new (rows ++ row.now ∷ []) unlinked) }
        ensures walk { OnOk result (self.new.walk ≡ self.old.walk) }
    {
        if self.unfit.is_some() {
            return Ok(self.unfit);
        }
        let number = RowNo::after(self.walk.rows());
        let Err(stop) = enter(&mut self.instances, self.alloc, &self.walk, row) else {
            return Ok(None);
        };
        let Stop::NoChain(inst, process) = stop else {
            return Err(Memory);
        };
        Ok(Some(Unfit::NoChain(inst, number, process)))
    }

    /// One more row of a legal log of which no member lacks a chain, which tests no rule.
    pub(crate) fn feed_legal(&mut self, row: &Event) -> Result<(), Memory>
        requires few { self.old.walk.rows < 2 ^ 24 }
        ensures walk { OnOk result ((rows : List Event) → IsLegal (rows ++ row.now ∷ []) → WalkOf self.old.walk rows
            → WalkOf self.new.walk (rows ++ row.now ∷ [])) }
        ensures instances { OnOk result ((rows : List Event) → IsLegal (rows ++ row.now ∷ []) → WalkOf self.old.walk rows
            → AreInstancesOf rows self.old.instances.items
            → AreInstancesOf (rows ++ row.now ∷ []) self.new.instances.items) }
    {
        match enter(&mut self.instances, self.alloc, &self.walk, row) {
            Ok(()) => self.walk.feed_legal(row),
            Err(_) => Err(Memory),
        }
    }

    /// One more row, which commits no instance: what it changes of the instances alone. From then on rows are no longer fed.
    pub(crate) fn note(&mut self, row: &Event) -> Result<(), Memory>
        ensures { OnOk result ((rows : List Event) → is_commit row.now ≡ false → IsLegal (rows ++ row.now ∷ [])
            → AreInstancesOf rows self.old.instances.items
            → AreInstancesOf (rows ++ row.now ∷ []) self.new.instances.items) }
    {
        match enter(&mut self.instances, self.alloc, &self.walk, row) {
            Ok(()) => Ok(()),
            Err(_) => Err(Memory),
        }
    }

    /// Why the rows are not fit.
    pub(crate) fn unfit(&self) -> Option<Unfit>
        ensures { result ≡ self.now.unfit }
    {
        self.unfit
    }

    /// The certificates of the instances that are decided.
    pub(crate) fn found(&mut self) -> Result<Vec<Certificate>, Memory>
        ensures { IfOk result (λ list. list.items ≡ filter_map (λ v. v.certificate) self.old.instances.items) }
    {
        found(self.alloc, &mut self.instances)
    }
}

// One more row; else why the log is not legal.
fn feed(walk: &mut Walk, row: &Event) -> Result<Option<Unfit>, Memory>
    requires few { walk.old.rows < 2 ^ 24 }
    ensures fed { IfOk result (λ broken. IfNone broken ((rows : List Event) → WalkOf walk.old rows
        → IsLegal (rows ++ row.now ∷ []) × WalkOf walk.new (rows ++ row.now ∷ []))) }
    ensures broken { IfOk result (λ broken. IfSome broken (λ why. (rows : List Event) → WalkOf walk.old rows
        → IsBroken (rows ++ row.now ∷ []) why)) }
    ensures unchanged { IfOk result (λ broken. IfSome broken (λ why. walk.new ≡ walk.old)) }
{
    let Err(fault) = walk.feed(row) else {
        return Ok(None);
    };
    let LegalFault::Broken(number, rule) = fault else {
        return Err(Memory);
    };
    Ok(Some(Unfit::BadLog(number, rule)))
}

// What the next row changes of the instances. Where it commits none, nothing is asked of the walk.
#[inline(always)]
fn enter(instances: &mut Vec<Instance>, alloc: Global, walk: &Walk, row: &Event) -> Result<(), Stop>
    ensures entered { OnOk result ((rows : List Event) → (is_commit row.now ≡ true → WalkOf walk.now rows)
        → instances.new.items ≡ instances_after (past rows) row.now instances.old.items) }
    ensures chained { OnOk result ((rows : List Event) (p k : ℕ) (v : InstanceParts) → WalkOf walk.now rows
        → row.now ≡ event.Decided p k true → at_number instances.old.items k ≡ Some v
        → HasChains (past rows) k v) }
    ensures fault { IfErr result (λ f. (rows : List Event) → WalkOf walk.now rows
        → StopsOn row.now (past rows) instances.old.items f) }
{
    match *row {
        Event::Began { p, kind, .. } => {
            begin(instances, Instance::new(alloc, p, kind))?;
            Ok(())
        }
        Event::Took { p, inst } => {
            join(instances, p, inst)?;
            Ok(())
        }
        Event::Ready { p, inst } => {
            join(instances, p, inst)?;
            Ok(())
        }
        Event::Decided { inst, commit, .. } => decide(instances, alloc, walk, inst, commit),
        Event::Unwilling { .. } => Ok(()),
        Event::Sent { .. } => Ok(()),
        Event::Received { .. } => Ok(()),
        Event::Dropped { .. } => Ok(()),
        Event::Closed { .. } => Ok(()),
        Event::Failed { .. } => Ok(()),
        Event::Refused { .. } => Ok(()),
    }
}

// An instance begins.
fn begin(instances: &mut Vec<Instance>, begun: Instance) -> Result<(), Memory>
    ensures { OnOk result (instances.new.items ≡ instances.old.items ++ begun ∷ []) }
{
    instances.push(begun)?;
    Ok(())
}

// A process joins the instance of this number, if there is one.
fn join(instances: &mut Vec<Instance>, p: ProcNo, inst: InstNo) -> Result<(), Memory>
    ensures { OnOk result (instances.new.items ≡ changed inst (joined_by p) instances.old.items) }
{
    let index = inst.get() as usize - 1;
    if index < instances.len() {
        instances[index].join(p)?;
    }
    Ok(())
}

// The next row decides the instance of this number, if there is one. It stands apart, so that other rows take little.
#[inline(never)]
fn decide(
    instances: &mut Vec<Instance>,
    alloc: Global,
    walk: &Walk,
    inst: InstNo,
    commit: bool,
) -> Result<(), Stop>
    ensures decided { OnOk result ((rows : List Event) → (commit ≡ true → WalkOf walk.now rows)
        → instances.new.items ≡ changed inst (decided_as (past rows) inst commit) instances.old.items) }
    ensures chained { OnOk result ((rows : List Event) (v : InstanceParts) → WalkOf walk.now rows → commit ≡ true
        → at_number instances.old.items inst ≡ Some v → HasChains (past rows) inst v) }
    ensures fault { IfErr result (λ f. (rows : List Event) → WalkOf walk.now rows
        → StopsIn commit (past rows) inst instances.old.items f) }
{
    let index = inst.get() as usize - 1;
    if index < instances.len() {
        instances[index].decide(alloc, walk, inst, commit)?;
    }
    Ok(())
}

// The certificates of these instances, taken out of them.
fn found(alloc: Global, instances: &mut Vec<Instance>) -> Result<Vec<Certificate>, Memory>
    ensures { IfOk result (λ list. list.items ≡ filter_map (λ v. v.certificate) instances.old.items) }
{
    let mut list = Vec::new(alloc);
    for index in 0..instances.len() {
        if let Some(certificate) = instances[index].give() {
            list.push(certificate)?;
        }
    }
    Ok(list)
}
