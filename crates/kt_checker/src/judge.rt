//! A log judged row by row.

ghost use Rattle.std.specs.Prelude.{◌≡◌, ◌<◌, ◌+◌, ◌^◌, ◌↔◌, ◌++◌, ◌∷◌, [], ℕ, Bool, true, Some, Err, List, length, map, slice_get, IfOk, IsTrue, OnOk};
ghost use Rattle.kt_spacetime.specs.declared.event.Event.{Event};
ghost use Rattle.kt_spacetime.specs.declared.event.Event.TheVariants as event;
ghost use Rattle.kt_spacetime.specs.declared.rules.Rule.{Rule};
ghost use Rattle.kt_rules.specs.declared.legality.LegalFault.TheVariants as fault;
ghost use Rattle.kt_walk.specs.WalkOf.{WalkOf};
ghost use Rattle.kt_meaning.specs.Past.{past, kind_of};
ghost use Rattle.kt_meaning.specs.Throughout.{HasConsistentDecisions};
ghost use Rattle.kt_meaning.specs.Legal.{IsLegal, first_broken, is_undecided};
ghost use Rattle.kt_checker.specs.Gathered.{IsFinding, IsFoundFirst};
ghost use Rattle.kt_checker.specs.Judged.{AreFirsts, IsFew, IsFirstCertificate, JudgeOf};
ghost use Rattle.kt_meaning.specs.Passing.{IsSecond};
ghost use Rattle.kt_spacetime.specs.declared.certificate.Certificate.{Certificate as Certificates};
ghost use Rattle.std.specs.Option.{option_copied};

use crate::chains::{has_chains, leaves_consistent};
use crate::decisions::{Instance, Instances};
use crate::firsts::Firsts;
use kt_base::{InstNo, Memory, RowNo};
use kt_rules::LegalFault;
use kt_spacetime::{Certificate, Event, Why};
use kt_walk::Walk;
use std::alloc::Global;

/// What is known of a log after its first rows, and what was found of a list of certificates.
#[derive(Drop)]
pub(crate) struct Judge {
    pub(crate) walk: Walk,
    pub(crate) instances: Instances,
    pub(crate) firsts: Firsts,
    /// Whether each committed decision so far was found to leave a consistent cut.
    pub(crate) is_consistent: bool,
}

impl Judge {
    /// A judge of certificates before the first row.
    pub(crate) fn new(alloc: Global, certificates: &[Certificate]) -> Result<Judge, Memory>
        ensures { IfOk result (λ judge. JudgeOf judge certificates.now []) }
    {
        let walk = Walk::new(alloc)?;
        let firsts = Firsts::of(alloc, certificates)?;
        Ok(Judge {
            walk,
            instances: Instances::new(alloc),
            firsts,
            is_consistent: true,
        })
    }

    /// One more row. Where it decides an instance, the first certificate of the instance is tested just before it.
    #[inline(always)]
    pub(crate) fn feed(
        &mut self,
        certificates: &[Certificate],
        row: &Event,
    ) -> Result<(), LegalFault>
        requires few { IsFew self.old }
        ensures fed { OnOk result ((rows : List Event) → JudgeOf self.old certificates.now rows
            → JudgeOf self.new certificates.now (rows ++ row.now ∷ [])) }
        ensures broken { (n : ℕ) (rule : Rule) → result ≡ Err (fault.Broken n rule) → (rows : List Event)
            → JudgeOf self.old certificates.now rows → first_broken (rows ++ row.now ∷ []) ≡ Some (n, rule) }
    {
        match *row {
            Event::Decided { .. } => self.feed_decided(certificates, row),
            _ => self.feed_other(row),
        }
    }

    // One more row, which decides an instance: the first certificate of the instance is tested just before it.
    #[inline(never)]
    fn feed_decided(&mut self, certificates: &[Certificate], row: &Event) -> Result<(), LegalFault>
        requires few { IsFew self.old }
        ensures fed { OnOk result ((rows : List Event) → JudgeOf self.old certificates.now rows
            → JudgeOf self.new certificates.now (rows ++ row.now ∷ [])) }
        ensures broken { (n : ℕ) (rule : Rule) → result ≡ Err (fault.Broken n rule) → (rows : List Event)
            → JudgeOf self.old certificates.now rows → first_broken (rows ++ row.now ∷ []) ≡ Some (n, rule) }
    {
        let number = RowNo::after(self.walk.rows());
        let fault = self.fault_at(certificates, row);
        let stays_consistent = self.stays_consistent(certificates, row, fault);
        self.walk.feed(row)?;
        self.instances.add(number, row, fault)?;
        self.is_consistent = stays_consistent;
        Ok(())
    }

    // One more row, which decides no instance.
    #[inline(always)]
    fn feed_other(&mut self, row: &Event) -> Result<(), LegalFault>
        requires few { IsFew self.old }
        requires other { (p k : ℕ) (commit : Bool) → row.now ≡ event.Decided p k commit → ⊥ }
        ensures fed { (certificates : List Certificates) → OnOk result ((rows : List Event)
            → JudgeOf self.old certificates rows → JudgeOf self.new certificates (rows ++ row.now ∷ [])) }
        ensures broken { (certificates : List Certificates) (n : ℕ) (rule : Rule)
            → result ≡ Err (fault.Broken n rule) → (rows : List Event) → JudgeOf self.old certificates rows
            → first_broken (rows ++ row.now ∷ []) ≡ Some (n, rule) }
    {
        let number = RowNo::after(self.walk.rows());
        self.walk.feed(row)?;
        self.instances.add(number, row, None)?;
        Ok(())
    }

    // What is first wrong with the first certificate of the instance that the next row decides.
    fn fault_at(&self, certificates: &[Certificate], row: &Event) -> Option<Why>
        ensures { (rows : List Event) (p k : ℕ) (commit : Bool) → JudgeOf self.now certificates.now rows
            → IsLegal (rows ++ row.now ∷ []) → row.now ≡ event.Decided p k commit
            → IsFoundFirst certificates.now rows k commit result }
    {
        let Event::Decided { inst, commit, .. } = *row else {
            return None;
        };
        let Some(instance) = self.instances.get(inst) else {
            return None;
        };
        let Some(certificate) = self.first_certificate(certificates, inst) else {
            return None;
        };
        fault_in(
            &self.walk,
            self.is_consistent,
            instance,
            commit,
            certificate,
        )
    }

    // Whether each committed decision is found to leave a consistent cut, with that of the next row. This was found of
    // its first certificate, whose cut was tested if nothing is wrong with it, and is the instance's if it has its kind.
    fn stays_consistent(
        &self,
        certificates: &[Certificate],
        row: &Event,
        fault: Option<Why>,
    ) -> bool
        ensures { (rows : List Event) → JudgeOf self.now certificates.now rows
            → ((p k : ℕ) (commit : Bool) → row.now ≡ event.Decided p k commit
            → IsFoundFirst certificates.now rows k commit fault)
            → IsTrue result → HasConsistentDecisions (rows ++ row.now ∷ []) }
    {
        let Event::Decided { inst, commit, .. } = *row else {
            return self.is_consistent;
        };
        self.is_consistent
            && (!commit || (fault.is_none() && self.is_of_its_kind(certificates, inst)))
    }

    // Whether the first certificate of an instance is there and has its kind.
    fn is_of_its_kind(&self, certificates: &[Certificate], inst: InstNo) -> bool
        ensures { (rows : List Event) → JudgeOf self.now certificates.now rows → IsTrue result
            → (i : ℕ) × (c : Certificates) × (slice_get certificates.now i ≡ Some c) × (c.inst ≡ inst)
            × (IsSecond certificates.now i c → ⊥) × (kind_of (past rows) inst ≡ Some c.kind) }
    {
        let Some(instance) = self.instances.get(inst) else {
            return false;
        };
        let Some(certificate) = self.first_certificate(certificates, inst) else {
            return false;
        };
        has_kind_of(certificate, instance)
    }

    // The first certificate of an instance.
    fn first_certificate<'c>(
        &self,
        certificates: &'c [Certificate],
        inst: InstNo,
    ) -> Option<&'c Certificate>
        ensures { AreFirsts self.now.firsts.places.items certificates.now (length certificates.now)
            → IsFirstCertificate certificates.now inst (option_copied result) }
    {
        let Some(place) = self.firsts.get(inst) else {
            return None;
        };
        let Some(certificate) = certificates.get(place) else {
            return None;
        };
        Some(certificate)
    }
}

// What is first wrong with a certificate of an instance that the next row decides, but for what it says of the
// decision.
fn fault_in(
    walk: &Walk,
    is_consistent: bool,
    instance: &Instance,
    commit: bool,
    certificate: &Certificate,
) -> Option<Why>
    ensures { (rows : List Event) → WalkOf walk.now rows → (IsTrue is_consistent → HasConsistentDecisions rows)
        → is_undecided (past rows) certificate.now.inst ≡ true
        → IsFinding (past rows) instance.now.members.items instance.now.refused commit certificate.now result }
{
    if commit == instance.refused {
        return Some(Why::Cause);
    }
    if !commit {
        return None;
    }
    if !lists_members(instance, certificate) {
        return Some(Why::Members);
    }
    if !has_chains(walk, certificate) {
        return Some(Why::Chain);
    }
    if !leaves_consistent(walk, is_consistent, certificate) {
        return Some(Why::Orphan);
    }
    None
}

// Whether a certificate is of the instance's kind.
fn has_kind_of(certificate: &Certificate, instance: &Instance) -> bool
    ensures { IsTrue result → instance.now.kind ≡ certificate.now.kind }
{
    instance.kind == certificate.kind
}

// Whether a certificate lists the members in the order in which they joined.
fn lists_members(instance: &Instance, certificate: &Certificate) -> bool
    ensures { IsTrue result ↔ (map (λ m. m.0) certificate.now.members ≡ instance.now.members.items) }
{
    let listed = certificate.members.list();
    if listed.len() != instance.members.len() {
        return false;
    }
    for index in 0..listed.len() {
        if instance.members[index] != listed[index].0 {
            return false;
        }
    }
    true
}
