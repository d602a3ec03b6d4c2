//! The checker's order.

ghost use Rattle.std.specs.Prelude.{◌≡◌, ℕ, ◌≤◌, ◌+◌, ◌++◌, ◌∷◌, ◌↔◌, ◌⊎◌, not, Bool, true, false, Some, None, [], length, take, slice_get, List, IfOk, IsTrue, IfSome};
ghost use Rattle.kt_meaning.specs.Past.{past, is_checkpoint, is_rollback};
ghost use Rattle.kt_meaning.specs.Legal.{IsLegal};
ghost use Rattle.kt_meaning.specs.Cuts.{IsConsistent, permanent_cut, present_cut};
ghost use Rattle.kt_meaning.specs.Least.{IsLeastCheckpointSet, IsLeastRollbackSet};
ghost use Rattle.kt_spacetime.specs.declared.event.Event.{Event};
ghost use Rattle.kt_spacetime.specs.declared.event.Event.TheVariants.{Decided};
ghost use Rattle.kt_spacetime.specs.declared.certificate.Certificate.{Certificate};
ghost use Rattle.kt_meaning.specs.Unwilling.{has_unwilling};
ghost use Rattle.kt_rules.specs.Standing.{at_number};
ghost use Rattle.kt_spacetime.specs.declared.verdict.Verdict.TheVariants.{Yes, No};
ghost use Rattle.kt_spacetime.specs.declared.verdict.Why.{Why};
ghost use Rattle.kt_checker.specs.Gathered.{Gathered};
ghost use Rattle.kt_checker.specs.Judged.{IsFew, JudgeOf};
ghost use Rattle.kt_meaning.specs.Passing.{Passes, IsPassed, IsSecond, AreComplete};
ghost use Rattle.kt_meaning.specs.Answers.{IsCheckerAnswer, IsBadLog, IsUnknown, IsRefuted};
ghost use Rattle.kt_checker.specs.Missing.{AnswersMissing};

use crate::decisions::{Decision, Instance, Instances};
use crate::judge::Judge;
use kt_base::{InstNo, Memory, RowNo};
use kt_rules::LegalFault;
use kt_spacetime::{Certificate, Event, SpaceTime, Verdict, Why};
use std::alloc::Global;

/// Judges a log and its certificates: yes, or the first fault in the checker's order.
///
/// The order: the log is legal; then each certificate in the list's order, first that it is of a decided instance as
/// the log has it, then its cause, its members, their chains, and that the cut has no orphan; last that no decided
/// instance lacks a certificate.
pub fn check(
    alloc: Global,
    log: &SpaceTime,
    certificates: &[Certificate],
) -> Result<Verdict, Memory>
    // The answer is the first fault in that order, and yes exactly where there is none.
    ensures answer { IfOk result (λ verdict. IsCheckerAnswer log.now.rows certificates.now verdict) }
    ensures yes { IfOk result (λ verdict. (verdict ≡ Yes) ↔ IsPassed log.now.rows certificates.now) }

    // A yes knows that the log is legal, that each certificate passes, and that each decided instance has one.
    ensures legal { IfOk result (λ verdict. verdict ≡ Yes → IsLegal log.now.rows) }
    ensures passes { IfOk result (λ verdict. verdict ≡ Yes → (i : ℕ) (certificate : Certificate)
        → slice_get certificates.now i ≡ Some certificate → Passes log.now.rows certificate) }
    ensures complete { IfOk result (λ verdict. verdict ≡ Yes → AreComplete log.now.rows certificates.now) }

    // So it means that each committed instance took the least set,
    ensures checkpoints { IfOk result (λ verdict. verdict ≡ Yes → (n p k : ℕ)
        → slice_get log.now.rows n ≡ Some (Decided p k true) →
        is_checkpoint (past (take n log.now.rows)) k ≡ true → IsLeastCheckpointSet (past (take n log.now.rows)) k) }
    ensures rollbacks { IfOk result (λ verdict. verdict ≡ Yes → (n p k : ℕ)
        → slice_get log.now.rows n ≡ Some (Decided p k true) →
        is_rollback (past (take n log.now.rows)) k ≡ true → IsLeastRollbackSet (past (take n log.now.rows)) k) }

    // that each aborted instance has an unwilling row and no committed one has,
    ensures aborts { IfOk result (λ verdict. verdict ≡ Yes → (n p k : ℕ) (commit : Bool)
        → slice_get log.now.rows n ≡ Some (Decided p k commit) →
        has_unwilling log.now.rows k ≡ not commit) }

    // and that at every row neither the permanent cut nor the present one has an orphan.
    ensures permanent { IfOk result (λ verdict. verdict ≡ Yes → (n : ℕ)
        → IsConsistent (past (take n log.now.rows)) (permanent_cut (past (take n log.now.rows)))) }
    ensures present { IfOk result (λ verdict. verdict ≡ Yes → (n : ℕ)
        → IsConsistent (past (take n log.now.rows)) (present_cut (past (take n log.now.rows)))) }
{
    judge_rows(alloc, log, certificates)
}

// The first fault in that order, or yes.
fn judge_rows(
    alloc: Global,
    log: &SpaceTime,
    certificates: &[Certificate],
) -> Result<Verdict, Memory>
    ensures { IfOk result (λ verdict. IsCheckerAnswer log.now.rows certificates.now verdict) }
{
    let mut judge = Judge::new(alloc, certificates)?;
    for row in log.rows() {
        if let Some(verdict) = feed_row(&mut judge, certificates, row)? {
            return Ok(verdict);
        }
    }
    verdict(alloc, &judge.instances, certificates)
}

/// One more row; the answer where it breaks a rule.
#[inline(always)]
pub(crate) fn feed_row(
    judge: &mut Judge,
    certificates: &[Certificate],
    row: &Event,
) -> Result<Option<Verdict>, Memory>
    requires few { IsFew judge.old }
    ensures fed { IfOk result (λ answer. answer ≡ None → (rows : List Event)
        → JudgeOf judge.old certificates.now rows → JudgeOf judge.new certificates.now (rows ++ row.now ∷ [])) }
    ensures bad { IfOk result (λ answer. IfSome answer (λ v. (rows : List Event)
        → JudgeOf judge.old certificates.now rows → IsBadLog (rows ++ row.now ∷ []) v)) }
{
    let Err(fault) = judge.feed(certificates, row) else {
        return Ok(None);
    };
    let LegalFault::Broken(number, rule) = fault else {
        return Err(Memory);
    };
    Ok(Some(no_verdict(None, Some(number), Why::BadLog(rule))))
}

/// The answer to a legal log, of what was gathered from all its rows.
pub(crate) fn verdict(
    alloc: Global,
    instances: &Instances,
    certificates: &[Certificate],
) -> Result<Verdict, Memory>
    ensures { IfOk result (λ verdict. (rows : List Event) → IsLegal rows
        → Gathered certificates.now instances.now.list.items rows → IsCheckerAnswer rows certificates.now verdict) }
{
    let mut seen = vec![in alloc; false; instances.len()]?;
    for certificate in certificates {
        let is_seen = is_marked(&seen, certificate.inst);
        if let Some(verdict) = refutation(instances, is_seen, certificate) {
            return Ok(verdict);
        }
        mark(&mut seen, certificate.inst);
    }
    Ok(missing_verdict(instances, &seen))
}

// The answer where every certificate passed.
fn missing_verdict(instances: &Instances, seen: &[bool]) -> Verdict
    requires { length seen.now ≡ length instances.now.list.items }
    ensures { AnswersMissing instances.now.list.items seen.now result }
{
    match instances.first_missing(seen) {
        Some(lacks) => no_verdict(Some(lacks.inst), Some(lacks.row), Why::Missing),
        None => Verdict::Yes,
    }
}

fn no_verdict(inst: Option<InstNo>, row: Option<RowNo>, why: Why) -> Verdict
    ensures { result ≡ No inst row why }
{
    Verdict::No { inst, row, why }
}

// Whether a certificate of an instance was seen.
fn is_marked(seen: &[bool], inst: InstNo) -> bool
    ensures { IsTrue result ↔ (at_number seen.now inst ≡ Some true) }
{
    let index = inst.get() as usize - 1;
    index < seen.len() && seen[index]
}

// Notes that a certificate of an instance was seen.
fn mark(seen: &mut [bool], inst: InstNo)
    ensures marked { (k : ℕ) → slice_get seen.new k ≡ Some true → (slice_get seen.old k ≡ Some true) ⊎ (inst ≡ k + 1) }
    ensures kept { (k : ℕ) → slice_get seen.old k ≡ Some true → slice_get seen.new k ≡ Some true }
    ensures marks { inst ≤ length seen.old → at_number seen.new inst ≡ Some true }
{
    let index = inst.get() as usize - 1;
    if index < seen.len() {
        seen[index] = true;
    }
}

// The answer to a certificate that does not pass, after those before it.
fn refutation(instances: &Instances, is_seen: bool, certificate: &Certificate) -> Option<Verdict>
    ensures passes { result ≡ None → (certificates : List Certificate) (rows : List Event) (i : ℕ) → IsLegal rows
        → Gathered certificates instances.now.list.items rows
        → slice_get certificates i ≡ Some certificate.now
        → (IsTrue is_seen ↔ IsSecond certificates i certificate.now) → Passes rows certificate.now }
    ensures listed { result ≡ None → certificate.now.inst ≤ length instances.now.list.items }
    ensures fresh { result ≡ None → IsTrue is_seen → ⊥ }
    ensures refused { IfSome result (λ v. (certificates : List Certificate) (rows : List Event) (i : ℕ)
        → IsLegal rows → Gathered certificates instances.now.list.items rows
        → slice_get certificates i ≡ Some certificate.now → (IsTrue is_seen ↔ IsSecond certificates i certificate.now)
        → IsUnknown rows certificates i certificate.now v ⊎ IsRefuted rows certificates i certificate.now v) }
{
    let inst = certificate.inst;
    let Some(instance) = instances.get(inst) else {
        return Some(no_verdict(Some(inst), None, Why::Unknown));
    };
    let Some(decision) = instance.decision else {
        return Some(no_verdict(Some(inst), None, Why::Unknown));
    };
    if is_seen {
        return Some(no_verdict(Some(inst), None, Why::Unknown));
    }
    if !is_as_certified(instance, &decision, certificate) {
        return Some(no_verdict(Some(inst), None, Why::Unknown));
    }
    match decision.fault {
        Some(why) => Some(no_verdict(Some(inst), Some(decision.row), why)),
        None => None,
    }
}

// Whether the log has the instance as the certificate has it.
fn is_as_certified(instance: &Instance, decision: &Decision, certificate: &Certificate) -> bool
    ensures kind { IsTrue result → instance.now.kind ≡ certificate.now.kind }
    ensures initiator { IsTrue result → instance.now.initiator ≡ certificate.now.initiator }
    ensures verdict { IsTrue result → decision.now.commit ≡ certificate.now.commit }
    ensures no_members { IsTrue result → certificate.now.commit ≡ false → certificate.now.members ≡ [] }
    ensures all { instance.now.kind ≡ certificate.now.kind → instance.now.initiator ≡ certificate.now.initiator
        → decision.now.commit ≡ certificate.now.commit
        → (certificate.now.commit ≡ false → certificate.now.members ≡ []) → IsTrue result }
{
    instance.kind == certificate.kind
        && instance.initiator == certificate.initiator
        && decision.commit == certificate.commit
        && (certificate.commit || certificate.members.list().is_empty())
}
