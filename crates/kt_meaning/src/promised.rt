//! Laws of logs that are decided well, and of those of which all is so that is promised of a run's: each function has nothing to
//! run, and its contract is the law. Those that are called in it are laws that its proof stands on.

ghost use Rattle.std.specs.Prelude.{◌≡◌, ℕ, Some, List, take, slice_get};
ghost use Rattle.kt_spacetime.specs.declared.event.Event.{Event};
ghost use Rattle.kt_meaning.specs.Past.{past};
ghost use Rattle.kt_meaning.specs.Chains.{members};
ghost use Rattle.kt_spacetime.specs.declared.certificate.Certificate.{Certificate};
ghost use Rattle.kt_spacetime.specs.declared.verdict.Verdict.{Verdict};
ghost use Rattle.kt_spacetime.specs.declared.verdict.Verdict.TheVariants.{Yes};
ghost use Rattle.kt_spacetime.specs.declared.verdict.Why.TheVariants as why;
ghost use Rattle.kt_meaning.specs.Unwilling.{has_unwilling};
ghost use Rattle.kt_meaning.specs.Passing.{IsAsInLog, IsPassed};
ghost use Rattle.kt_meaning.specs.Answers.{IsCheckerAnswer, IsBadLog, IsUnknown, IsFirstWhy, IsMissing};
ghost use Rattle.kt_spacetime.specs.declared.unfit.CertFault.{CertFault};
ghost use Rattle.kt_spacetime.specs.declared.unfit.CertFault.TheVariants.{Memory};
ghost use Rattle.kt_meaning.specs.Certificates.{certificates};
ghost use Rattle.kt_meaning.specs.Fitness.{HasNoChain, IsFaultOf};
ghost use Rattle.kt_meaning.specs.Promised.{IsPromised, IsCertified};
ghost use Rattle.kt_meaning.specs.DecidedWell.{IsDecidedWell};

/// A log whose decisions are linked, consistent and aborted exactly where a process was unwilling: none of the faults
/// that the checker knows is there, and its answer is yes.
pub fn certificates_of_well_decided_logs()
    // Each fault, in the checker's order.
    ensures no_bad_log { (log : List Event) (v : Verdict) → IsDecidedWell log → IsBadLog log v → ⊥ }
    ensures no_unknown { (log : List Event) (i : ℕ) (c : Certificate) (v : Verdict) →
        slice_get (certificates log) i ≡ Some c → IsUnknown log (certificates log) i c v → ⊥ }
    ensures no_cause { (log : List Event) (i n : ℕ) (c : Certificate) → IsDecidedWell log →
        slice_get (certificates log) i ≡ Some c → IsAsInLog log c n →
        IsFirstWhy (past (take n log)) (members log c.inst) (has_unwilling log c.inst) c why.Cause → ⊥ }
    ensures no_members { (log : List Event) (i n : ℕ) (c : Certificate) → IsDecidedWell log →
        slice_get (certificates log) i ≡ Some c → IsAsInLog log c n →
        IsFirstWhy (past (take n log)) (members log c.inst) (has_unwilling log c.inst) c why.Members → ⊥ }
    ensures no_chain { (log : List Event) (i n : ℕ) (c : Certificate) → IsDecidedWell log →
        slice_get (certificates log) i ≡ Some c → IsAsInLog log c n →
        IsFirstWhy (past (take n log)) (members log c.inst) (has_unwilling log c.inst) c why.Chain → ⊥ }
    ensures no_orphan { (log : List Event) (i n : ℕ) (c : Certificate) → IsDecidedWell log →
        slice_get (certificates log) i ≡ Some c → IsAsInLog log c n →
        IsFirstWhy (past (take n log)) (members log c.inst) (has_unwilling log c.inst) c why.Orphan → ⊥ }
    ensures no_missing { (log : List Event) (v : Verdict) → IsDecidedWell log → IsMissing log (certificates log) v → ⊥ }

    // So the certificates pass, and no other answer than yes is right.
    ensures passed { (log : List Event) → IsDecidedWell log → IsPassed log (certificates log) }
    ensures yes { (log : List Event) (v : Verdict) → IsDecidedWell log → IsCheckerAnswer log (certificates log) v → v ≡ Yes }

    // No member lacks a chain, and that a log has no certificates can't be but for want of memory.
    ensures chained { (log : List Event) (k p : ℕ) → IsDecidedWell log → HasNoChain log k p → ⊥ }
    ensures certified { (log : List Event) (f : CertFault) → IsDecidedWell log → IsFaultOf log f → f ≡ Memory }
{
    crate::certificates::certificates_of_logs();
    crate::certificates::certificates_of_legal_logs();
    crate::certificates::certificates_of_fit_logs();
}

/// A log of which all is so that is promised of a run's, whoever wrote it: what its certificates are worth.
pub fn certificates_of_promised_logs()
    // It has some, but for want of memory; they pass, and the checker's answer is yes.
    ensures certified { (log : List Event) → IsPromised log → IsCertified log }

    // It can't be another one.
    ensures yes { (log : List Event) (v : Verdict) → IsPromised log → IsCheckerAnswer log (certificates log) v → v ≡ Yes }
{
    certificates_of_well_decided_logs();
}
