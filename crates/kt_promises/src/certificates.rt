//! Laws of the certificates of runs: each function has nothing to run, and its
//! contract is the law. Those that are called in it are laws that its proof stands on.

ghost use Rattle.std.specs.Prelude.{◌≡◌, ◌<◌, ℕ, true, Some, None, List, take, slice_get};
ghost use Rattle.kt_meaning.specs.Past.{past};
ghost use Rattle.kt_meaning.specs.Legal.{first_broken};
ghost use Rattle.kt_spacetime.specs.declared.certificate.Certificate.{Certificate};
ghost use Rattle.kt_spacetime.specs.declared.verdict.Verdict.{Verdict};
ghost use Rattle.kt_spacetime.specs.declared.verdict.Verdict.TheVariants.{Yes};
ghost use Rattle.kt_meaning.specs.Passing.{IsAsInLog, HasLists, IsPassed, AreComplete};
ghost use Rattle.kt_meaning.specs.Answers.{IsCheckerAnswer};
ghost use Rattle.kt_spacetime.specs.declared.unfit.CertFault.{CertFault};
ghost use Rattle.kt_spacetime.specs.declared.unfit.CertFault.TheVariants.{Memory};
ghost use Rattle.kt_meaning.specs.Certificates.{certificates};
ghost use Rattle.kt_meaning.specs.Fitness.{HasNoChain, IsFaultOf};
ghost use Rattle.kt_protocol.specs.States.{ProtocolStep, opening};
ghost use Rattle.kt_protocol.specs.Steps.{run};
ghost use Rattle.kt_protocol.specs.WorkedRuns.{checkpoint_of_two_steps, checkpoint_round_a_ring_steps, second_checkpoint_of_two_steps, two_checkpoints_at_once_steps, rollback_through_three_steps, messages_received_again_steps, busy_process_refuses_steps};
ghost use Rattle.kt_plan.specs.Limits.{Planned, IsPlan};
ghost use Rattle.kt_promises.specs.Progress.{Progress};
ghost use Rattle.kt_promises.specs.Runs.{RunReaches};
ghost use Rattle.kt_meaning.specs.DecidedWell.{IsDecidedWell};
ghost use Rattle.kt_promises.specs.WorkedCertificates.{of_checkpoint_of_two, of_checkpoint_round_a_ring, of_second_checkpoint_of_two, of_two_checkpoints_at_once, of_rollback_through_three, of_messages_received_again, of_busy_process_refuses, of_busy_process_refuses_so_far};

/// For every list of steps: the log of the run and its certificates.
pub fn certificates_of_protocol_runs()
    // The log is one of those: legal, so never a broken rule; each member but the initiator of a committed instance has
    // a message that links it with an earlier one, so never a member without a chain; so no fault but want of memory.
    ensures well { (n : ℕ) (steps : List ProtocolStep) → IsDecidedWell (run (opening n) steps).log }
    ensures unbroken { (n : ℕ) (steps : List ProtocolStep) → first_broken (run (opening n) steps).log ≡ None }
    ensures chained { (n : ℕ) (steps : List ProtocolStep) (k p : ℕ) → HasNoChain (run (opening n) steps).log k p → ⊥ }
    ensures certified { (n : ℕ) (steps : List ProtocolStep) (f : CertFault) →
        IsFaultOf (run (opening n) steps).log f → f ≡ Memory }

    // The checker's answer is yes, and can't be another one.
    ensures passed { (n : ℕ) (steps : List ProtocolStep) →
        IsPassed (run (opening n) steps).log (certificates (run (opening n) steps).log) }
    ensures answer { (n : ℕ) (steps : List ProtocolStep) →
        IsCheckerAnswer (run (opening n) steps).log (certificates (run (opening n) steps).log) Yes }
    ensures yes { (n : ℕ) (steps : List ProtocolStep) (v : Verdict) →
        IsCheckerAnswer (run (opening n) steps).log (certificates (run (opening n) steps).log) v → v ≡ Yes }
{
    kt_meaning::certificates_of_well_decided_logs();
}

/// For every run of every plan: the certificates of its log.
pub fn certificates_of_runs()
    // One for each decided instance, by rising number, as the log has it.
    ensures complete { (plan : Planned) (first : ℕ) (w : Progress) → IsPlan plan → RunReaches plan first w →
        AreComplete w.now.log (certificates w.now.log) }
    ensures rising { (plan : Planned) (first : ℕ) (w : Progress) (i j : ℕ) (c d : Certificate) → i < j →
        slice_get (certificates w.now.log) i ≡ Some c → slice_get (certificates w.now.log) j ≡ Some d →
        c.inst < d.inst }
    ensures stated { (plan : Planned) (first : ℕ) (w : Progress) (i : ℕ) (c : Certificate) →
        slice_get (certificates w.now.log) i ≡ Some c → (n : ℕ) × IsAsInLog w.now.log c n }

    // Each list of a committed one is a chain, and no member lacks one; so there is no fault but want of memory.
    ensures lists { (plan : Planned) (first : ℕ) (w : Progress) (i n : ℕ) (c : Certificate) → IsPlan plan →
        RunReaches plan first w → slice_get (certificates w.now.log) i ≡ Some c → IsAsInLog w.now.log c n →
        c.commit ≡ true → HasLists (past (take n w.now.log)) c }
    ensures chained { (plan : Planned) (first : ℕ) (w : Progress) (k p : ℕ) → IsPlan plan → RunReaches plan first w →
        HasNoChain w.now.log k p → ⊥ }
    ensures certified { (plan : Planned) (first : ℕ) (w : Progress) (f : CertFault) → IsPlan plan →
        RunReaches plan first w → IsFaultOf w.now.log f → f ≡ Memory }

    // The checker's answer is yes, and can't be another one.
    ensures passed { (plan : Planned) (first : ℕ) (w : Progress) → IsPlan plan → RunReaches plan first w →
        IsPassed w.now.log (certificates w.now.log) }
    ensures answer { (plan : Planned) (first : ℕ) (w : Progress) → IsPlan plan → RunReaches plan first w →
        IsCheckerAnswer w.now.log (certificates w.now.log) Yes }
    ensures yes { (plan : Planned) (first : ℕ) (w : Progress) (v : Verdict) → IsPlan plan → RunReaches plan first w →
        IsCheckerAnswer w.now.log (certificates w.now.log) v → v ≡ Yes }
{
    kt_meaning::certificates_of_logs();
    kt_meaning::certificates_of_legal_logs();
    kt_meaning::certificates_of_well_decided_logs();
}

/// Logs of runs that were worked out by hand have the certificates that they have to.
pub fn worked_certificates()
    ensures checkpoint_of_two { certificates (run (opening 2) checkpoint_of_two_steps).log
        ≡ of_checkpoint_of_two }
    ensures checkpoint_round_a_ring { certificates (run (opening 3) checkpoint_round_a_ring_steps).log
        ≡ of_checkpoint_round_a_ring }
    ensures second_checkpoint_of_two { certificates (run (opening 2) second_checkpoint_of_two_steps).log
        ≡ of_second_checkpoint_of_two }
    ensures two_checkpoints_at_once { certificates (run (opening 2) two_checkpoints_at_once_steps).log
        ≡ of_two_checkpoints_at_once }
    ensures rollback_through_three { certificates (run (opening 3) rollback_through_three_steps).log
        ≡ of_rollback_through_three }
    ensures messages_received_again { certificates (run (opening 2) messages_received_again_steps).log
        ≡ of_messages_received_again }
    ensures busy_process_refuses { certificates (run (opening 3) busy_process_refuses_steps).log
        ≡ of_busy_process_refuses }
    ensures undecided { certificates (take 11 (run (opening 3) busy_process_refuses_steps).log)
        ≡ of_busy_process_refuses_so_far }
{}
