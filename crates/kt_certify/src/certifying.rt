//! The certificates of a log.

ghost use Rattle.std.specs.Prelude.{◌≡◌, ℕ, All, IfOk, IfErr};
ghost use Rattle.kt_meaning.specs.Legal.{IsLegal};
ghost use Rattle.kt_chain.specs.Spelling.{HasShortChains, records_of};
ghost use Rattle.kt_chain.specs.Texts.{IsCertText};
ghost use Rattle.kt_meaning.specs.Certificates.{certificates};
ghost use Rattle.kt_meaning.specs.Fitness.{HasNoChain, IsFaultOf, IsWhyUnfit};
ghost use Rattle.kt_meaning.specs.Meant.{AreMeant};

use crate::pass::Pass;
use kt_spacetime::{CertFault, Certificate, SpaceTime};
use std::alloc::Global;

/// The certificates of a log, one for each decided instance by rising number, in one pass over its rows; else why there
/// are none.
///
/// A committed instance's certificate lists its members in the order in which they joined, each with its chain: that of
/// the first earlier member that a message links it with, followed by the least-numbered such message.
///
/// Of a log that has several faults a broken rule is answered, the first; else the first member without a chain.
pub fn certify(alloc: Global, log: &SpaceTime) -> Result<Vec<Certificate>, CertFault>
    // The certificates are those of the log, which is legal and has no member without a chain.
    ensures certificates { IfOk result (λ list. list.items ≡ certificates log.now.rows) }
    ensures legal { IfOk result (λ list. IsLegal log.now.rows) }
    ensures chained { IfOk result (λ list. (k p : ℕ) → HasNoChain log.now.rows k p → ⊥) }
    // They are what it means: one for each decided instance, as the log has it, by rising number; a committed one has
    // the members in the order in which they joined, each with its chain.
    ensures meant { IfOk result (λ list. AreMeant log.now.rows list.items) }
    // They can be written, and what is written says them.
    ensures short { IfOk result (λ list. All HasShortChains list.items) }
    ensures text { IfOk result (λ list. IsCertText (records_of list.items) list.items) }
    // Each fault is one of the log.
    ensures fault { IfErr result (λ f. IsFaultOf log.now.rows f) }
    // and the first one: a broken rule, else the first member without a chain.
    ensures first { IfErr result (IsWhyUnfit log.now.rows) }
{
    let mut pass = Pass::new(alloc)?;
    for row in log.rows() {
        pass.feed(row)?;
    }
    match pass.unfit() {
        Some(unfit) => Err(CertFault::from(unfit)),
        None => Ok(pass.found()?),
    }
}
