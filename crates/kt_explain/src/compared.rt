//! A certificate that does not pass, beside the one that the log means.

ghost use Rattle.std.specs.Prelude.{◌≡◌, ◌↔◌, ◌≤◌, ◌<◌, ℕ, true, false, List, Option, Some, length, slice_get, option_map, IfOk, IfSome, IfNone, IsTrue};
ghost use Rattle.kt_spacetime.specs.declared.certificate.Certificate.{Certificate as Certificates};
ghost use Rattle.kt_spacetime.specs.declared.verdict.Verdict.TheVariants.{No};
ghost use Rattle.kt_meaning.specs.Answers.{IsCheckerAnswer};
ghost use Rattle.kt_meaning.specs.Certificates.{certificates as certificates_meant};
ghost use Rattle.kt_meaning.specs.Fitness.{HasNoChain, IsFaultOf};
ghost use Rattle.kt_meaning.specs.Legal.{IsLegal};
ghost use Rattle.kt_spacetime.specs.declared.verdict.Verdict.{Verdict};
ghost use Rattle.kt_explain.specs.Compared.{AreAlike, DifferAt, DifferIn, IsAlone, IsUnlikeAt, SameAt, SameHead, SameMembers, counted, IsDifference, IsFirstAt, IsOfCertificate, IsSecondAt, asks_all, asks_chains, certificate_at};
ghost use Rattle.kt_explain.specs.Told.{IsExplanation, IsItsFirst, IsNoOf};

use crate::explanation::Explanation;
use kt_base::{InstNo, Memory, MsgNo, ProcNo, RowNo};
use kt_certify::certify;
use kt_histories::finding::{Sought, last_number};
use kt_meaning::certificates_of_legal_logs;
use kt_spacetime::{CertFault, Certificate, Chain, SpaceTime, Why};
use std::alloc::Global;

/// In what the certificates of an instance differ.
#[derive(Clone, Copy)]
pub enum Differs {
    /// In the record at this place: 0 of that of the instance, from 1 on of those of its members; whether chains count.
    Record(usize, bool),
    /// The certificate at this place of the list, from 0, is a second one of the instance.
    Second(usize),
}

/// The certificate of an instance in a list, and the one that the log means.
#[derive(Drop)]
pub struct Compared {
    pub inst: InstNo,
    /// The place of the first certificate of the instance in the list.
    pub has: Option<usize>,
    /// The certificates that the log means.
    pub meant: Vec<Certificate>,
    /// The place of that of the instance.
    pub means: Option<usize>,
    pub differs: Differs,
}

/// A certificate that does not pass, or that is missing, beside the one that the log means; or the member for which the log
/// means none.
pub(crate) fn compare(
    alloc: Global,
    log: &SpaceTime,
    certificates: &[Certificate],
    inst: InstNo,
    row: Option<RowNo>,
    why: Why,
) -> Result<Explanation, Memory>
    requires answer { IsCheckerAnswer log.now.rows certificates.now (No (Some inst) row why) }
    requires of_certificate { IsOfCertificate why }
    ensures { IfOk result (IsExplanation log.now.rows certificates.now (No (Some inst) row why)) }
{
    match certify(alloc, log) {
        Ok(meant) => Ok(beside(log, certificates, meant, inst, row, why)),
        Err(fault) => without(log, fault),
    }
}

/// The member for which a legal log means no certificates.
pub(crate) fn without(log: &SpaceTime, fault: CertFault) -> Result<Explanation, Memory>
    requires legal { IsLegal log.now.rows }
    requires fault { IsFaultOf log.now.rows fault }
    ensures { IfOk result (λ e. (list : List Certificates) (verdict : Verdict) → (j : ℕ) × IsNoOf verdict j
        → IsExplanation log.now.rows list verdict e) }
{
    match fault {
        CertFault::NoChain(k, p) => Ok(Explanation::Unlinked {
            inst: k,
            p,
            joined: last_number(log.rows(), &Sought::Joined(p, k)),
        }),
        CertFault::BadLog(..) => Ok(Explanation::Nothing),
        CertFault::Memory => Err(Memory),
    }
}

// The same, where the log means these certificates.
fn beside(
    log: &SpaceTime,
    certificates: &[Certificate],
    meant: Vec<Certificate>,
    inst: InstNo,
    row: Option<RowNo>,
    why: Why,
) -> Explanation
    requires answer { IsCheckerAnswer log.now.rows certificates.now (No (Some inst) row why) }
    requires of_certificate { IsOfCertificate why }
    requires meant { meant.items ≡ certificates_meant log.now.rows }
    requires chained { (k p : ℕ) → HasNoChain log.now.rows k p → ⊥ }
    ensures { IsExplanation log.now.rows certificates.now (No (Some inst) row why) result }
{
    certificates_of_legal_logs();
    let has = first_place(certificates, inst);
    let means = first_place(meant.as_slice(), inst);
    match differing(certificates, inst, has, meant.as_slice(), means, why) {
        Some(differs) => Explanation::Compared(Compared {
            inst,
            has,
            meant,
            means,
            differs,
        }),
        None => Explanation::Nothing,
    }
}

// In what the certificates of an instance differ, of which the first ones stand at these places.
fn differing(
    certificates: &[Certificate],
    inst: InstNo,
    has: Option<usize>,
    meant: &[Certificate],
    means: Option<usize>,
    why: Why,
) -> Option<Differs>
    requires has { IfSome has (λ i. i < length certificates.now) }
    ensures differ { IfSome result (IsDifference certificates.now inst has meant.now means) }
    ensures alike { IfNone result (AreAlike (asks_all why) (asks_chains why)
        (certificate_at certificates.now has) (certificate_at meant.now means)) }
    ensures alone { IfNone result (IsAlone certificates.now inst has) }
{
    let here = certificate_at(certificates, has);
    let there = certificate_at(meant, means);
    let chains = asks_chains(why);
    match difference(here, there, asks_all(why), chains) {
        Some(place) => Some(Differs::Record(place, chains)),
        None => Some(Differs::Second(second_place(certificates, inst, has)?)),
    }
}

// Whether the members of a certificate count that is answered so: they do, unless it is not of the decision of its instance.
fn asks_all(why: Why) -> bool
    ensures { result ≡ asks_all why }
{
    !matches!(why, Why::Unknown)
}

// Whether their chains count, where the members do.
fn asks_chains(why: Why) -> bool
    ensures { result ≡ asks_chains why }
{
    !matches!(why, Why::Members)
}

// The first record in which two certificates differ, of which each may be missing.
fn difference(
    here: Option<&Certificate>,
    there: Option<&Certificate>,
    all: bool,
    chains: bool,
) -> Option<usize>
    ensures differ { IfSome result (DifferIn chains (option_map (λ c. c.now) here.entry) (option_map (λ c. c.now) there.entry)) }
    ensures alike { IfNone result (AreAlike all chains (option_map (λ c. c.now) here.entry) (option_map (λ c. c.now) there.entry)) }
{
    match (here, there) {
        (Some(here), Some(there)) => first_difference(here, there, all, chains),
        (None, None) => None,
        _ => Some(0),
    }
}

// The certificate at a place, if there is one.
fn certificate_at(certificates: &[Certificate], place: Option<usize>) -> Option<&Certificate>
    ensures { option_map (λ c. c.now) result ≡ certificate_at certificates.now place }
{
    certificates.get(place?)
}

// The place of the first certificate of an instance.
fn first_place(certificates: &[Certificate], inst: InstNo) -> Option<usize>
    ensures { IsFirstAt certificates.now inst result }
{
    place_from(certificates, inst, 0)
}

// The place of a certificate of an instance after its first one.
fn second_place(certificates: &[Certificate], inst: InstNo, first: Option<usize>) -> Option<usize>
    requires first { IfSome first (λ i. i < length certificates.now) }
    ensures second { IfSome result (IsSecondAt certificates.now inst first) }
    ensures none { IfNone result (IsAlone certificates.now inst first) }
{
    place_from(certificates, inst, first? + 1)
}

/// The first certificate of an instance.
pub(crate) fn first_of(certificates: &[Certificate], inst: InstNo) -> Option<&Certificate>
    ensures first { IfSome result (λ c. IsItsFirst certificates.now inst c.now) }
    ensures none { IfNone result ((c : Certificates) → IsItsFirst certificates.now inst c → ⊥) }
{
    let place = place_from(certificates, inst, 0)?;
    Some(&certificates[place])
}

// The first place from this one on of a certificate of an instance.
fn place_from(certificates: &[Certificate], inst: InstNo, from: usize) -> Option<usize>
    ensures found { IfSome result (λ place. (c : Certificates) × (slice_get certificates.now place ≡ Some c) × (c.inst ≡ inst)) }
    ensures from { IfSome result (λ place. from ≤ place) }
    ensures first { IfSome result (λ place. (n : ℕ) (c : Certificates) → from ≤ n → n < place
        → slice_get certificates.now n ≡ Some c → c.inst ≡ inst → ⊥) }
    ensures none { IfNone result ((n : ℕ) (c : Certificates) → from ≤ n → slice_get certificates.now n ≡ Some c
        → c.inst ≡ inst → ⊥) }
{
    for place in from..certificates.len() {
        if certificates[place].inst == inst {
            return Some(place);
        }
    }
    None
}

// The place of the first record in which two certificates differ: 0 of that of the instance, from 1 on of those of its
// members, with their chains or without; of committed ones the members count only where all is compared.
fn first_difference(
    has: &Certificate,
    means: &Certificate,
    all: bool,
    chains: bool,
) -> Option<usize>
    ensures differ { IfSome result (DifferAt chains has.now means.now) }
    ensures head { IfNone result (SameHead has.now means.now) }
    ensures all { IfNone result (all ≡ true → SameMembers chains has.now.members means.now.members) }
    ensures aborted { IfNone result (has.now.commit ≡ false
        → SameMembers chains has.now.members means.now.members) }
{
    if !is_same_head(has, means) {
        return Some(0);
    }
    if has.commit && !all {
        return None;
    }
    first_unlike(has.members.list(), means.members.list(), chains)?.checked_add(1)
}

// Whether the records of the instance are the same.
fn is_same_head(has: &Certificate, means: &Certificate) -> bool
    ensures { IsTrue result ↔ SameHead has.now means.now }
{
    has.kind == means.kind && has.initiator == means.initiator && has.commit == means.commit
}

// The first place at which two lists of members differ, with their chains or without.
fn first_unlike(
    listed: &[(ProcNo, Chain)],
    meant: &[(ProcNo, Chain)],
    chains: bool,
) -> Option<usize>
    ensures unlike { IfSome result (IsUnlikeAt chains listed.now meant.now) }
    ensures same { IfNone result (SameMembers chains listed.now meant.now) }
{
    let count = listed.len().max(meant.len());
    for index in 0..count {
        if !is_same_at(listed, meant, index, chains) {
            return Some(index);
        }
    }
    None
}

// Whether two lists of members have the same at an index.
fn is_same_at(
    listed: &[(ProcNo, Chain)],
    meant: &[(ProcNo, Chain)],
    index: usize,
    chains: bool,
) -> bool
    ensures { IsTrue result ↔ SameAt chains listed.now meant.now index }
{
    match (listed.get(index), meant.get(index)) {
        (Some(here), Some(there)) => is_same(here, there, chains),
        (None, None) => true,
        _ => false,
    }
}

// Whether two members are the same, with the same chain where chains count.
fn is_same(here: &(ProcNo, Chain), there: &(ProcNo, Chain), chains: bool) -> bool
    ensures { IsTrue result ↔ (counted chains here.now ≡ counted chains there.now) }
{
    if chains {
        here.0 == there.0 && is_same_chain(here.1.messages(), there.1.messages())
    } else {
        here.0 == there.0
    }
}

// Whether two chains have the same messages.
fn is_same_chain(here: &[MsgNo], there: &[MsgNo]) -> bool
    ensures { IsTrue result ↔ (here.now ≡ there.now) }
{
    here == there
}
