//! Logs judged.

ghost use Rattle.std.specs.Prelude.{◌≡◌, None, Option, List, IfOk, IfSome, MatchBool, option_map, true};
ghost use Rattle.kt_meaning.specs.Fitness.{IsUnfit};
ghost use Rattle.kt_spacetime.specs.declared.certificate.Certificate.{Certificate as Certificates};
ghost use Rattle.kt_meaning.specs.Answers.{IsCheckerAnswer};
ghost use Rattle.kt_spacetime.specs.declared.verdict.Verdict.{Verdict as Verdicts};
ghost use Rattle.kt_spacetime.specs.declared.verdict.Verdict.TheVariants.{Yes};
ghost use Rattle.kt_explain.specs.Told.{IsExplanation};
ghost use Rattle.kt_spacetime.specs.declared.event.Event.{Event as Events};
ghost use Rattle.kt_explain.specs.Judging.{IsAnswerBy, IsAtRest, IsBasis, IsUnlinkedOr};

use crate::answer::Answer;
use crate::explanation::{Explanation, explain};
use crate::unfit::unfit_of;
use kt_base::Memory;
use kt_certify::certify;
use kt_checker::check;
use kt_spacetime::{Certificate, SpaceTime, Unfit, Verdict, Why};
use std::alloc::Global;

/// The answer to a log: what the checker says of it with these certificates, and what is told of that, where it is asked.
#[derive(Drop)]
pub struct Judgement {
    pub answer: Answer,
    pub certificates: Vec<Certificate>,
    pub verdict: Verdict,
    pub explanation: Explanation,
}

// The certificates by which a log is judged; or none, where none are named and it means none, and why.
#[derive(Drop)]
struct Basis {
    certificates: Vec<Certificate>,
    unfit: Option<Unfit>,
}

/// Judges a log by the certificates that are named, or else by those that it means. With `at_rest` one that leaves an instance
/// open or a message in transit is a no. What is told of the checker's answer is sought only where that is asked by `explains`,
/// or needed for `at_rest`.
pub fn judge(
    alloc: Global,
    log: &SpaceTime,
    named: Option<Vec<Certificate>>,
    explains: bool,
    at_rest: bool,
) -> Result<Judgement, Memory>
    ensures checked { IfOk result (λ judgement.
        IsCheckerAnswer log.now.rows judgement.certificates.items judgement.verdict) }
    ensures answered { IfOk result (λ judgement. IsAnswerBy log.now.rows (option_map (λ list. list.items) named) at_rest
        judgement.certificates.items judgement.verdict judgement.answer) }
    ensures told { IfOk result (λ judgement. explains ≡ true
        → IsExplanation log.now.rows judgement.certificates.items judgement.verdict judgement.explanation) }
{
    let basis = basis_of(alloc, log, named)?;
    let certificates = basis.certificates.as_slice();
    let verdict = verdict_by(alloc, log, certificates, &basis.unfit)?;
    let is_sought = explains || at_rest;
    let explanation = explanation_if(is_sought, alloc, log, certificates, &verdict)?;
    let answer = answer_by(unlinked(basis.unfit), verdict, &explanation, at_rest);
    Ok(Judgement {
        answer,
        certificates: basis.certificates,
        verdict,
        explanation,
    })
}

// The certificates that are named, or else those that a log means.
fn basis_of(
    alloc: Global,
    log: &SpaceTime,
    named: Option<Vec<Certificate>>,
) -> Result<Basis, Memory>
    ensures basis { IfOk result (λ basis. IsBasis log.now.rows (option_map (λ list. list.items) named)
        basis.unfit basis.certificates.items) }
{
    match named {
        Some(certificates) => Ok(Basis {
            certificates,
            unfit: None,
        }),
        None => meant(alloc, log),
    }
}

// The certificates that a log means; or none, and why.
fn meant(alloc: Global, log: &SpaceTime) -> Result<Basis, Memory>
    ensures basis { IfOk result (λ basis. IsBasis log.now.rows None basis.unfit basis.certificates.items) }
{
    match certify(alloc, log) {
        Ok(certificates) => Ok(Basis {
            certificates,
            unfit: None,
        }),
        Err(fault) => Ok(Basis {
            certificates: Vec::new(alloc),
            unfit: Some(unfit_of(log.rows(), fault)?),
        }),
    }
}

// What the checker says of a log with certificates. That of one that breaks a rule is known once it means none.
fn verdict_by(
    alloc: Global,
    log: &SpaceTime,
    certificates: &[Certificate],
    unfit: &Option<Unfit>,
) -> Result<Verdict, Memory>
    requires unfit { IfSome unfit.now (IsUnfit log.now.rows) }
    ensures answer { IfOk result (IsCheckerAnswer log.now.rows certificates.now) }
{
    match *unfit {
        Some(Unfit::BadLog(row, rule)) => Ok(Verdict::No {
            inst: None,
            row: Some(row),
            why: Why::BadLog(rule),
        }),
        _ => check(alloc, log, certificates),
    }
}

// What is told of the checker's answer, if it is sought.
fn explanation_if(
    is_sought: bool,
    alloc: Global,
    log: &SpaceTime,
    certificates: &[Certificate],
    verdict: &Verdict,
) -> Result<Explanation, Memory>
    requires answer { IsCheckerAnswer log.now.rows certificates.now verdict.now }
    ensures told { IfOk result (λ e. is_sought ≡ true
        → IsExplanation log.now.rows certificates.now verdict.now e) }
{
    if is_sought {
        explain(alloc, log, certificates, verdict)
    } else {
        Ok(Explanation::Nothing)
    }
}

// Why a log means no certificates, if it breaks no rule.
fn unlinked(unfit: Option<Unfit>) -> Option<Unfit>
    ensures { (rows : List Events) (named : Option (List Certificates)) (list : List Certificates)
        → IsBasis rows named unfit list → IsUnlinkedOr rows named result list }
{
    match unfit {
        None => None,
        Some(why) => match why {
            Unfit::BadLog(..) => None,
            Unfit::NoChain(..) => Some(why),
        },
    }
}

// The answer by the checker's, and by what the log leaves open, where that is asked.
fn answer_by(
    unlinked: Option<Unfit>,
    verdict: Verdict,
    explanation: &Explanation,
    at_rest: bool,
) -> Answer
    ensures { (rows : List Events) (named : Option (List Certificates)) (certificates : List Certificates)
        → IsUnlinkedOr rows named unlinked certificates
        → (at_rest ≡ true → IsExplanation rows certificates verdict explanation.now)
        → IsAnswerBy rows named at_rest certificates verdict result }
{
    if let Some(why) = unlinked {
        return Answer::Unlinked(why);
    }
    if at_rest && leaves_open(explanation) {
        return Answer::Open;
    }
    Answer::Checked(verdict)
}

// Whether a log passes and leaves an instance open, or a message in transit, by what is told of it.
#[tactic(auto, using(crate::proofs::OpenInstances::all_told))]
fn leaves_open(explanation: &Explanation) -> bool
    ensures { (rows : List Events) (certificates : List Certificates) (verdict : Verdicts)
        → IsExplanation rows certificates verdict explanation.now
        → MatchBool result ((verdict ≡ Yes) × ¬ IsAtRest rows) (verdict ≡ Yes → IsAtRest rows) }
{
    match explanation {
        Explanation::Judged(judged) => judged.open.len() > 0 || judged.in_transit > 0,
        _ => false,
    }
}
