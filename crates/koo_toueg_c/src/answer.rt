//! Answers in numbers.

ghost use Rattle.std.specs.Prelude.{◌≡◌, ◌≤◌};
ghost use Rattle.koo_toueg_c.specs.Numbers.{TellsAnswer, answer_numbers, answer_status, no_answer, or_zero, rule_named, unlinked_numbers, verdict_numbers, why_number};

use crate::fault::KtFault;
use kt_base::{InstNo, RowNo};
use kt_explain::Answer;
use kt_spacetime::{Unfit, Verdict, Why};

/// An answer in numbers: why it is a no, and what the no names. A number is 0 where nothing is named.
#[repr(C)]
#[derive(Clone, Copy)]
pub struct KtAnswer {
    /// 1 `BadLog`, 2 `Unknown`, 3 `Cause`, 4 `Members`, 5 `Chain`, 6 `Orphan`, 7 `Missing`, 8 `NoChain`; 0 for a yes.
    pub why: u32,
    /// The rule that a row breaks, 1 to 9, of `BadLog`.
    pub rule: u32,
    /// The instance, 1 to 4,096.
    pub inst: u32,
    /// The row, from 1.
    pub row: u32,
    /// The process without a chain, 0 to 63, of `NoChain`.
    pub process: u32,
}

impl KtAnswer {
    /// A yes, or no answer.
    pub(crate) fn none() -> KtAnswer
        ensures { result ≡ no_answer }
    {
        KtAnswer {
            why: 0,
            rule: 0,
            inst: 0,
            row: 0,
            process: 0,
        }
    }

    // An answer in numbers.
    fn of(answer: &Answer) -> KtAnswer
        ensures { result ≡ answer_numbers answer.now }
    {
        match answer {
            Answer::Checked(verdict) => KtAnswer::of_verdict(verdict),
            Answer::Unlinked(why) => KtAnswer::of_unlinked(why),
            Answer::Open => KtAnswer {
                why: 9,
                ..KtAnswer::none()
            },
        }
    }

    // An answer of the checker in numbers.
    fn of_verdict(verdict: &Verdict) -> KtAnswer
        ensures { result ≡ verdict_numbers verdict.now }
    {
        match verdict {
            Verdict::Yes => KtAnswer::none(),
            Verdict::No { inst, row, why } => KtAnswer {
                why: why_number(why),
                rule: rule_named(why),
                inst: inst_number(*inst),
                row: row_number(*row),
                process: 0,
            },
        }
    }

    // Why a log means no certificates, in numbers.
    fn of_unlinked(why: &Unfit) -> KtAnswer
        ensures { result ≡ unlinked_numbers why.now }
    {
        match why {
            Unfit::BadLog(row, rule) => KtAnswer {
                why: 1,
                rule: u32::from(rule.number()),
                inst: 0,
                row: row.get(),
                process: 0,
            },
            Unfit::NoChain(inst, row, process) => KtAnswer {
                why: 8,
                rule: 0,
                inst: u32::from(inst.get()),
                row: row.get(),
                process: u32::from(process.get()),
            },
        }
    }
}

fn why_number(why: &Why) -> u32
    ensures { result ≡ why_number why.now }
{
    match why {
        Why::BadLog(_) => 1,
        Why::Unknown => 2,
        Why::Cause => 3,
        Why::Members => 4,
        Why::Chain => 5,
        Why::Orphan => 6,
        Why::Missing => 7,
    }
}

fn rule_named(why: &Why) -> u32
    ensures { result ≡ rule_named why.now }
{
    match why {
        Why::BadLog(rule) => u32::from(rule.number()),
        _ => 0,
    }
}

fn inst_number(inst: Option<InstNo>) -> u32
    ensures { result ≡ or_zero inst }
{
    match inst {
        Some(inst) => u32::from(inst.get()),
        None => 0,
    }
}

fn row_number(row: Option<RowNo>) -> u32
    ensures { result ≡ or_zero row }
{
    match row {
        Some(row) => row.get(),
        None => 0,
    }
}

/// The status of an answer: 0 for a yes, 1 for a no.
pub(crate) fn answer_status(passed: bool) -> u32
    ensures exact { result ≡ answer_status passed }
    ensures answered { result ≤ 1 }
{
    if passed { 0 } else { 1 }
}

/// Tells an answer, and no fault; its status.
pub(crate) fn tell_answer(found: &Answer, answer: &mut KtAnswer, fault: &mut KtFault) -> u32
    ensures told { TellsAnswer found.now result answer.new fault.new }
    ensures answered { result ≤ 1 }
{
    *answer = KtAnswer::of(found);
    *fault = KtFault::none();
    answer_status(found.passes())
}
