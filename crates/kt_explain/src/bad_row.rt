//! A row that breaks a rule, as it is told, and what is told of a log that has one.

ghost use Rattle.std.specs.Prelude.{◌≡◌, ◌≤◌, ◌^◌, List, None, Some, IfOk, length};
ghost use Rattle.kt_spacetime.specs.declared.certificate.Certificate.{Certificate};
ghost use Rattle.kt_spacetime.specs.declared.verdict.Verdict.TheVariants.{No};
ghost use Rattle.kt_spacetime.specs.declared.verdict.Why.TheVariants as why;
ghost use Rattle.kt_meaning.specs.Answers.{IsBadLog};
ghost use Rattle.kt_meaning.specs.Legal.{first_broken};
ghost use Rattle.kt_explain.specs.Told.{IsExplanation};
ghost use Rattle.kt_histories.specs.Breaches.{IsLater};
ghost use Rattle.kt_histories.specs.declared.breach.Breach.TheVariants as told;

use crate::explanation::Explanation;
use kt_base::{Memory, MsgNo, RowNo};
use kt_histories::breach::Breach;
use kt_histories::breach::before::Before;
use kt_histories::finding::{Sought, first_row};
use kt_histories::undoing::undone_in;
use kt_histories::waiting::Waiting;
use kt_histories::words::{Row, say};
use kt_spacetime::{Event, Rule, Why};
use std::alloc::Global;
use std::fmt;

/// A row that breaks a rule, and what breaks it.
#[derive(Drop)]
pub struct BadRow {
    pub row: RowNo,
    pub rule: Rule,
    pub breach: Breach,
    /// The row before it that undid the send of its message, where that is what breaks the rule.
    pub undone: Option<RowNo>,
    /// The row that sends its message, or begins or decides its instance, where that comes after it.
    pub later: Option<RowNo>,
    /// Of a row that takes a message, what is in transit between the two processes just before it.
    pub waiting: Option<Waiting>,
}

impl fmt::Display for BadRow {
    fn fmt<W: fmt::Write>(&self, f: &mut fmt::Formatter<W>) -> fmt::Result {
        write!(f, "{}{}", rule_title(self.rule), self.breach)?;
        if let Some(row) = self.undone {
            say(f, ", by row #", &[Row(row)])?;
        }
        if let Some(row) = self.later {
            say(f, later_words(&self.breach), &[Row(row)])?;
        }
        f.write_str("\n")?;
        match &self.waiting {
            Some(waiting) => write!(f, "{waiting}"),
            None => Ok(()),
        }
    }
}

// What a later row does that no row before does.
fn later_words(breach: &Breach) -> &'static str {
    match breach {
        Breach::NotSent(_) => "; row #, after it, sends it",
        Breach::NotBegun(_) => "; row #, after it, begins it",
        _ => "; row #, after it, decides it",
    }
}

// A rule by number and name.
fn rule_title(rule: Rule) -> &'static str {
    match rule {
        Rule::Numbers => "rule 1, numbers: ",
        Rule::Message => "rule 2, message: ",
        Rule::Order => "rule 3, order: ",
        Rule::Sending => "rule 4, sending: ",
        Rule::Receiving => "rule 5, receiving: ",
        Rule::Joining => "rule 6, joining: ",
        Rule::Deciding => "rule 7, deciding: ",
        Rule::Closing => "rule 8, closing: ",
        Rule::Causes => "rule 9, causes: ",
    }
}

/// What is told of a log that is not legal.
pub(crate) fn bad_log(
    alloc: Global,
    rows: &[Event],
    row: Option<RowNo>,
    why: Why,
) -> Result<Explanation, Memory>
    requires few { length rows.now ≤ 2 ^ 24 }
    requires bad { IsBadLog rows.now (No None row why) }
    ensures { IfOk result (λ e. (certificates : List Certificate)
        → IsExplanation rows.now certificates (No None row why) e) }
{
    match why {
        Why::BadLog(rule) => match row {
            Some(row) => bad_row(alloc, rows, row, rule),
            None => Ok(Explanation::Nothing),
        },
        _ => Ok(Explanation::Nothing),
    }
}

/// The row of this number, which is the first that breaks a rule, and what breaks it.
pub(crate) fn bad_row(
    alloc: Global,
    rows: &[Event],
    row: RowNo,
    rule: Rule,
) -> Result<Explanation, Memory>
    requires few { length rows.now ≤ 2 ^ 24 }
    requires within { row ≤ length rows.now }
    requires bad { first_broken rows.now ≡ Some (row, rule) }
    ensures { IfOk result (λ e. (certificates : List Certificate)
        → IsExplanation rows.now certificates (No None (Some row) (why.BadLog rule)) e) }
{
    let index = row.get() as usize - 1;
    let before = &rows[..index];
    let known = Before::of(alloc, before)?;
    match known.broken(rule, &rows[index]) {
        Some(breach) => Ok(Explanation::BadLog(BadRow {
            row,
            rule,
            breach,
            undone: undone_in(alloc, before, &breach)?,
            later: later_in(rows, &breach),
            waiting: known.waiting_at(alloc, &rows[index])?,
        })),
        None => Ok(Explanation::Nothing),
    }
}

// The row of a log that sends the message that was not sent before, begins the instance that had not begun, or decides the one
// that was not decided.
fn later_in(rows: &[Event], breach: &Breach) -> Option<RowNo>
    requires few { length rows.now ≤ 2 ^ 24 }
    ensures { IsLater rows.now breach.now result }
{
    match *breach {
        Breach::NotSent(msg) => sending(rows, msg),
        Breach::NotBegun(inst) => Some(first_row(rows, &Sought::Began(inst))?.number),
        Breach::Undecided(inst) => Some(first_row(rows, &Sought::Decided(inst))?.number),
        _ => None,
    }
}

// The row that sends a message.
fn sending(rows: &[Event], msg: MsgNo) -> Option<RowNo>
    ensures { IsLater rows.now (told.NotSent msg) result }
{
    match rows.get(msg.index()) {
        Some(Event::Sent { .. }) => Some(RowNo::after(msg.index())),
        _ => None,
    }
}
