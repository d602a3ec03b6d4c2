//! What is told below the line of a fault, in words.

use crate::fault::{AppFault, Failure, ProgramFault};
use crate::told::{Attempt, Told, ToldRecord};
use kt_chain::CertTextFault;
use kt_log_text::LogFault;
use kt_promises::Hindrance;
use kt_text::{FieldCount, certificate_form, row_form};
use std::fmt;

// What a number of a record is to be.
const NUMBER_FORM: &str = "a number is written by its digits, without leading zeros";

/// Its text is the lines below the line of the fault, each begun with two spaces and ended by a line feed.
impl fmt::Display for Failure {
    fn fmt<W: fmt::Write>(&self, f: &mut fmt::Formatter<W>) -> fmt::Result {
        match &self.told {
            Told::Nothing => Ok(()),
            Told::Words(lines) => {
                for line in lines.iter().filter(|line| !line.is_empty()) {
                    writeln!(f, "  {line}")?;
                }
                f.write_str("  see koo_toueg --help\n")
            }
            Told::OneFile(one, other) => writeln!(
                f,
                "  these names are of one file, which is written, or is standard input: {one}, {other}\n  see koo_toueg --help"
            ),
            Told::Attempt(attempt, name, reason) => {
                writeln!(f, "  {}: {name}: {reason}", attempt_word(*attempt))
            }
            Told::Line(place, hindrance) => {
                writeln!(f, "  {place}")?;
                match line_reason(&self.fault, *hindrance) {
                    "" => Ok(()),
                    reason => writeln!(f, "  {reason}"),
                }
            }
            Told::Record(place, record) => {
                writeln!(f, "  {place}")?;
                let ProgramFault::App(fault) = &self.fault else {
                    return Ok(());
                };
                write_reason(f, fault, record, place.text.part((0, record.first)))
            }
            Told::Unfit(file, [place, facts, more]) => {
                writeln!(f, "  {file}{place}\n  {facts}")?;
                if more.is_empty() {
                    return Ok(());
                }
                writeln!(f, "  {more}")
            }
            Told::Parts(unmerged) => write!(f, "{unmerged}"),
        }
    }
}

// The word for what was done with a file.
fn attempt_word(attempt: Attempt) -> &'static str {
    match attempt {
        Attempt::Open => "open",
        Attempt::Read => "read",
        Attempt::Make => "make",
        Attempt::Write => "write",
    }
}

// What was expected of the line of a text, or what stands in the way of its step; empty where there are no words for that.
fn line_reason(fault: &ProgramFault, hindrance: Option<Hindrance>) -> &'static str {
    match (fault, hindrance) {
        (ProgramFault::Scenario(fault), _) => fault.expected(),
        (ProgramFault::Steps(fault), _) => fault.expected(),
        (_, Some(Hindrance::NoCommand)) => "the process has no command left",
        (_, Some(Hindrance::PhaseNotOpen)) =>
            "the next command of the process comes after a settle, which waits until all is at rest",
        (_, Some(Hindrance::SendInInstance)) =>
            "the next command of the process is a send, and the process is in an instance",
        (_, Some(Hindrance::NoParcel)) =>
            "there is nothing that the first process could take of the second one",
        (_, None) => "",
    }
}

// How many fields a record has that is to have so many.
fn count_of(record: &ToldRecord, expected: usize) -> FieldCount {
    FieldCount {
        found: record.fields,
        expected,
    }
}

// Writes what was expected of a record that begins with this word.
fn write_reason<W: fmt::Write>(
    f: &mut fmt::Formatter<W>,
    fault: &AppFault,
    record: &ToldRecord,
    word: &[u8],
) -> fmt::Result {
    let (row, certificate) = (row_form(word), certificate_form(word));
    match fault {
        AppFault::Log(LogFault::Fields(_)) => { writeln!(f, "  {}\n  {row}", count_of(record, 4)) }
        AppFault::Log(LogFault::Word(_)) => writeln!(f, "  {row}"),
        AppFault::Log(LogFault::Number(_)) => match record.beyond {
            Some(limit) => writeln!(f, "  {limit}"),
            None => writeln!(f, "  {row}\n  {NUMBER_FORM}"),
        },
        AppFault::Log(LogFault::TooLong) => f.write_str(
            "  a log has at most 16777216 rows, and without a first record kt,2,-,- at most 1048576\n",
        ),
        AppFault::Log(LogFault::Version) => {
            f.write_str("  a first record that begins with kt is kt,2,-,-\n")
        }
        AppFault::Cert(CertTextFault::Fields(_)) => {
            writeln!(f, "  {}\n  {certificate}", count_of(record, 5))
        }
        AppFault::Cert(CertTextFault::Word(_) | CertTextFault::Place(_)) => {
            writeln!(f, "  {certificate}")
        }
        AppFault::Cert(CertTextFault::Number(_)) => writeln!(f, "  {certificate}\n  {NUMBER_FORM}"),
        AppFault::Cert(CertTextFault::TooLong) => {
            f.write_str("  there are at most 524288 records of certificates\n")
        }
        _ => Ok(()),
    }
}
