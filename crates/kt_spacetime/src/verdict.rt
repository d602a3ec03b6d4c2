//! What the checker answers.

ghost use Rattle.std.specs.Prelude.{Some, codes};
ghost use Rattle.std.specs.Fmt.{DisplaysOnOk};
ghost use Rattle.kt_spacetime.specs.Verdicts.{numbered};

use crate::rules::Rule;
use kt_base::{InstNo, RowNo};
use std::fmt;

/// Why the checker says no.
#[derive(Clone, Copy)]
pub enum Why {
    /// The log is not legal: the row breaks this rule.
    BadLog(Rule),
    /// The instance is not decided in the log, was certified before, or was another than the certificate says.
    Unknown,
    /// An aborted instance without an `unwilling` row, or a committed one with one.
    Cause,
    /// The list is not the instance's members in the order in which they joined.
    Members,
    /// A member's list is no chain for it.
    Chain,
    /// The cut has an orphan.
    Orphan,
    /// A decided instance has no certificate.
    Missing,
}

/// What the checker answers of a log and a list of certificates.
#[derive(Clone, Copy)]
pub enum Verdict {
    Yes,
    /// The first fault, with the instance and the row where there is one.
    No {
        inst: Option<InstNo>,
        row: Option<RowNo>,
        why: Why,
    },
}

impl fmt::Display for Why {
    ghost use Rattle.std.specs.Prelude.{Some};
    ghost use Rattle.kt_spacetime.specs.Verdicts.{why_words};

    ghost output = { λ w. Some (why_words w) };

    fn fmt<W: fmt::Write>(&self, f: &mut fmt::Formatter<W>) -> fmt::Result {
        match self {
            Why::BadLog(rule) => write!(f, "BadLog {}", rule.number()),
            Why::Unknown => write!(f, "Unknown"),
            Why::Cause => write!(f, "Cause"),
            Why::Members => write!(f, "Members"),
            Why::Chain => write!(f, "Chain"),
            Why::Orphan => write!(f, "Orphan"),
            Why::Missing => write!(f, "Missing"),
        }
    }
}

impl fmt::Display for Verdict {
    ghost use Rattle.std.specs.Prelude.{Some};
    ghost use Rattle.kt_spacetime.specs.Verdicts.{verdict_words};

    ghost output = { λ v. Some (verdict_words v) };

    fn fmt<W: fmt::Write>(&self, f: &mut fmt::Formatter<W>) -> fmt::Result {
        match self {
            Verdict::Yes => write!(f, "yes"),
            Verdict::No { inst, row, why } => {
                write!(f, "no")?;
                write_instance(f, *inst)?;
                write_row(f, *row)?;
                write!(f, " {why}")
            }
        }
    }
}

// The instance, where there is one.
fn write_instance<W: fmt::Write>(f: &mut fmt::Formatter<W>, inst: Option<InstNo>) -> fmt::Result
    ensures { DisplaysOnOk W.write_str_gives f.old result (Some (numbered (codes " instance ") inst)) f.new }
{
    let Some(inst) = inst else {
        return Ok(());
    };
    write!(f, " instance {inst}")
}

// The row, where there is one.
fn write_row<W: fmt::Write>(f: &mut fmt::Formatter<W>, row: Option<RowNo>) -> fmt::Result
    ensures { DisplaysOnOk W.write_str_gives f.old result (Some (numbered (codes " row ") row)) f.new }
{
    let Some(row) = row else {
        return Ok(());
    };
    write!(f, " row {row}")
}
