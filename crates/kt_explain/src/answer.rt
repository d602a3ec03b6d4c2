//! The answer to a log.

ghost use Rattle.std.specs.Prelude.{◌≡◌};
ghost use Rattle.kt_explain.specs.Answers.{passes, row_named};

use kt_base::RowNo;
use kt_spacetime::{Unfit, Verdict};
use std::fmt;

/// What is answered to a log.
#[derive(Clone, Copy)]
pub enum Answer {
    /// What the checker says.
    Checked(Verdict),
    /// Its certificates were not named, and it means none.
    Unlinked(Unfit),
    /// All passes, but the log leaves something open, where that is a no.
    Open,
}

impl Answer {
    /// Whether it is a yes.
    pub fn passes(&self) -> bool
        ensures { result ≡ passes self.now }
    {
        matches!(self, Answer::Checked(Verdict::Yes))
    }

    /// The row that it names.
    pub fn row(&self) -> Option<RowNo>
        ensures { result ≡ row_named self.now }
    {
        match self {
            Answer::Checked(Verdict::No { row, .. }) => *row,
            Answer::Unlinked(Unfit::BadLog(row, _) | Unfit::NoChain(_, row, _)) => Some(*row),
            Answer::Checked(Verdict::Yes) | Answer::Open => None,
        }
    }
}

impl fmt::Display for Answer {
    ghost use Rattle.std.specs.Prelude.{Some};
    ghost use Rattle.kt_explain.specs.Answers.{answer_words};

    ghost output = { λ answer. Some (answer_words answer) };

    fn fmt<W: fmt::Write>(&self, f: &mut fmt::Formatter<W>) -> fmt::Result {
        match self {
            Answer::Checked(verdict) => write!(f, "{verdict}"),
            Answer::Unlinked(why) => write!(f, "{why}"),
            Answer::Open => write!(f, "no open"),
        }
    }
}
