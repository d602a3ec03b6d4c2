//! The checker of logs and certificates, which trusts nobody.
//!
//! **One judge.** `check` goes over a list of rows, `check_stream` over the rows of a text; both feed a `Judge` row by
//! row. It tells a row that breaks a rule (its walk), gathers what the rows say of each instance (`Instances`), and
//! just before a decided row tests the first certificate of that instance: its cause, members, chains and cut. What it
//! finds waits with the instance; once all rows were seen the certificates are gone through in the list's order
//! (`verdict`). A second certificate of an instance is unknown, whatever it says.
//!
//! **The cut of a certificate** (`leaves_consistent`). While each committed decision so far was found to leave a
//! consistent cut (`is_consistent` of a judge), the permanent cut and the present one are consistent, by the law
//! `consistent_cuts` of kt_meaning. The cut of a checkpoint differs from the permanent one, and that of a rollback from
//! the present one, in some members alone (`changed_in`); so an orphan has one of these as receiver or as sender, and
//! the walk looks at their pairs alone. Once a decision was committed whose first certificate lacks, has another kind
//! or was found wrong, its cut is not known to be consistent: from then on all pairs that have messages are looked at,
//! so that what is said of each later certificate stays exact.
//!
//! **The chains** (`has_chains`). A walk finds a message by both its ends, so where a message of a chain leads is found
//! by trying all processes (`next_in_chain`). Chains of members mostly begin alike: of the chain followed last up to 64
//! messages are kept with the processes that they lead to (`Path`), and of one that begins with the same messages only
//! those after them are looked for (`follow`).
//!
//! **How it is proved.** `Passing` of kt_meaning says when a certificate passes, `Answers` there which answer is right:
//! both speak of the rows and the certificates alone, never of a walk or of a loop, so another way to read a log only
//! has to give `IsCheckerAnswer`. `JudgeOf` (`specs/Judged`) says what a judge knows after some rows, `Gathered`
//! (`specs/Gathered`) what instances were found to have. Exact: row by row `proofs/Judging`, `Gathering`, `FirstPlaces`
//! and `RowByRow`; the cut of an undecided instance `Inside`; chains `Chaining`, `Links`, `Following`; the list of
//! certificates `Marking`, `Answering`; what stays of an instance after its decided row `Deciding` of kt_meaning.
//! Sound: `proofs/Sound`, and `Sound` of kt_meaning, go from `IsPassed` to leastness, by the laws of kt_meaning.
//!
//! **What to change where:** the order `checking.rt`; chains and cuts `chains.rt`, `path.rt`; one row `judge.rt`; a
//! stored log `streaming.rt`; what it needs of instances `decisions.rt`, `firsts.rt`. In kt_meaning: the order as a
//! relation `specs/Answers`, what a yes means `specs/Soundness`; the line is `Verdict` of kt_spacetime.
#![tactic(auto)]

mod chains;
mod checking;
mod decisions;
mod firsts;
mod judge;
mod path;
mod streaming;

pub use checking::check;
pub use streaming::{check_rows, check_stream};
