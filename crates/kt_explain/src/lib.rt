//! A log judged by certificates that are named, or else by those that it means, and what is told of the answer: facts
//! of the log and its certificates, each named exactly.
//!
//! A fact is a value, and `specs/` says when it is so, by the definitions that the answer itself cites. Its words are a
//! `Display` alone, and the gate's programs print each. What is told of rows of the log is found by kt_histories.
//!
//! **What to change where:** what is answered `answer.rt`; by what, and when each answer comes `judging.rt`
//! (`specs/Judging`); why a log means no certificates `unfit.rt`. The values that are told, and which of them,
//! `explanation.rt`, and when each is so `specs/Told`; their lines `lines.rt`; on which lines of a text its records
//! begin `numbered.rt`; a row that breaks a rule `bad_row.rt`; certificates beside those that the log means
//! `compared.rt` (`specs/Compared`); the orphan `orphans.rt`; after a yes `judged.rt` (`specs/Judged`).
#![tactic(auto)]

mod answer;
mod bad_row;
mod compared;
mod explanation;
mod judged;
mod judging;
mod lines;
mod numbered;
mod orphans;
mod unfit;

pub use answer::Answer;
pub use bad_row::BadRow;
pub use compared::{Compared, Differs};
pub use explanation::{Explanation, explain, explain_unfit};
pub use judged::{Decided, Judged, OpenInstance};
pub use judging::{Judgement, judge};
pub use lines::{Lines, Told};
pub use numbered::{Numbered, RecordLines};
pub use orphans::Orphan;
pub use unfit::{UnfitTold, tell_unfit, unfit_of};
