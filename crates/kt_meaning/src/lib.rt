//! What one has to believe of a log, with no code: definitions, their values on worked logs, and the laws between them.
//!
//! **In reading order:** what is known after some rows `specs/Past`; that a history has a deed, and the nine rules,
//! `Legal`; cuts and orphans `Cuts`; least sets `Least`; what a decision takes `Decided`; that a log follows its plan
//! `Follows`; all that is promised of a log `Promised`. Then members and chains `Chains`; who was unwilling
//! `Unwilling`; when a certificate passes `Passing`, which answer of a checker is right `Answers`, what a yes means
//! `Soundness`. Which certificates a log means `Linking`, `Certificates`, `Making`, `Meant`, `Decisions`; why it has
//! none `Fitness`; when they pass `Just`, `Throughout`, `DecidedWell`. Rows by names `Names`.
//!
//! **What to change where:** a definition in its file of `specs/`, and its values in `worked.rt` (`specs/WorkedRows`),
//! by names `worked_by_name.rt` (`specs/WorkedNames`); laws of logs `laws.rt`, in words of `specs/Messages` and
//! `specs/InCheckpoint`; of the checker's answer `answers.rt`; of certificates `certificates.rt`, and of logs of which
//! all is promised `promised.rt`; of names `names.rt`.
#![tactic(auto)]

mod answers;
mod certificates;
mod laws;
mod names;
mod promised;
mod worked;
mod worked_by_name;

pub use answers::one_answer;
pub use certificates::{
    certificates_of_fit_logs, certificates_of_legal_logs, certificates_of_logs,
};
pub use laws::{
    consistent_cuts, least_checkpoint_sets, least_rollback_sets, legal_logs, members_of_legal_logs,
    one_more_row, places_of_legal_logs, positions_of_legal_logs,
};
pub use names::names_and_numbers;
pub use promised::{certificates_of_promised_logs, certificates_of_well_decided_logs};
pub use worked::worked_rows;
pub use worked_by_name::worked_names;
