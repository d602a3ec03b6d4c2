//! The plain reader of a log, which goes by the definitions: whether it is legal, its live histories and positions, the
//! least orphan of a cut; and what is told of its rows: what is against a rule, what undid a message, what is in
//! transit.
//!
//! **What it keeps.** A `Replay` has tables of 64 processes, of each row's message and of the instances, and a list of
//! the messages that were undone while received. One relation, `Shows` of `specs/Standing`, says that such tables show
//! what is known after some rows, each part by a record of its own; `ReplayStandsFor` is `Shows` for the past of a list
//! of rows, so callers speak of rows alone.
//!
//! **How it is proved.** Each kind of row has one method in `replay`, whose clause is that tables which show a past
//! show, after it, that past with the row. The lemmas are `proofs/Steps` for sends, receives and drops, and
//! `proofs/InstanceSteps` for instances and failures.
//!
//! **Orphans.** A history keeps its receives by sender, and its sends, in rising order, with a count of sends before
//! each deed (`IsSorted` of `specs/Sorted`). So the least orphan of a cut is the least of those found pair by pair, and
//! of the messages that were undone while received, each of which is tested.
//!
//! **What is told.** A row that breaks a rule is told by the first demand of that rule that is not met, and by what is
//! against it: `specs/Demands` and `specs/Breaches` say when that is so. What is known before a row (`Before`) is the
//! plain reader's tables and the rows themselves.
//!
//! **What to change where:** lowest first: `messages.rt`, `history.rt`, `process.rt`, `tables.rt`, row by row
//! `replay.rt`; rules of messages `legality.rt`; answers `histories.rt`, `orphans.rt`. What is told: what the rules
//! demand of a row, one by one, `breach/demands.rt` (`specs/Demands`); what is against a demand `breach.rt`
//! (`specs/Breaches`), found demand by demand in `breach/before.rt` and `breach/deliveries.rt`; rows that are sought
//! `finding.rt` (`specs/Finding`); what undid a message `undoing.rt`; what is in transit `waiting.rt`; `words.rt`.
#![tactic(auto)]

pub mod breach;
pub mod finding;
mod histories;
mod history;
mod legality;
mod messages;
mod orphans;
mod process;
mod replay;
mod tables;
pub mod undoing;
pub mod waiting;
pub mod words;

pub use histories::Histories;
pub use legality::legal;
