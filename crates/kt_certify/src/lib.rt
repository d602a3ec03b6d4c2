//! The certificates of a log, made by one pass over its rows. What they are, and when they pass, laws of kt_meaning
//! say.
//!
//! **What to change where:** a list of rows `certifying.rt`, those of a run `runs.rt`, a text `streaming.rt`; row by
//! row `pass.rt`, one instance `instance.rt`; a member's chain `chains.rt`; faults of a text `fault.rt`; laws
//! `laws.rt`, and in their words one pass `specs/OnePass`, what a walk knows of links `specs/Arriving`. What
//! certificates mean, how a chain is made, and why a log has none: `Meant`, `Making` and `Fitness` of kt_meaning.
#![tactic(auto)]

mod certifying;
mod chains;
mod fault;
mod instance;
mod laws;
mod pass;
mod runs;
mod streaming;

pub use certifying::certify;
pub use fault::StreamFault;
pub use laws::{certificates_have_texts, certificates_in_one_pass, linking_messages_of_walks};
pub use runs::certificates_of_run;
pub use streaming::{certify_rows, certify_stream};
