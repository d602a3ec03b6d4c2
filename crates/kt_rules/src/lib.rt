//! The nine rules as code, and what readers of a log share: instances, cuts, choices between messages.
//!
//! **What to change where:** the rules `rule_context.rt`; instances `instances.rt`; a cut `cut.rt`; choices between
//! messages `orphans.rt`; where the rows of a message stand `traces.rt`; what a reader tells of a log that is not legal
//! `legality.rt`. What the rules mean: `Legal` of kt_meaning.
#![tactic(auto)]

mod cut;
pub mod instances;
mod legality;
pub mod orphans;
pub mod rule_context;
mod traces;

pub use cut::Cut;
pub use legality::{LegalFault, is_after};
pub use traces::Trace;
