//! The protocol as a pure machine, and a late one, with their laws.
//!
//! Nothing here runs. The machine, in `specs/`, is a means: it says each rule of the protocol once, with the number of
//! a message in place of a label, and a commit that takes effect for all members at once, at its decided row. In the
//! late machine each member does what the commit asks of it at its own closed row, as a process has to. Each late
//! state, once what is still to be done at closed rows is done, is that of the first machine after the same steps, and
//! so each log is the same. The laws are what holds of every list of steps of any number of processes.
//!
//! **What to change where:** a rule `specs/Messages`, `specs/Joining`, `specs/Replies`, `specs/Deciding`, put together
//! in `specs/Steps`; a state `specs/States`; late: a closing `specs/LateClosing`, steps `specs/LateSteps`, once all
//! have closed `specs/OnceClosed`; laws `laws.rt`, late ones `late.rt`; the invariant `proofs/`, by subject, and one
//! walk over a run `proofs/Walk`.
#![tactic(auto)]

mod late;
mod laws;

pub use late::{
    histories_of_late_runs, late_runs, lists_of_late_runs, logs_of_late_runs, worked_late_runs,
};
pub use laws::{
    counted, in_order, logs_of_runs, never_stuck, noted_labels, numbers_of_runs, refusals,
    worked_runs,
};
