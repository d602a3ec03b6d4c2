//! Runs of plans, and what is promised of each: one list of laws over what code has of a run.
//!
//! Nothing here runs. How far a run has come is its progress: what is seen of the protocol's state, how many of its
//! commands each process has done, and the open phase; what its instances have put into channels is told beside it.
//! Which steps may be made, what each makes, and which step is the default are said of that alone; the laws say what is
//! so of everything that a run reaches. The machine's state behind a run, of which many of them are proved first, is
//! scaffolding in `proofs/`.
//!
//! **What to change where:** phases `specs/Plans`; how far a run has come `specs/Progress`; steps `specs/Steps`, looks
//! `specs/Looks`, the default `specs/Defaults`, runs `specs/Runs`; what stands in a step's way `hindrances.rt`,
//! `specs/Hindrances`; laws `laws.rt`, those of certificates `certificates.rt`. What is promised of a log, that it
//! follows its plan, and what its certificates need: `Promised`, `Follows` and `DecidedWell` of kt_meaning.
#![tactic(auto)]

mod certificates;
mod hindrances;
mod laws;

pub use certificates::{certificates_of_protocol_runs, certificates_of_runs, worked_certificates};
pub use hindrances::Hindrance;
pub use laws::{
    acts_of_runs, hindrances_of_steps, logs_follow_plans, logs_of_runs, messages_of_runs,
    never_stuck, objects_of_runs, phases_of_runs, places_of_commands, processes_of_runs,
    progress_after_steps, progress_of_runs, protocol_of_runs, rows_of_runs, runs_end,
    runs_that_go_on, steps_of_runs, tallies_of_runs, told_of_runs, values_of_runs, worked_follows,
    worked_hindrances, worked_plans, worked_progress,
};
