//! A serial run of a plan over the objects of its processes: given steps, then default ones, or steps that are drawn, until
//! all is at rest.
//!
//! **What to change where:** a run whose processes are told `runs.rt`; one of which the log is kept, or its steps,
//! `recorded.rt`; step by step `run_state.rt`; in which order, and what is drawn `orders.rt`; what processes were told
//! `journals.rt`; `faults.rt`; laws of runs and of a world's steps `laws.rt`; which runs these are `specs/Runs`, in which
//! order `specs/Orders`, what objects hold `specs/Objects`.
#![tactic(auto)]

mod faults;
mod journals;
mod laws;
mod orders;
mod recorded;
mod run_state;
mod runs;

pub use faults::RunFault;
pub use laws::{even_draws, one_run, steps_of_worlds};
pub use orders::Order;
pub use recorded::{Keep, RecordedRun, Stop, kept_run_of};
pub use runs::{Outcome, run};
