//! Plans: what the processes of a run are called, hold and are to do; and the plain types of a run's steps.
//!
//! **What to change where:** limits `plan.rt`; names `names.rt`; commands `commands.rt`; steps `steps.rt`.
#![tactic(auto)]

mod commands;
mod names;
mod plan;
mod steps;

pub use commands::{Command, Job};
pub use names::{Names, is_name, name_in};
pub use plan::Plan;
pub use steps::{Act, Give, Look, Step, Told};
