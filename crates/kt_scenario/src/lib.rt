//! The two texts that go into a run, scenarios and steps; steps are written too.
//!
//! **What to change where:** `words.rt`; a scenario `scenario.rt`, `draft.rt`; `steps.rt`; `writing.rt`; `fault.rt`;
//! `laws.rt`.
#![tactic(auto)]

mod draft;
mod fault;
mod laws;
mod scenario;
mod steps;
mod words;
mod writing;

pub use fault::{ScenarioFault, StepsFault};
pub use laws::{scenarios_mean_one_plan, steps_are_read_back, texts_mean_one_list};
pub use scenario::parse;
pub use steps::parse_steps;
pub use writing::{push_step_words, write_steps};
