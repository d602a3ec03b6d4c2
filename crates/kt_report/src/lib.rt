//! The report of a run: what became of its instances, its commands, its objects and its messages.
//!
//! **What to change where:** the whole `writing.rt`; row by row `replay.rt`, `closings.rt`; lines `instances.rt`,
//! `refusals.rt`, `objects.rt`, `losses.rt`; the text of a legal log `specs/Exact`.
#![tactic(auto)]

mod closings;
mod instances;
mod losses;
mod objects;
mod offers;
mod refusals;
mod replay;
mod told;
mod unwilling;
mod words;
mod writing;

pub use writing::{report, report_of_run};
