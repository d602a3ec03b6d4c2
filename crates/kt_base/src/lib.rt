//! Numbers, sets of processes and labels, which every layer speaks of.
//!
//! **What to change where:** `numbers.rt`, `sets.rt`, `counters.rt`, `words.rt`.
#![tactic(auto)]

mod counters;
mod faults;
mod numbers;
mod sets;
mod words;

pub use counters::Labels;
pub use faults::Memory;
pub use numbers::{InstNo, Label, MsgNo, ProcNo, RowNo};
pub use sets::{ProcSet, members_in_range, same_members};
pub use words::{Cause, Kind, Standing, Verb};
