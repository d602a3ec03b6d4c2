//! Label tables: what one process keeps of the messages that it sent and received.
//!
//! **What to change where:** calls `tables.rt`; one table `peers.rt`.
#![tactic(auto)]

mod lists;
mod peers;
mod tables;

pub use lists::TableLists;
pub use tables::{Tables, calls_that_follow, labels_that_follow, parts_of_a_list};
