//! Each process of a plan in a thread of its own, over one world under a lock.
//!
//! **What to change where:** runs in threads, and `live` `outcome.rt`, runs that are kept `recorded.rt`; the world with
//! its steps `state.rt`; what is noted of them under the lock `minutes.rt`, `lists.rt`; the lock, and who is woken
//! `board.rt`; one thread `worker.rt`; threads by number `spawning.rt`; what steps ask of objects, and whether all fits
//! at the end `errands.rt`, `plans.rt`; `faults.rt`; laws of crates below, for proofs, `laws.rt`; what is proved of it
//! `specs/Histories`, `specs/Moves`, `specs/Errands`.
//!
//! What steps ask of their processes' objects stands in one history that only grows, in proofs alone: what threads
//! share is a word, its length, and each side counts what it knows of it. What is asked `asked.rt`; the history and
//! its fronts `book.rt`; who notes it under a lock, and each thread that did its own `sides.rt`; what these mean
//! `specs/Books`.
#![tactic(auto)]

mod asked;
mod board;
mod book;
mod errands;
mod faults;
mod laws;
mod lists;
mod minutes;
mod outcome;
mod plans;
mod recorded;
mod sides;
mod spawning;
mod state;
mod worker;

pub use asked::{Entry, Errand};
pub use book::{Naming, Opened};
pub use faults::LiveFault;
pub use outcome::live;
pub use recorded::kept_live_run_of;
pub use sides::{Done, Receipt, Recorder};
pub use state::{Made, State};
