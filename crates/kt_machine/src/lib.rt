//! What code keeps of the protocol's state, what the log makes due to each process, and laws of both.
//!
//! Nothing here runs. A state of kt_protocol's late machine has messages by their numbers and, for each process, what
//! it knows of them; code has labels instead, which each sender counts by itself, and tables of labels. What is seen of
//! a state is what code keeps of it: labels in parcels, the calls that were made on each process's tables, and a part
//! in an instance with the count of replies that it awaits. It makes transitions of its own, which are those of the
//! machine.
//!
//! What is due to a process is read off the log: the values that its own history and the parts of it that are saved
//! lead to. The acts of a step are read off the state before it, or off what code keeps of that state. Whoever does the
//! acts of a run, in order, has what is due at its end; and each act can be done when its turn comes.
//!
//! **What to change where:** what is seen `specs/Seen`, by labels `specs/Labelling`; transitions `specs/Transition`,
//! made of `specs/SeenMessages`, `specs/SeenJoining`, `specs/SeenReplies`, `specs/SeenClosing`; laws of them `laws.rt`.
//! What is due `specs/Values`; what a process did itself `specs/Done`; acts `specs/Acts`, `specs/SeenActs`; real
//! objects `specs/Things`; laws of them `due.rt`.
#![tactic(auto)]

mod due;
mod laws;

pub use due::{acts_as_seen, acts_of_runs, things_of_runs, values_of_runs, worked_values};
pub use laws::{
    answers_of_tables, calls_of_runs, labels_of_logs, messages_of_runs, parts_of_runs, seen_runs,
    steps_in_one_piece, worked_runs,
};
