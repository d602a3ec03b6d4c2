//! The program but for its handles: the command line, runs played, stored runs judged, what is printed, the exit
//! statuses.
//!
//! **What to change where:** the command line `ask.rt`, `line.rt`, `words.rt`; names of files that clash `names.rt`,
//! files that are the same `files.rt`, outputs `outputs.rt`, files that appear whole `whole.rt`; closed streams `streams.rt`; a scenario run from its
//! files `running.rt`, over new objects `runs.rt` (`specs/Made`), over given ones `played.rt`; its objects
//! `casts.rt`, its texts `inputs.rt`, that it lost no message `laws.rt`; a stored run `checked.rt`, a log alone, or
//! with what is told of the answer, `judging.rt`; a stored log certified `certified.rt`, or drawn
//! `drawn.rt`; parts merged `merged.rt`; faults `fault.rt`; statuses `ending.rt`; what a person is told of a fault
//! `told.rt`, in words `hints.rt`; the whole `program.rt`.
#![tactic(auto)]

pub mod ask;
pub mod casts;
pub mod certified;
pub mod checked;
pub mod drawn;
pub mod ending;
pub mod fault;
mod files;
mod hints;
pub mod inputs;
mod judging;
pub mod laws;
pub mod line;
mod merged;
pub mod names;
pub mod outputs;
pub mod played;
pub mod program;
mod running;
mod runs;
mod sources;
mod stored;
pub mod streams;
pub mod told;
mod whole;
pub mod words;

pub use ask::{AskFault, asked};
pub use casts::cast_of;
pub use certified::certify_bytes;
pub use checked::check_bytes;
pub use ending::{Done, end, write_fault};
pub use fault::{AppFailure, AppFault, Failure, ProgramFault};
pub use inputs::{read_scenario, read_steps};
pub use laws::no_message_is_lost;
pub use line::{Asked, By, Drawing, Judging, Merging, Run};
pub use names::{clash, is_device};
pub use outputs::Output;
pub use played::{live_plan, play_plan};
pub use program::{carry_out, run, run_words};
pub use streams::{StandIns, stand_ins};
pub use told::Told;
pub use words::Words;
