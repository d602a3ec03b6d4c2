//! Nets whose processes are killed and come back with what their disks have: what stands of them is what a net has of which
//! nobody was killed. There are laws alone, and nothing to run.
//!
//! **What to read:** which steps have to be written `specs/Writing`; what a process has, in memory and on its disk, and what
//! happens `specs/KilledNets`; the one thing that a start owes `specs/Starts`; how it is reached `specs/Fillers`; what
//! objects have `specs/Objects`; the words of the laws `specs/Standing`; worked nets `specs/WorkedKills`.
//!
//! **How it is proved:** the invariant (`proofs/Invariant`) speaks of all choices at once: each process as it is, or as if it
//! were killed now and came back. So a kill and a start lessen the choices, and no step is moved past another one. What was
//! sent and not written is plain sends from the disk (`proofs/Lost`). By clock the deeds of all (`proofs/Deeds`) are a net's
//! steps, since what is sent again has a clock no later than what was taken (`proofs/Later`, `proofs/InOrder`).
#![tactic(auto)]

mod laws;
mod worked;

pub use laws::{
    fillers_are_right, killed_nets_are_runs, nothing_acknowledged_is_lost, objects_are_due,
    outputs_are_final,
};
pub use worked::worked_kills;
