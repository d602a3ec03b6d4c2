//! One process's manager as a value that any program can hold: by names of its own, with no world around it; and the law
//! that the rows of such nodes, linked by ordered channels, are the log of a run.
//!
//! A manager opens nothing and waits for nobody. What comes in is a command or a parcel; what goes out are rows, acts and
//! parcels. How parcels travel, and where the rows and the object are kept, is the caller's. A node is a manager whose
//! parcels have numbers, by which it tests that they come once and in order, and whose steps have clocks. That a parcel of a
//! process with a number is the one that this process put is its caller's to see to.
//!
//! **What to change where:** how a manager guards itself `manager.rt`; messages and failures `manager/messages.rt`; beginning,
//! joining and closing `manager/instances.rt`; any parcel `manager/parcels.rt`; what a manager does that is not guarded
//! kt_manager; what a step needs of the object `manager/looks.rt`, `inputs.rt`, `specs/Looks`; when a call is refused
//! `faults.rt`, `specs/Faults`; numbers and clocks `node.rt`, `specs/Links`; which parcels are met `meeting.rt`,
//! `specs/Meetings`; what its permanent checkpoint has `reach.rt`, `specs/Reaches`; nodes with links in one program
//! `cluster.rt`, one step of theirs `cluster/turns.rt`, which net they are `specs/Clusters`; laws `laws.rt`, of histories
//! beside a log `histories.rt`, `specs/LoggedHistories`. What a node is by definition: what comes to it `specs/Inputs`; what
//! it does then `specs/NodeSteps`, by the rules of kt_manager; what a step needs of its object `specs/NodeLooks`; what is in
//! its permanent checkpoint `specs/NodeHistories`; nets `specs/Nets`, their first labels `specs/FirstLabels`, their parts
//! `specs/NetParts`; rows with clocks `specs/Clocks`.
#![tactic(auto)]

mod cluster;
mod faults;
mod histories;
mod inputs;
mod laws;
mod manager;
mod meeting;
mod node;
mod reach;
mod worked;

pub use cluster::{Cluster, ClusterFault, ClusterStep};
pub use faults::ManagerFault;
pub use histories::histories_of_nets;
pub use inputs::Input;
pub use kt_manager::{Effects, NodeParcel, Parcels};
pub use laws::{
    acts_of_nets, calls_of_nodes, forged_parcels, logs_of_nets, looks_of_nodes,
    meetings_of_parcels, merges_of_nets, nets_are_runs, nodes_of_numbered_nets,
    numbered_nets_are_nets, order_of_nets, own_parts, permanent_checkpoints,
};
pub use manager::{Manager, ManagerParts};
pub use node::{Envelope, Node, NodeFault, Output, Taken};
pub use reach::{Reach, Reaches};
pub use worked::worked_nets;
