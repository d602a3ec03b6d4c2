//! One process's manager: the protocol's rules, once, by names that its caller gives.
//!
//! A manager opens nothing, waits for nobody and guards itself against nobody. What comes in is a command or a parcel that
//! is due; what goes out are rows, acts and parcels. Who may say what, and how parcels travel, is the caller's.
//!
//! **What to change where:** what a manager holds `manager.rt`; messages and failures `manager/messages.rt`; beginning,
//! joining and closing `manager/instances.rt`; whether its part in an instance is its own `manager/own_part.rt`,
//! `specs/OwnParts`; what a step puts out `effects.rt`, `specs/Told`, `specs/Effects`; what it keeps and holds of messages
//! `inbox.rt`, of one sender `received.rt`. What a manager is by definition: what it has `specs/Nodes`; its rules
//! `specs/NodeMessages`, `specs/NodeJoining`, `specs/NodeClosing`, `specs/NodeSteps`; parcels `parcels.rt`.
#![tactic(auto)]

mod effects;
mod inbox;
mod manager;
mod parcels;
mod received;

pub use effects::{Effects, Parcels};
pub use inbox::Inbox;
pub use manager::{Ask, Manager, ManagerParts, is_one};
pub use parcels::NodeParcel;
pub use received::Item;
