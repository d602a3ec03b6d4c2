//! The world: a system of processes whose commands are those of a plan, and its steps.
//!
//! **What to change where:** what it holds `world.rt`; commands done `agenda.rt`; what is enabled `world/looks.rt`,
//! how much and what at a place `world/choices.rt`; a step `world/steps.rt`, a command `world/commands.rt`; what a
//! world has to do with a run `laws.rt`, `specs/Shown`.
#![tactic(auto)]

mod agenda;
mod faults;
mod laws;
mod priority;
mod ready;
mod world;

pub use faults::StepFault;
pub use laws::runs_of_worlds;
pub use priority::Priority;
pub use ready::Ready;
pub use world::World;
