//! Recoverable objects, the slots that they hold, the saved states of one process, and what each process holds of
//! these.
//!
//! **What to change where:** the interface `objects.rt`, its faults `faults.rt`; kinds `sums.rt`, `lasts.rt`,
//! `tails.rt`; saved bytes `numbers.rt`; slots `slots.rt`; saved states `depots.rt`; what a process holds (object,
//! spares, saved states), and how the acts that a step tells are done on it `held.rt`, its faults `held_faults.rt`; the
//! objects of a run `casts.rt`; laws `laws.rt`.
#![tactic(auto)]

mod casts;
mod depots;
mod faults;
mod held;
mod held_faults;
mod lasts;
mod laws;
mod numbers;
mod objects;
mod slots;
mod sums;
mod tails;

pub use casts::{Cast, begin_all, failures};
pub use depots::Depot;
pub use faults::{RestoreFault, SaveFault};
pub use held::{Answer, Held};
pub use held_faults::{ActFault, CastFault};
pub use lasts::Last;
pub use laws::{saved_once, values_stay};
pub use objects::{Object, Recoverable};
pub use slots::{SlotBook, SlotGuard};
pub use sums::Sum;
pub use tails::Tail;
