//! The log of a run, and what is said of one: its types, with how each is written.
//!
//! **What to change where:** rows `event.rt`; the list `log.rt`; sends and receives of a history `deeds.rt`; rules by
//! number `rules.rt`; certificates `certificate.rt`; answers `verdict.rt`; why a log has no certificates `unfit.rt`;
//! rows by names `names.rt`, `named_rows.rt`.
#![tactic(auto)]

mod certificate;
mod deeds;
mod event;
mod log;
mod named_rows;
mod names;
mod rules;
mod unfit;
mod verdict;

pub use certificate::{Certificate, Chain, Members};
pub use deeds::Deed;
pub use event::Event;
pub use log::SpaceTime;
pub use named_rows::{ClockedRow, NamedCause, NamedEvent, NamedRow};
pub use names::{Count, InstName};
pub use rules::Rule;
pub use unfit::{CertFault, Unfit};
pub use verdict::{Verdict, Why};
