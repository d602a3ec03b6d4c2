//! A checksum of bytes by which a change is seen: CRC-32C.
//!
//! **What to change where:** the definition `specs/Checksums`; the sum `sums.rt`, by the table `table.rt`; bytes with
//! their checksum behind them `seals.rt`; laws `laws.rt`.
#![tactic(auto)]

mod laws;
mod seals;
mod sums;
mod table;

pub use laws::{finds_changes, worked_checksums};
pub use seals::unsealed;
pub use sums::checksum;
