//! The text of a log: read, row by row or whole, and written.
//!
//! **What to change where:** how a row is spelled `rows.rt`; formats and faults `reading.rt`, `fault.rt`;
//! `writing.rt`; `laws.rt`.
#![tactic(auto)]

mod fault;
mod laws;
mod reading;
mod rows;
mod writing;

pub use fault::LogFault;
pub use laws::{faults_are_real, one_spelling};
pub use reading::{Record, RowReader, read_csv, read_rows};
pub use writing::{push_fields, write_csv};
