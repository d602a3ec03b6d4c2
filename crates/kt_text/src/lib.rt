//! What the texts of logs and certificates share: fields, records that are read, records that are written; and texts of
//! others as they are shown to a person.
//!
//! **What to change where:** fields `fields.rt`; the next record `records.rt`, and where a record has too many fields
//! `capped.rt`; lines `lines.rt`; writing, and a number gathered, `pieces.rt`; faults `fault.rt`. Which bytes are shown,
//! at most so many, and how, `shown.rt`; what is read by a name `input.rt`; at which line a record stands `places.rt`;
//! what records are to be `forms.rt`.
#![tactic(auto)]

mod capped;
mod fault;
pub mod fields;
mod forms;
mod input;
pub mod lines;
pub mod pieces;
mod places;
pub mod records;
mod shown;

pub use capped::Capped;
pub use fault::{ReadFault, WriteFault};
pub use forms::{FieldCount, Limit, certificate_form, field_at, limit_of, part_form, row_form};
pub use input::Input;
pub use places::Place;
pub use shown::Shown;
