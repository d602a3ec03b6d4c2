//! One log of many processes' logs, in one pass: rows sorted by clock, then by process, with numbers for names. And the
//! text of a part, which is the log that one process writes by itself.
//!
//! **What to change where:** a part: how a row is spelled `part_rows.rt`, how a name is `names.rt`; `reading.rt`,
//! `writing.rt`; faults `part_fault.rt`; laws `part_laws.rt`. The merge: the parts `parts.rt`; which row comes next
//! `heads.rt`; numbers for names `numbers.rt`, `tables.rt`; how a row is written `rows.rt`; the pass `merging.rt`;
//! faults `fault.rt`; laws `laws.rt`. Which record is told of `text.rt`; in which words `told.rt`; where
//! the row stands that comes too late `giver.rt`.
#![tactic(auto)]

mod fault;
mod giver;
mod heads;
mod laws;
mod merging;
mod names;
mod numbers;
mod part_fault;
mod part_laws;
mod part_rows;
mod parts;
mod reading;
mod rows;
mod tables;
mod text;
mod told;
mod writing;

pub use fault::{MergeFault, RowFault};
pub use giver::Giver;
pub use laws::{causal_parts_merge, names_put_back, one_merge};
pub use merging::merge_parts;
pub use part_fault::PartFault;
pub use part_laws::{part_faults_are_real, part_rows_have_one_spelling, parts_are_read_back};
pub use parts::Parts;
pub use reading::{PartReader, read_part};
pub use text::{Unmerged, merge_inputs};
pub use writing::write_part;
