//! The checker for callers in other languages: calls by the rules of C, over texts that are bytes in memory.
//!
//! A call gives what a crate below answers, in numbers and in a buffer that its caller lends. It keeps nothing, calls nobody
//! back, and leaves nothing to be given back. `include/koo_toueg.h` declares the calls for C.
//!
//! A node is bytes, too: `kt_node_step` leads from those of one state to those of the next one.
//!
//! **What to change where:** answers in numbers `answer.rt`, faults `fault.rt`, both as `specs/Numbers`; answers `judging.rt`,
//! texts `texts.rt`, how stored texts are read `reading.rt`, all three as `specs/Stored`; one log of many `merging.rt`, as
//! `specs/Merged`; buffers `buffers.rt`, as `specs/Buffers`; nodes `node.rt`, their numbers in the files of
//! `node/`, as `specs/NodeNumbers`, and what their bytes say `specs/Nodes`; the version and sizes `about.rt`.
#![tactic(auto)]

mod about;
mod answer;
mod buffers;
mod fault;
mod judging;
mod merging;
mod node;
mod reading;
#[cfg(test)]
mod tests;
mod texts;
