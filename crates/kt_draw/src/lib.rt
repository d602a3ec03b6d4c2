//! Pictures of stored logs: which rows are drawn, up to the first one that breaks a rule.
//!
//! **What to change where:** rows of a log, with certificates too, `drawing.rt`; which rows, and why none, `span.rt`; as
//! definitions `specs/Drawn`, `specs/Followed`.
#![tactic(auto)]

mod drawing;
mod span;

pub use drawing::{draw_certified, draw_rows, draw_stream};
pub use span::{DrawFault, PictureFault, Span};
