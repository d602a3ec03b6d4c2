//! A run as a picture: the space-time diagram of some rows of a log, as one SVG document.
//!
//! **What to change where:** row by row beside a walk, and the whole, `diagram.rt`, as definitions `specs/DiagramOf`;
//! messages of the window and what becomes of them `entry.rt`, as definitions `specs/Followed`, `specs/Fates`; lanes, and
//! what each row shows, `window.rt`, as definitions `specs/KnownAtRow`, `specs/Window`; which marks show a row, and whose
//! chain has a message, `rows.rt`, as definitions `specs/Marks`; what words say `words.rt`, as definitions `specs/Texts`,
//! `specs/Evidence`; how marks look and where they stand `looks.rt`, as definitions `specs/Looks`; layers, and texts of
//! others, `layers.rt`; the legend `legend.rt`.
#![tactic(auto)]

mod diagram;
mod entry;
mod laws;
mod layers;
mod legend;
mod looks;
mod rows;
mod window;
mod words;

pub use diagram::{Diagram, Sheet};
pub use laws::{
    arrows_look_as_they_end, arrows_tell_messages, cuts_are_permanent, each_row_is_shown,
    escaped_has_no_mark, joinings_tell_decisions, legend_tells_marks, undone_is_not_live,
    unreceived_is_not_live, words_stand_apart,
};
pub use rows::Evidence;
pub use window::BrokenRow;
pub use words::caption;
