//! Steps that can be made, with what was looked up for them.

use kt_plan::{Look, Step};

/// A step that can be made, what it needs of its process's object, and the place of that process's next command among all
/// commands.
#[derive(Clone, Copy)]
pub struct Ready {
    pub step: Step,
    pub look: Look,
    pub place: usize,
}
