//! The steps of a run, what they are given and what they tell.

use kt_base::{ProcNo, RowNo};
use kt_spacetime::Event;

/// One step of one process.
#[derive(Clone, Copy, Debug, PartialEq, Eq)]
pub enum Step {
    /// This process does its next command.
    Do(ProcNo),
    /// The process `at` takes the next parcel from another one.
    Take { at: ProcNo, from: ProcNo },
}

/// What a step is given by the process's object.
#[derive(Clone, Copy)]
pub struct Give {
    /// Whether the object was saved; it counts only where the step needs a save.
    pub able: bool,
    /// The body that the object offers; it counts only where the step needs a body.
    pub body: i64,
}

/// What a step needs of the process's object.
#[derive(Clone, Copy)]
pub enum Look {
    /// The step is not enabled.
    Idle,
    /// A checkpoint would be taken, if the object can be saved.
    NeedsSave,
    /// A message would be sent, whose body the object offers.
    NeedsBody,
    /// The step needs nothing.
    Plain,
}

/// What a process is to do to its object and its saved states after a step.
#[derive(Clone, Copy)]
pub enum Act {
    /// Nothing.
    Nothing,
    /// The object takes in a message's body.
    Apply { from: ProcNo, body: i64 },
    /// The state that was saved is kept as the tentative one.
    Keep,
    /// The tentative state becomes the permanent one.
    Promote,
    /// The tentative state is dropped.
    Discard,
    /// The object is restored from the permanent state, from a spare object where it is down.
    Restore,
    /// The object is dropped.
    Drop,
}

/// What a step did: its rows with their numbers, in order, and what is to be done to the object, in order.
#[derive(Clone, Copy)]
pub struct Told {
    pub step: Step,
    pub rows: [Option<(RowNo, Event)>; 4],
    pub acts: [Act; 2],
}
