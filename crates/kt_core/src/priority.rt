//! Who steps first of those that can step.

/// How well a process steps now, where others can step too: the first of these comes first.
#[derive(Clone, Copy)]
pub enum Priority {
    /// Nothing is gained by waiting.
    Now,
    /// It is down and in no instance, so it mostly answers asks: later it answers more of them together.
    Down,
    /// It awaits more replies than there are processes with a parcel for it: later it takes more of them together.
    Awaits,
}
