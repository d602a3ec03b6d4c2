//! A process, as a walk keeps it.

ghost use Rattle.std.specs.Prelude.{◌≡◌, ◌<◌, ◌≤◌, ◌+◌, ◌^◌, None, true, ◌||◌};

use kt_base::InstNo;

/// A process after the rows so far.
#[derive(Clone, Copy)]
pub(crate) struct ProcessState {
    /// The length of its live history.
    pub(crate) length: u32,
    pub(crate) permanent: usize,
    pub(crate) open_in: Option<InstNo>,
    pub(crate) up: bool,
}

impl ProcessState {
    /// A process before the first row.
    pub(crate) fn new() -> ProcessState
        ensures { (result.length ≡ 0) × (result.permanent ≡ 0) × (result.open_in ≡ None) × (result.up ≡ true) }
    {
        ProcessState {
            length: 0,
            permanent: 0,
            open_in: None,
            up: true,
        }
    }

    /// Its live history has one more deed.
    pub(crate) fn extend(&mut self)
        ensures { self.old.length + 1 < 2 ^ 32 → self.new ≡ record self.old { length = self.old.length + 1 } }
    {
        self.length = self.length.saturating_add(1);
    }

    /// Its live history is cut back to its permanent part.
    pub(crate) fn cut_back(&mut self)
        ensures { self.old.permanent ≤ self.old.length → self.new ≡ record self.old { length = self.old.permanent } }
    {
        if self.permanent < self.length as usize {
            self.length = self.permanent as u32;
        }
    }

    /// Is in no instance; where that was a committed rollback, is up.
    pub(crate) fn close(&mut self, was_rolled_back: bool)
        ensures { self.new ≡ record self.old { open_in = None; up = self.old.up || was_rolled_back } }
    {
        self.open_in = None;
        if was_rolled_back {
            self.up = true;
        }
    }
}
