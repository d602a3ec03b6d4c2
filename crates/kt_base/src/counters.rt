//! The counter that labels come from.

ghost use Rattle.std.specs.Prelude.{◌≡◌, ◌<◌, ◌≤◌, ◌+◌, ◌^◌, ◌-◌, ◌↔◌, IsSome, IsTrue, IfSome, IfNone};

use crate::numbers::Label;
use std::marker::Model;

/// One process's counter of labels. A label that it gave is never given again.
#[derive(Drop)]
pub struct Labels {
    used: Label,
}

impl Model for Labels {
    ghost use Rattle.std.specs.Prelude.{ℕ};

    ghost Value = { ℕ };

    ghost view = { λ l. l.used };
}

impl Labels {
    /// A counter that goes on after this label.
    pub fn after(used: Label) -> Labels
        ensures { result ≡ used }
    {
        Labels { used }
    }

    /// Whether the greatest label was given, so that none follows.
    pub fn is_spent(&self) -> bool
        ensures { IsTrue result ↔ (2 ^ 48 - 1 ≤ self.now) }
    {
        self.used.get() >= Label::MAX
    }

    /// The label after the last one; None, and nothing changes, once 2^48 - 1 was given.
    #[allow(clippy::should_implement_trait)]
    pub fn next(&mut self) -> Option<Label>
        ensures given { IsSome result ↔ (self.old < 2 ^ 48 - 1) }
        ensures label { IfSome result (λ label. (label ≡ self.old + 1) × (self.new ≡ label)) }
        ensures spent { IfNone result (self.new ≡ self.old) }
    {
        let label = Label::new(self.used.get() + 1)?;
        self.used = label;
        Some(label)
    }
}
