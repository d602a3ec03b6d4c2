//! A process's part in the instance that it is in.

ghost use Rattle.std.specs.Prelude.{◌≡◌};
ghost use Rattle.kt_process.specs.PartRules.{after_reply, reply_action};

use crate::part::Part;
use std::marker::Model;

/// A process's part in an instance of checkpoint; and by sender, as its mark, how many of the parcels that are kept were
/// received before it.
#[derive(Drop)]
pub struct Saving {
    part: Part,
    marks: Vec<usize>,
}

impl Model for Saving {
    ghost use Rattle.kt_process.specs.Sides.{SaveSide};

    ghost Value = { SaveSide };

    ghost view = { λ s. record { part = s.part; marks = s.marks.items } };
}

impl Saving {
    /// A part in a checkpoint, with these marks.
    pub fn new(part: Part, marks: Vec<usize>) -> Saving
        ensures { result ≡ record { part = part; marks = marks.items } }
    {
        Saving { part, marks }
    }

    /// What it has in any instance: whom it asked, and what they replied.
    pub fn part(&self) -> &Part
        ensures { result.now ≡ self.now.part }
    {
        &self.part
    }

    /// By sender, how many of the parcels that are kept were received before the tentative checkpoint.
    pub fn marks(&self) -> &[usize]
        ensures { result.now ≡ self.now.marks }
    {
        &self.marks
    }

    /// The part, to be changed by a reply.
    pub(crate) fn take_reply(&mut self, willing: bool) -> crate::actions::Action
        ensures part { self.new ≡ record self.old { part = after_reply self.old.part willing } }
        ensures action { result ≡ reply_action self.old.part willing }
    {
        crate::checkpoint::on_reply(&mut self.part, willing)
    }

    /// The part alone.
    pub(crate) fn into_part(self) -> Part
        ensures { result ≡ self.part }
    {
        self.part
    }
}

/// A process's part in the instance that it is in.
#[derive(Drop)]
pub enum Side {
    Checkpoint(Saving),
    Rollback(crate::rolling::Rolling),
}
