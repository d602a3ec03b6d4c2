//! Where the row stands that gives what another one names too early.

ghost use Rattle.std.specs.Prelude.{◌≡◌, option_map, slice_get};

use crate::fault::MergeFault;
use crate::parts::Parts;
use crate::reading::PartReader;
use crate::tables::Numbers;
use kt_base::ProcNo;
use kt_spacetime::{ClockedRow, Count, InstName, NamedCause, NamedEvent};
use std::io::Read;

/// Where the row stands that gives a name.
#[derive(Clone, Copy)]
pub enum Giver {
    /// It is the row that was read last of this process's part.
    Last(ProcNo),
    /// No part has it.
    Nowhere,
    /// That is not known: its part has a fault before, or nothing is missing.
    Unknown,
}

/// A name of a message or of an instance.
#[derive(Clone, Copy)]
pub(crate) enum Name {
    Message(ProcNo, Count),
    Instance(InstName),
}

impl Name {
    // Whose rows give it.
    fn process(&self) -> ProcNo {
        match self {
            Name::Message(from, _) => *from,
            Name::Instance(inst) => inst.initiator,
        }
    }

    // Whether a row of that process gives it.
    fn is_given_by(&self, event: &NamedEvent) -> bool {
        match self {
            Name::Message(_, named) => match event {
                NamedEvent::Sent { label, .. } => label.index() == named.index(),
                _ => false,
            },
            Name::Instance(named) => match event {
                NamedEvent::Began { inst, .. } => inst.count.index() == named.count.index(),
                _ => false,
            },
        }
    }
}

impl Numbers {
    // The first name that a row takes and that no row before it gave.
    fn missing_in(&self, event: NamedEvent) -> Option<Name> {
        match event {
            NamedEvent::Received { from, label } | NamedEvent::Dropped { from, label } => {
                self.missing_message(from, label)
            }
            NamedEvent::Took { inst }
            | NamedEvent::Ready { inst }
            | NamedEvent::Decided { inst, .. }
            | NamedEvent::Closed { inst } => self.missing_instance(inst),
            NamedEvent::Unwilling { inst, cause } => {
                self.missing_instance(inst).or(self.missing_in_cause(cause))
            }
            NamedEvent::Refused { cause, .. } => self.missing_in_cause(cause),
            NamedEvent::Sent { .. } | NamedEvent::Began { .. } | NamedEvent::Failed => None,
        }
    }

    // A message, if no row sent it.
    fn missing_message(&self, from: ProcNo, label: Count) -> Option<Name> {
        match self.message(from, label) {
            Ok(_) => None,
            Err(_) => Some(Name::Message(from, label)),
        }
    }

    // An instance, if no row began it.
    fn missing_instance(&self, inst: InstName) -> Option<Name> {
        let named = inst;
        match self.instance(named) {
            Ok(_) => None,
            Err(_) => Some(Name::Instance(inst)),
        }
    }

    // The instance that a cause names, if no row began it.
    fn missing_in_cause(&self, cause: NamedCause) -> Option<Name> {
        match cause {
            NamedCause::Busy(inst) => self.missing_instance(inst),
            NamedCause::Down | NamedCause::NoSave => None,
        }
    }
}

/// The name for which a merge stopped at a row, by the next row of each part.
pub(crate) fn missing_at(
    heads: &[Option<ClockedRow>],
    numbers: &Numbers,
    merged: &Result<(), MergeFault>,
) -> Option<Name> {
    let Err(MergeFault::Row(p, ..)) = merged else {
        return None;
    };
    let Some(Some(row)) = heads.get(p.index()) else {
        return None;
    };
    numbers.missing_in(row.row.event)
}

impl<R: Read + Drop> Parts<R> {
    /// The reader of a process's part.
    pub fn reader(&self, p: ProcNo) -> Option<&PartReader<R>>
        ensures { option_map (λ r. r.now) result ≡ slice_get self.now p }
    {
        self.readers.get(p.index())
    }

    /// Where the row stands that gives the name for which a merge stopped: the next row of its process, or the first one after
    /// it. Reads on in the part of that process.
    pub fn giver(&mut self) -> Giver {
        match self.missing {
            Some(name) => self.giver_of(&name),
            None => Giver::Unknown,
        }
    }

    // Where the row stands that gives this name.
    fn giver_of(&mut self, name: &Name) -> Giver {
        let q = name.process();
        if let Some(Some(row)) = self.heads.get(q.index()) {
            if name.is_given_by(&row.row.event) {
                return Giver::Last(q);
            }
        }
        match self.readers.get_mut(q.index()) {
            Some(reader) => read_to(reader, name, q),
            None => Giver::Nowhere,
        }
    }
}

// Reads on in the part of a process to the row that gives a name.
fn read_to<R: Read + Drop>(reader: &mut PartReader<R>, name: &Name, q: ProcNo) -> Giver {
    for _ in 0..u32::MAX {
        match reader.next() {
            Ok(Some(row)) => {
                if name.is_given_by(&row.row.event) {
                    return Giver::Last(q);
                }
            }
            Ok(None) => return Giver::Nowhere,
            Err(_) => return Giver::Unknown,
        }
    }
    Giver::Unknown
}
