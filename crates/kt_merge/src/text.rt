//! Parts of named inputs merged, and what is told where that stops.

ghost use Rattle.std.specs.Prelude.{◌≡◌, ◌≤◌, length, false, IfErr, OnOk};
ghost use Rattle.kt_merge.specs.Merging.{ArePartsUnread, IsMetIn, StopsMerge, StopsReading, WritesMerge};

use crate::fault::{MergeFault, RowFault};
use crate::giver::Giver;
use crate::merging::merge_parts;
use crate::part_fault::PartFault;
use crate::parts::Parts;
use crate::told::{Told, ToldRecord};
use kt_base::ProcNo;
use kt_text::{Input, Place};
use std::alloc::Global;
use std::io::{Read, Write};

/// Why parts have no log, and what is told of that. Its text is the lines below the line of the fault, each begun with two
/// spaces and ended by a line feed.
#[derive(Clone, Copy)]
pub struct Unmerged {
    pub fault: MergeFault,
    pub(crate) told: Told,
}

impl Unmerged {
    /// The input that could not be read, if that is why.
    pub fn unread<'a, R: Read + Drop>(&self, parts: &'a Parts<Input<R>>) -> Option<&'a Input<R>> {
        match self.fault {
            MergeFault::Part(p, PartFault::Read) => Some(parts.reader(p)?.source()),
            _ => None,
        }
    }
}

/// Writes the log of these parts, of which none was read yet, as `merge_parts` does, and with `hints` says what is told of a
/// fault: for that it may read on in one of them.
pub fn merge_inputs<R: Read + Drop, W: Write>(
    alloc: Global,
    parts: &mut Parts<Input<R>>,
    hints: bool,
    writer: &mut W,
) -> Result<(), Unmerged>
    requires few { length parts.old ≤ 64 }
    requires unread { ArePartsUnread parts.old }
    ensures merged { OnOk result (WritesMerge parts.old (W.contents writer.old) (W.contents writer.new)) }
    ensures stopped { IfErr result (λ unmerged.
        StopsMerge parts.old (W.contents writer.old) (W.contents writer.new) unmerged.fault) }
    ensures unread { hints ≡ false → IfErr result (λ unmerged.
        StopsReading parts.old parts.new (W.contents writer.old) (W.contents writer.new) unmerged.fault) }
    ensures met { IfErr result (λ unmerged. IsMetIn parts.new unmerged.fault) }
{
    match merge_parts(alloc, parts, writer) {
        Ok(()) => Ok(()),
        Err(fault) if !hints => Err(Unmerged {
            fault,
            told: Told::Nothing,
        }),
        Err(fault) => {
            let met = fault;
            let told = told_of(parts, met);
            Err(Unmerged { fault, told })
        }
    }
}

// What is told of a fault of parts.
fn told_of<R: Read + Drop>(parts: &mut Parts<Input<R>>, fault: MergeFault) -> Told
    ensures { IsMetIn parts.old fault → IsMetIn parts.new fault }
{
    match fault {
        MergeFault::Write | MergeFault::Memory => Told::Nothing,
        MergeFault::Part(p, why) => match why {
            PartFault::Read | PartFault::Memory => Told::Nothing,
            _ => told_record(parts, p),
        },
        MergeFault::Row(p, _, why) => match why {
            RowFault::NotSent | RowFault::NotBegun => told_early(parts, p),
            _ => told_record(parts, p),
        },
    }
}

// The record of a part that was read last.
fn told_record<R: Read + Drop>(parts: &Parts<Input<R>>, p: ProcNo) -> Told {
    let Some(reader) = parts.reader(p) else {
        return Told::Nothing;
    };
    match reader.record() {
        Some(record) => Told::Record(ToldRecord::of(reader.source().name, &record)),
        None => Told::Nothing,
    }
}

// The next row of a part, which names what no row before it gave, and the row that gives it.
fn told_early<R: Read + Drop>(parts: &mut Parts<Input<R>>, p: ProcNo) -> Told {
    let Some(place) = place_in(parts, p) else {
        return Told::Nothing;
    };
    match parts.giver() {
        Giver::Last(q) => match place_in(parts, q) {
            Some(giver) => Told::Early(place, giver),
            None => Told::Nothing,
        },
        Giver::Nowhere => Told::Lost(place),
        Giver::Unknown => Told::Named(place),
    }
}

// Where the record of a part stands that was read last.
fn place_in<R: Read + Drop>(parts: &Parts<Input<R>>, p: ProcNo) -> Option<Place> {
    let reader = parts.reader(p)?;
    let record = reader.record()?;
    Some(Place::of(reader.source().name, &record.fields, record.end))
}
