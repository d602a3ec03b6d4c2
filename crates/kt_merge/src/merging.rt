//! Parts merged in one pass.

ghost use Rattle.std.specs.Prelude.{◌≡◌, ◌<◌, ◌≤◌, [], ◌∷◌, ◌++◌, ◌⊎◌, Some, Ok, length, IfOk, IfErr, OnOk, OnErr};
ghost use Rattle.kt_log_text.specs.Spelling.{spelling};
ghost use Rattle.kt_log_text.specs.Texts.{header};
ghost use Rattle.kt_meaning.specs.Names.{Given, nothing_given, given_after, numbered_event};
ghost use Rattle.kt_merge.specs.declared.part_fault.PartFault.{PartFault as part_faults};
ghost use Rattle.kt_merge.specs.Reading.{StepsPart, MeetsPartFault};
ghost use Rattle.kt_text.specs.Writing.{line_of, Sends, WritesFront};
ghost use Rattle.kt_merge.specs.declared.fault.RowFault.{RowFault as row_faults};
ghost use Rattle.kt_merge.specs.Heads.{GiveHeads};
ghost use Rattle.kt_merge.specs.Numbering.{ShowsGiven, IsRowFault};
ghost use Rattle.kt_merge.specs.Merging.{ArePartsUnread, WritesMerge, IsRowwise, IsMergeFaultAfter, StopsMerge, StopsReading, AreReadTo, IsMetIn};

use crate::fault::MergeFault;
use crate::giver::missing_at;
use crate::heads::least;
use crate::laws::names_put_back;
use crate::parts::Parts;
use crate::reading::PartReader;
use crate::rows::{push_header, push_row};
use crate::tables::Numbers;
use kt_base::{Memory, ProcNo};
use kt_spacetime::{ClockedRow, Event, NamedRow};
use kt_text::WriteFault;
use kt_text::pieces::{new_text, write_full, write_rest};
use std::alloc::Global;
use std::io::{Read, Write};

/// Writes the log of all parts: their rows sorted by clock, then by process, those of one part in their order, with numbers
/// for names.
///
/// It is one pass: of each part one row is held, of each message and instance its number. After a fault a front part of the
/// log of the rows before it is written, and nothing more is read.
pub fn merge_parts<R: Read + Drop, W: Write>(
    alloc: Global,
    parts: &mut Parts<R>,
    writer: &mut W,
) -> Result<(), MergeFault>
    requires few { length parts.old ≤ 64 }
    requires unread { ArePartsUnread parts.old }
    ensures merged { OnOk result (WritesMerge parts.old (W.contents writer.old) (W.contents writer.new)) }
    // With names put back, the rows of each process are those of its part.
    ensures rowwise { OnOk result (IsRowwise parts.old (W.contents writer.old) (W.contents writer.new)) }
    ensures stopped { IfErr result (λ e. StopsMerge parts.old (W.contents writer.old) (W.contents writer.new) e) }
    ensures unread { IfErr result (λ e.
        StopsReading parts.old parts.new (W.contents writer.old) (W.contents writer.new) e) }
    // The reader of the part has met it.
    ensures met { IfErr result (IsMetIn parts.new) }
{
    names_put_back();
    let mut numbers = Numbers::new(alloc)?;
    let mut text = new_text(alloc)?;
    push_header(&mut text)?;
    let (readers, heads) = (&mut parts.readers, &mut parts.heads);
    let merged = merge_readers(readers, heads, &mut numbers, &mut text, writer);
    parts.missing = missing_at(&parts.heads, &numbers, &merged);
    merged
}

// The same, with the tables of what no row gave yet, and the text that is gathered.
fn merge_readers<R: Read + Drop, W: Write>(
    parts: &mut Vec<PartReader<R>>,
    heads: &mut Vec<Option<ClockedRow>>,
    numbers: &mut Numbers,
    text: &mut Vec<u8>,
    writer: &mut W,
) -> Result<(), MergeFault>
    requires few { length parts.old.items ≤ 64 }
    requires unread { ArePartsUnread parts.old.items }
    requires nothing { ShowsGiven numbers.old nothing_given }
    requires header { text.old.items ≡ line_of header }
    ensures merged { OnOk result (WritesMerge parts.old.items (W.contents writer.old) (W.contents writer.new)) }
    ensures stopped { IfErr result (λ e.
        StopsReading parts.old.items parts.new.items (W.contents writer.old) (W.contents writer.new) e) }
    ensures met { IfErr result (IsMetIn parts.new.items) }
{
    read_heads(parts, heads)?;
    while let Some((part, row)) = least(heads.as_slice()) {
        let event = numbered(numbers, row.row, parts[part].count())?;
        write_row(text, event, writer)?;
        heads[part] = next_head(&mut parts[part], part)?;
    }
    write_rest(text, writer)?;
    Ok(())
}

// Reads the first row of each part.
fn read_heads<R: Read + Drop>(
    parts: &mut Vec<PartReader<R>>,
    heads: &mut Vec<Option<ClockedRow>>,
) -> Result<(), MergeFault>
    requires few { length parts.old.items ≤ 64 }
    requires unread { ArePartsUnread parts.old.items }
    ensures found { OnOk result (GiveHeads parts.old.items parts.new.items heads.new.items) }
    ensures fault { IfErr result (λ e. IsMergeFaultAfter parts.old.items [] [] e) }
    ensures unread { IfErr result (λ e. AreReadTo parts.new.items []) }
    ensures met { IfErr result (IsMetIn parts.new.items) }
{
    heads.clear();
    for part in 0..parts.len() {
        let head = next_head(&mut parts[part], part)?;
        push_item(heads, head)?;
    }
    Ok(())
}

// Adds an item at the end.
fn push_item<T: Drop>(items: &mut Vec<T>, item: T) -> Result<(), Memory>
    ensures { OnOk result (items.new.items ≡ items.old.items ++ item ∷ []) }
{
    items.push(item)?;
    Ok(())
}

// The next row of a part.
#[inline(always)]
fn next_head<R: Read + Drop>(
    reader: &mut PartReader<R>,
    part: usize,
) -> Result<Option<ClockedRow>, MergeFault>
    requires { part < 64 }
    ensures found { IfOk result (λ head. StepsPart reader.old reader.new (Ok head)) }
    ensures fault { IfErr result (λ e. (fault : part_faults) × (e ≡ MergeFault.Part part fault)
        × MeetsPartFault reader.old reader.new fault) }
{
    match reader.next() {
        Ok(head) => Ok(head),
        Err(fault) => Err(MergeFault::Part(ProcNo::nth(part as u8), fault)),
    }
}

// Gathers a row's record, and writes what is gathered if it is much.
#[inline(always)]
fn write_row<W: Write>(text: &mut Vec<u8>, row: Event, writer: &mut W) -> Result<(), WriteFault>
    ensures sent { OnOk result (Sends (W.contents writer.old) (W.contents writer.new) text.old.items text.new.items
        (line_of (spelling row))) }
    ensures stopped { OnErr result (WritesFront (W.contents writer.old) (W.contents writer.new)
        (text.old.items ++ line_of (spelling row))) }
{
    push_row(text, row)?;
    write_full(text, writer)
}

// The row by numbers of a row by names, which stands in this record of its part.
#[inline(always)]
fn numbered(numbers: &mut Numbers, row: NamedRow, record_number: u32) -> Result<Event, MergeFault>
    requires { (g : Given) × ShowsGiven numbers.old g }
    ensures found { IfOk result (λ event. (g : Given) → ShowsGiven numbers.old g →
        (numbered_event g row.p row.event ≡ Some event) × ShowsGiven numbers.new (given_after g event)) }
    ensures fault { IfErr result (λ e. (g : Given) → ShowsGiven numbers.old g →
        (e ≡ MergeFault.Memory) ⊎ ((what : row_faults) × (e ≡ MergeFault.Row row.p record_number what)
        × IsRowFault g row.p row.event what)) }
{
    let p = row.p;
    match numbers.number(p, row.event) {
        Ok(event) => {
            let kept = event;
            numbers.keep(kept)?;
            Ok(event)
        }
        Err(fault) => Err(MergeFault::Row(p, record_number, fault)),
    }
}
