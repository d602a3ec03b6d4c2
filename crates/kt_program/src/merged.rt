//! Parts merged.

ghost use Rattle.std.specs.Prelude.{◌≡◌, ◌≤◌, ◌⊎◌, ℕ, List, length, IfOk, IfErr, OnOk};
ghost use Rattle.kt_merge.specs.Merging.{ArePartsUnread};
ghost use Rattle.kt_program.specs.declared.ending.Done.TheVariants.{Merged};
ghost use Rattle.kt_program.specs.declared.fault.AppFault.{AppFault as app_faults};
ghost use Rattle.kt_program.specs.declared.fault.AppFault.TheVariants as app;
ghost use Rattle.kt_program.specs.declared.fault.ProgramFault.TheVariants as program;
ghost use Rattle.kt_program.specs.Merged.{AreReadFrom, IsMergedText, IsOfMerging, IsStopOf, IsUnopened, LeavesMerge, MergesTo, of_merge};
ghost use Rattle.kt_program.specs.Outputs.{IsOfWhole};

use crate::ending::Done;
use crate::fault::{AppFailure, AppFault, Failure};
use crate::line::Merging;
use crate::names::{Name, STANDARD, is_standard};
use crate::outputs::print_text;
use crate::sources::{ReadFiles, Role, open_input};
use crate::told::Told;
use crate::whole::{finish, give_up, whole_of, write_finished};
use kt_base::ProcNo;
use kt_merge::{MergeFault, Parts, Unmerged, merge_inputs};
use kt_text::Input;
use std::alloc::Global;
use std::io::{Read, Write};
use std::rt::Files;

/// Writes the log of the parts in files into the file that is named for it, else to `out`.
///
/// To `out` goes the whole log or nothing. A file is written as the parts are read, and appears whole. With `hints` one of the
/// parts may be read on after a fault.
#[inline(never)]
pub(crate) fn merge_files<F: Files, O: Write>(
    files: &F,
    alloc: Global,
    asked: &Merging<'_>,
    hints: bool,
    out: &mut O,
) -> Result<Done, Failure>
    requires { length asked.now.parts.items ≤ 64 }
    ensures done { IfOk result (λ what. what ≡ Merged) }
    ensures merged { OnOk result (MergesTo F.File.remaining asked.now (O.contents out.old) (O.contents out.new)) }
    ensures fault { IfErr result (λ failure. IsOfMerging F.File.remaining asked.now failure.fault) }
    ensures output { LeavesMerge result (O.contents out.old) (O.contents out.new) }
{
    let mut read = ReadFiles::none();
    let mut parts = parts_in(files, alloc, asked.parts.as_slice(), &mut read)?;
    if is_standard(asked.log) {
        let text = merged_text(alloc, &mut parts, hints)?;
        print_text(files, &read, text.as_slice(), out)?;
        return Ok(Done::Merged);
    }
    let name = asked.log.unwrap_or(STANDARD);
    merge_into(files, alloc, &mut parts, hints, &read, name)?;
    Ok(Done::Merged)
}

// The parts in the files of these names, of which none was read; a part without a name is standard input.
fn parts_in<'a, F: Files>(
    files: &F,
    alloc: Global,
    names: &[Name<'a>],
    read: &mut ReadFiles<'a>,
) -> Result<Parts<Input<F::File>>, Failure>
    requires { length names.now ≤ 64 }
    ensures parts { IfOk result (λ parts. (length parts ≡ length names.now) × ArePartsUnread parts
        × AreReadFrom F.File.remaining parts) }
    ensures fault { IfErr result (λ failure. IsUnopened (length names.now) failure.fault
        ⊎ (failure.fault ≡ program.App app.Memory)) }
{
    let mut parts = Parts::new(alloc);
    for (place, name) in names.iter().enumerate() {
        let role = Role::Part(ProcNo::nth(place as u8));
        let input = open_input(files, role, name.unwrap_or(STANDARD), read)?;
        match parts.push(alloc, input) {
            Ok(()) => {}
            Err(_) => return Err(Failure::from(AppFault::Memory)),
        }
    }
    Ok(parts)
}

// The text of the log of these parts.
fn merged_text<R: Read + Drop>(
    alloc: Global,
    parts: &mut Parts<Input<R>>,
    hints: bool,
) -> Result<Vec<u8>, AppFailure>
    requires few { length parts.old ≤ 64 }
    requires unread { ArePartsUnread parts.old }
    ensures text { IfOk result (λ text. IsMergedText parts.old text.items) }
    ensures stopped { IfErr result (λ failure. IsStopOf parts.old failure.fault) }
{
    let mut text = Vec::new(alloc);
    match merge_inputs(alloc, parts, hints, &mut text) {
        Ok(()) => Ok(text),
        Err(unmerged) => Err(unmerged_failure(parts, unmerged)),
    }
}

// Writes the log of these parts as the whole of the file of this name, which is none of those that were read.
fn merge_into<F: Files>(
    files: &F,
    alloc: Global,
    parts: &mut Parts<Input<F::File>>,
    hints: bool,
    read: &ReadFiles<'_>,
    name: &str,
) -> Result<(), Failure>
    requires few { length parts.old ≤ 64 }
    requires unread { ArePartsUnread parts.old }
    ensures merged { OnOk result ((text : List ℕ) × IsMergedText parts.old text) }
    ensures fault { IfErr result (λ failure. IsOfWhole failure.fault
        ⊎ ((why : app_faults) × IsStopOf parts.old why × (failure.fault ≡ program.App why))) }
{
    let mut whole = whole_of(files, alloc, read, name)?;
    if whole.is_seen() {
        let text = merged_text(alloc, parts, hints)?;
        write_finished(files, whole, text.as_slice())?;
        return Ok(());
    }
    match merge_inputs(alloc, parts, hints, &mut whole) {
        Ok(()) => {
            finish(files, whole)?;
            Ok(())
        }
        Err(unmerged) => Err(give_up(files, whole, unwritten(parts, unmerged))),
    }
}

// Why the log of these parts is not written into a file.
fn unwritten<R: Read + Drop>(parts: &Parts<Input<R>>, unmerged: Unmerged) -> Failure
    ensures { (result.fault ≡ program.App app.Write) ⊎ (result.fault ≡ program.App (of_merge unmerged.fault)) }
{
    match unmerged.fault {
        MergeFault::Write => Failure::from(AppFault::Write),
        _ => Failure::from(unmerged_failure(parts, unmerged)),
    }
}

// Why these parts have no log, with what is told of that.
fn unmerged_failure<R: Read + Drop>(parts: &Parts<Input<R>>, unmerged: Unmerged) -> AppFailure
    ensures { result.fault ≡ of_merge unmerged.fault }
{
    AppFailure {
        fault: AppFault::from(unmerged.fault),
        told: match unmerged.unread(parts) {
            Some(input) => Told::read(input),
            None => Told::Parts(unmerged),
        },
    }
}
