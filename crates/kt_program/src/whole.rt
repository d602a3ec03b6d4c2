//! Files that appear whole: what is written stands beside them until all of it is there.

ghost use Rattle.std.specs.Prelude.{◌≡◌, [], ◌∷◌, IfOk, IfErr};
ghost use Rattle.kt_program.specs.Files.{AreOthers};
ghost use Rattle.kt_program.specs.Outputs.{IsOfWhole};

use crate::fault::{AppFault, Failure, ProgramFault};
use crate::files::{FileNumber, is_one, is_twice, number_of};
use crate::names::is_device;
use crate::outputs::{Named, empty_file, write_text};
use crate::sources::ReadFiles;
use crate::told::{Attempt, Told};
use kt_text::Shown;
use std::alloc::Global;
use std::fs::{OpenFile, OpenOptions, Permissions};
use std::io::{ErrorKind, Write};
use std::rt::Files;
use std::{fs, io};

// How many names are tried for a file that is not whole yet.
const MOST_NAMES: u32 = 100;

/// A file that is written, of which nothing is seen under its name before it is finished: until then what it has stands in a
/// file beside it. A pipe or a device is written as it is, and so is what a name like `/dev/stdout` stands for.
#[derive(Drop)]
pub(crate) struct Whole<W> {
    file: Named<W>,
    /// Which regular file had its name, where that is told.
    pub(crate) replaced: Option<FileNumber>,
    names: Option<Names>,
}

// The name under which a file is written, and the one that it gets once it is whole.
#[derive(Drop)]
struct Names {
    unfinished: String,
    whole: String,
}

impl<W: Write> Write for Whole<W> {
    ghost contents = { λ whole. W.contents whole.file.file };

    fn write(&mut self, buf: &[u8]) -> io::Result<usize> {
        self.file.write(buf)
    }

    fn flush(&mut self) -> io::Result<()> {
        self.file.flush()
    }
}

impl<W> Whole<W> {
    /// Whether what is written is seen at once.
    pub(crate) fn is_seen(&self) -> bool {
        self.names.is_none()
    }
}

/// The file of this name, of which nothing is written yet. It is none that was read, as far as that is told.
pub(crate) fn whole_of<F: Files>(
    files: &F,
    alloc: Global,
    read: &ReadFiles<'_>,
    name: &str,
) -> Result<Whole<F::File>, Failure>
    ensures apart { IfOk result (λ whole. AreOthers read.now.numbers (whole.replaced ∷ [])) }
    ensures fault { IfErr result (λ failure. IsOfWhole failure.fault) }
{
    let there = opened(files, name)?;
    let replaced = match &there {
        Some(file) => number_of(file),
        None => None,
    };
    if is_twice(&read.numbers, &[replaced]) {
        return Err(Failure {
            fault: ProgramFault::SameFile,
            told: told_twice(read, replaced, name),
        });
    }
    begun(files, alloc, there, replaced, name)
}

// The file that has this name, if one does.
fn opened<F: Files>(files: &F, name: &str) -> Result<Option<F::File>, Failure>
    ensures { IfErr result (λ failure. IsOfWhole failure.fault) }
{
    match OpenOptions::new().write(true).open(files, name) {
        Ok(file) => Ok(Some(file)),
        Err(error) => match error.kind() {
            ErrorKind::NotFound => Ok(None),
            _ => Err(failure_of(Attempt::Make, Shown::of(name.as_bytes()), &error)),
        },
    }
}

// What is told of a file that was read too: both names.
fn told_twice(read: &ReadFiles<'_>, replaced: Option<FileNumber>, name: &str) -> Told {
    for (number, input) in read.numbers.iter().zip(&read.names) {
        if is_one(replaced, *number) {
            return Told::one_file(input.unwrap_or(""), name);
        }
    }
    Told::Nothing
}

// Begins to write the file of this name, under which this one stands, if one does.
fn begun<F: Files>(
    files: &F,
    alloc: Global,
    there: Option<F::File>,
    replaced: Option<FileNumber>,
    name: &str,
) -> Result<Whole<F::File>, Failure>
    ensures replaced { IfOk result (λ whole. whole.replaced ≡ replaced) }
    ensures fault { IfErr result (λ failure. IsOfWhole failure.fault) }
{
    let shown = Shown::of(name.as_bytes());
    let Some(file) = there else {
        return begun_beside(files, alloc, None, replaced, name);
    };
    match file.metadata() {
        Ok(metadata) if metadata.is_file() && !is_device(name) => {
            drop(file);
            begun_beside(files, alloc, Some(metadata.permissions()), replaced, name)
        }
        Ok(_) => Ok(Whole {
            file: Named::of(file, shown),
            replaced,
            names: None,
        }),
        Err(error) => Err(failure_of(Attempt::Write, shown, &error)),
    }
}

// Begins to write beside a regular file that has these permissions, or that is not there.
fn begun_beside<F: Files>(
    files: &F,
    alloc: Global,
    permissions: Option<Permissions>,
    replaced: Option<FileNumber>,
    name: &str,
) -> Result<Whole<F::File>, Failure>
    ensures replaced { IfOk result (λ whole. whole.replaced ≡ replaced) }
    ensures fault { IfErr result (λ failure. IsOfWhole failure.fault) }
{
    let shown = Shown::of(name.as_bytes());
    let (file, names) = made_beside(files, alloc, name)?;
    if let Some(permissions) = permissions {
        if let Err(error) = file.set_permissions(permissions) {
            drop(file);
            return Err(thrown_away(files, &names, failure_of(Attempt::Make, shown, &error)));
        }
    }
    Ok(Whole {
        file: Named::of(file, shown),
        replaced,
        names: Some(names),
    })
}

// A new file beside that of this name, with its names.
fn made_beside<F: Files>(files: &F, alloc: Global, name: &str) -> Result<(F::File, Names), Failure>
    ensures { IfErr result (λ failure. IsOfWhole failure.fault) }
{
    let whole = real_name(files, alloc, name)?;
    for number in 0..MOST_NAMES {
        let Ok(unfinished) = format!(in alloc; "{whole}.{number}.unfinished") else {
            return Err(Failure::from(AppFault::Memory));
        };
        match OpenOptions::new()
            .write(true)
            .create_new(true)
            .open(files, unfinished.as_str())
        {
            Ok(file) => return Ok((file, Names { unfinished, whole })),
            Err(error) => match error.kind() {
                ErrorKind::AlreadyExists => {}
                _ => return Err(failure_of(Attempt::Make, Shown::of(name.as_bytes()), &error)),
            },
        }
    }
    Err(Failure::from(AppFault::Write))
}

// The name of the file itself, where this one is of a link to it.
fn real_name<F: Files>(files: &F, alloc: Global, name: &str) -> Result<String, Failure>
    ensures { IfErr result (λ failure. IsOfWhole failure.fault) }
{
    let real = match files.canonicalize(alloc, name) {
        Ok(path) => String::from_str(alloc, path.as_str()),
        Err(_) => String::from_str(alloc, name),
    };
    match real {
        Ok(real) => Ok(real),
        Err(_) => Err(Failure::from(AppFault::Memory)),
    }
}

/// Writes a text, which is all that this file is to have, and finishes it. One that is seen at once is emptied no earlier.
pub(crate) fn write_finished<F: Files>(
    files: &F,
    mut whole: Whole<F::File>,
    text: &[u8],
) -> Result<(), Failure>
    ensures { IfErr result (λ failure. IsOfWhole failure.fault) }
{
    if whole.is_seen() {
        if let Err(error) = empty_file(&whole.file.file) {
            let failure = failure_of(Attempt::Write, whole.file.name, &error);
            return Err(give_up(files, whole, failure));
        }
    }
    match write_text(text, &mut whole) {
        Ok(()) => finish(files, whole),
        Err(fault) => Err(give_up(files, whole, Failure::from(fault))),
    }
}

/// Gives a file its name, now that all of it is written. At a fault the name has what it had.
pub(crate) fn finish<F: Files>(files: &F, whole: Whole<F::File>) -> Result<(), Failure>
    ensures { IfErr result (λ failure. IsOfWhole failure.fault) }
{
    let Whole { file, names, .. } = whole;
    let Some(names) = names else {
        return Ok(());
    };
    let shown = file.name;
    let synced = file.file.sync_all();
    drop(file);
    let named = match synced {
        Ok(()) => fs::rename(files, names.unfinished.as_str(), names.whole.as_str()),
        Err(error) => Err(error),
    };
    match named {
        Ok(()) => Ok(()),
        Err(error) => Err(thrown_away(files, &names, failure_of(Attempt::Write, shown, &error))),
    }
}

/// Removes what was written beside a file, and tells why: that a write to it failed, or else this fault.
pub(crate) fn give_up<F: Files>(files: &F, whole: Whole<F::File>, failure: Failure) -> Failure
    ensures { result.fault ≡ failure.fault }
{
    let Whole { file, names, .. } = whole;
    let told = file.told().unwrap_or(failure.told);
    drop(file);
    let failure = Failure { told, ..failure };
    match names {
        Some(names) => thrown_away(files, &names, failure),
        None => failure,
    }
}

// Removes a file that is not whole, and hands its fault on. If it can't be removed, it stands beside, under its own name.
fn thrown_away<F: Files>(files: &F, names: &Names, failure: Failure) -> Failure
    ensures { result.fault ≡ failure.fault }
{
    let _ = fs::remove_file(files, names.unfinished.as_str());
    failure
}

// What was done in vain with a file of this name.
fn failure_of(attempt: Attempt, name: Shown, error: &io::Error) -> Failure
    ensures { IsOfWhole result.fault }
{
    Failure {
        fault: ProgramFault::App(AppFault::Write),
        told: Told::attempt(attempt, name, error),
    }
}
