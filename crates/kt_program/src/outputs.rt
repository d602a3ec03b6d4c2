//! Where a run's log, certificates and steps go, and texts made of stored files.

ghost use Rattle.std.specs.Prelude.{◌≡◌, ◌≢◌, IfOk, IfErr, OnOk, OnErr};
ghost use Rattle.std.specs.Io.KnownBytes.{Appends};
ghost use Rattle.kt_text.specs.Writing.{WritesFront};
ghost use Rattle.kt_program.specs.declared.fault.AppFault.TheVariants as app;
ghost use Rattle.kt_program.specs.declared.fault.ProgramFault.TheVariants as program;
ghost use Rattle.kt_program.specs.Ending.{IsOfOutputs};
ghost use Rattle.kt_program.specs.Files.{AreOthers};
ghost use Rattle.kt_program.specs.Outputs.{IsOfWhole, TextGoesTo, contents_of, files_of, keep_for, number_of};

use crate::fault::{AppFault, Failure, ProgramFault};
use crate::files::{FileNumber, is_one, is_twice, number_of, number_of_metadata};
use crate::names::{STANDARD, is_standard, target_of};
use crate::sources::ReadFiles;
use crate::told::{Attempt, Told};
use crate::whole::{whole_of, write_finished};
use kt_run::Keep;
use kt_text::Shown;
use kt_text::pieces::write_whole;
use std::alloc::Global;
use std::fs::{OpenFile, OpenOptions};
use std::io::{Sink, Write};
use std::rt::Files;
use std::{fs, io};

/// A file that is written, the name that was given for it, which regular file it is, where that is told, and why a write to it
/// failed.
#[derive(Drop)]
pub struct Named<W> {
    pub(crate) file: W,
    pub(crate) name: Shown,
    pub(crate) number: Option<FileNumber>,
    why: Option<io::Error>,
}

/// A file that is written, or nothing where none is asked for.
#[derive(Drop)]
pub enum Output<W> {
    File(Named<W>),
    Nowhere(Sink),
}

/// The names of the files that a command writes, as far as they are given.
#[derive(Clone, Copy, Default)]
pub(crate) struct Targets<'a> {
    /// Whether standard output is written.
    pub(crate) prints: bool,
    pub(crate) log: Option<&'a str>,
    pub(crate) cert: Option<&'a str>,
    pub(crate) kept: Option<&'a str>,
}

/// What a run writes: a log, certificates, its steps; and which regular file standard output is, where that is written and
/// told.
#[derive(Drop)]
pub(crate) struct Outputs<W> {
    pub(crate) log: Output<W>,
    pub(crate) cert: Output<W>,
    pub(crate) kept: Output<W>,
    pub(crate) printed: Option<FileNumber>,
}

impl<W: OpenFile> Named<W> {
    /// A file that was opened by this name.
    pub(crate) fn of(file: W, name: Shown) -> Named<W>
        ensures { result.file ≡ file }
    {
        Named {
            number: number_of(&file),
            file,
            name,
            why: None,
        }
    }
}

impl<W> Named<W> {
    /// What is told of a write to it that failed.
    pub(crate) fn told(&self) -> Option<Told> {
        match &self.why {
            Some(error) => Some(Told::attempt(Attempt::Write, self.name, error)),
            None => None,
        }
    }
}

impl<W: Write> Write for Named<W> {
    ghost contents = { λ named. W.contents named.file };

    fn write(&mut self, buf: &[u8]) -> io::Result<usize> {
        match self.file.write(buf) {
            Ok(count) => Ok(count),
            Err(error) => {
                self.why = Some(error);
                Err(error)
            }
        }
    }

    fn flush(&mut self) -> io::Result<()> {
        match self.file.flush() {
            Ok(()) => Ok(()),
            Err(error) => {
                self.why = Some(error);
                Err(error)
            }
        }
    }
}

impl<W> Output<W> {
    // Which regular file it is, where that is told.
    fn number(&self) -> Option<FileNumber>
        ensures { result ≡ number_of self.now }
    {
        match self {
            Output::File(named) => named.number,
            Output::Nowhere(_) => None,
        }
    }

    /// What of a run is kept for it, if it takes the steps: the steps, where there is a file for them.
    pub(crate) fn keep(&self) -> Keep
        ensures { result ≡ keep_for self.now }
    {
        match self {
            Output::File(_) => Keep::Steps,
            Output::Nowhere(_) => Keep::Log,
        }
    }

    // What is told of a write to it that failed.
    fn told(&self) -> Option<Told> {
        match self {
            Output::File(named) => named.told(),
            Output::Nowhere(_) => None,
        }
    }
}

impl<W> Outputs<W> {
    // Which regular files they are, standard output too.
    fn files(&self) -> [Option<FileNumber>; 4]
        ensures { result ≡ files_of self.now }
    {
        [
            self.log.number(),
            self.cert.number(),
            self.kept.number(),
            self.printed,
        ]
    }

    /// What is told of a write that failed: to one of these, or else to standard output.
    pub(crate) fn told(&self) -> Told {
        for output in [&self.log, &self.cert, &self.kept] {
            if let Some(told) = output.told() {
                return told;
            }
        }
        Told::Nothing
    }
}

impl<W: Write> Write for Output<W> {
    ghost contents = { contents_of W.contents };

    fn write(&mut self, buf: &[u8]) -> io::Result<usize> {
        match self {
            Output::File(file) => file.write(buf),
            Output::Nowhere(sink) => sink.write(buf),
        }
    }

    fn flush(&mut self) -> io::Result<()> {
        match self {
            Output::File(file) => file.flush(),
            Output::Nowhere(sink) => sink.flush(),
        }
    }
}

/// The files of these names, opened in this order, or made. None is one that was read or another one, nor is standard output
/// where it is written, as far as that is told. At a fault as at `Ok`, each has what it had.
pub(crate) fn outputs_of<F: Files>(
    files: &F,
    read: &ReadFiles<'_>,
    names: &Targets<'_>,
) -> Result<Outputs<F::File>, Failure>
    ensures apart { IfOk result (λ outputs. AreOthers read.now.numbers (files_of outputs)) }
    ensures fault { IfErr result (λ failure. IsOfOutputs failure.fault) }
{
    let outputs = opened_outputs(files, names)?;
    let found = outputs.files();
    if is_twice(&read.numbers, &found) {
        return Err(Failure {
            fault: ProgramFault::SameFile,
            told: told_twice(read, &found, names),
        });
    }
    Ok(outputs)
}

// What is told of a file that is one of the others: both names.
fn told_twice(read: &ReadFiles<'_>, found: &[Option<FileNumber>; 4], names: &Targets<'_>) -> Told {
    let written = [names.log, names.cert, names.kept, None];
    for (place, output) in found.iter().enumerate() {
        let name = written[place].unwrap_or("standard output");
        for (other, input) in read.numbers.iter().zip(&read.names) {
            if is_one(*output, *other) {
                return Told::one_file(input.unwrap_or(""), name);
            }
        }
        for earlier in 0..place {
            if is_one(*output, found[earlier]) {
                return Told::one_file(written[earlier].unwrap_or(""), name);
            }
        }
    }
    Told::Nothing
}

// The same files, not compared.
fn opened_outputs<F: Files>(files: &F, names: &Targets<'_>) -> Result<Outputs<F::File>, Failure>
    ensures fault { IfErr result (λ failure. failure.fault ≡ program.App app.Write) }
{
    Ok(Outputs {
        log: open_output(files, names.log)?,
        cert: open_output(files, names.cert)?,
        kept: open_output(files, names.kept)?,
        printed: if names.prints {
            printed_file(files)
        } else {
            None
        },
    })
}

// Which regular file standard output is, where that is told.
fn printed_file<F: Files>(files: &F) -> Option<FileNumber> {
    match fs::metadata(files, "/dev/stdout") {
        Ok(metadata) => number_of_metadata(&metadata),
        Err(_) => None,
    }
}

// Opens a file of this name, if one is given, or makes it. What it has stays.
fn open_output<F: Files>(files: &F, name: Option<&str>) -> Result<Output<F::File>, Failure>
    ensures fault { IfErr result (λ failure. failure.fault ≡ program.App app.Write) }
{
    let Some(name) = name else {
        return Ok(Output::Nowhere(io::sink()));
    };
    let shown = Shown::of(name.as_bytes());
    let made = OpenOptions::new()
        .write(true)
        .create(true)
        .open(files, target_of(name));
    match made {
        Ok(file) => Ok(Output::File(Named::of(file, shown))),
        Err(error) => Err(Failure {
            fault: ProgramFault::App(AppFault::Write),
            told: Told::attempt(Attempt::Make, shown, &error),
        }),
    }
}

impl<W: OpenFile> Outputs<W> {
    /// Empties these files, none of which is one that was read or another one of them.
    pub(crate) fn empty(&self, _read: &ReadFiles<'_>) -> Result<(), Failure>
        requires { AreOthers _read.now.numbers (files_of self.now) }
        ensures { IfErr result (λ failure. failure.fault ≡ program.App app.Write) }
    {
        for output in [&self.log, &self.cert, &self.kept] {
            if let Output::File(named) = output {
                if empty_file(&named.file).is_err() {
                    return Err(Failure::from(AppFault::Write));
                }
            }
        }
        Ok(())
    }
}

/// Empties a regular file. Others, as pipes and terminals, have nothing that could be taken away.
pub(crate) fn empty_file<W: OpenFile>(file: &W) -> io::Result<()> {
    if file.metadata()?.is_file() {
        file.set_len(0)?;
    }
    Ok(())
}

/// Writes a text, and flushes the writer; at a fault, a front part of it is written.
pub(crate) fn write_text<W: Write>(text: &[u8], writer: &mut W) -> Result<(), AppFault>
    ensures written { OnOk result (Appends (W.contents writer.old) (W.contents writer.new) text.now) }
    ensures fault { IfErr result (λ e. e ≡ app.Write) }
    ensures stopped { OnErr result (WritesFront (W.contents writer.old) (W.contents writer.new) text.now) }
{
    match write_whole(text, writer) {
        Ok(()) => Ok(()),
        Err(_) => Err(AppFault::Write),
    }
}

/// Writes a text to `out`, which is none of the files that were read, as far as that is told.
pub(crate) fn print_text<F: Files, O: Write>(
    files: &F,
    read: &ReadFiles<'_>,
    text: &[u8],
    out: &mut O,
) -> Result<(), Failure>
    ensures printed { OnOk result (Appends (O.contents out.old) (O.contents out.new) text.now) }
    ensures fault { IfErr result (λ failure. IsOfOutputs failure.fault) }
    ensures kept { IfErr result (λ failure. failure.fault ≢ program.App app.Write → O.contents out.new ≡ O.contents out.old) }
{
    let targets = Targets {
        prints: true,
        ..Targets::default()
    };
    outputs_of(files, read, &targets)?;
    write_text(text, out)?;
    Ok(())
}

/// Writes a text that was made of files that were read: as the whole of the file of this name, which is none of them, or to
/// `out` where none is named, or `-` is.
pub(crate) fn deliver<F: Files, O: Write>(
    files: &F,
    alloc: Global,
    read: &ReadFiles<'_>,
    text: &[u8],
    name: Option<&str>,
    out: &mut O,
) -> Result<(), Failure>
    ensures output { OnOk result (TextGoesTo name.entry text.now (O.contents out.old) (O.contents out.new)) }
    ensures fault { IfErr result (λ failure. IsOfWhole failure.fault) }
    ensures kept { IfErr result (λ failure. failure.fault ≢ program.App app.Write → O.contents out.new ≡ O.contents out.old) }
{
    if is_standard(name) {
        print_text(files, read, text, out)?;
        return Ok(());
    }
    let whole = whole_of(files, alloc, read, name.unwrap_or(STANDARD))?;
    write_finished(files, whole, text)?;
    Ok(())
}
