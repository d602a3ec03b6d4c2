//! What the program does, whatever gives its words, its files and its writers.

ghost use Rattle.std.specs.Prelude.{◌≡◌, ◌≢◌, IfOk, IfErr};
ghost use Rattle.std.specs.IoError.{error_kind};
ghost use Rattle.std.specs.declared.io.ErrorKind.TheVariants as io;
ghost use Rattle.clap.specs.Words.{kind_of};
ghost use Rattle.kt_program.specs.declared.ending.Done.TheVariants.{Shown};
ghost use Rattle.kt_program.specs.declared.fault.AppFault.TheVariants as app;
ghost use Rattle.kt_program.specs.declared.fault.ProgramFault.TheVariants as program;
ghost use Rattle.kt_program.specs.Asking.{EndsFor, IsRequest, IsUnshown};
ghost use Rattle.kt_program.specs.Ending.{CertifiedFor, DrawnFor, Ends, EndsOn, JudgedFor, LeavesOutput, MergedFor, PlayedFor};

use crate::ask::{AskFault, asked};
use crate::certified::certify_files;
use crate::checked::check_files;
use crate::drawn::draw_files;
use crate::ending::{Done, end, end_told};
use crate::fault::{AppFault, Failure, ProgramFault};
use crate::judging::judge_files;
use crate::line::{Asked, Run};
use crate::merged::merge_files;
use crate::running::run_files;
use crate::streams::StandIns;
use crate::told::Told;
use crate::words::Words;
use clap::Error;
use clap::error::ErrorKind;
use std::alloc::Global;
use std::env::FillError;
use std::io::Write;
use std::rt::{Env, Files};
use std::sync::Wait;
use std::thread::Threads;
use std::{env, io};

/// Does what the words of the command line ask, writes the answer to `out` and a fault's line to `err`, and gives the exit
/// status. Below that line it writes what is wrong, and where, if `err` is a terminal, `--hints` stands among the words, or
/// the environment has `KOO_TOUEG_HINTS` with another text than `0`. No standard stream's descriptor is free meanwhile, as far
/// as it can be stood in for.
pub fn run<V: Env, F: Files + Threads + Wait + Sync, O: Write, E: Write>(
    env: &V,
    files: &F,
    alloc: Global,
    _stand_ins: &StandIns<F::File>,
    terminal: bool,
    out: &mut O,
    err: &mut E,
) -> u8
    ensures { Ends result (O.contents out.old) (O.contents out.new) (E.contents err.old) (E.contents err.new) }
{
    let hints = terminal || asks_for_hints(env);
    match words_of(env, alloc) {
        Ok(words) => run_words(files, alloc, &words, hints, out, err),
        Err(fault) => end(Err(fault), err),
    }
}

/// Does what these words ask, as `run` does what those of the command line ask; `hints` is true where it tells what is wrong
/// though no word asks for that.
pub fn run_words<F: Files + Threads + Wait + Sync, O: Write, E: Write>(
    files: &F,
    alloc: Global,
    words: &Words,
    hints: bool,
    out: &mut O,
    err: &mut E,
) -> u8
    ensures { EndsOn words.now result (O.contents out.old) (O.contents out.new)
        (E.contents err.old) (E.contents err.new) }
{
    let hints = hints || words.ask_for_hints();
    let outcome = carry_out(files, alloc, words, hints, out);
    end_told(hints, outcome, err)
}

/// Does what these words ask, and writes the answer or the help to `out`; `hints` is true where what is wrong is told too.
pub fn carry_out<F: Files + Threads + Wait + Sync, O: Write>(
    files: &F,
    alloc: Global,
    words: &Words,
    hints: bool,
    out: &mut O,
) -> Result<Done, Failure>
    // What is done, or that the words are refused, is what clap's definition of the command line gives for them.
    ensures words { EndsFor words.now result }
    ensures output { LeavesOutput words.now result (O.contents out.old) (O.contents out.new) }
    // A scenario that is played begins with the steps of the file that the words name.
    ensures played { IfOk result (PlayedFor words.now F.File.remaining (O.contents out.old) (O.contents out.new)) }
    // The answer that is written is that to the bytes of the files, and what is told of it is so.
    ensures judged { IfOk result (JudgedFor words.now F.File.remaining (O.contents out.old) (O.contents out.new)) }
    // The certificates that are written are those of the rows that a file says, and go where the words ask.
    ensures certified { IfOk result (CertifiedFor words.now F.File.remaining (O.contents out.old) (O.contents out.new)) }
    // The picture that is drawn is that of the rows that the words ask for, of the log that a file says, and goes where they
    // ask.
    ensures drawn { IfOk result (DrawnFor words.now F.File.remaining (O.contents out.old) (O.contents out.new)) }
    // The log that is merged is that of parts that files say, and goes where the words ask.
    ensures merged { IfOk result (MergedFor words.now F.File.remaining (O.contents out.old) (O.contents out.new)) }
{
    match asked(alloc, words) {
        Ok(
            Asked::Play {
                scenario,
                steps,
                log,
                cert,
            },
        ) => run_files(files, alloc, &Run::played(scenario, steps, log, cert), out),
        Ok(
            Asked::Live {
                scenario,
                log,
                cert,
            },
        ) => run_files(files, alloc, &Run::lived(scenario, log, cert), out),
        Ok(Asked::Run(run)) => run_files(files, alloc, &run, out),
        Ok(Asked::Check { log, cert }) => match check_files(files, alloc, log, cert, out) {
            Ok(passed) => Ok(Done::Judged(passed)),
            Err(failure) => Err(failure),
        },
        Ok(Asked::Judge(judging)) => match judge_files(files, alloc, &judging, out) {
            Ok(passed) => Ok(Done::Judged(passed)),
            Err(failure) => Err(failure),
        },
        Ok(Asked::Certify { log, cert }) => {
            certify_files(files, alloc, log, cert, hints, out)?;
            Ok(Done::Certified)
        }
        Ok(Asked::Draw(picture)) => draw_files(files, alloc, &picture, out),
        Ok(Asked::Merge(merging)) => merge_files(files, alloc, &merging, hints, out),
        Err(AskFault::Line(error)) => match show_text(out, &error) {
            Ok(done) => Ok(done),
            Err(fault) => Err(Failure {
                fault,
                told: Told::words(alloc, &error),
            }),
        },
        Err(AskFault::SameName(name)) => Err(Failure {
            fault: ProgramFault::Line,
            told: Told::one_file(name, name),
        }),
        Err(AskFault::Memory) => Err(Failure::from(AppFault::Memory)),
    }
}

// Whether the environment asks for what is told below a fault's line.
fn asks_for_hints<V: Env>(env: &V) -> bool {
    let mut text = [0; 2];
    match env.var("KOO_TOUEG_HINTS", &mut text) {
        Ok(1) => text[0] != b'0',
        Ok(_) | Err(FillError::TooLong) => true,
        Err(FillError::NotPresent) => false,
    }
}

// The words that the program was called with.
fn words_of<V: Env>(env: &V, alloc: Global) -> Result<Words, ProgramFault> {
    let mut words = Words::new(alloc);
    match env::args(&(env, alloc)) {
        Ok(arguments) => {
            for word in arguments {
                words.push(word.as_str())?;
            }
            Ok(words)
        }
        Err(error) => Err(words_fault(&error)),
    }
}

// Why the words were not given: there was no memory, or a word is no text.
fn words_fault(error: &io::Error) -> ProgramFault
    ensures memory { error_kind error.now ≡ io.OutOfMemory → result ≡ program.App app.Memory }
    ensures line { error_kind error.now ≢ io.OutOfMemory → result ≡ program.Line }
{
    match error.kind() {
        io::ErrorKind::OutOfMemory => ProgramFault::App(AppFault::Memory),
        _ => ProgramFault::Line,
    }
}

// Writes the help or the version that was asked for. Any other error of clap is a refusal, or want of memory.
fn show_text<O: Write>(out: &mut O, error: &Error) -> Result<Done, ProgramFault>
    ensures shown { IfOk result (λ what. (what ≡ Shown) × IsRequest (kind_of error.now)) }
    ensures refused { IfErr result (IsUnshown (kind_of error.now)) }
    ensures output { IfErr result (λ fault. fault ≢ program.App app.Write → O.contents out.new ≡ O.contents out.old) }
{
    match error.kind() {
        ErrorKind::DisplayHelp | ErrorKind::DisplayVersion => match write_text(out, error) {
            Ok(()) => Ok(Done::Shown),
            Err(_) => Err(ProgramFault::App(AppFault::Write)),
        },
        ErrorKind::OutOfMemory => Err(ProgramFault::App(AppFault::Memory)),
        _ => Err(ProgramFault::Line),
    }
}

// Writes clap's text.
fn write_text<O: Write>(out: &mut O, error: &Error) -> io::Result<()> {
    write!(out, "{error}")?;
    out.flush()
}
