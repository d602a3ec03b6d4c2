//! Stored logs judged, by the certificates that are named or by those that they mean, and the answers told of.

ghost use Rattle.std.specs.Prelude.{◌≡◌, ℕ, None, List, [], false, IfOk, IfErr, IfSome, IsSome, option_map};
ghost use Rattle.kt_checker.specs.Streamed.{SaysRows};
ghost use Rattle.kt_explain.specs.Answers.{passes};
ghost use Rattle.kt_explain.specs.declared.answer.Answer.{Answer as Answers};
ghost use Rattle.kt_program.specs.declared.fault.AppFault.TheVariants as app;
ghost use Rattle.kt_program.specs.Certified.{IsUncertified};
ghost use Rattle.kt_program.specs.Ending.{IsOfJudging, LeavesAnswer};
ghost use Rattle.kt_program.specs.Judging.{AnswersFiles, AreOfFiles, IsAnswered, Say};
ghost use Rattle.kt_program.specs.Stored.{answer_text};

use crate::checked::answer_text;
use crate::fault::{AppFailure, AppFault, Failure};
use crate::line::Judging;
use crate::outputs::print_text;
use crate::sources::{ReadFiles, Role, open_input};
use crate::stored::{read_log, read_stored};
use kt_explain::{Lines, Numbered, RecordLines, Told, judge};
use kt_spacetime::{Certificate, SpaceTime};
use kt_text::{Input, Shown};
use std::alloc::Global;
use std::fmt::Display;
use std::io::{Read, Write};
use std::rt::Files;

/// A log, the certificates that are named for it, and on which lines of their files the records begin.
#[derive(Drop)]
pub(crate) struct LogToJudge {
    pub(crate) log: SpaceTime,
    named: Option<Vec<Certificate>>,
    pub(crate) rows: RecordLines,
    records: RecordLines,
}

// The text of an answer with what is told of it, and whether it is a yes.
#[derive(Drop)]
struct Answered {
    text: Vec<u8>,
    passed: bool,
}

/// Judges the log in a file by the certificates in another one, or else by those that it means, and writes the answer, with
/// what is told of it where that is asked; true for a yes. It keeps the rows of the log in memory.
#[inline(never)]
pub(crate) fn judge_files<F: Files, O: Write>(
    files: &F,
    alloc: Global,
    asked: &Judging<'_>,
    out: &mut O,
) -> Result<bool, Failure>
    ensures answer { LeavesAnswer result (O.contents out.old) (O.contents out.new) }
    ensures fault { IfErr result (λ failure. IsOfJudging failure.fault) }
    // The answer is that to the bytes of the files, and what is told of it is so.
    ensures judged { IfOk result (AnswersFiles F.File.remaining asked.now (O.contents out.old) (O.contents out.new)) }
{
    let mut read = ReadFiles::none();
    let stored = log_in(files, alloc, asked, &mut read)?;
    let answered = answer_to(alloc, stored, asked)?;
    print_text(files, &read, answered.text.as_slice(), out)?;
    Ok(answered.passed)
}

// The log that is asked for, and the certificates in the file that is named for them.
fn log_in<'a, F: Files>(
    files: &F,
    alloc: Global,
    asked: &Judging<'a>,
    read: &mut ReadFiles<'a>,
) -> Result<LogToJudge, Failure>
    ensures read { IfOk result (λ stored. AreOfFiles F.File.remaining asked.now.cert stored.log.rows
        (option_map (λ list. list.items) stored.named)) }
    ensures fault { IfErr result (λ failure. IsOfJudging failure.fault) }
{
    let log = open_input(files, Role::Log, asked.log, read)?;
    let Some(name) = asked.cert else {
        let stored = read_alone(alloc, log)?;
        return Ok(stored);
    };
    let cert = open_input(files, Role::Certificates, name, read)?;
    let stored = read_both(alloc, log, cert)?;
    Ok(stored)
}

/// The log that an input tells.
pub(crate) fn read_alone<L: Read + Drop>(
    alloc: Global,
    log: Input<L>,
) -> Result<LogToJudge, AppFailure>
    ensures rows { IfOk result (λ stored. SaysRows (L.remaining log.source) stored.log.rows) }
    ensures named { IfOk result (λ stored. stored.named ≡ None) }
    ensures fault { IfErr result (λ failure. IsUncertified (L.remaining log.source) failure.fault) }
{
    let name = log.name;
    let mut rows = Numbered::new(alloc, log);
    let mut log = Input::new(&mut rows, "");
    log.name = name;
    let log = read_log(alloc, log)?;
    if rows.lines.is_short {
        return Err(AppFailure::from(AppFault::Memory));
    }
    Ok(LogToJudge {
        log,
        named: None,
        rows: rows.lines,
        records: RecordLines::new(alloc),
    })
}

// The log and the certificates that the inputs tell.
fn read_both<L: Read + Drop, C: Read + Drop>(
    alloc: Global,
    log: Input<L>,
    cert: Input<C>,
) -> Result<LogToJudge, AppFailure>
    ensures read { IfOk result (λ stored. IfSome stored.named (λ named. Say (L.remaining log.source)
        (C.remaining cert.source) stored.log.rows named.items)) }
    ensures named { IfOk result (λ stored. IsSome stored.named) }
{
    let (log_name, cert_name) = (log.name, cert.name);
    let mut rows = Numbered::new(alloc, log);
    let mut records = Numbered::new(alloc, cert);
    let mut log = Input::new(&mut rows, "");
    log.name = log_name;
    let mut cert = Input::new(&mut records, "");
    cert.name = cert_name;
    let run = read_stored(alloc, log, cert)?;
    if rows.lines.is_short || records.lines.is_short {
        return Err(AppFailure::from(AppFault::Memory));
    }
    Ok(LogToJudge {
        log: run.log,
        named: Some(run.certificates),
        rows: rows.lines,
        records: records.lines,
    })
}

// What is answered to a log, and what is told of it.
fn answer_to(alloc: Global, stored: LogToJudge, asked: &Judging<'_>) -> Result<Answered, AppFault>
    ensures answer { IfOk result (λ answered. (answer : Answers) × (lines : List ℕ)
        × IsAnswered stored.log.rows (option_map (λ list. list.items) stored.named) asked.now answer lines
        × (answered.passed ≡ passes answer) × (answered.text.items ≡ answer_text answer lines)) }
    ensures fault { IfErr result (λ e. e ≡ app.Memory) }
{
    let LogToJudge {
        log,
        named,
        rows,
        records,
    } = stored;
    let judgement = judge(alloc, &log, named, asked.explains, asked.at_rest)?;
    let (log_name, cert_name) = names_of(alloc, asked)?;
    let told = Told {
        alloc,
        log: &log,
        certificates: judgement.certificates.as_slice(),
        row: judgement.answer.row(),
        explanation: &judgement.explanation,
        rows: Lines {
            name: log_name.as_str(),
            count: rows.count,
            runs: rows.runs.as_slice(),
        },
        records: Lines {
            name: cert_name.as_str(),
            count: records.count,
            runs: records.runs.as_slice(),
        },
    };
    let lines = lines_of(alloc, &told, asked.explains)?;
    Ok(Answered {
        text: answer_text(alloc, &judgement.answer, lines.as_str())?,
        passed: judgement.answer.passes(),
    })
}

// The names of the files as they are shown: the log's, and the certificates'.
fn names_of(alloc: Global, asked: &Judging<'_>) -> Result<(String, String), AppFault>
    ensures { IfErr result (λ e. e ≡ app.Memory) }
{
    let log = text_of(alloc, &Shown::of(asked.log.as_bytes()))?;
    let cert = text_of(alloc, &Shown::of(asked.cert.unwrap_or("").as_bytes()))?;
    Ok((log, cert))
}

// The words of a value.
fn text_of<D: Display>(alloc: Global, value: &D) -> Result<String, AppFault>
    ensures { IfErr result (λ e. e ≡ app.Memory) }
{
    match format!(in alloc; "{value}") {
        Ok(text) => Ok(text),
        Err(_) => Err(AppFault::Memory),
    }
}

// The lines of what is told, where they are wanted.
fn lines_of(alloc: Global, told: &Told<'_>, wanted: bool) -> Result<String, AppFault>
    ensures none { IfOk result (λ lines. wanted ≡ false → lines.bytes.items ≡ []) }
    ensures fault { IfErr result (λ e. e ≡ app.Memory) }
{
    if !wanted {
        return Ok(String::new(alloc));
    }
    text_of(alloc, told)
}
