//! Stored logs drawn.

ghost use Rattle.std.specs.Prelude.{◌≡◌, IfOk, IfErr, OnOk};
ghost use Rattle.kt_draw.specs.Drawn.{IsPictureOf};
ghost use Rattle.kt_program.specs.declared.ending.Done.TheVariants.{Drawn};
ghost use Rattle.kt_program.specs.declared.fault.AppFault.TheVariants as app;
ghost use Rattle.kt_program.specs.Drawn.{AreNamesOf, DrawsTo, IsCertifiedPictureOf, IsOfDrawing, IsOfNames, IsPictureWith, IsUndrawn, IsUndrawnRun, LeavesDrawn};
ghost use Rattle.kt_program.specs.Names.{Name};

use crate::ending::Done;
use crate::fault::{AppFailure, AppFault, Failure};
use crate::line::Drawing;
use crate::outputs::deliver;
use crate::running::scenario_in;
use crate::sources::{ReadFiles, Role, open_input};
use crate::stored::{StoredRun, read_stored, told_of_log};
use crate::told::Told;
use kt_draw::{DrawFault, Span, draw_certified, draw_rows};
use kt_log_text::RowReader;
use kt_plan::Names;
use kt_text::Input;
use std::alloc::Global;
use std::io::{Read, Write};
use std::rt::Files;

/// Draws rows of the log in a file into the file that is named for the picture, else to `out`.
///
/// A log is drawn up to the first row that breaks a rule; that row is marked, and what comes after it is not read as rows.
/// The line below says so, or that the log is legal, and with certificates what the checker answers. That file is opened once
/// the picture was made, and appears whole.
#[inline(never)]
#[tactic(auto, using(crate::proofs::Pictures::leaves, crate::proofs::Pictures::of_names))]
pub(crate) fn draw_files<F: Files, O: Write>(
    files: &F,
    alloc: Global,
    asked: &Drawing<'_>,
    out: &mut O,
) -> Result<Done, Failure>
    ensures done { IfOk result (λ what. what ≡ Drawn) }
    ensures drawn { OnOk result (DrawsTo F.File.remaining asked.now (O.contents out.old) (O.contents out.new)) }
    ensures fault { IfErr result (λ failure. IsOfDrawing asked.now.names failure.fault) }
    ensures output { LeavesDrawn result (O.contents out.old) (O.contents out.new) }
{
    let mut read = ReadFiles::none();
    let names = names_in(files, alloc, asked.names, &mut read)?;
    let log = open_input(files, Role::Log, asked.log, &mut read)?;
    let text = drawn_with(files, alloc, log, asked, &names, &mut read)?;
    deliver(files, alloc, &read, text.as_slice(), asked.svg, out)?;
    Ok(Done::Drawn)
}

// The picture of the log that an input tells, with the certificates in the file that is named for them, if one is.
fn drawn_with<'a, F: Files>(
    files: &F,
    alloc: Global,
    log: Input<F::File>,
    asked: &Drawing<'a>,
    names: &Names,
    read: &mut ReadFiles<'a>,
) -> Result<Vec<u8>, Failure>
    ensures picture { IfOk result (λ text. IsPictureWith F.File.remaining asked.now.cert names.now asked.now.span
        (F.File.remaining log.source) text.items) }
    ensures fault { (name : Name) → IfErr result (λ failure. IsOfNames name failure.fault) }
{
    let Some(cert) = asked.cert else {
        return Ok(draw_log(alloc, log, names, asked.span)?);
    };
    let cert = open_input(files, Role::Certificates, cert, read)?;
    Ok(draw_run(alloc, log, cert, names, asked.span)?)
}

// The names of the objects of the scenario in this file; none where none is named.
fn names_in<'a, F: Files>(
    files: &F,
    alloc: Global,
    scenario: Option<&'a str>,
    read: &mut ReadFiles<'a>,
) -> Result<Names, Failure>
    ensures names { IfOk result (AreNamesOf F.File.remaining scenario.entry) }
    ensures fault { IfErr result (λ failure. IsOfNames scenario.entry failure.fault) }
{
    let Some(scenario) = scenario else {
        return Ok(Names::new(alloc));
    };
    let plan = scenario_in(files, alloc, scenario, read)?;
    Ok(plan.names)
}

// The picture of rows of the log that an input tells, with the certificates that another one tells.
#[tactic(auto, using(crate::proofs::Pictures::unread_run, crate::proofs::Pictures::undrawn_run))]
fn draw_run<L: Read + Drop, C: Read + Drop>(
    alloc: Global,
    log: Input<L>,
    cert: Input<C>,
    names: &Names,
    span: Span,
) -> Result<Vec<u8>, AppFailure>
    ensures picture { IfOk result (λ text. IsCertifiedPictureOf names.now span
        (L.remaining log.source) (C.remaining cert.source) text.items) }
    ensures fault { IfErr result (λ failure. IsUndrawnRun span
        (L.remaining log.source) (C.remaining cert.source) failure.fault) }
{
    let StoredRun { log, certificates } = read_stored(alloc, log, cert)?;
    match draw_certified(alloc, &log, certificates.as_slice(), names, span) {
        Ok(text) => Ok(text),
        Err(fault) => Err(AppFailure::from(AppFault::from(fault))),
    }
}

// The picture of rows of the log that an input tells.
#[tactic(auto, using(crate::proofs::Pictures::undrawn))]
fn draw_log<L: Read + Drop>(
    alloc: Global,
    log: Input<L>,
    names: &Names,
    span: Span,
) -> Result<Vec<u8>, AppFailure>
    ensures picture { IfOk result (λ text. IsPictureOf names.now span (L.remaining log.source) text.items) }
    ensures fault { IfErr result (λ failure. IsUndrawn span (L.remaining log.source) failure.fault) }
{
    let mut rows = RowReader::new(alloc, log)?;
    match draw_rows(alloc, &mut rows, names, span) {
        Ok(text) => Ok(text),
        Err(fault) => {
            let told = told_of(&rows, &fault);
            Err(AppFailure {
                fault: AppFault::from(fault),
                told,
            })
        }
    }
}

// What is told of a log of which there is no such picture.
fn told_of<L: Read + Drop>(rows: &RowReader<Input<L>>, fault: &DrawFault) -> Told {
    match fault {
        DrawFault::Log(fault) => told_of_log(rows, fault),
        DrawFault::Picture(_) => Told::Nothing,
    }
}
