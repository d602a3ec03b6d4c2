//! A scenario run, serially or by threads, from its files.

ghost use Rattle.std.specs.Prelude.{◌≡◌, IfOk, IfErr, OnOk};
ghost use Rattle.kt_program.specs.declared.ending.Done.TheVariants.{Played};
ghost use Rattle.kt_program.specs.Ending.{AppendsRun, IsNotOfSteps, IsOfInput, IsOfNamedSteps, LeavesPlayed};
ghost use Rattle.kt_program.specs.Inputs.{AreGiven, IsPlanOfFile};

use crate::ending::Done;
use crate::fault::{AppFault, Failure, ProgramFault};
use crate::inputs::{StepsRead, plan_of, steps_of};
use crate::line::Run;
use crate::outputs::{Outputs, Targets, outputs_of};
use crate::runs::run_objects;
use crate::sources::{ReadFiles, Role, open_input};
use crate::told::Told;
use kt_core::StepFault;
use kt_plan::Plan;
use kt_promises::Hindrance;
use kt_run::RunFault;
use kt_text::Shown;
use std::alloc::Global;
use std::io::Write;
use std::rt::Files;
use std::sync::Wait;
use std::thread::Threads;

/// Runs the scenario in a file, with the steps of another one first, if that is named, and writes its log, its certificates and
/// its steps into files where these are named, and its report.
///
/// Files are made once the scenario and the steps were taken, and emptied once all are open and none is one that was read or
/// another one of them.
#[inline(never)]
#[tactic(auto, using(crate::proofs::MadeRuns::outputs_named, crate::proofs::MadeRuns::report_of_made, crate::proofs::MadeRuns::made_of_file, crate::proofs::MadeRuns::left_of_made, crate::proofs::MadeRuns::app_named))]
pub(crate) fn run_files<F: Files + Threads + Wait + Sync, O: Write>(
    rt: &F,
    alloc: Global,
    run: &Run<'_>,
    out: &mut O,
) -> Result<Done, Failure>
    ensures done { IfOk result (λ what. what ≡ Played) }
    ensures output { LeavesPlayed result (O.contents out.old) (O.contents out.new) }
    // The run whose report is written is that of the scenario; it begins with the steps that were read, and goes on as is
    // asked.
    ensures made { OnOk result (AppendsRun F.File.remaining run.now (O.contents out.old) (O.contents out.new)) }
    // Steps are refused only where they are named.
    ensures steps { IfErr result (λ failure. IsOfNamedSteps run.now.steps failure.fault) }
{
    let mut read = ReadFiles::none();
    let plan = scenario_in(rt, alloc, run.scenario, &mut read)?;
    let given = steps_in(rt, alloc, run.steps, &plan, &mut read)?;
    let targets = Targets {
        prints: true,
        log: run.log,
        cert: run.cert,
        kept: run.kept,
    };
    let mut outputs = outputs_of(rt, &read, &targets)?;
    outputs.empty(&read)?;
    let steps = given.steps.as_slice();
    let mut hindrance = None;
    match run_objects(
        rt,
        alloc,
        &plan,
        steps,
        run,
        &mut hindrance,
        &mut outputs,
        out,
    ) {
        Ok(()) => Ok(Done::Played),
        Err(fault) => Err(Failure {
            fault: ProgramFault::App(fault),
            told: told_of_run(run.steps, &given, &outputs, &fault, hindrance),
        }),
    }
}

// What is told of a fault of a run: the step that is not enabled, of those in the file of this name, or the output that could
// not be written.
fn told_of_run<W>(
    name: Option<&str>,
    given: &StepsRead,
    outputs: &Outputs<W>,
    fault: &AppFault,
    hindrance: Option<Hindrance>,
) -> Told {
    match (fault, name) {
        (AppFault::Write, _) => outputs.told(),
        (AppFault::Run(RunFault::Step(done, StepFault::NotEnabled)), Some(name)) => Told::step(
            Shown::of(name.as_bytes()),
            given.text.as_slice(),
            *done,
            hindrance,
        ),
        _ => Told::Nothing,
    }
}

/// The plan of the scenario in this file.
pub(crate) fn scenario_in<'a, F: Files>(
    files: &F,
    alloc: Global,
    name: &'a str,
    read: &mut ReadFiles<'a>,
) -> Result<Plan, Failure>
    ensures plan { IfOk result (IsPlanOfFile F.File.remaining) }
    ensures input { IfErr result (λ failure. IsOfInput failure.fault) }
    ensures fault { IfErr result (λ failure. IsNotOfSteps failure.fault) }
{
    let mut input = open_input(files, Role::Scenario, name, read)?;
    plan_of(alloc, &mut input)
}

// The steps in this file; none where none is named.
fn steps_in<'a, F: Files>(
    files: &F,
    alloc: Global,
    name: Option<&'a str>,
    plan: &Plan,
    read: &mut ReadFiles<'a>,
) -> Result<StepsRead, Failure>
    ensures steps { IfOk result (λ given. AreGiven F.File.remaining name.entry plan.now.names given.steps.items) }
    ensures fault { IfErr result (λ failure. IsOfInput failure.fault) }
    ensures named { IfErr result (λ failure. IsOfNamedSteps name.entry failure.fault) }
{
    let Some(name) = name else {
        return Ok(StepsRead {
            steps: Vec::new(alloc),
            text: Vec::new(alloc),
        });
    };
    let mut input = open_input(files, Role::Steps, name, read)?;
    steps_of(alloc, &mut input, plan)
}
