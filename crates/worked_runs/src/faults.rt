//! The lines and the exit statuses of faults that no command line has here.

use kt_base::{ProcNo, RowNo};
use kt_chain::CertTextFault;
use kt_core::StepFault;
use kt_log_text::LogFault;
use kt_program::{AppFault, ProgramFault, end};
use kt_run::RunFault;
use kt_threads::LiveFault;
use std::io;

// Such faults, those of a process at this one, and those of a row in this one.
fn faults_at(p: ProcNo, row: RowNo) -> [AppFault; 20] {
    [
        AppFault::Log(LogFault::Number(row)),
        AppFault::Log(LogFault::Memory),
        AppFault::Cert(CertTextFault::Place(524_288)),
        AppFault::Cert(CertTextFault::Memory),
        AppFault::Run(RunFault::CastSize),
        AppFault::Run(RunFault::CastKind(p)),
        AppFault::Run(RunFault::Object(p)),
        AppFault::Run(RunFault::Journal(p)),
        AppFault::Run(RunFault::Step(2, StepFault::LogFull)),
        AppFault::Run(RunFault::Step(2, StepFault::LabelsSpent)),
        AppFault::Live(LiveFault::CastSize),
        AppFault::Live(LiveFault::CastKind(p)),
        AppFault::Live(LiveFault::Object(p)),
        AppFault::Live(LiveFault::Journal(p)),
        AppFault::Live(LiveFault::Step(StepFault::NotEnabled)),
        AppFault::Live(LiveFault::Step(StepFault::LogFull)),
        AppFault::Live(LiveFault::Step(StepFault::LabelsSpent)),
        AppFault::Live(LiveFault::Spawn),
        AppFault::Live(LiveFault::Differ),
        AppFault::Memory,
    ]
}

/// Shows the lines of faults and their exit statuses.
pub(crate) fn show_faults<R: Print>(rt: &R) -> io::Result<()> {
    for fault in &faults_at(ProcNo::nth(1), RowNo::after(16_777_215)) {
        let status = end(Err(ProgramFault::App(*fault)), &mut io::writer(rt));
        println!(rt; "status {status}")?;
    }
    Ok(())
}
