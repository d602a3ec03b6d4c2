//! Why the program could not do what it was asked.

ghost use Rattle.std.specs.Prelude.{◌≡◌};
ghost use Rattle.kt_program.specs.declared.fault.AppFault.TheVariants as app;
ghost use Rattle.kt_program.specs.declared.fault.ProgramFault.TheVariants as program;
ghost use Rattle.kt_program.specs.Faults.{fault_status, merge_status, refusal_status};
ghost use Rattle.kt_program.specs.Certified.{of_stream};
ghost use Rattle.kt_program.specs.Drawn.{of_draw};
ghost use Rattle.kt_program.specs.Merged.{of_merge};
ghost use Rattle.kt_program.specs.Played.{of_cert_fault, of_live, of_run, of_writing};

use crate::told::Told;
use kt_base::Memory;
use kt_certify::StreamFault;
use kt_chain::CertTextFault;
use kt_core::StepFault;
use kt_draw::{DrawFault, PictureFault};
use kt_log_text::LogFault;
use kt_merge::{MergeFault, PartFault};
use kt_run::RunFault;
use kt_scenario::{ScenarioFault, StepsFault};
use kt_spacetime::{CertFault, Unfit};
use kt_text::WriteFault;
use kt_threads::LiveFault;
use thiserror::Error;

/// Why a run was not played, a stored run not judged, certified or drawn, or parts were not merged.
#[derive(Clone, Copy, Debug, Error)]
pub enum AppFault {
    /// The log's text was refused.
    #[error(transparent)]
    Log(LogFault),
    /// The certificates' text was refused.
    #[error(transparent)]
    Cert(CertTextFault),
    /// The run came to no end.
    #[error(transparent)]
    Run(RunFault),
    /// The run by threads came to no end.
    #[error(transparent)]
    Live(LiveFault),
    /// The log of the run has no certificates.
    #[error("run: Uncertified")]
    Uncertified(CertFault),
    /// A stored log has no certificates.
    #[error(transparent)]
    Unfit(Unfit),
    /// A run has more steps than a text of steps may have.
    #[error("record too long")]
    RecordTooLong,
    /// A stored log has no such picture.
    #[error(transparent)]
    Picture(PictureFault),
    /// Parts have no log.
    #[error(transparent)]
    Merge(MergeFault),
    /// A writer failed.
    #[error("write fault")]
    Write,
    /// There was no memory.
    #[error("memory")]
    Memory,
}

impl AppFault {
    /// The program's exit status: 1 for a log that has no certificates, 2 for refused input, 3 for a read or write fault, 4
    /// for want of memory or a run that can't go on.
    pub fn status(self) -> u8
        ensures { result ≡ fault_status self }
    {
        match self {
            AppFault::Log(LogFault::Read) | AppFault::Cert(CertTextFault::Read) => 3,
            AppFault::Merge(fault) => merge_status(fault),
            AppFault::Log(LogFault::Memory) | AppFault::Cert(CertTextFault::Memory) => 4,
            AppFault::Log(_) | AppFault::Cert(_) | AppFault::Picture(_) => 2,
            AppFault::RecordTooLong | AppFault::Run(RunFault::Step(_, StepFault::NotEnabled)) => 2,
            AppFault::Run(_) | AppFault::Live(_) | AppFault::Uncertified(_) => 4,
            AppFault::Unfit(_) => 1,
            AppFault::Write => 3,
            AppFault::Memory => 4,
        }
    }
}

// The exit status of a fault of parts.
fn merge_status(fault: MergeFault) -> u8
    ensures { result ≡ merge_status fault }
{
    match fault {
        MergeFault::Part(_, PartFault::Read) | MergeFault::Write => 3,
        MergeFault::Part(_, PartFault::Memory) | MergeFault::Memory => 4,
        MergeFault::Part(..) | MergeFault::Row(..) => 2,
    }
}

impl From<Memory> for AppFault {
    ghost from_gives = { λ _ f. f ≡ app.Memory };

    fn from(_fault: Memory) -> AppFault {
        AppFault::Memory
    }
}

impl From<RunFault> for AppFault {
    ghost from_gives = { λ fault f. f ≡ of_run fault };

    fn from(fault: RunFault) -> AppFault {
        match fault {
            RunFault::Memory => AppFault::Memory,
            _ => AppFault::Run(fault),
        }
    }
}

impl From<LiveFault> for AppFault {
    ghost from_gives = { λ fault f. f ≡ of_live fault };

    fn from(fault: LiveFault) -> AppFault {
        match fault {
            LiveFault::Memory => AppFault::Memory,
            _ => AppFault::Live(fault),
        }
    }
}

impl From<CertFault> for AppFault {
    ghost from_gives = { λ fault f. f ≡ of_cert_fault fault };

    fn from(fault: CertFault) -> AppFault {
        match fault {
            CertFault::Memory => AppFault::Memory,
            _ => AppFault::Uncertified(fault),
        }
    }
}

impl From<StreamFault> for AppFault {
    ghost from_gives = { λ fault f. f ≡ of_stream fault };

    fn from(fault: StreamFault) -> AppFault {
        match fault {
            StreamFault::Log(LogFault::Memory) => AppFault::Memory,
            StreamFault::Log(fault) => AppFault::Log(fault),
            StreamFault::Unfit(unfit) => AppFault::Unfit(unfit),
        }
    }
}

impl From<MergeFault> for AppFault {
    ghost from_gives = { λ fault f. f ≡ of_merge fault };

    fn from(fault: MergeFault) -> AppFault {
        match fault {
            MergeFault::Write | MergeFault::Memory => AppFault::Memory,
            MergeFault::Part(_, PartFault::Memory) => AppFault::Memory,
            _ => AppFault::Merge(fault),
        }
    }
}

impl From<DrawFault> for AppFault {
    ghost from_gives = { λ fault f. f ≡ of_draw fault };

    fn from(fault: DrawFault) -> AppFault {
        match fault {
            DrawFault::Log(LogFault::Memory) => AppFault::Memory,
            DrawFault::Log(fault) => AppFault::Log(fault),
            DrawFault::Picture(why) => AppFault::Picture(why),
        }
    }
}

impl From<WriteFault> for AppFault {
    ghost from_gives = { λ fault f. f ≡ of_writing fault };

    fn from(fault: WriteFault) -> AppFault {
        match fault {
            WriteFault::Write => AppFault::Write,
            WriteFault::Memory => AppFault::Memory,
        }
    }
}

/// Why the program did not do what it was asked. Its text is the program's fault line, without the program's name.
#[derive(Clone, Copy, Debug, Error)]
pub enum ProgramFault {
    /// The words of the command line were refused.
    #[error("command line refused")]
    Line,
    /// A file that is to be written is one that is read, or another one that is written, by another name.
    #[error("command line refused")]
    SameFile,
    /// The scenario's text was refused.
    #[error("scenario {0}")]
    Scenario(ScenarioFault),
    /// The text of the steps was refused.
    #[error("steps {0}")]
    Steps(StepsFault),
    /// The scenario or the steps could not be read.
    #[error("read fault")]
    Read,
    /// A run was not played or a stored run not judged, or there was no memory for the words, or what was asked for was
    /// not written.
    #[error(transparent)]
    App(AppFault),
}

impl ProgramFault {
    /// The program's exit status: 1 for a log that has no certificates, 2 for refused input, 3 for a read or write fault, 4
    /// for want of memory or a run that can't go on.
    pub fn status(self) -> u8
        ensures { result ≡ refusal_status self }
    {
        match self {
            ProgramFault::Line | ProgramFault::SameFile => 2,
            ProgramFault::Scenario(ScenarioFault::Memory) => 4,
            ProgramFault::Steps(StepsFault::Memory) => 4,
            ProgramFault::Scenario(_) | ProgramFault::Steps(_) => 2,
            ProgramFault::Read => 3,
            ProgramFault::App(fault) => fault.status(),
        }
    }
}

impl From<AppFault> for ProgramFault {
    ghost from_gives = { λ fault f. f ≡ program.App fault };

    fn from(fault: AppFault) -> ProgramFault {
        ProgramFault::App(fault)
    }
}

impl From<Memory> for ProgramFault {
    ghost from_gives = { λ _ f. f ≡ program.App app.Memory };

    fn from(_fault: Memory) -> ProgramFault {
        ProgramFault::App(AppFault::Memory)
    }
}

/// A fault, and what a person is told of it below its line.
#[derive(Clone, Copy)]
pub struct Failure {
    /// Why the program did not do what it was asked.
    pub fault: ProgramFault,
    /// What is told of it.
    pub told: Told,
}

impl From<ProgramFault> for Failure {
    ghost from_gives = { λ fault f. f.fault ≡ fault };

    fn from(fault: ProgramFault) -> Failure {
        Failure {
            fault,
            told: Told::Nothing,
        }
    }
}

impl From<AppFault> for Failure {
    ghost from_gives = { λ fault f. f.fault ≡ program.App fault };

    fn from(fault: AppFault) -> Failure {
        Failure::from(ProgramFault::App(fault))
    }
}

/// A fault of a stored run, and what a person is told of it.
#[derive(Clone, Copy)]
pub struct AppFailure {
    /// Why the stored run was not judged, certified or drawn.
    pub fault: AppFault,
    /// What is told of it.
    pub told: Told,
}

impl From<AppFault> for AppFailure {
    ghost from_gives = { λ fault f. f.fault ≡ fault };

    fn from(fault: AppFault) -> AppFailure {
        AppFailure {
            fault,
            told: Told::Nothing,
        }
    }
}

impl From<Memory> for AppFailure {
    ghost from_gives = { λ _ f. f.fault ≡ app.Memory };

    fn from(_fault: Memory) -> AppFailure {
        AppFailure::from(AppFault::Memory)
    }
}

impl From<AppFailure> for Failure {
    ghost from_gives = { λ failure f. f.fault ≡ program.App failure.fault };

    fn from(failure: AppFailure) -> Failure {
        Failure {
            fault: ProgramFault::App(failure.fault),
            told: failure.told,
        }
    }
}
