//! Files that are read, and which files that were.

ghost use Rattle.std.specs.Prelude.{◌≡◌, ◌<◌, IfErr};
ghost use Rattle.kt_program.specs.Sources.{unread};

use crate::fault::{AppFault, Failure, ProgramFault};
use crate::files::{FileNumber, number_of};
use crate::line::MAX_PARTS;
use crate::names::source_of;
use crate::told::{Attempt, Told};
use kt_base::ProcNo;
use kt_chain::CertTextFault;
use kt_log_text::LogFault;
use kt_merge::{MergeFault, PartFault};
use kt_text::{Input, Shown};
use std::rt::Files;
use std::{fs, io};

/// What a file tells that is read.
#[derive(Clone, Copy)]
pub(crate) enum Role {
    Scenario,
    Steps,
    Log,
    Certificates,
    /// The part of a process.
    Part(ProcNo),
}

impl Role {
    // Its place among the files that were read.
    fn place(&self) -> usize
        ensures { result < 64 }
    {
        match self {
            Role::Part(process) => process.index(),
            Role::Scenario => 0,
            Role::Steps => 1,
            Role::Log => 2,
            Role::Certificates => 3,
        }
    }

    // The fault of such a file that is not opened.
    fn unread(&self) -> ProgramFault
        ensures { result ≡ unread self.now }
    {
        match self {
            Role::Scenario | Role::Steps => ProgramFault::Read,
            Role::Log => ProgramFault::App(AppFault::Log(LogFault::Read)),
            Role::Certificates => ProgramFault::App(AppFault::Cert(CertTextFault::Read)),
            Role::Part(p) => {
                ProgramFault::App(AppFault::Merge(MergeFault::Part(*p, PartFault::Read)))
            }
        }
    }
}

/// The files that were read, by what they tell: their names, and which regular files they are, where that is told.
#[derive(Clone, Copy)]
pub(crate) struct ReadFiles<'a> {
    pub(crate) names: [Option<&'a str>; MAX_PARTS],
    pub(crate) numbers: [Option<FileNumber>; MAX_PARTS],
}

impl ReadFiles<'_> {
    /// None was read.
    pub(crate) fn none() -> Self {
        ReadFiles {
            names: [None; MAX_PARTS],
            numbers: [None; MAX_PARTS],
        }
    }
}

/// Opens a file that is read, by `-` standard input, and notes which one it is.
pub(crate) fn open_input<'a, F: Files>(
    files: &F,
    role: Role,
    name: &'a str,
    read: &mut ReadFiles<'a>,
) -> Result<Input<F::File>, Failure>
    ensures { IfErr result (λ failure. failure.fault ≡ unread role) }
{
    match fs::open(files, source_of(name)) {
        Ok(file) => {
            read.names[role.place()] = Some(name);
            read.numbers[role.place()] = number_of(&file);
            Ok(Input::new(file, name))
        }
        Err(error) => Err(Failure {
            fault: role.unread(),
            told: Told::attempt(Attempt::Open, Shown::of(name.as_bytes()), &error),
        }),
    }
}
