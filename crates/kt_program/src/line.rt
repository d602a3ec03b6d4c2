//! What a command line may ask for.

ghost use Rattle.std.specs.Prelude.{◌≡◌, ◌⊎◌, MatchBool};

use crate::names::{Name, STANDARD, clash, is_read_twice};
use kt_draw::Span;

/// By what a run is made.
#[derive(Clone, Copy)]
pub enum By {
    /// One step after the other.
    Serial,
    /// A thread for each process.
    Threads,
}

/// A run of a scenario, with the names of files.
#[derive(Clone, Copy)]
pub struct Run<'a> {
    /// By what it is made.
    pub by: By,
    /// The scenario.
    pub scenario: &'a str,
    /// The steps that come first, where that is asked.
    pub steps: Option<&'a str>,
    /// The seed by which the steps after these are drawn; none for default steps.
    pub seed: Option<u64>,
    /// Where all the steps that are made are written, where that is asked.
    pub kept: Option<&'a str>,
    /// Where the log is written, where that is asked.
    pub log: Option<&'a str>,
    /// Where the certificates are written, where that is asked.
    pub cert: Option<&'a str>,
}

/// What the words of a command line ask for, with the names of files.
#[derive(Drop)]
pub enum Asked<'a> {
    /// Play a scenario, perhaps with steps that come first, and write its log and its certificates where that is asked.
    Play {
        scenario: &'a str,
        steps: Option<&'a str>,
        log: Option<&'a str>,
        cert: Option<&'a str>,
    },
    /// Run a scenario, each object in a thread of its own, and write its log and its certificates where that is asked.
    Live {
        scenario: &'a str,
        log: Option<&'a str>,
        cert: Option<&'a str>,
    },
    /// Run a scenario by steps that are drawn, or with its steps written.
    Run(Run<'a>),
    /// Judge a stored log with its certificates.
    Check {
        log: &'a str,
        cert: &'a str,
    },
    /// Judge a stored log alone, or tell of the answer, or ask that it came to rest.
    Judge(Judging<'a>),
    /// Certify a stored log, and write its certificates where that is asked, else to standard output.
    Certify {
        log: &'a str,
        cert: Option<&'a str>,
    },
    /// Draw rows of a stored log.
    Draw(Drawing<'a>),
    /// Write the log of parts.
    Merge(Merging<'a>),
}

/// The most parts that a log has, one for each process.
pub const MAX_PARTS: usize = 64;

/// Parts of which one log is asked for, by the names of their files, and into which file, else to standard output.
#[derive(Drop)]
pub struct Merging<'a> {
    /// The parts of processes 0, 1 and so on, at most 64.
    pub parts: Vec<Option<&'a str>>,
    pub log: Option<&'a str>,
}

/// A stored log that is to be judged.
#[derive(Clone, Copy)]
pub struct Judging<'a> {
    pub log: &'a str,
    /// Its certificates; those that it means, where none are named.
    pub cert: Option<&'a str>,
    /// Whether the answer is told of.
    pub explains: bool,
    /// Whether a log that leaves an instance open or a message in transit is a no.
    pub at_rest: bool,
}

/// A picture that is asked for: of which log, with which certificates, with the names of which scenario's objects, of which
/// rows, and into which file, else to standard output.
#[derive(Clone, Copy)]
pub struct Drawing<'a> {
    pub log: &'a str,
    pub cert: Option<&'a str>,
    pub names: Option<&'a str>,
    pub span: Span,
    pub svg: Option<&'a str>,
}

impl<'a> Run<'a> {
    ghost use Rattle.kt_program.specs.Made.{lived_run, played_run};

    /// A run by default steps after those that come first.
    pub(crate) fn played(scenario: &'a str, steps: Name<'a>, log: Name<'a>, cert: Name<'a>) -> Self
        ensures { result ≡ played_run scenario.entry steps.entry log.entry cert.entry }
    {
        Run {
            by: By::Serial,
            scenario,
            steps,
            seed: None,
            kept: None,
            log,
            cert,
        }
    }

    /// A run in threads.
    pub(crate) fn lived(scenario: &'a str, log: Name<'a>, cert: Name<'a>) -> Self
        ensures { result ≡ lived_run scenario.entry log.entry cert.entry }
    {
        Run {
            by: By::Threads,
            ..Run::played(scenario, None, log, cert)
        }
    }
}

impl<'a> Asked<'a> {
    ghost use Rattle.kt_program.specs.Names.{AreNamedApart, IsApart, IsOfParts, inputs_of, outputs_of};

    // The names of the files that it reads, but for parts, and of those that it writes.
    fn names(&self) -> ([Name<'a>; 3], [Name<'a>; 3])
        ensures inputs { IsOfParts self.now ⊎ (result.0 ≡ inputs_of self.now) }
        ensures outputs { result.1 ≡ outputs_of self.now }
    {
        match *self {
            Asked::Play {
                scenario,
                steps,
                log,
                cert,
            } => ([Some(scenario), steps, None], [log, cert, None]),
            Asked::Live {
                scenario,
                log,
                cert,
            } => ([Some(scenario), None, None], [log, cert, None]),
            Asked::Run(run) => (
                [Some(run.scenario), run.steps, None],
                [run.log, run.cert, run.kept],
            ),
            Asked::Check { log, cert } => ([Some(log), Some(cert), None], [None; 3]),
            Asked::Judge(asked) => ([Some(asked.log), asked.cert, None], [None; 3]),
            Asked::Certify { log, cert } => ([Some(log), None, None], [cert, None, None]),
            Asked::Draw(asked) => (
                [Some(asked.log), asked.names, asked.cert],
                [asked.svg, None, None],
            ),
            Asked::Merge(Merging { log, .. }) => ([None; 3], [log, None, None]),
        }
    }

    // Whether a file that is written has the name of one of these that are read or of another one that is written, or standard
    // input is read twice.
    fn is_twice(inputs: &[Name<'a>], outputs: &[Name<'a>]) -> bool
        ensures { MatchBool result (¬ AreNamedApart inputs.now outputs.now) (AreNamedApart inputs.now outputs.now) }
    {
        clash(inputs, outputs) || is_read_twice(inputs)
    }

    /// Whether a file that is to be written has the name of one that is read, or of another one that is written, or standard
    /// input is read twice. The name of a device, or of standard output, may be given again.
    pub fn clash(&self) -> bool
        ensures { MatchBool result (¬ IsApart self.now) (IsApart self.now) }
    {
        let (inputs, outputs) = self.names();
        match self {
            Asked::Merge(asked) => Asked::is_twice(asked.parts.as_slice(), &outputs),
            _ => Asked::is_twice(&inputs, &outputs),
        }
    }

    /// A name that is given twice, where one is.
    pub(crate) fn name_twice(&self) -> &'a str {
        let (inputs, outputs) = self.names();
        match self {
            Asked::Merge(asked) => twice_among(asked.parts.as_slice(), &outputs),
            _ => twice_among(&inputs, &outputs),
        }
    }
}

// The first output that has the name of an input or of an output before it; else that of standard input.
fn twice_among<'a>(inputs: &[Name<'a>], outputs: &[Name<'a>]) -> &'a str {
    for (place, output) in outputs.iter().enumerate() {
        if clash(inputs, &outputs[..=place]) {
            return output.unwrap_or(STANDARD);
        }
    }
    STANDARD
}
