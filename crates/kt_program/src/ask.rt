//! The command line, by clap.

ghost use Rattle.std.specs.Prelude.{◌≡◌, ◌↔◌, ◌<◌, ◌^◌, ◌≢◌, ℕ, map, codes, IfOk, IfErr, IfSome, IfNone, MatchBool, Some, None, option_map, Option};
ghost use Rattle.clap.specs.Words.{App, Rule, with_rule, with_subcommand, first_of, all_of, kind_of, new_app, rule_of, subcommand_of, subcommand_rows_of, rows_of, found_of};
ghost use Rattle.std.specs.Fmt.{decimal};
ghost use Rattle.clap.specs.declared.error.kind.ErrorKind.TheVariants.{MissingSubcommand};
ghost use Rattle.kt_program.specs.Program.{merge, program, certify, check, live, numeric, play, with_hints, with_outputs, optional, possible, switch, wanted, IsRule, IsDefined, IsSet, NamesAsked, NamesIn, draw, IsGivenNumber, SpellsSeed};
ghost use Rattle.kt_program.specs.Asking.{IsUnasked};
ghost use Rattle.kt_program.specs.Names.{IsApart};
ghost use Rattle.kt_program.specs.declared.ask.AskFault.TheVariants.{Line, Memory as OutOfMemory};
ghost use Rattle.kt_program.specs.declared.line.Asked.{Asked};

use crate::line::{Asked, Drawing, Judging, MAX_PARTS, Merging, Run};
use crate::names::Name;
use crate::words::Words;
use clap::error::ErrorKind;
use clap::{Arg, ArgAction, ArgMatches, Command, Error, value_parser};
use itoa::Buffer;
use kt_draw::Span;
use kt_text::fields::number_of;
use std::alloc::{AllocError, Global};

const VERSION: &str = "0.1.0";

const ABOUT: &str =
    "Runs scenarios of a checkpoint and rollback-recovery manager, and merges, certifies, judges and draws stored runs";

const STATUSES: &str = "Exit status:
  0  done; the answer of check is yes
  1  the answer of check is no, or the log has no certificates
  2  the command line or what a file says is refused, or a step is not enabled
  3  a file cannot be read, or the output not be written
  4  there is not enough memory, or a run cannot go on

Names of files:
  -    standard input where a file is read, standard output where one is written
  ./-  the file of that name

Environment:
  KOO_TOUEG_HINTS  asks for --hints, unless it is 0";

// Of the texts below the first line is what `-h` says, and what comes after it, where there is more, what `--help` says.
const PLAY: &str = "Plays a scenario, and prints a report of the run
Plays a scenario, and prints a report of the run: its instances, the commands that
were refused, its objects, and how many messages were lost or dropped.";

const SCENARIO: &str = "The scenario, a text with a line for each object and each command
The scenario, a text with a line for each object and each command:
object NAME KIND (sum, last or tail), send A B BODY (a number, or . for
what the object of A offers), checkpoint A, rollback A, fail A, and settle
before commands that wait until all is at rest. A line that begins with #
says nothing.";

const STEPS: &str = "A text of steps that come first, do A or take AT FROM
A text of steps that come first, a line do A or take AT FROM for each.
After them the run goes on by default steps until all is at rest, or by
drawn ones with --seed.";

const SEED: &str = "Draws each step after those of --steps from all that are enabled
Draws each step after those of --steps from all that are enabled, each as
likely as another, by the generator xoshiro256++, seeded from N (a number from
0 to 2^64 - 1) by SplitMix64. The same seed gives the same run on every machine
and with every later version. The run ends where no step is enabled.";

const RECORD: &str = "Where the steps that were made are written
Where the steps that were made are written, all of them in order, as a text
for --steps: with it the same run is played again. It has at most 2^20 steps.";

const RECORD_LIVE: &str = "Where the steps that were made are written
Where the steps that were made are written, all of them in order, as a text
for --steps of play: with it the same run is played again. It has at most 2^20
steps.";

const LOG_OUT: &str = "Where the log is written, in format 2";

const CERT_OUT: &str = "Where the certificates are written";

const LIVE: &str = "Runs a scenario in threads, and prints a report of the run
Runs a scenario, each object in a thread of its own, and prints a report of the
run. Which steps come first is left to the threads.";

const CHECK: &str = "Judges a stored log
Judges a stored log with its certificates, or with those that the log means, and
prints one line: yes, or no with the instance, the row and the reason. A yes means
that each committed instance took the least set of processes.";

const LOG: &str = "The log, a CSV file with a record of four fields for each row
The log, a CSV file with a record of four fields for each row.
In format 2 the record kt,2,-,- comes first, and there are up to
2^24 rows; in format 1 there is no such record, and there are up
to 2^20 rows.";

const CERT: &str = "The certificates, a CSV file with records of five fields
The certificates, a CSV file with records of five fields: a cert
record for each decided instance, followed by its member records.
There are up to 2^19 records. Without them the log is judged by
those that it means, which certify makes.";

const EXPLAIN: &str = "Tells below the answer what it rests on
Tells below a no why, by process, message and row: which demand is
broken, what the log means otherwise than a certificate, who was
unwilling to join, which message is an orphan. Below a yes it tells
what was judged, and what the log leaves open.";

const AT_REST: &str = "Asks that the run came to rest, too
Asks that the run came to rest, too: that no instance is undecided,
no process in one, and no message in transit. Where all else passes
and that does not, the answer is no open.";

const CERTIFY: &str = "Writes the certificates of a stored log
Writes the certificates of a stored log: for each decided instance its kind, its
initiator and its decision, and for each member of a committed one the messages
that led from the initiator to it. A log that breaks a rule has none, nor has one
with a member that no message leads to: then nothing is written, and the line of
the fault, which begins with no, tells where. Whether each committed instance
took the least set of processes is asked of check.";

const CERT_FILE: &str = "Where the certificates are written, else to standard output";

const DRAW: &str = "Draws a stored log as an SVG picture
Draws rows of a stored log as an SVG picture: a line for each process, an arrow
for each message, and what became of instances, checkpoints and failures. The
line below says that the log is legal, or which row breaks which rule; what comes
after that row is not drawn. A picture has at most 4096 rows.";

const CHAINS: &str =
    "Certificates, whose chains are coloured; the line below is what check answers";

const NAMES: &str = "A scenario whose objects name the processes";

const FROM: &str = "The number of the first row that is drawn, else 1";

const TO: &str = "The number of the last row that is drawn, else that of the last row";

const SVG: &str = "Where the picture is written, else to standard output";

const MERGE: &str = "Writes one log of the logs of single processes
Writes one log of the logs of single processes: their rows sorted by clock, then by
process, those of one process in their order, with numbers for names. Whether that
log is legal is asked of check. At a fault nothing is written.";

const PARTS: &str = "The log of each process, in order of their numbers
The log of each process, in order of their numbers, up to 64: a CSV file with a
record of six fields for each row. The first one is a clock, which never falls; the
next four are those of the row in a log, with mQ.N for a message, the Nth that Q
sent, and iQ.N for an instance, the Nth that Q began; the last one is the name that
a row sent gives, else -. Each process makes its clock greater than that of all that
it takes.";

const MERGED: &str = "Where the log is written, in format 2, else to standard output";

const HINTS: &str = "Tells below a fault's line what is wrong, and where";

/// Why a command line was refused.
#[derive(Drop)]
pub enum AskFault<'a> {
    /// As clap says; want of memory has the kind `OutOfMemory`, and a request for help is one that clap answers.
    Line(Error),
    /// A file that is to be written has the name of one that is read, or of another one that is written: this one.
    SameName(&'a str),
    /// There was no memory for the definition of the command line, or for the names of parts.
    Memory,
}

impl<'a> From<AllocError> for AskFault<'a> {
    ghost from_gives = { λ _ e. e ≡ OutOfMemory };

    fn from(_fault: AllocError) -> AskFault<'a> {
        AskFault::Memory
    }
}

impl<'a> From<Error> for AskFault<'a> {
    ghost from_gives = { λ e f. f ≡ Line e };

    fn from(error: Error) -> AskFault<'a> {
        AskFault::Line(error)
    }
}

// An argument with its help.
fn with_help<'a>(arg: Arg<'a>, help: &'a str) -> Arg<'a>
    ensures read { rule_of result ≡ rule_of arg.entry }
    ensures local { result.global ≡ arg.entry.global }
{
    match help.split_once('\n') {
        Some((short, long)) => arg.help(short).long_help(long),
        None => arg.help(help),
    }
}

// A word that has to be there.
fn wanted<'a>(alloc: Global, id: &'a str, name: &'a str, help: &'a str) -> Arg<'a>
    ensures { IsRule (wanted id.entry.now) result }
{
    with_help(Arg::new(alloc, id).required(true).value_name(name), help)
}

// A word that may be there.
fn possible<'a>(alloc: Global, id: &'a str, name: &'a str, help: &'a str) -> Arg<'a>
    ensures { IsRule (possible id.entry.now) result }
{
    with_help(Arg::new(alloc, id).value_name(name), help)
}

// An option with a value.
fn optional<'a>(alloc: Global, id: &'a str, name: &'a str, help: &'a str) -> Arg<'a>
    ensures { IsRule (optional id.entry.now) result }
{
    with_help(Arg::new(alloc, id).long(id).value_name(name), help)
}

// An option with a number of 64 bits.
fn numeric<'a>(alloc: Global, id: &'a str, help: &'a str) -> Arg<'a>
    ensures { IsRule (numeric id.entry.now) result }
{
    let arg = Arg::new(alloc, id).long(id).value_name("N");
    with_help(arg.value_parser(value_parser!(u64)), help)
}

// An option without a value.
fn switch<'a>(alloc: Global, id: &'a str, help: &'a str) -> Arg<'a>
    ensures { IsRule (switch id.entry.now) result }
{
    let arg = Arg::new(alloc, id).long(id).action(ArgAction::SetTrue);
    with_help(arg, help)
}

// A command, or want of memory, which is handed on: so a command is defined without a `?` for each of its arguments.
type Defined<'a> = Result<Command<'a>, AllocError>;

// A command with one more argument.
#[tactic(auto, using(crate::proofs::Commands::arg_added))]
fn with_arg<'a>(command: Defined<'a>, arg: Arg<'a>) -> Defined<'a>
    ensures { (app : App) (rule : Rule) → IfOk command.entry (IsDefined app) → IsRule rule arg.entry →
        IfOk result (IsDefined (with_rule app rule)) }
{
    command?.arg(arg)
}

// A command with the switch for what is told below a fault's line.
fn with_hints<'a>(alloc: Global, command: Defined<'a>) -> Defined<'a>
    ensures { (app : App) → IfOk command.entry (IsDefined app) → IfOk result (IsDefined (with_hints app)) }
{
    with_arg(command, switch(alloc, "hints", HINTS))
}

// A command with files for the log and the certificates of its run, and with the switch.
fn with_outputs<'a>(alloc: Global, command: Defined<'a>) -> Defined<'a>
    ensures { (app : App) → IfOk command.entry (IsDefined app) → IfOk result (IsDefined (with_outputs app)) }
{
    let command = with_arg(command, optional(alloc, "log", "FILE", LOG_OUT));
    let command = with_arg(command, optional(alloc, "cert", "FILE", CERT_OUT));
    with_hints(alloc, command)
}

// A command with one more subcommand.
#[tactic(auto, using(crate::proofs::Commands::subcommand_added))]
fn with_subcommand<'a>(command: Defined<'a>, part: Defined<'a>) -> Defined<'a>
    ensures { (app sub : App) → IfOk command.entry (IsDefined app) → IfOk part.entry (IsDefined sub) →
        IfOk result (IsDefined (with_subcommand app sub.top)) }
{
    command?.subcommand(part?)
}

// A command with its help and its first argument.
fn command_of<'a>(alloc: Global, name: &'a str, help: &'a str, first: Arg<'a>) -> Defined<'a>
    ensures { (rule : Rule) → IsRule rule first.entry →
        IfOk result (IsDefined (with_rule (new_app name.entry.now) rule)) }
{
    let (short, long) = help.split_once('\n').unwrap_or((help, help));
    let command = Command::new(alloc, name).about(short).long_about(long);
    with_arg(Ok(command.after_help(STATUSES)), first)
}

fn play_command<'a>(alloc: Global) -> Defined<'a>
    ensures { IfOk result (IsDefined play) }
{
    let scenario = wanted(alloc, "scenario", "SCENARIO", SCENARIO);
    let command = command_of(alloc, "play", PLAY, scenario);
    let command = with_arg(command, optional(alloc, "steps", "FILE", STEPS));
    let command = with_arg(command, numeric(alloc, "seed", SEED));
    let command = with_arg(command, optional(alloc, "record", "FILE", RECORD));
    with_outputs(alloc, command)
}

fn live_command<'a>(alloc: Global) -> Defined<'a>
    ensures { IfOk result (IsDefined live) }
{
    let scenario = wanted(alloc, "scenario", "SCENARIO", SCENARIO);
    let command = command_of(alloc, "live", LIVE, scenario);
    let record = optional(alloc, "record", "FILE", RECORD_LIVE);
    with_outputs(alloc, with_arg(command, record))
}

fn check_command<'a>(alloc: Global) -> Defined<'a>
    ensures { IfOk result (IsDefined check) }
{
    let command = command_of(alloc, "check", CHECK, wanted(alloc, "log", "LOG", LOG));
    let command = with_arg(command, possible(alloc, "cert", "CERT", CERT));
    let command = with_arg(command, switch(alloc, "explain", EXPLAIN));
    let command = with_arg(command, switch(alloc, "at-rest", AT_REST));
    with_hints(alloc, command)
}

fn certify_command<'a>(alloc: Global) -> Defined<'a>
    ensures { IfOk result (IsDefined certify) }
{
    let command = command_of(alloc, "certify", CERTIFY, wanted(alloc, "log", "LOG", LOG));
    let command = with_arg(command, optional(alloc, "cert", "FILE", CERT_FILE));
    with_hints(alloc, command)
}

fn draw_command<'a>(alloc: Global) -> Defined<'a>
    ensures { IfOk result (IsDefined draw) }
{
    let command = command_of(alloc, "draw", DRAW, wanted(alloc, "log", "LOG", LOG));
    let command = with_arg(command, optional(alloc, "cert", "CERT", CHAINS));
    let command = with_arg(command, optional(alloc, "names", "SCENARIO", NAMES));
    let command = with_arg(command, optional(alloc, "from", "ROW", FROM));
    let command = with_arg(command, optional(alloc, "to", "ROW", TO));
    let command = with_arg(command, optional(alloc, "svg", "FILE", SVG));
    with_hints(alloc, command)
}

fn merge_command<'a>(alloc: Global) -> Defined<'a>
    ensures { IfOk result (IsDefined merge) }
{
    let parts = wanted(alloc, "part", "PART", PARTS).action(ArgAction::Append);
    let command = command_of(alloc, "merge", MERGE, parts);
    let command = with_arg(command, optional(alloc, "log", "FILE", MERGED));
    with_hints(alloc, command)
}

fn program_command<'a>(alloc: Global) -> Defined<'a>
    ensures { IfOk result (IsDefined program) }
{
    let command = Command::new(alloc, "koo_toueg")
        .version(VERSION)
        .about(ABOUT)
        .after_help(STATUSES);
    let command = with_hints(alloc, Ok(command));
    let command = with_subcommand(command, play_command(alloc));
    let command = with_subcommand(command, live_command(alloc));
    let command = with_subcommand(command, check_command(alloc));
    let command = with_subcommand(command, certify_command(alloc));
    let command = with_subcommand(command, draw_command(alloc));
    with_subcommand(command, merge_command(alloc))
}

// The text that the matches have for an argument.
fn text_of<'a>(matches: &ArgMatches<'a>, id: &str) -> Option<&'a str>
    ensures { option_map (λ s. s.now) result ≡ first_of id.now (rows_of (found_of matches.now)) }
{
    matches.get_str(id)
}

// The number of 64 bits that a text spells, if it spells one.
fn seed_of(text: &str) -> Option<u64>
    ensures found { IfSome result (λ n. text.now ≡ decimal n) }
    ensures none { IfNone result ((n : ℕ) → n < 2 ^ 64 → text.now ≢ decimal n) }
{
    let number = text.parse::<u64>().ok()?;
    if Buffer::new().format(number) != text {
        return None;
    }
    Some(number)
}

// The seed that the matches have, where one is given. None where that is no number.
fn seed_in(matches: &ArgMatches<'_>) -> Option<Option<u64>>
    ensures seed { IfSome result (SpellsSeed (first_of (codes "seed") (rows_of (found_of matches.now)))) }
    ensures given { IfNone result (first_of (codes "seed") (rows_of (found_of matches.now)) ≢ None) }
    ensures none { IfNone result ((seed : Option ℕ) → ¬ SpellsSeed (first_of (codes "seed") (rows_of (found_of matches.now))) seed) }
{
    match text_of(matches, "seed") {
        Some(text) => Some(Some(seed_of(text)?)),
        None => Some(None),
    }
}

// What the matches of `play` ask for.
fn asked_of_play<'a>(matches: &ArgMatches<'a>) -> Option<Asked<'a>>
    ensures named { IfSome result (NamesIn (codes "play") (rows_of (found_of matches.now))) }
    ensures nothing { IfNone result ((asked : Asked) → ¬ NamesIn (codes "play") (rows_of (found_of matches.now)) asked) }
{
    let scenario = text_of(matches, "scenario")?;
    let steps = text_of(matches, "steps");
    let log = text_of(matches, "log");
    let cert = text_of(matches, "cert");
    match (seed_in(matches)?, text_of(matches, "record")) {
        (None, None) => Some(Asked::Play {
            scenario,
            steps,
            log,
            cert,
        }),
        (seed, kept) => Some(Asked::Run(Run {
            seed,
            kept,
            ..Run::played(scenario, steps, log, cert)
        })),
    }
}

// What the matches of `live` ask for.
fn asked_of_live<'a>(matches: &ArgMatches<'a>) -> Option<Asked<'a>>
    ensures named { IfSome result (NamesIn (codes "live") (rows_of (found_of matches.now))) }
    ensures nothing { IfNone result ((asked : Asked) → ¬ NamesIn (codes "live") (rows_of (found_of matches.now)) asked) }
{
    let scenario = text_of(matches, "scenario")?;
    let log = text_of(matches, "log");
    let cert = text_of(matches, "cert");
    match text_of(matches, "record") {
        None => Some(Asked::Live {
            scenario,
            log,
            cert,
        }),
        kept => Some(Asked::Run(Run {
            kept,
            ..Run::lived(scenario, log, cert)
        })),
    }
}

// Whether an option without a value is given.
fn is_set(matches: &ArgMatches<'_>, id: &str) -> bool
    ensures { MatchBool result (IsSet id.now (rows_of (found_of matches.now)))
        (¬ IsSet id.now (rows_of (found_of matches.now))) }
{
    match text_of(matches, id) {
        Some("true") => true,
        _ => false,
    }
}

// What the matches of `check` ask for.
fn asked_of_check<'a>(matches: &ArgMatches<'a>) -> Option<Asked<'a>>
    ensures named { IfSome result (NamesIn (codes "check") (rows_of (found_of matches.now))) }
    ensures nothing { IfNone result ((asked : Asked) → ¬ NamesIn (codes "check") (rows_of (found_of matches.now)) asked) }
{
    let log = text_of(matches, "log")?;
    let explains = is_set(matches, "explain");
    let at_rest = is_set(matches, "at-rest");
    match text_of(matches, "cert") {
        Some(cert) if !explains && !at_rest => Some(Asked::Check { log, cert }),
        cert => Some(Asked::Judge(Judging {
            log,
            cert,
            explains,
            at_rest,
        })),
    }
}

// What the matches of `certify` ask for.
fn asked_of_certify<'a>(matches: &ArgMatches<'a>) -> Option<Asked<'a>>
    ensures named { IfSome result (NamesIn (codes "certify") (rows_of (found_of matches.now))) }
    ensures nothing { IfNone result ((asked : Asked) → ¬ NamesIn (codes "certify") (rows_of (found_of matches.now)) asked) }
{
    Some(Asked::Certify {
        log: text_of(matches, "log")?,
        cert: text_of(matches, "cert"),
    })
}

// The number of a row that an option has, where it is given. None where that is no number, or one that is too great.
fn row_in(matches: &ArgMatches<'_>, id: &str) -> Option<Option<u32>>
    ensures number { IfSome result (IsGivenNumber id.now (rows_of (found_of matches.now))) }
    ensures none { IfNone result ((number : Option ℕ) → ¬ IsGivenNumber id.now (rows_of (found_of matches.now)) number) }
{
    match text_of(matches, id) {
        Some(text) => Some(Some(number_of(text.as_bytes())?)),
        None => Some(None),
    }
}

// What the matches of `draw` ask for.
fn asked_of_draw<'a>(matches: &ArgMatches<'a>) -> Option<Asked<'a>>
    ensures named { IfSome result (NamesIn (codes "draw") (rows_of (found_of matches.now))) }
    ensures nothing { IfNone result ((asked : Asked) → ¬ NamesIn (codes "draw") (rows_of (found_of matches.now)) asked) }
{
    let from = row_in(matches, "from")?;
    let to = row_in(matches, "to")?;
    Some(Asked::Draw(Drawing {
        log: text_of(matches, "log")?,
        cert: text_of(matches, "cert"),
        names: text_of(matches, "names"),
        span: Span { from, to },
        svg: text_of(matches, "svg"),
    }))
}

// The texts that the matches have for an argument.
fn texts_of<'a, 'b>(matches: &'b ArgMatches<'a>, id: &str) -> Option<&'b [&'a str]>
    ensures { option_map (λ texts. map (λ s. s.now) texts.now) result ≡ all_of id.now (rows_of (found_of matches.now)) }
{
    matches.get_strs(id)
}

// The parts of these names.
fn parts_of<'a>(alloc: Global, names: &[&'a str]) -> Result<Vec<Name<'a>>, AllocError>
    ensures { IfOk result (λ parts. parts.items ≡ map Some names.now) }
{
    names.iter().map(|name| Some(*name)).collect(alloc)
}

// What the matches of `merge` ask for. None where they have no part, or more than 64.
fn asked_of_merge<'a>(
    alloc: Global,
    matches: &ArgMatches<'a>,
) -> Result<Option<Asked<'a>>, AllocError>
    ensures named { IfOk result (λ asked. IfSome asked (NamesIn (codes "merge") (rows_of (found_of matches.now)))) }
    ensures nothing { IfOk result (λ asked. IfNone asked ((other : Asked) →
        ¬ NamesIn (codes "merge") (rows_of (found_of matches.now)) other)) }
{
    let Some(names) = texts_of(matches, "part") else {
        return Ok(None);
    };
    if names.len() > MAX_PARTS {
        return Ok(None);
    }
    let parts = parts_of(alloc, names)?;
    let log = text_of(matches, "log");
    Ok(Some(Asked::Merge(Merging { parts, log })))
}

// What the matches of the program ask for.
fn asked_in<'a>(alloc: Global, matches: &ArgMatches<'a>) -> Result<Option<Asked<'a>>, AllocError>
    ensures named { IfOk result (λ asked. IfSome asked (NamesAsked (subcommand_rows_of matches.now))) }
    ensures nothing { IfOk result (λ asked. IfNone asked ((other : Asked) → ¬ NamesAsked (subcommand_rows_of matches.now) other)) }
{
    let Some((name, inner)) = matches.subcommand() else {
        return Ok(None);
    };
    match name {
        "play" => Ok(asked_of_play(inner)),
        "live" => Ok(asked_of_live(inner)),
        "check" => Ok(asked_of_check(inner)),
        "certify" => Ok(asked_of_certify(inner)),
        "draw" => Ok(asked_of_draw(inner)),
        "merge" => asked_of_merge(alloc, inner),
        _ => Ok(None),
    }
}

// The error of words that name nothing to do.
fn nothing_asked(alloc: Global) -> Result<Error, AllocError>
    ensures { IfOk result (λ e. kind_of e ≡ MissingSubcommand) }
{
    let mut command = program_command(alloc)?;
    command.error(
        ErrorKind::MissingSubcommand,
        "a command is missing, a number is written with a sign or a leading zero, or there are more than 64 parts",
    )
}

/// What the words ask for.
pub fn asked<'a>(alloc: Global, words: &'a Words) -> Result<Asked<'a>, AskFault<'a>>
    // What it names is what clap's definition of the command line gives for the words.
    ensures named { IfOk result (NamesAsked (subcommand_of program words.entry.now)) }
    // None of its outputs has the name of an input or of another output, but for devices.
    ensures apart { IfOk result IsApart }
    // It refuses words as that definition does, those that name nothing, and those that name such outputs.
    ensures refused { IfErr result (IsUnasked words.entry.now) }
{
    let matches = program_command(alloc)?.try_get_matches_from(words.list())?;
    let Some(asked) = asked_in(alloc, &matches)? else {
        return Err(AskFault::Line(nothing_asked(alloc)?));
    };
    if asked.clash() {
        return Err(AskFault::SameName(asked.name_twice()));
    }
    Ok(asked)
}
