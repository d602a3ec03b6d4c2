//! Files each of whose lines is a case.
//!
//! Each line is shown, and behind it what comes of it. Lines that begin with `koo_toueg` are command lines. Others make files:
//! `text 3 x` adds the line `x` three times to a text, where `|` stands for a line feed, `read NAME` what a file has, and
//! `file NAME` writes that text into a file; or tell whether two files have the same: `same NAME OTHER`. What others do is said
//! in the module that does it. A line `each FILE LINE; LINE` stands for these lines with each line of the file in place of `%`.

use crate::answers::{show_both, show_cut};
use crate::cases::show_case;
use crate::commands::{Host, are_same, show_command, word};
use crate::failing::show_failing;
use crate::faults::show_faults;
use crate::judging::{show_passes, show_walk};
use crate::limits::{show_interrupted, show_rows, write_instances};
use crate::rounds::show_rounds;
use crate::stepping::{show_recorded, show_stepped};
use crate::worlds::show_world;
use std::rt::Files;
use std::{fs, io};

// Adds a line so many times to the text, as the words say.
fn add_lines<R: AllocGlobal>(rt: &R, words: &str, text: &mut String) -> io::Result<()> {
    let (count, line) = words.split_once(' ').unwrap_or((words, ""));
    let line = line.replace(rt.alloc(), '|', "\n")?;
    for _ in 0..count.parse::<u32>().unwrap_or(0) {
        writeln!(text, "{line}")?;
    }
    Ok(())
}

// Adds what a file has to the text.
fn add_file<R: Files + AllocGlobal>(rt: &R, name: &str, text: &mut String) -> io::Result<()> {
    let read = fs::read_to_string(rt, name)?;
    text.push_str(read.as_str())?;
    Ok(())
}

// Writes the text into a file, and begins it anew.
fn write_file<R: Files>(rt: &R, name: &str, text: &mut String) -> io::Result<()> {
    fs::write(rt, name, text.as_str())?;
    text.clear();
    Ok(())
}

// Shows whether two files have the same.
fn show_same<R: Files + Print + AllocGlobal>(rt: &R, words: &str) -> io::Result<()> {
    let is_so = are_same(rt, word(words, 0), word(words, 1));
    println!(rt; "{is_so}")
}

// Does what a line says, which begins with a verb.
fn do_verb<R: Host>(rt: &R, line: &str, verb: &str, words: &str) -> io::Result<()> {
    match verb {
        "same" => show_same(rt, words),
        "rounds" => show_rounds(rt, words),
        "fails" => show_failing(rt, words),
        "world" => show_world(rt, words),
        "play"
        | "live"
        | "left"
        | "meet"
        | "fail_played"
        | "fail_live"
        | "run"
        | "threads"
        | "miscast" => show_case(rt, verb, words),
        "both" => show_both(rt, words),
        "cut" => show_cut(rt, words),
        "faults" => show_faults(rt),
        "rows" => show_rows(rt, words.parse::<u32>().unwrap_or(0)),
        "interrupted" => show_interrupted(rt),
        "instances" => write_instances(rt),
        "walk" => show_walk(rt, words),
        "passes" => show_passes(rt, words),
        "turns" => show_stepped(rt, words),
        "recorded" => show_recorded(rt, words),
        _ => show_command(rt, line),
    }
}

// Shows a line with a name in place of `%`, and does what it says.
fn do_line<R: Host>(rt: &R, line: &str, name: &str, text: &mut String) -> io::Result<()> {
    let line = line.replace(rt.alloc(), '%', name)?;
    println!(rt; "$ {line}")?;
    let (verb, words) = line.split_once(' ').unwrap_or((line.as_str(), ""));
    match verb {
        "text" => add_lines(rt, words, text),
        "read" => add_file(rt, words, text),
        "file" => write_file(rt, words, text),
        _ => do_verb(rt, line.as_str(), verb, words),
    }
}

// Does what these lines say, which stand behind `; `, with a name in place of `%`.
fn do_lines<R: Host>(rt: &R, lines: &str, name: &str, text: &mut String) -> io::Result<()> {
    for line in lines.split("; ") {
        do_line(rt, line, name, text)?;
    }
    Ok(())
}

// Does what such lines say with each line of a file in place of `%`.
fn do_each<R: Host>(rt: &R, words: &str, text: &mut String) -> io::Result<()> {
    let (file, lines) = words.split_once(' ').unwrap_or((words, ""));
    let names = fs::read_to_string(rt, file)?;
    for name in names.lines() {
        do_lines(rt, lines, name, text)?;
    }
    Ok(())
}

/// Does what the lines of a file say.
pub(crate) fn show_lines<R: Host>(rt: &R, file: &str, text: &mut String) -> io::Result<()> {
    let lines = fs::read_to_string(rt, file)?;
    for line in lines.lines() {
        match line.strip_prefix("each ") {
            Some(words) => do_each(rt, words, text)?,
            None => do_line(rt, line, "", text)?,
        }
    }
    Ok(())
}
