//! What both readers answer of a stored log and its certificates, in both formats and cut off at each byte.
//!
//! A line says the files of the log and of the certificates, behind `both` or `cut`.

use crate::commands::{value_of, word};
use kt_chain::read_certs;
use kt_checker::{check, check_stream};
use kt_log_text::{LogFault, read_csv};
use kt_spacetime::{Certificate, Verdict};
use std::alloc::{AllocError, Global};
use std::rt::Files;
use std::{fs, io};

// What a log text of format 2 begins with.
const FORMAT_2: &[u8] = b"kt,2,-,-\n";

// A log text in format 1.
fn rows_of(text: &[u8]) -> &[u8] {
    match text.strip_prefix(FORMAT_2) {
        Some(rows) => rows,
        None => text,
    }
}

// What the checker answers of a log of which all rows were read first.
fn answer_of_list(
    alloc: Global,
    text: &[u8],
    certificates: &[Certificate],
) -> Result<Verdict, LogFault> {
    let log = read_csv(alloc, text)?;
    Ok(check(alloc, &log, certificates)?)
}

// The line of an answer, or that of the fault of a text.
fn words_of(alloc: Global, answer: Result<Verdict, LogFault>) -> Result<String, AllocError> {
    match answer {
        Ok(verdict) => format!(in alloc; "{verdict}"),
        Err(fault) => format!(in alloc; "{fault}"),
    }
}

// What the checker answers of the rows that it reads one by one, and what of a list of them where that is something else.
fn answer_of(
    alloc: Global,
    text: &[u8],
    certificates: &[Certificate],
) -> Result<String, AllocError> {
    let streamed = words_of(alloc, check_stream(alloc, text, certificates))?;
    let listed = words_of(alloc, answer_of_list(alloc, text, certificates))?;
    if streamed.as_str() == listed.as_str() {
        return Ok(streamed);
    }
    format!(in alloc; "{streamed}, but of a list: {listed}")
}

// The certificates in a file.
fn certificates_in<R: Files + AllocGlobal>(rt: &R, name: &str) -> io::Result<Vec<Certificate>> {
    let text = fs::read(rt, name)?;
    value_of(read_certs(rt.alloc(), text.as_slice()))
}

// A log text in format 2, of one in format 1.
fn in_format_2(alloc: Global, rows: &[u8]) -> Result<Vec<u8>, AllocError> {
    let mut text = Vec::new(alloc);
    text.extend_from_slice(FORMAT_2)?;
    text.extend_from_slice(rows)?;
    Ok(text)
}

// Shows what both readers answer of a log text in format 1, and of the same in format 2.
fn show_formats<R: Print + AllocGlobal>(
    rt: &R,
    rows: &[u8],
    certificates: &[Certificate],
) -> io::Result<()> {
    let first = answer_of(rt.alloc(), rows, certificates)?;
    let text = in_format_2(rt.alloc(), rows)?;
    let second = answer_of(rt.alloc(), text.as_slice(), certificates)?;
    println!(rt; "format 1: {first}; format 2: {second}")
}

/// Shows what both readers answer of a log in either format.
pub(crate) fn show_both<R: Files + Print + AllocGlobal>(rt: &R, line: &str) -> io::Result<()> {
    let certificates = certificates_in(rt, word(line, 1))?;
    let text = fs::read(rt, word(line, 0))?;
    show_formats(rt, rows_of(text.as_slice()), certificates.as_slice())
}

// How many rows of a text end.
fn ended_rows(text: &[u8]) -> usize {
    text.iter().filter(|byte| **byte == b'\n').count()
}

// How many bytes stand behind the rows that end.
fn bytes_behind(text: &[u8]) -> usize {
    text.iter().rev().take_while(|byte| **byte != b'\n').count()
}

// Shows where a text is cut off and what both readers answer, where that is not what they answered before.
fn show_new<R: Print>(rt: &R, text: &[u8], answer: &str, before: &str) -> io::Result<()> {
    if answer == before {
        return Ok(());
    }
    let (rows, behind) = (ended_rows(text), bytes_behind(text));
    println!(rt; "{rows} rows, {behind} bytes: {answer}")
}

// Shows from where on both readers answer what of a text that is cut off at each byte.
fn show_cuts<R: Print + AllocGlobal>(
    rt: &R,
    rows: &[u8],
    certificates: &[Certificate],
) -> io::Result<()> {
    let mut before = String::new(rt.alloc());
    for count in 0..=rows.len() {
        let text = &rows[..count];
        let answer = answer_of(rt.alloc(), text, certificates)?;
        show_new(rt, text, answer.as_str(), before.as_str())?;
        before = answer;
    }
    Ok(())
}

/// Shows from where on both readers answer what of a log in format 1 that is cut off at each byte.
pub(crate) fn show_cut<R: Files + Print + AllocGlobal>(rt: &R, line: &str) -> io::Result<()> {
    let certificates = certificates_in(rt, word(line, 1))?;
    let text = fs::read(rt, word(line, 0))?;
    show_cuts(rt, rows_of(text.as_slice()), certificates.as_slice())
}
