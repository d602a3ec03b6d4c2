//! Texts that are too long to be stored, and a reader that is always interrupted.

use crate::streams::{InterruptedReader, RepeatingReader};
use kt_program::{check_bytes, read_scenario};
use std::alloc::AllocError;
use std::cell::Cell;
use std::rt::Files;
use std::{fs, io};

// Adds the 64 rows of an instance, a checkpoint of process 1, behind so many like ones: 29 messages, for the last of which
// process 0 has to take it too.
fn push_instance(text: &mut String, before: u32) -> Result<(), AllocError> {
    for message in 0..29u32 {
        let number = before.saturating_mul(64).saturating_add(2 * message + 1);
        write!(text, "sent,0,1,1\nreceived,1,0,{number}\n")?;
    }
    let k = before.saturating_add(1);
    write!(
        text,
        "began,1,{k},checkpoint\ntook,1,{k},-\ntook,0,{k},-\ndecided,1,{k},commit\nclosed,1,{k},-\nclosed,0,{k},-\n"
    )
}

/// Writes a log of 262,144 rows, of as many instances as there may be, into a file.
pub(crate) fn write_instances<R: Files + AllocGlobal>(rt: &R) -> io::Result<()> {
    let mut text = String::from_str(rt.alloc(), "kt,2,-,-\n")?;
    for before in 0..4_096 {
        push_instance(&mut text, before)?;
    }
    fs::write(rt, "instances.csv", text.as_str())
}

/// Shows what comes of a reader that is interrupted at each call, and how often it is called.
pub(crate) fn show_interrupted<R: Print + AllocGlobal>(rt: &R) -> io::Result<()> {
    let calls = Cell::new(0);
    let fault = read_scenario(rt.alloc(), InterruptedReader { calls: &calls }).err();
    println!(rt; "{fault:?}, interrupted {} times", calls.get())
}

/// Shows what comes of a log of format 2 with a row at which a process fails, and so many that it is down.
pub(crate) fn show_rows<R: Print + AllocGlobal>(rt: &R, times: u32) -> io::Result<()> {
    let log = RepeatingReader {
        left: b"kt,2,-,-\nfailed,0,-,-\n",
        row: b"refused,0,send,down\n",
        times,
    };
    let none: &[u8] = b"";
    let answer = check_bytes(rt.alloc(), log, none, &mut io::writer(rt));
    println!(rt; "{answer:?}")
}
