//! Shows what no clause says of runs, of stored logs and of whole command lines: what the lines of files of `data` say, and
//! words that are no texts. `CASES.md` says which case stands where.
#![tactic(auto)]

mod answers;
mod cases;
mod commands;
mod counter;
mod failing;
mod faults;
mod judging;
mod limits;
mod lines;
mod outcomes;
mod rounds;
mod running;
mod staged;
mod stepping;
mod streams;
mod words;
mod worlds;

use lines::show_lines;
use std::io;
use words::show_words;

fn main(rt: HostRuntime) -> io::Result<()> {
    let mut text = String::new(rt.alloc());
    show_lines(&rt, "runs", &mut text)?;
    show_lines(&rt, "texts", &mut text)?;
    show_lines(&rt, "lines", &mut text)?;
    show_words(&rt)
}
