//! Sentences as they are told.

pub use Name::{Count, Instance, Message, Process, Row};
use kt_base::{InstNo, MsgNo, ProcNo, RowNo};
use std::fmt;

/// What a sentence names.
#[derive(Clone, Copy)]
pub enum Name {
    /// Nothing, where there is no more.
    Nothing,
    Process(ProcNo),
    Instance(InstNo),
    Message(MsgNo),
    Row(RowNo),
    Count(usize),
}

pub const NO: Name = Name::Nothing;

/// Writes a sentence, in whose text each # stands for the next of these names.
pub fn say<W: fmt::Write>(f: &mut fmt::Formatter<W>, text: &str, names: &[Name]) -> fmt::Result {
    let mut names = names.iter();
    for (place, piece) in text.split('#').enumerate() {
        if place > 0 {
            write!(f, "{}", names.next().unwrap_or(&NO))?;
        }
        f.write_str(piece)?;
    }
    Ok(())
}

impl fmt::Display for Name {
    fn fmt<W: fmt::Write>(&self, f: &mut fmt::Formatter<W>) -> fmt::Result {
        match self {
            Name::Nothing => Ok(()),
            Name::Process(p) => write!(f, "{p}"),
            Name::Instance(k) => write!(f, "{k}"),
            Name::Message(m) => write!(f, "{m}"),
            Name::Row(row) => write!(f, "{row}"),
            Name::Count(count) => write!(f, "{count}"),
        }
    }
}
