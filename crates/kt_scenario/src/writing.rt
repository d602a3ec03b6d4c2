//! Steps written as text.

ghost use Rattle.std.specs.Prelude.{◌≡◌, ◌∷◌, ◌++◌, OnOk, OnErr};
ghost use Rattle.std.specs.Io.KnownBytes.{Appends};
ghost use Rattle.kt_text.specs.Writing.{WritesFront};
ghost use Rattle.kt_scenario.specs.Written.{step_line, step_name, step_words, steps_text};

use kt_base::{Memory, ProcNo};
use kt_plan::{Names, Step};
use kt_text::WriteFault;
use kt_text::pieces::{write_full, write_rest};
use std::alloc::Global;
use std::io::Write;

/// Writes steps of processes with these names as a text of steps: `do A` or `take AT FROM`, a line for each.
///
/// The text goes out in pieces of some 32 KiB, whatever the number of steps. After a fault, a front part of it is written.
pub fn write_steps<W: Write>(
    alloc: Global,
    names: &Names,
    steps: &[Step],
    writer: &mut W,
) -> Result<(), WriteFault>
    ensures written { OnOk result (Appends (W.contents writer.old) (W.contents writer.new)
        (steps_text names.now steps.now)) }
    ensures stopped { OnErr result (WritesFront (W.contents writer.old) (W.contents writer.new)
        (steps_text names.now steps.now)) }
{
    let mut text = Vec::new(alloc);
    for step in steps {
        push_step(&mut text, names, step)?;
        write_full(&mut text, writer)?;
    }
    write_rest(&mut text, writer)
}

// The line of a step.
fn push_step(text: &mut Vec<u8>, names: &Names, step: &Step) -> Result<(), Memory>
    ensures { OnOk result (text.new.items ≡ text.old.items ++ step_line names.now step.now) }
{
    push_step_words(text, names, step)?;
    text.extend_from_slice(b"\n")?;
    Ok(())
}

/// Gathers the words of a step of processes with these names: `do A` or `take AT FROM`.
pub fn push_step_words(text: &mut Vec<u8>, names: &Names, step: &Step) -> Result<(), Memory>
    ensures { OnOk result (text.new.items ≡ text.old.items ++ step_words names.now step.now) }
{
    match *step {
        Step::Do(p) => {
            text.extend_from_slice(b"do")?;
            push_name(text, names, p)
        }
        Step::Take { at, from } => {
            text.extend_from_slice(b"take")?;
            push_name(text, names, at)?;
            push_name(text, names, from)
        }
    }
}

// A blank and the name of a process.
fn push_name(text: &mut Vec<u8>, names: &Names, p: ProcNo) -> Result<(), Memory>
    ensures { OnOk result (text.new.items ≡ text.old.items ++ 32 ∷ step_name names.now p) }
{
    text.extend_from_slice(b" ")?;
    text.extend_from_slice(name_of(names, p))?;
    Ok(())
}

// The name of a process, or `-` where it has none.
fn name_of(names: &Names, p: ProcNo) -> &[u8]
    ensures { result.now ≡ step_name names.now p }
{
    match names.list().get(p.index()) {
        Some(name) => name.as_str().as_bytes(),
        None => b"-",
    }
}
