//! The lines of commands that were refused.

ghost use Rattle.std.specs.Prelude.{◌≡◌, ◌∷◌, ◌++◌, OnOk, OnErr};
ghost use Rattle.std.specs.List.{flat_map};
ghost use Rattle.kt_spacetime.specs.declared.event.Event.TheVariants.{Refused};
ghost use Rattle.kt_text.specs.Writing.{Sends, WritesFront};
ghost use Rattle.kt_report.specs.Lines.{refusal_line};

use crate::words::{name_text, put_cause, put_word, verb_text};
use kt_base::{Cause, Memory, ProcNo, Verb};
use kt_plan::Names;
use kt_spacetime::Event;
use kt_text::WriteFault;
use kt_text::lines::Line;
use kt_text::pieces::write_full;
use std::io::Write;

/// Writes or gathers a line for each command that was refused.
pub(crate) fn write_refusals<W: Write>(
    text: &mut Vec<u8>,
    names: &Names,
    rows: &[Event],
    writer: &mut W,
) -> Result<(), WriteFault>
    ensures sent { OnOk result (Sends (W.contents writer.old) (W.contents writer.new) text.old.items text.new.items (flat_map (refusal_line names.now) rows.now)) }
    ensures stopped { OnErr result (WritesFront (W.contents writer.old) (W.contents writer.new)
        (text.old.items ++ flat_map (refusal_line names.now) rows.now)) }
{
    for row in rows {
        push_row(text, names, *row)?;
        write_full(text, writer)?;
    }
    Ok(())
}

// The line of a row, if it refuses a command.
fn push_row(text: &mut Vec<u8>, names: &Names, row: Event) -> Result<(), Memory>
    ensures { OnOk result (text.new.items ≡ text.old.items ++ refusal_line names.now row) }
{
    match row {
        Event::Refused { p, verb, cause } => push_refusal(text, names, p, verb, cause),
        _ => Ok(()),
    }
}

// The line of a command that was refused.
fn push_refusal(
    text: &mut Vec<u8>,
    names: &Names,
    p: ProcNo,
    verb: Verb,
    cause: Cause,
) -> Result<(), Memory>
    ensures { OnOk result (text.new.items ≡ text.old.items ++ refusal_line names.now (Refused p verb cause)) }
{
    let mut line = Line::new();
    line.put_byte(b'\n');
    put_cause(&mut line, cause);
    put_word(&mut line, verb_text(verb));
    put_word(&mut line, name_text(names, p));
    line.put(b"refused");
    line.push_to(text)
}
