//! Words of a report, separated by blanks.

ghost use Rattle.std.specs.Prelude.{◌≡◌, ◌≤◌, ◌+◌, ◌∷◌, ◌++◌, [], length, OnOk};
ghost use Rattle.kt_base.specs.declared.words.Cause.TheVariants.{Busy};
ghost use Rattle.kt_log_text.specs.Spelling.{verb_word, cause_word};
ghost use Rattle.kt_plan.specs.Names.{AreNames};
ghost use Rattle.kt_report.specs.Lines.{name_of};

use kt_base::{Cause, InstNo, Memory, ProcNo, Verb};
use kt_plan::Names;
use kt_text::lines::Line;

/// The name of a process, or `-` where it has none.
#[inline(always)]
pub(crate) fn name_text(names: &Names, p: ProcNo) -> &[u8]
    ensures name { result.now ≡ name_of names.now p }
    ensures short { length result.now ≤ 16 }
{
    name_at(names, p.index())
}

/// The name at a place, or `-` where there is none.
#[inline(always)]
pub(crate) fn name_at(names: &Names, place: usize) -> &[u8]
    ensures name { result.now ≡ name_of names.now place }
    ensures names { AreNames names.now }
{
    match names.list().get(place) {
        Some(name) => name.as_str().as_bytes(),
        None => b"-",
    }
}

/// The word of a command.
pub(crate) fn verb_text(verb: Verb) -> &'static [u8]
    ensures word { result.now ≡ verb_word verb }
    ensures short { length result.now ≤ 10 }
{
    match verb {
        Verb::Send => b"send",
        Verb::Checkpoint => b"checkpoint",
        Verb::Rollback => b"rollback",
        Verb::Fail => b"fail",
    }
}

/// Gathers a blank and a word.
#[inline(always)]
pub(crate) fn push_word(text: &mut Vec<u8>, word: &[u8]) -> Result<(), Memory>
    ensures { OnOk result (text.new.items ≡ text.old.items ++ 32 ∷ word.now) }
{
    text.push(b' ')?;
    text.extend_from_slice(word)?;
    Ok(())
}

/// Ends a line.
pub(crate) fn end_line(text: &mut Vec<u8>) -> Result<(), Memory>
    ensures { OnOk result (text.new.items ≡ text.old.items ++ 10 ∷ []) }
{
    text.push(b'\n')?;
    Ok(())
}

/// Puts a blank and a word before what follows them.
#[inline(always)]
pub(crate) fn put_word(line: &mut Line, word: &[u8])
    requires { length word.now + length line.old ≤ 63 }
    ensures text { line.new ≡ 32 ∷ (word.now ++ line.old) }
    ensures length { length line.new ≡ length word.now + length line.old + 1 }
{
    line.put(word);
    line.put_byte(b' ');
}

/// Puts a blank and a cause, as a log has it, before what follows them.
#[inline(always)]
pub(crate) fn put_cause(line: &mut Line, cause: Cause)
    requires { length line.old ≤ 1 }
    ensures text { line.new ≡ 32 ∷ (cause_word cause ++ line.old) }
    ensures length { length line.new ≤ 17 }
{
    match cause {
        Cause::Busy(inst) => put_busy(line, inst),
        Cause::Down => put_word(line, b"down"),
        Cause::NoSave => put_word(line, b"nosave"),
    }
}

// A blank and the cause of a process that is in another instance.
fn put_busy(line: &mut Line, inst: InstNo)
    requires { length line.old ≤ 1 }
    ensures text { line.new ≡ 32 ∷ (cause_word (Busy inst) ++ line.old) }
    ensures length { length line.new ≤ 17 }
{
    line.put_decimal(u32::from(inst.get()));
    put_word(line, b"busy-");
}
