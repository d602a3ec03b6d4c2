//! Rows of the log as they are written.

ghost use Rattle.std.specs.Prelude.{◌≡◌, ◌++◌, OnOk};
ghost use Rattle.kt_log_text.specs.Spelling.{spelling};
ghost use Rattle.kt_log_text.specs.Texts.{header};
ghost use Rattle.kt_text.specs.Writing.{line_of};

use kt_base::Memory;
use kt_log_text::push_fields;
use kt_spacetime::Event;

/// Gathers the record that names the format.
pub(crate) fn push_header(text: &mut Vec<u8>) -> Result<(), Memory>
    ensures { OnOk result (text.new.items ≡ text.old.items ++ line_of header) }
{
    text.extend_from_slice(b"kt,2,-,-\n")?;
    Ok(())
}

/// Gathers a row's record.
pub(crate) fn push_row(text: &mut Vec<u8>, row: Event) -> Result<(), Memory>
    ensures { OnOk result (text.new.items ≡ text.old.items ++ line_of (spelling row)) }
{
    push_fields(text, row)?;
    text.push(b'\n')?;
    Ok(())
}
