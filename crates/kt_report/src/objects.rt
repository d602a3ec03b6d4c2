//! The lines of objects.

ghost use Rattle.std.specs.Prelude.{◌≡◌, ◌∷◌, ◌++◌, [], OnOk, codes, length, map};
ghost use Rattle.std.specs.Fmt.{signed_decimal};
ghost use Rattle.kt_report.specs.Lines.{line, object_line};
ghost use Rattle.kt_report.specs.Report.{object_lines};

use crate::offers::Offers;
use crate::words::{end_line, name_at, push_word};
use kt_base::Memory;
use kt_plan::Names;

/// Gathers a line for each process, of which each has an object.
pub(crate) fn push_objects(
    text: &mut Vec<u8>,
    names: &Names,
    objects: &[Offers],
) -> Result<(), Memory>
    requires { length objects.now ≡ length names.now }
    ensures { OnOk result (text.new.items ≡ text.old.items ++ object_lines names.now (map (λ o. o.now) objects.now)) }
{
    for place in 0..objects.len() {
        push_object(text, name_at(names, place), objects[place].now)?;
    }
    Ok(())
}

// The line of an object.
fn push_object(text: &mut Vec<u8>, name: &[u8], offer: Option<i64>) -> Result<(), Memory>
    ensures { OnOk result (text.new.items ≡ text.old.items ++ object_line name.now offer) }
{
    text.extend_from_slice(b"object")?;
    push_word(text, name)?;
    match offer {
        Some(offer) => push_up(text, offer),
        None => push_down(text),
    }
}

// The rest of the line of an object that is up: so it is said, and what it offers.
fn push_up(text: &mut Vec<u8>, offer: i64) -> Result<(), Memory>
    ensures { OnOk result (text.new.items ≡ text.old.items ++ 32 ∷ line (codes "up" ∷ signed_decimal offer ∷ [])) }
{
    let mut digits = itoa::Buffer::new();
    push_word(text, b"up")?;
    push_word(text, digits.format(offer).as_bytes())?;
    end_line(text)
}

// The rest of the line of an object that is down.
fn push_down(text: &mut Vec<u8>) -> Result<(), Memory>
    ensures { OnOk result (text.new.items ≡ text.old.items ++ 32 ∷ line (codes "down" ∷ [])) }
{
    push_word(text, b"down")?;
    end_line(text)
}
