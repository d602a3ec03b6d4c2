//! Whether two plans are the same.

ghost use Rattle.std.specs.Prelude.{◌≡◌, ◌↔◌, map, string_bytes, IsTrue};

use kt_plan::{Command, Plan};

/// Whether these are the same names.
fn are_same_names(one: &[String], other: &[String]) -> bool
    ensures same { IsTrue result ↔ (map string_bytes one.now ≡ map string_bytes other.now) }
{
    if one.len() != other.len() {
        return false;
    }
    for i in 0..one.len() {
        if one[i].as_str() != other[i].as_str() {
            return false;
        }
    }
    true
}

/// Whether these are the same commands.
fn are_same_commands(one: &[Command], other: &[Command]) -> bool
    ensures same { IsTrue result ↔ (one.now ≡ other.now) }
{
    if one.len() != other.len() {
        return false;
    }
    for i in 0..one.len() {
        if one[i] != other[i] {
            return false;
        }
    }
    true
}

/// Whether two plans are the same.
pub(crate) fn is_same_plan(one: &Plan, other: &Plan) -> bool
    ensures same { IsTrue result ↔ (one.now ≡ other.now) }
{
    if !are_same_names(one.names.list(), other.names.list()) {
        return false;
    }
    if one.kinds.as_slice() != other.kinds.as_slice() {
        return false;
    }
    are_same_commands(&one.commands, &other.commands)
}
