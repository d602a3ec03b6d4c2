//! Names of files, and which of them may be given together.

ghost use Rattle.std.specs.Prelude.{◌↔◌, All, IsTrue, MatchBool};
ghost use Rattle.kt_program.specs.Names.{Apart, AreApart, IsDescriptor, AreReadOnce, IsDevice, IsStandard, ReadOnce};

/// A name that may be given.
pub(crate) type Name<'a> = Option<&'a str>;

/// Whether a name may be given again: that of standard input or output, `-`, or a device's: `/dev/null`, `/dev/stdin`,
/// `/dev/stdout`, `/dev/stderr`, `/dev/tty`, or `/dev/fd/` and a number.
pub fn is_device(name: &str) -> bool
    ensures { IsTrue result ↔ IsDevice name.now }
{
    match name {
        "-" | "/dev/null" | "/dev/stdin" | "/dev/stdout" | "/dev/stderr" | "/dev/tty" => true,
        _ => is_descriptor(name),
    }
}

// Whether a name is a descriptor's.
fn is_descriptor(name: &str) -> bool
    ensures { IsTrue result ↔ IsDescriptor name.now }
{
    let digits = name.as_bytes().strip_prefix(b"/dev/fd/");
    digits.is_some_and(|digits| !digits.is_empty() && digits.iter().all(u8::is_ascii_digit))
}

/// The name of standard input where a file is read, and of standard output where one is written.
pub(crate) const STANDARD: &str = "-";

/// Whether standard output is written: no file is named, or that is.
pub(crate) fn is_standard(name: Name<'_>) -> bool
    ensures { MatchBool result (IsStandard name.entry) (¬ IsStandard name.entry) }
{
    name.unwrap_or(STANDARD) == STANDARD
}

/// The name by which a file is opened that is read.
pub(crate) fn source_of(name: &str) -> &str {
    if name == STANDARD { "/dev/stdin" } else { name }
}

/// The name by which a file is opened that is written.
pub(crate) fn target_of(name: &str) -> &str {
    if name == STANDARD {
        "/dev/stdout"
    } else {
        name
    }
}

// Whether both names are given, are the same, and are no device's.
fn is_same(one: Name<'_>, other: Name<'_>) -> bool
    ensures { MatchBool result (¬ Apart one.entry other.entry) (Apart one.entry other.entry) }
{
    one == other && one.is_some_and(|name| !is_device(name))
}

// Whether a name is the same as one of these.
fn is_among(name: Name<'_>, names: &[Name<'_>]) -> bool
    ensures { MatchBool result (¬ All (Apart name.entry) names.now) (All (Apart name.entry) names.now) }
{
    names.iter().any(|other| is_same(name, *other))
}

/// Whether an output has the name of an input or of another output. The name of a device may be given again.
pub fn clash(inputs: &[Option<&str>], outputs: &[Option<&str>]) -> bool
    ensures { MatchBool result (¬ AreApart inputs.now outputs.now) (AreApart inputs.now outputs.now) }
{
    for (place, output) in outputs.iter().enumerate() {
        if is_among(*output, inputs) || is_among(*output, &outputs[..place]) {
            return true;
        }
    }
    false
}

// Whether both are names of standard input.
fn are_standard(one: Name<'_>, other: Name<'_>) -> bool
    ensures { MatchBool result (¬ ReadOnce one.entry other.entry) (ReadOnce one.entry other.entry) }
{
    one == Some(STANDARD) && other == Some(STANDARD)
}

// Whether a name and one of these are names of standard input.
fn is_read_among(name: Name<'_>, names: &[Name<'_>]) -> bool
    ensures { MatchBool result (¬ All (ReadOnce name.entry) names.now) (All (ReadOnce name.entry) names.now) }
{
    names.iter().any(|other| are_standard(name, *other))
}

/// Whether standard input is read twice.
pub(crate) fn is_read_twice(inputs: &[Name<'_>]) -> bool
    ensures { MatchBool result (¬ AreReadOnce inputs.now) (AreReadOnce inputs.now) }
{
    for (place, input) in inputs.iter().enumerate() {
        if is_read_among(*input, &inputs[..place]) {
            return true;
        }
    }
    false
}
