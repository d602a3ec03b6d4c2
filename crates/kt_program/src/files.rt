//! Which files were opened, and which of them are one.

ghost use Rattle.std.specs.Prelude.{All, MatchBool};
ghost use Rattle.kt_program.specs.Files.{AreOthers, AreTwo};

use std::fs::{Metadata, OpenFile};
use std::os::unix::fs::MetadataExt;

/// A regular file, by its device and its number there.
#[derive(Clone, Copy, PartialEq, Eq)]
pub(crate) struct FileNumber {
    pub(crate) device: u64,
    pub(crate) number: u64,
}

/// Which regular file was opened. None where it is none, as a pipe, or where it is not told.
pub(crate) fn number_of<W: OpenFile>(file: &W) -> Option<FileNumber> {
    number_of_metadata(&file.metadata().ok()?)
}

/// Which regular file is told of so.
pub(crate) fn number_of_metadata(metadata: &Metadata) -> Option<FileNumber> {
    let device = metadata.dev();
    let number = metadata.ino();
    (number != 0 && metadata.is_file()).then_some(FileNumber { device, number })
}

/// Whether both are told, and are one file.
pub(crate) fn is_one(one: Option<FileNumber>, other: Option<FileNumber>) -> bool
    ensures { MatchBool result (¬ AreTwo one other) (AreTwo one other) }
{
    one.is_some() && one == other
}

// Whether a file is one of these.
fn is_among(file: Option<FileNumber>, files: &[Option<FileNumber>]) -> bool
    ensures { MatchBool result (¬ All (AreTwo file) files.now) (All (AreTwo file) files.now) }
{
    files.iter().any(|other| is_one(file, *other))
}

/// Whether an output is the file of an input or of another output.
pub(crate) fn is_twice(inputs: &[Option<FileNumber>], outputs: &[Option<FileNumber>]) -> bool
    ensures { MatchBool result (¬ AreOthers inputs.now outputs.now) (AreOthers inputs.now outputs.now) }
{
    for (place, output) in outputs.iter().enumerate() {
        if is_among(*output, inputs) || is_among(*output, &outputs[..place]) {
            return true;
        }
    }
    false
}
