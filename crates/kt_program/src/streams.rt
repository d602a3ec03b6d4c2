//! Standard streams that are closed.

ghost use Rattle.std.specs.Prelude.{IfSome, pos, ◌≤ℤ◌};

use std::fs;
use std::os::fd::AsRawFd;
use std::rt::Files;

// It can neither be read nor written, and is there wherever there are files.
const STAND_IN: &str = "/";

// The descriptors of the standard streams end here.
const LAST_STREAM: i32 = 2;

/// What stands in for the standard streams that are closed, as long as it is kept: no file that is opened gets a descriptor of
/// theirs, and reading or writing them is a fault.
#[derive(Drop)]
pub struct StandIns<W> {
    first: Option<W>,
    second: Option<W>,
    third: Option<W>,
}

/// What stands in for the standard streams that are closed.
pub fn stand_ins<F: Files>(files: &F) -> StandIns<F::File>
where
    F::File: AsRawFd,
    ensures first { IfSome result.first (λ file. IfSome (F.File.raw_fd file) (λ number. number ≤ℤ pos 2)) }
    ensures second { IfSome result.second (λ file. IfSome (F.File.raw_fd file) (λ number. number ≤ℤ pos 2)) }
    ensures third { IfSome result.third (λ file. IfSome (F.File.raw_fd file) (λ number. number ≤ℤ pos 2)) }
{
    StandIns {
        first: stand_in(files),
        second: stand_in(files),
        third: stand_in(files),
    }
}

// What stands in for the first standard stream that is closed. None where no stream is closed, or none can be stood in for.
fn stand_in<F: Files>(files: &F) -> Option<F::File>
where
    F::File: AsRawFd,
    ensures { IfSome result (λ file. IfSome (F.File.raw_fd file) (λ number. number ≤ℤ pos 2)) }
{
    let file = fs::open(files, STAND_IN).ok()?;
    if file.as_raw_fd() > LAST_STREAM {
        return None;
    }
    Some(file)
}
