//! What ends the program: an error of input or output.

ghost use Rattle.std.specs.Prelude.{OnOk};

use std::io;

/// That something is not as it has to be.
pub(crate) fn refused<T>() -> io::Result<T>
    ensures { OnOk result ⊥ }
{
    Err(io::Error::from(io::ErrorKind::Other))
}

/// What was answered, or that it was a fault.
pub(crate) fn value_of<T, E: Drop>(answer: Result<T, E>) -> io::Result<T> {
    match answer {
        Ok(value) => Ok(value),
        Err(_) => refused(),
    }
}
