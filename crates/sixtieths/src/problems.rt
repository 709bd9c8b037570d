// What keeps the program from going on is told on standard error.
ghost use Rattle.std.specs.Prelude.{◌≡◌, IsErrAnd};
ghost use Rattle.std.specs.IoError.{error_kind};

use std::{fmt, io};

// The kind of the error is the one that is given, also where the message cannot be written, as there is nowhere else to tell that.
pub fn fail<T, M: fmt::Display + Drop>(
    rt: &HostRuntime,
    kind: io::ErrorKind,
    message: M,
) -> io::Result<T>
    ensures { IsErrAnd result (λ error. error_kind error ≡ kind) }
{
    let _ = eprintln!(rt; "{message}");
    Err(io::Error::from(kind))
}
