// How the programs begin and end: what a call asks of the program itself is printed, and what is wrong is told.
ghost use Rattle.std.specs.Prelude.{◌≡◌, IfOk};
ghost use Rattle.std.specs.Process.{exit_status};
ghost use Rattle.console.specs.Programs.{BeginsWith};

use crate::options::{BadCall, Mistake, Request};
use std::process::ExitCode;
use std::{fmt, io};

// What a program says of itself.
#[derive(Clone, Copy)]
pub struct About {
    pub program: &'static str,
    pub version: &'static str,
    pub help: &'static str,
}

// The words of a call cannot be read.
#[derive(Clone, Copy)]
pub struct NoWords<'a> {
    pub program: &'a str,
    pub error: &'a io::Error,
}

impl<'a> fmt::Display for NoWords<'a> {
    fn fmt<W: fmt::Write>(&self, f: &mut fmt::Formatter<W>) -> fmt::Result {
        let program = self.program;
        let error = self.error;
        write!(f, "{program}: the arguments cannot be read: {error}")
    }
}

// Tells what is wrong on standard error.
pub fn tell<D: fmt::Display + Drop>(rt: &HostRuntime, wrong: D) -> io::Result<ExitCode>
    ensures { IfOk result (λ status. exit_status status ≡ 1) }
{
    rt.eprintln(wrong)?;
    Ok(ExitCode::FAILURE)
}

// The options of a call, or the status where the program has no work to do. Each `main` reads the words and parses them itself: with
// a closure that parses them here the borrow checker does not cover this call on its answer ("another lifetime for `'static`").
pub fn begin<T: Drop>(
    rt: &HostRuntime,
    about: About,
    asked: Result<Request<T>, Mistake>,
) -> io::Result<Result<T, ExitCode>>
    ensures { IfOk result (λ begun. BeginsWith asked begun) }
{
    match asked {
        Ok(Request::Help) => rt.print(about.help)?,
        Ok(Request::Version) => rt.print(about.version)?,
        Ok(Request::Show(options)) => return Ok(Ok(options)),
        Err(mistake) => {
            let program = about.program;
            let mistake = &mistake;
            return Ok(Err(tell(rt, BadCall { program, mistake })?));
        }
    }
    Ok(Err(ExitCode::SUCCESS))
}
