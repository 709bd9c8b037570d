// The text of a file or of standard input, of bounded length.
ghost use Rattle.std.specs.Prelude.{◌≤◌, option_map, IfOk, vec_len};
ghost use Rattle.console.specs.Calls.{SourceIs};

use crate::budget::TEXT_BYTES;
use crate::messages::Problem;
use std::alloc::Global;
use std::fs::File;
use std::io::{ErrorKind, Read};
use std::{fmt, io};

const CHUNK: usize = 4096;

// An Option of a name would not say what is read where there is none.
#[derive(Clone, Copy)]
pub enum Source<'a> {
    Input,
    File(&'a str),
}

impl<'a> Source<'a> {
    // Standard input where no file is named, or `-` is. No From: that is a rule of calls, and `Source::from` would not say of what.
    pub fn of(file: Option<&'a str>) -> Source<'a>
        ensures { SourceIs (option_map (λ name. name.now) file.entry) result }
    {
        match file {
            None | Some("-") => Source::Input,
            Some(name) => Source::File(name),
        }
    }
}

impl<'a> fmt::Display for Source<'a> {
    fn fmt<W: fmt::Write>(&self, f: &mut fmt::Formatter<W>) -> fmt::Result {
        match self {
            Source::Input => f.write_str("standard input"),
            Source::File(name) => f.write_str(name),
        }
    }
}

// One byte more than a text may have is read, to tell a text that is too large, and there is room for it, so that the bytes never move.
// No `read_to_end`, which fills all the room that it reads into with zeros first: here a chunk is filled once. What a signal interrupts is tried again.
fn read_all(heap: Global, reader: &mut impl Read) -> Result<Vec<u8>, Problem>
    ensures { IfOk result (λ bytes. vec_len bytes ≤ 262144) }
{
    let mut bytes = Vec::with_capacity(heap, TEXT_BYTES + 1)?;
    let mut most = reader.by_ref().take(TEXT_BYTES as u64 + 1);
    let mut chunk = [0u8; CHUNK];
    for _ in 0..usize::MAX {
        match most.read(&mut chunk) {
            Ok(0) => {
                if bytes.len() > TEXT_BYTES {
                    return Err(Problem::TooLarge);
                }
                return Ok(bytes);
            }
            Ok(count) => bytes.extend_from_slice(&chunk[..count])?,
            Err(error) => {
                if error.kind() != ErrorKind::Interrupted {
                    return Err(Problem::Unreadable(error));
                }
            }
        }
    }
    Err(Problem::Unreadable(io::Error::from(ErrorKind::TimedOut)))
}

// At most as many bytes as a text may have.
pub fn read(rt: &HostRuntime, source: Source<'_>) -> Result<Vec<u8>, Problem>
    ensures { IfOk result (λ bytes. vec_len bytes ≤ 262144) }
{
    let heap = rt.alloc();
    match source {
        Source::Input => read_all(heap, &mut rt.stdin()),
        Source::File(name) => {
            let mut file = File::open(rt, name).map_err(Problem::Unreadable)?;
            read_all(heap, &mut file)
        }
    }
}
