// The options of a call: what to read, and what to show of it.
use console::options::{Mistake, Request, is_option, number, refuse, set_file, value};
use console::texts::{Form, Text};
use std::alloc::Global;
use std::env::Args;

// Where none is given.
const PART: u32 = 100;

// Which search answers: the one through zones and, where these do not fit, the one through regions; or one of them alone.
#[derive(Clone, Copy, PartialEq, Eq)]
pub enum Engine {
    Either,
    Zones,
    Regions,
}

#[derive(Drop)]
pub struct Options {
    pub text: Text,
    pub position: Option<String>,
    pub part: u32,
    pub engine: Engine,
    // As many as fit where none.
    pub kinds: Option<u32>,
}

const OPTIONS: [&str; 7] = [
    "--position",
    "--within",
    "--kinds",
    "--zones",
    "--rows",
    "--help",
    "--version",
];

// The words of the call, of which the first is the program's own name. clap is not used: it words its messages and its help in its own way,
// and what the program prints is to stay.
pub fn parse(heap: Global, mut words: Args) -> Result<Request<Options>, Mistake> {
    // Both are only noted, and no value is beside them: a mistake in a later word is told first, and the version before the help.
    let mut help = false;
    let mut version = false;
    let mut zones = false;
    let mut form = Form::Drawing;
    let mut position = None;
    let mut within = None;
    let mut kinds = None;
    let mut file = None;
    words.next();
    while let Some(word) = words.next() {
        match word.as_str() {
            "--help" | "-h" => help = true,
            "--version" | "-V" => version = true,
            "--zones" => zones = true,
            "--rows" => form = Form::Row,
            "--position" => position = Some(value(&mut words, "--position", &position)?),
            "--within" => {
                within = Some(number("--within", value(&mut words, "--within", &within)?)?);
            }
            "--kinds" => kinds = Some(number("--kinds", value(&mut words, "--kinds", &kinds)?)?),
            name if is_option(name) => return Err(refuse(heap, &OPTIONS, word)),
            _ => set_file(&mut file, word)?,
        }
    }
    // A search through zones counts no kinds.
    if zones && kinds.is_some() {
        return Err(Mistake::Misplaced("--kinds"));
    }
    if version {
        return Ok(Request::Version);
    }
    if help {
        return Ok(Request::Help);
    }
    let engine = if zones {
        Engine::Zones
    } else if kinds.is_some() {
        Engine::Regions
    } else {
        Engine::Either
    };
    Ok(Request::Show(Options {
        text: Text { form, file },
        position,
        part: within.unwrap_or(PART),
        engine,
        kinds,
    }))
}
