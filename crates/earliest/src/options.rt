// The options of a call: what to read, and what to print of it.
use console::options::{Mistake, Request, is_option, number, refuse, set, set_file, value};
use console::texts::{Form, Text};
use std::alloc::Global;
use std::env::Args;

#[derive(Clone, Copy)]
pub enum Output {
    // with what it says of the clockwork
    Help,
    Answers,
    Summary,
    Row,
    Drawing,
}

// Which search answers: the one through zones and, where these do not fit, the one through regions; or one of them alone.
#[derive(Clone, Copy, PartialEq, Eq)]
pub enum Engine {
    Either,
    Zones,
    Regions,
}

#[derive(Drop)]
pub struct Options {
    pub text: Text,
    pub output: Output,
    pub engine: Engine,
    // As many as fit where none.
    pub kinds: Option<u32>,
    // All where none.
    pub position: Option<String>,
}

const OPTIONS: [&str; 9] = [
    "--position",
    "--kinds",
    "--zones",
    "--rows",
    "--print-rows",
    "--print-drawing",
    "--summary",
    "--help",
    "--version",
];

// What to print: only one thing may be asked for.
fn set_output(output: &mut Option<Output>, asked: Output, word: String) -> Result<(), Mistake> {
    set(output, asked).map_err(|_| Mistake::SecondOutput(word))
}

// The words of the call, of which the first is the program's own name. clap is not used: it words its messages and its help in its own way,
// and what the program prints is to stay.
pub fn parse(heap: Global, mut words: Args) -> Result<Request<Options>, Mistake> {
    // Both are only noted, and no value is beside them: a mistake in a later word is told first, and the version before the help.
    let mut help = false;
    let mut version = false;
    let mut zones = false;
    let mut form = Form::Drawing;
    let mut output = None;
    let mut position = None;
    let mut kinds = None;
    let mut file = None;
    words.next();
    while let Some(word) = words.next() {
        match word.as_str() {
            "--help" | "-h" => help = true,
            "--version" | "-V" => version = true,
            "--zones" => zones = true,
            "--rows" => form = Form::Row,
            "--summary" => set_output(&mut output, Output::Summary, word)?,
            "--print-rows" => set_output(&mut output, Output::Row, word)?,
            "--print-drawing" => set_output(&mut output, Output::Drawing, word)?,
            "--position" => position = Some(value(&mut words, "--position", &position)?),
            "--kinds" => kinds = Some(number("--kinds", value(&mut words, "--kinds", &kinds)?)?),
            name if is_option(name) => return Err(refuse(heap, &OPTIONS, word)),
            _ => set_file(&mut file, word)?,
        }
    }
    // Only the answers have a use for these.
    if output.is_some() && kinds.is_some() {
        return Err(Mistake::Misplaced("--kinds"));
    }
    if output.is_some() && position.is_some() {
        return Err(Mistake::Misplaced("--position"));
    }
    if output.is_some() && zones {
        return Err(Mistake::Misplaced("--zones"));
    }
    // A search through zones counts no kinds.
    if zones && kinds.is_some() {
        return Err(Mistake::Misplaced("--kinds"));
    }
    if version {
        return Ok(Request::Version);
    }
    if help && file.is_none() {
        return Ok(Request::Help);
    }
    let engine = if zones {
        Engine::Zones
    } else if kinds.is_some() {
        Engine::Regions
    } else {
        Engine::Either
    };
    let output = if help {
        Output::Help
    } else {
        output.unwrap_or(Output::Answers)
    };
    Ok(Request::Show(Options {
        text: Text { form, file },
        output,
        engine,
        kinds,
        position,
    }))
}
