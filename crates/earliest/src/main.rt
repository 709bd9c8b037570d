// Reads a clockwork, as a drawing or as a row of numbers, and tells when each of its positions can be reached.
#![tactic(auto)]

use crate::options::{Options, Output};
use console::budget::kinds_that_fit;
use console::messages::{Problem, Report};
use console::positions::Positions;
use console::programs::{NoWords, begin, tell};
use console::{numbers, texts};
use drawing::Drawing;
use std::alloc::Global;
use std::process::ExitCode;
use std::{env, io};

mod explored;
mod help;
mod lines;
mod options;
mod summary;

// The position that is asked for, if one is.
fn find_position(
    heap: Global,
    options: &Options,
    positions: Positions<'_>,
) -> Result<Option<usize>, Problem> {
    let Some(word) = &options.position else {
        return Ok(None);
    };
    let word = word.as_str();
    let position = positions.find(word).try_ok_or_else(|| -> Result<Problem, Problem> {
        Ok(Problem::Position(positions.refuse(heap, word)?))
    })?;
    Ok(Some(position))
}

fn write_answers(heap: Global, options: &Options, drawing: &Drawing) -> Result<String, Problem> {
    let row = drawing.row.as_slice();
    let names = drawing.positions.as_slice();
    let count = texts::view(row)?.locations() as usize;
    let positions = Positions { names, count };
    let position = find_position(heap, options, positions)?;
    let kinds = options.kinds.unwrap_or(kinds_that_fit(row.len()));
    lines::write(heap, row, positions, options.engine, kinds, position)
}

// The help, and how many kinds of states fit for a clockwork.
fn write_help(heap: Global, row: &[u32]) -> Result<String, Problem> {
    let help = help::ABOUT.help;
    let words = row.len();
    let kinds = kinds_that_fit(words);
    Ok(format!(in heap;
        "{help}\nThe row of this clockwork has {words} numbers: {kinds} kinds of states fit into the memory.\n"
    )?)
}

// What the options ask to be printed of a clockwork.
fn write_output(heap: Global, options: &Options, drawing: &Drawing) -> Result<String, Problem> {
    let row = drawing.row.as_slice();
    match options.output {
        Output::Help => write_help(heap, row),
        Output::Answers => write_answers(heap, options, drawing),
        Output::Summary => Ok(summary::write(heap, texts::view(row)?, drawing)?),
        Output::Row => numbers::write(heap, row),
        Output::Drawing => texts::draw(heap, row),
    }
}

// The text is let go before the search begins.
fn carry_out(rt: &HostRuntime, options: &Options) -> Result<(), Problem> {
    let drawing = options.text.read(rt)?;
    let text = write_output(rt.alloc(), options, &drawing)?;
    rt.print(text.as_str()).map_err(Problem::Unwritable)
}

// Where something is wrong, the reason is told.
fn main(rt: HostRuntime) -> io::Result<ExitCode> {
    // The words are read and parsed here, and not in `begin`, which says why.
    let words = match env::args(&rt) {
        Ok(words) => words,
        Err(error) => {
            let program = help::ABOUT.program;
            let error = &error;
            return tell(&rt, NoWords { program, error });
        }
    };
    let options = match begin(&rt, help::ABOUT, options::parse(rt.alloc(), words))? {
        Ok(options) => options,
        Err(status) => return Ok(status),
    };
    if let Err(problem) = carry_out(&rt, &options) {
        let source = options.text.source();
        let problem = &problem;
        return tell(&rt, Report { source, problem });
    }
    Ok(ExitCode::SUCCESS)
}
