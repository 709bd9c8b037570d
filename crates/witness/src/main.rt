// Reads a clockwork, as a drawing or as a row of numbers, and shows a run that reaches a position as early as can be.
#![tactic(auto)]

use crate::options::Options;
use crate::troubles::{Complaint, Trouble};
use accounts::names::Names;
use console::budget::kinds_that_fit;
use console::messages::Problem;
use console::names::Name;
use console::positions::Positions;
use console::programs::{NoWords, begin, tell};
use console::texts;
use drawing::Drawing;
use rows::edges::Location;
use std::alloc::{AllocError, Global};
use std::process::ExitCode;
use std::{env, io};

mod findings;
mod help;
mod options;
mod output;
mod troubles;

// The position that is asked for.
fn find_position(
    heap: Global,
    options: &Options,
    positions: Positions<'_>,
) -> Result<Location, Trouble> {
    let word = options.position.as_ref().try_ok_or_else(|| -> Result<Trouble, Trouble> {
        Ok(Trouble::NoPosition(positions.refuse(heap, "")?.known))
    })?;
    let word = word.as_str();
    let position = positions.find(word).try_ok_or_else(|| -> Result<Trouble, Trouble> {
        Ok(Trouble::from(Problem::Position(positions.refuse(heap, word)?)))
    })?;
    Ok(Location(u32::try_from(position).unwrap_or(u32::MAX)))
}

// A name for each of so many: what it is called, or some letters and its number.
fn names(
    heap: Global,
    known: &[String],
    letters: &str,
    count: u32,
) -> Result<Vec<String>, AllocError> {
    (0..count as usize)
        .map(|number| -> Result<String, AllocError> {
            let name = Name {
                known,
                letters,
                number,
            };
            format!(in heap; "{name}")
        })
        .try_collect(heap)
}

fn write_output(heap: Global, options: &Options, drawing: &Drawing) -> Result<String, Trouble> {
    let automaton = texts::view(drawing.row.as_slice())?;
    let known = drawing.positions.as_slice();
    let location = find_position(
        heap,
        options,
        Positions {
            names: known,
            count: automaton.locations() as usize,
        },
    )?;
    if options.part == 0 {
        return Err(Trouble::NoPart);
    }
    let kinds = options.kinds.unwrap_or(kinds_that_fit(drawing.row.len()));
    let finding = findings::find(
        heap,
        &automaton,
        options.engine,
        kinds,
        location,
        options.part,
    )?;
    let clocks = names(heap, drawing.clocks.as_slice(), "x", automaton.clocks())?;
    let positions = names(heap, known, "", automaton.locations())?;
    let names = Names {
        clocks: clocks.as_slice(),
        positions: positions.as_slice(),
    };
    output::write(heap, &automaton, names, location, &finding)
}

// The text is let go before the search begins.
fn carry_out(rt: &HostRuntime, options: &Options) -> Result<(), Trouble> {
    let drawing = options.text.read(rt)?;
    let text = write_output(rt.alloc(), options, &drawing)?;
    rt.print(text.as_str()).map_err(Problem::Unwritable)?;
    Ok(())
}

// Where something is wrong, the reason is told.
fn main(rt: HostRuntime) -> io::Result<ExitCode> {
    // The words are read and parsed here, and not in `begin`, which says why.
    let words = match env::args(&rt) {
        Ok(words) => words,
        Err(error) => {
            let program = help::ABOUT.program;
            let error = &error;
            return tell(&rt, NoWords { program, error });
        }
    };
    let options = match begin(&rt, help::ABOUT, options::parse(rt.alloc(), words))? {
        Ok(options) => options,
        Err(status) => return Ok(status),
    };
    if let Err(trouble) = carry_out(&rt, &options) {
        let source = options.text.source();
        let trouble = &trouble;
        return tell(&rt, Complaint { source, trouble });
    }
    Ok(ExitCode::SUCCESS)
}
