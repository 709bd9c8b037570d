// What is printed: the answer, the run, and what the clocks can be on such an arrival.
use crate::findings::{Finding, NoRoom};
use crate::troubles::Trouble;
use accounts::bounds::write_bounds;
use accounts::names::{Names, name_of};
use accounts::runs::write_run;
use cells::tops::frame_of;
use clocks::answers::Asked;
use console::answers::{Answer, Line, write_line};
use rows::edges::Location;
use rows::views::Automaton;
use squares::shapes::of_region;
use std::alloc::{AllocError, Global};
use witnesses::answers::Witness;

// The first line.
fn write_first(
    text: &mut String,
    names: Names<'_>,
    location: Location,
    answer: Answer,
) -> Result<(), AllocError> {
    match answer.asked {
        Asked::Many => write!(text, "{answer}\n"),
        _ => write_line(
            text,
            Line {
                name: name_of(names.positions, location.0 as usize),
                width: 0,
                answer,
            },
        ),
    }
}

// The run, and what the clocks can be at its end.
fn write_shown(
    heap: Global,
    text: &mut String,
    automaton: &Automaton,
    names: Names<'_>,
    witness: &Witness,
) -> Result<(), Trouble> {
    let moves = witness.run.moves.as_slice();
    let lines = write_run(heap, automaton, names, witness.run.denominator, moves)?;
    text.push_str(lines.as_str())?;
    let frame = frame_of(*automaton);
    let square = of_region(&witness.region, frame.clocks, frame.top).ok_or(Trouble::Astray)?;
    text.push_str(write_bounds(heap, names.clocks, &square)?.as_str())?;
    Ok(())
}

pub fn write(
    heap: Global,
    automaton: &Automaton,
    names: Names<'_>,
    location: Location,
    finding: &Finding,
) -> Result<String, Trouble> {
    let mut text = String::new(heap);
    let Finding::Told { answer, shown } = finding else {
        text.push_str("full: the zones do not fit into the memory\n")?;
        return Ok(text);
    };
    write_first(&mut text, names, location, *answer)?;
    match shown {
        Ok(Some(witness)) => write_shown(heap, &mut text, automaton, names, witness)?,
        Ok(None) => {}
        Err(NoRoom) => text.push_str("no run is shown: its numbers have no place in 64 bits\n")?,
    }
    Ok(text)
}
