// The readable form of a timed automaton: a drawing of a clockwork is read into its row of numbers, and a row is drawn.
#![tactic(auto)]

ghost use Rattle.std.specs.Prelude.{IfOk, vec_len, string_bytes};
ghost use Rattle.drawing.specs.Drawn.{Draws, DrawnAs};

use crate::errors::{Expected, Found, Place, Refusal};
use crate::mistakes::Mistake;
use crate::names::Names;
use clockworks::parts::Clockwork;
use clockworks::split::split_row;
use clockworks::write::{Unfit, write_row};
use std::alloc::Global;

mod characters;
mod cursor;
pub mod errors;
mod explain;
mod mistakes;
mod names;
mod reader;
mod room;
mod sheet;
mod words;

// A clockwork's row, with the names of its clocks and positions in the order of their numbers.
#[derive(Drop)]
pub struct Drawing {
    pub row: Vec<u32>,
    pub clocks: Vec<String>,
    pub positions: Vec<String>,
}

// The text without the byte order mark that some editors put in front of it.
fn without_mark(bytes: &[u8]) -> &[u8] {
    match bytes {
        [0xEF, 0xBB, 0xBF, text @ ..] => text,
        _ => bytes,
    }
}

fn as_text(bytes: &[u8]) -> Result<&str, Refusal> {
    std::str::from_utf8(bytes).map_err(|error| {
        let place = Place::after(bytes, error.valid_up_to());
        Refusal::wrong(place, Found::Bytes, Expected::Utf8)
    })
}

fn read_parts(heap: Global, text: &str) -> Result<(Names, Clockwork), Mistake> {
    characters::check_all(text)?;
    let names = names::declare_all(heap, text)?;
    let named = !names.clocks.is_empty() && !names.positions.is_empty();
    match reader::read_all(heap, &names, text) {
        // That no clock or no position is named is told first.
        Err(Mistake::Row(_)) if !named => Ok((names, Clockwork::new(heap, 0))),
        read => Ok((names, read?)),
    }
}

// Why there is no row of what was read: the place is the end of the text.
fn refuse_row(place: Place, unfit: Unfit) -> Refusal {
    match unfit {
        Unfit::Memory(_) => Refusal::Memory,
        unfit => Refusal::wrong(place, Found::Unfit(unfit), Expected::Row),
    }
}

// The row of what was read, with its names.
fn finish(heap: Global, end: Place, names: Names, clockwork: &Clockwork) -> Result<Drawing, Refusal>
    ensures { IfOk result (λ d. Draws d.row.items (vec_len d.clocks) (vec_len d.positions)) }
{
    let Names { clocks, positions } = names;
    let expected = if clocks.is_empty() {
        Expected::Clocks
    } else {
        Expected::Positions
    };
    // The lines that gave the names gave the parts, so that their numbers never differ.
    if clocks.is_empty()
        || positions.is_empty()
        || clocks.len() != clockwork.clocks as usize
        || positions.len() != clockwork.positions.len()
    {
        return Err(Refusal::wrong(end, Found::TextEnd, expected));
    }
    let row = write_row(heap, clockwork).map_err(|unfit| refuse_row(end, unfit))?;
    Ok(Drawing {
        row,
        clocks,
        positions,
    })
}

// Reads a drawing. What it gives is the writing of an automaton, with a name for each of its clocks and positions.
pub fn read(heap: Global, bytes: &[u8]) -> Result<Drawing, Refusal>
    ensures { IfOk result (λ d. Draws d.row.items (vec_len d.clocks) (vec_len d.positions)) }
{
    // no place counts the mark
    let bytes = without_mark(bytes);
    let text = as_text(bytes)?;
    let end = Place::after(bytes, bytes.len());
    let (names, clockwork) = read_parts(heap, text).map_err(|mistake| {
        explain::explain(
            heap,
            text,
            match mistake {
                // A row that is too long is no mistake of one part: its place is the end of the text.
                Mistake::Row(_) => Mistake::Row(end),
                mistake => mistake,
            },
        )
    })?;
    finish(heap, end, names, &clockwork)
}

// Draws a row: refuses one that is not the writing of an automaton. Tests show, and no proof, that to read the text gives the row again.
pub fn draw(heap: Global, row: &[u32]) -> Result<String, Unfit>
    ensures { IfOk result (λ t. DrawnAs row.now (string_bytes t)) }
{
    let clockwork = split_row(heap, row)?;
    Ok(sheet::write_sheet(heap, &clockwork)?)
}
