// The answers, a line for each position: from one exploration for all.
ghost use Rattle.std.specs.Prelude.{◌≡◌, ℕ, Err, IsTrue, List, ◌++◌, map, IfOk, MatchOption, string_bytes, codes, length};
ghost use Rattle.console.specs.Answers.{answer_text};
ghost use Rattle.clocks.specs.declared.answers.Asked.TheVariants.{Many};
ghost use Rattle.zone_search.specs.Answering as zones;
ghost use Rattle.zone_search.specs.declared.explores.Unexplored as zones_unexplored;
ghost use Rattle.earliest.specs.Explored.{ExploredIn, ToldBy};
ghost use Rattle.earliest.specs.Listed.{width_of_column, Listed, PositionsListed, RegionsWritten, ZonesWritten, WrittenIs};

use crate::explored::{Explored, look_up_in};
use crate::options::Engine;
use clocks::answers::Asked;
use columns::count_columns;
use console::answers::{Answer, Line, write_answer, write_line};
use console::budget::lend_words;
use console::messages::Problem;
use console::positions::{Positions, name_of};
use search::answers::Table;
use search::explores::{Unexplored, explore};
use std::alloc::Global;
use zone_search::explores::explore as explore_zones;

// A column of names is at most so wide; a longer name stands out of it, so that one does not make all lines long.
const MOST_COLUMNS: usize = 40;

// So many bytes beside the name suffice for a line.
const LINE_BYTES: usize = 80;

// The width of the column of names.
fn column_width(heap: Global, positions: Positions<'_>) -> Result<usize, Problem>
    ensures { IfOk result (λ width. width ≡ width_of_column (map string_bytes positions.entry.names.now) positions.entry.count) }
{
    let Positions { names, count } = positions;
    let mut width = 0usize;
    for position in 0..count {
        let name = name_of(heap, names, position)?;
        width = width.max(count_columns(name.as_str()));
    }
    Ok(width.min(MOST_COLUMNS))
}

// Room for the lines, so that the text does not grow by doubling.
fn room(positions: Positions<'_>) -> usize {
    let mut bytes = positions.count.saturating_mul(LINE_BYTES);
    for name in positions.names {
        bytes = bytes.saturating_add(name.len());
    }
    bytes
}

fn write_lines(
    heap: Global,
    explored: Explored<'_>,
    positions: Positions<'_>,
    kinds: u32,
) -> Result<String, Problem>
    ensures { IfOk result (λ text. (row : List ℕ) (lent : ℕ) → ExploredIn row kinds lent explored.entry → Listed (ToldBy row kinds lent explored.entry) kinds (width_of_column (map string_bytes positions.entry.names.now) positions.entry.count) (map string_bytes positions.entry.names.now) positions.entry.count (string_bytes text)) }
{
    let width = column_width(heap, positions)?;
    let mut text = String::with_capacity(heap, room(positions))?;
    let Positions { names, count } = positions;
    for position in 0..count {
        let name = name_of(heap, names, position)?;
        let asked = look_up_in(explored, position);
        let answer = Answer { asked, kinds };
        let name = name.as_str();
        write_line(
            &mut text,
            Line {
                name,
                width,
                answer,
            },
        )?;
    }
    Ok(text)
}

// The line of one position, or of each where none is asked for.
fn write_explored(
    heap: Global,
    explored: Explored<'_>,
    positions: Positions<'_>,
    kinds: u32,
    position: Option<usize>,
) -> Result<String, Problem>
    ensures { IfOk result (λ text. (row : List ℕ) (lent : ℕ) → ExploredIn row kinds lent explored.entry → PositionsListed (ToldBy row kinds lent explored.entry) kinds (map string_bytes positions.entry.names.now) positions.entry.count position (string_bytes text)) }
{
    let Some(position) = position else {
        return write_lines(heap, explored, positions, kinds);
    };
    let mut text = String::new(heap);
    let name = name_of(heap, positions.names, position)?;
    let line = Line {
        name: name.as_str(),
        width: 0,
        answer: Answer {
            asked: look_up_in(explored, position),
            kinds,
        },
    };
    write_line(&mut text, line)?;
    Ok(text)
}

fn write_many(heap: Global, kinds: u32) -> Result<String, Problem>
    ensures { IfOk result (λ text. string_bytes text ≡ answer_text kinds Many ++ codes "\n") }
{
    let mut text = String::new(heap);
    let asked = Asked::Many;
    write_answer(&mut text, Answer { asked, kinds })?;
    write!(text, "\n")?;
    Ok(text)
}

fn write_full(heap: Global) -> Result<String, Problem>
    ensures { IfOk result (λ text. string_bytes text ≡ codes "full: the zones do not fit into the memory\n") }
{
    Ok(format!(in heap; "full: the zones do not fit into the memory\n")?)
}

// Whether there are more kinds of states than allowed.
fn has_too_many(explored: Result<Table<'_>, Unexplored>) -> bool
    ensures { IsTrue result → (locations : ℕ) × (explored.entry ≡ Err (Unexplored.Many locations)) }
{
    matches!(explored, Err(Unexplored::Many(_)))
}

// By a search through regions. Where there are more kinds of states than allowed, one line says so.
fn write_by_regions(
    heap: Global,
    row: &[u32],
    work: &mut [u32],
    positions: Positions<'_>,
    kinds: u32,
    position: Option<usize>,
) -> Result<String, Problem>
    ensures { IfOk result (λ text. RegionsWritten row.now kinds (length work.old) (map string_bytes positions.entry.names.now) positions.entry.count position (string_bytes text)) }
{
    let explored = explore(row, kinds, work);
    if has_too_many(explored) {
        return write_many(heap, kinds);
    }
    write_explored(
        heap,
        Explored::Regions(explored),
        positions,
        kinds,
        position,
    )
}

// By a search through zones; none where these do not fit.
fn write_by_zones(
    heap: Global,
    row: &[u32],
    work: &mut [u32],
    positions: Positions<'_>,
    kinds: u32,
    position: Option<usize>,
) -> Result<Option<String>, Problem>
    ensures { IfOk result (λ written. MatchOption written ((why : zones_unexplored.Unexplored) × zones.ExploredIs row.now (length work.old) (Err why)) (λ text. ZonesWritten row.now kinds (map string_bytes positions.entry.names.now) positions.entry.count position (string_bytes text))) }
{
    let Ok(table) = explore_zones(row, work) else {
        return Ok(None);
    };
    let text = write_explored(heap, Explored::Zones(table), positions, kinds, position)?;
    Ok(Some(text))
}

// The line of one position, or of each where none is asked for, by the search that is asked for; or one line where it has no answer.
pub fn write(
    heap: Global,
    row: &[u32],
    positions: Positions<'_>,
    engine: Engine,
    kinds: u32,
    position: Option<usize>,
) -> Result<String, Problem>
    ensures { IfOk result (λ text. WrittenIs engine row.now kinds (map string_bytes positions.entry.names.now) positions.entry.count position (string_bytes text)) }
{
    let mut work = lend_words(heap, row.len(), kinds)?;
    if let Engine::Regions = engine {
        return write_by_regions(heap, row, work.as_mut_slice(), positions, kinds, position);
    }
    let written = write_by_zones(heap, row, work.as_mut_slice(), positions, kinds, position)?;
    if let Some(text) = written {
        return Ok(text);
    }
    match engine {
        Engine::Zones => write_full(heap),
        _ => write_by_regions(heap, row, work.as_mut_slice(), positions, kinds, position),
    }
}
