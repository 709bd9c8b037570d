// What an exploration by either search tells of the positions.
ghost use Rattle.std.specs.Prelude.{List, ℕ};
ghost use Rattle.earliest.specs.Explored.{ExploredIn, ToldBy};

use clocks::answers::{Asked, look_up};
use search::answers::Table;
use search::explores::Unexplored;
use zone_search::answers::ZoneTable;

// A table of zones; or what came of a search through regions.
#[derive(Clone, Copy)]
pub enum Explored<'a> {
    Zones(ZoneTable<'a>),
    Regions(Result<Table<'a>, Unexplored>),
}

// The answer for a position.
pub fn look_up_in(explored: Explored<'_>, position: usize) -> Asked
    ensures { (row : List ℕ) (kinds lent : ℕ) → ExploredIn row kinds lent explored.entry → ToldBy row kinds lent explored.entry position result }
{
    match explored {
        Explored::Zones(table) => Asked::from(table.told(position)),
        Explored::Regions(explored) => look_up(explored, position),
    }
}
