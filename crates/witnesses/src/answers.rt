// When a location is come to, with a run that shows it.
ghost use Rattle.std.specs.Prelude.{◌≡◌, IfOk};
ghost use Rattle.rows.specs.Views.{automaton_value};
ghost use Rattle.witnesses.specs.Witnesses.{arrival_told, ShownIs, WitnessIs, ZonesWitnessIs};

use crate::trails::edges_to;
use cells::tops::frame_of;
use cells::values::Region;
use realise::arrivals::Arrival;
use realise::ends::region_at;
use realise::runs::{Failure, Run, realise_path};
use rows::edges::Location;
use rows::views::Automaton;
use search::answers::{Answer, Table};
use std::alloc::Global;
use zone_search::answers::ZoneTable;

// When a location is come to, a run that comes to it then, and the region in which that run ends.
#[derive(Drop)]
pub struct Witness {
    pub arrival: Arrival,
    pub run: Run,
    pub region: Region,
}

// When a run is to end that shows the answer; none where there is none to show.
fn arrival_for(answer: Answer, part: u32) -> Option<Arrival>
    ensures { result ≡ arrival_told answer part }
{
    match answer {
        Answer::At(time) => Some(Arrival::At(time)),
        Answer::After(time) => Some(Arrival::After { time, part }),
        Answer::Never => None,
    }
}

// A run along the edges of a path to the location, in time, with the region in which it ends.
fn show(
    heap: Global,
    automaton: &Automaton,
    edges: &[u32],
    location: Location,
    arrival: Arrival,
) -> Result<Witness, Failure>
    ensures { IfOk result (λ witness. ShownIs (automaton_value automaton.now) location.0 arrival witness) }
{
    let run = realise_path(heap, automaton, edges, location, arrival)?;
    let region = region_at(heap, &run.end, run.denominator, frame_of(*automaton))?;
    Ok(Witness {
        arrival,
        run,
        region,
    })
}

// A witness of what the table tells of a location: none where it is never come to. Where it is come to only after a time, the run
// ends by less than 1 / part after it.
pub fn witness_of(
    heap: Global,
    automaton: &Automaton,
    table: &Table,
    location: Location,
    part: u32,
) -> Result<Option<Witness>, Failure>
    ensures { IfOk result (λ witness. WitnessIs automaton.now table.now location.0 part witness) }
{
    if location.0 >= table.locations() {
        return Err(Failure::Astray);
    }
    let answer = table.told(location.0 as usize);
    let Some(arrival) = arrival_for(answer, part) else {
        return Ok(None);
    };
    let entry = table.first(location.0 as usize).ok_or(Failure::Astray)?;
    let edges = edges_to(heap, automaton, table, entry)?;
    Ok(Some(show(heap, automaton, edges.as_slice(), location, arrival)?))
}

// The same of a table of zones.
pub fn witness_of_zones(
    heap: Global,
    automaton: &Automaton,
    table: &ZoneTable,
    location: Location,
    part: u32,
) -> Result<Option<Witness>, Failure>
    ensures { IfOk result (λ witness. ZonesWitnessIs automaton.now table.now location.0 part witness) }
{
    let answer = table.told(location.0 as usize);
    let Some(arrival) = arrival_for(answer, part) else {
        return Ok(None);
    };
    let entry = table.soonest(location.0 as usize).ok_or(Failure::Astray)?;
    let edges = edges_to(heap, automaton, table, entry)?;
    Ok(Some(show(heap, automaton, edges.as_slice(), location, arrival)?))
}
