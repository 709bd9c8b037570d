// The answer for a position, with a witness.
use crate::options::Engine;
use crate::troubles::Trouble;
use clocks::answers::{Asked, look_up};
use console::answers::Answer;
use console::budget::lend_words;
use console::messages::Problem;
use realise::runs::Failure;
use rows::edges::Location;
use rows::views::Automaton;
use search::explores::explore;
use std::alloc::Global;
use witnesses::answers::{Witness, witness_of, witness_of_zones};
use zone_search::explores::explore as explore_zones;

// The numbers of a run have no place.
#[derive(Clone, Copy, Debug)]
pub struct NoRoom;

// The answer, and the run to show beside it, if there is one; or the zones do not fit, and no other search is asked.
#[derive(Drop)]
pub enum Finding {
    Told {
        answer: Answer,
        shown: Result<Option<Witness>, NoRoom>,
    },
    Full,
}

// Whether a run is left out for want of room alone.
fn no_room(failure: Failure) -> Result<NoRoom, Trouble> {
    match failure {
        Failure::NoRoom => Ok(NoRoom),
        Failure::Memory(_) => Err(Trouble::Problem(Problem::Memory)),
        Failure::Astray => Err(Trouble::Astray),
    }
}

// What is found, or why nothing is shown.
fn shown(
    found: Result<Option<Witness>, Failure>,
) -> Result<Result<Option<Witness>, NoRoom>, Trouble> {
    match found {
        Ok(witness) => Ok(Ok(witness)),
        // No `map_err`: `no_room` can fail itself, with an error of another type than what it answers.
        Err(failure) => Ok(Err(no_room(failure)?)),
    }
}

// Through zones; none where these do not fit.
fn find_by_zones(
    heap: Global,
    automaton: &Automaton,
    work: &mut [u32],
    kinds: u32,
    location: Location,
    part: u32,
) -> Result<Option<Finding>, Trouble> {
    let Ok(table) = explore_zones(automaton.words(), work) else {
        return Ok(None);
    };
    let asked = Asked::from(table.told(location.0 as usize));
    let found = witness_of_zones(heap, automaton, &table, location, part);
    Ok(Some(Finding::Told {
        answer: Answer { asked, kinds },
        shown: shown(found)?,
    }))
}

// Through regions.
fn find_by_regions(
    heap: Global,
    automaton: &Automaton,
    work: &mut [u32],
    kinds: u32,
    location: Location,
    part: u32,
) -> Result<Finding, Trouble> {
    let explored = explore(automaton.words(), kinds, work);
    let answer = Answer {
        asked: look_up(explored, location.0 as usize),
        kinds,
    };
    let shown = match explored {
        Ok(table) => shown(witness_of(heap, automaton, &table, location, part))?,
        Err(_) => Ok(None),
    };
    Ok(Finding::Told { answer, shown })
}

// Explores, looks up and shows; the words of the search are given back.
pub fn find(
    heap: Global,
    automaton: &Automaton,
    engine: Engine,
    kinds: u32,
    location: Location,
    part: u32,
) -> Result<Finding, Trouble> {
    let mut work = lend_words(heap, automaton.words().len(), kinds)?;
    if let Engine::Regions = engine {
        return find_by_regions(heap, automaton, work.as_mut_slice(), kinds, location, part);
    }
    let found = find_by_zones(heap, automaton, work.as_mut_slice(), kinds, location, part)?;
    if let Some(finding) = found {
        return Ok(finding);
    }
    match engine {
        Engine::Zones => Ok(Finding::Full),
        _ => find_by_regions(heap, automaton, work.as_mut_slice(), kinds, location, part),
    }
}
