// Runs along a path: the points in time get fractions, and what comes out is gone through again before it is given away.
ghost use Rattle.std.specs.Prelude.{◌≡◌, ◌+◌, ◌*◌, ◌≤◌, IfOk};
ghost use Rattle.rows.specs.Views.{automaton_value};
ghost use Rattle.replay.specs.Checks.{Decides};
ghost use Rattle.realise.specs.Runs.{part_of, wait_count, Ends, Realised};

use crate::arrivals::{Arrival, in_time, part_of};
use crate::paths::demands_along;
use crate::places::Places;
use crate::points::{Instant, least_points};
use replay::moments::{Fault, Moment, Move};
use replay::runs::replay;
use rows::edges::Location;
use rows::views::Automaton;
use std::alloc::{AllocError, Global};
use thiserror::Error;

// A run over a denominator d, and the moment at which it ends.
#[derive(Drop)]
pub struct Run {
    pub denominator: u64,
    pub moves: Vec<Move>,
    pub end: Moment,
}

// Why there is no run.
#[derive(Clone, Copy, Debug, PartialEq, Eq, Error)]
pub enum Failure {
    #[error("not enough memory")]
    Memory(#[from(alloc)] AllocError),
    #[error("a number is too large for its type")]
    NoRoom,
    #[error("the path is none of the automaton, or does not lead to that location at that time")]
    Astray,
}

// A path of the automaton is one all of whose moves are allowed.
impl From<Fault> for Failure {
    ghost use Rattle.realise.specs.Failures.{failure_of};

    ghost from_gives = { λ fault failure. failure ≡ failure_of fault };

    fn from(fault: Fault) -> Failure {
        match fault {
            Fault::NoRoom => Failure::NoRoom,
            _ => Failure::Astray,
        }
    }
}

// The number of d-ths of an instant: of the units only the place counts.
fn parts(instant: Instant, places: &Places, denominator: u64) -> Option<u64> {
    let whole = u64::try_from(instant.whole).ok()?;
    whole
        .checked_mul(denominator)?
        .checked_add(places.place(instant.units) as u64)
}

// The edges, each at its point, and the waits between them. A wait that takes no time is left out.
fn moves_of(
    heap: Global,
    edges: &[u32],
    points: &[Instant],
    places: &Places,
    denominator: u64,
) -> Result<Vec<Move>, Failure> {
    let mut moves = Vec::new(heap);
    let mut now = 0u64;
    for (number, instant) in edges.iter().zip(points.iter().skip(1)) {
        let time = parts(*instant, places, denominator).ok_or(Failure::NoRoom)?;
        let delay = time.checked_sub(now).ok_or(Failure::Astray)?;
        if delay > 0 {
            moves.push(Move::Wait(delay))?;
        }
        moves.push(Move::Step(*number))?;
        now = time;
    }
    Ok(moves)
}

// How many of the moves are waits.
fn count_waits(moves: &[Move]) -> usize
    ensures { result ≡ wait_count moves.now }
{
    moves
        .iter()
        .filter(|by| matches!(by, Move::Wait(_)))
        .count()
}

// Whether a denominator has no more than the parts of a fraction for each wait, and 0.
fn is_small(denominator: u64, waits: usize, arrival: Arrival) -> bool
    ensures { Decides result (denominator ≤ (waits + 1) * part_of arrival) }
{
    denominator as u128 <= (waits as u128 + 1) * part_of(arrival) as u128
}

// The denominator of the times along a path, and its moves: an edge is taken as early as can be. A pair, since a struct of both would be no plainer: its
// one caller would take it apart, for `replay` and `Run` have the two apart.
fn moves_along(
    heap: Global,
    automaton: &Automaton,
    edges: &[u32],
    arrival: Arrival,
) -> Result<(u64, Vec<Move>), Failure> {
    let demands = demands_along(heap, automaton, edges)?;
    let count = edges.len().checked_add(1).ok_or(Failure::NoRoom)?;
    let points = least_points(heap, count, demands.as_slice())?;
    let places = Places::of(points.iter().map(|point| point.units).collect(heap)?);
    let denominator = (places.len() as u64)
        .checked_mul(part_of(arrival) as u64)
        .ok_or(Failure::NoRoom)?;
    let moves = moves_of(heap, edges, points.as_slice(), &places, denominator)?;
    Ok((denominator, moves))
}

// The moment at which the moves end; a failure where they are no run to the location, in time, or need not be so fine.
fn end_of(
    automaton: &Automaton,
    denominator: u64,
    moves: &[Move],
    location: Location,
    arrival: Arrival,
) -> Result<Moment, Failure>
    ensures { IfOk result (λ end. Ends (automaton_value automaton.now) location.0 arrival denominator moves.now end) }
{
    let end = replay(automaton, denominator, moves)?;
    if end.location != location
        || !in_time(arrival, denominator, end.time)
        || !is_small(denominator, count_waits(moves), arrival)
    {
        return Err(Failure::Astray);
    }
    Ok(end)
}

// A run along a path of edges, each by its number in the order of the row, that ends at the location, in time. It is given only where going through
// it again accepts it.
pub fn realise_path(
    heap: Global,
    automaton: &Automaton,
    edges: &[u32],
    location: Location,
    arrival: Arrival,
) -> Result<Run, Failure>
    ensures { IfOk result (λ run. Realised (automaton_value automaton.now) location.0 arrival run) }
{
    let (denominator, moves) = moves_along(heap, automaton, edges, arrival)?;
    let end = end_of(automaton, denominator, moves.as_slice(), location, arrival)?;
    Ok(Run {
        denominator,
        moves,
        end,
    })
}
