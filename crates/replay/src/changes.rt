// What a wait and an edge do to the clocks, and which edge has a number.
ghost use Rattle.std.specs.Prelude.{◌≡◌, ℕ, ◌<◌, if◌then◌else◌, MatchOption, slice_index};
ghost use Rattle.automata.specs.Automata.{nth};
ghost use Rattle.regions.specs.Moves.{among};
ghost use Rattle.rows.specs.Views.{automaton_value};
ghost use Rattle.replay.specs.Changes.{Waited, NoRoomFor, EdgeNumber};

use crate::moments::Moment;
use rows::edges::Edge;
use rows::limits::CLOCKS;
use rows::views::Automaton;
use std::array;

// The moment after a wait; none where a sum is too large.
pub(crate) fn waited(moment: &Moment, delay: u64) -> Option<Moment>
    ensures { MatchOption result (NoRoomFor delay moment.now) (λ after. Waited delay moment.now after) }
{
    let mut clocks = moment.clocks;
    for clock in clocks.iter_mut() {
        *clock = clock.checked_add(delay)?;
    }
    let time = moment.time.checked_add(delay)?;
    Some(Moment {
        location: moment.location,
        clocks,
        time,
    })
}

// The values of the clocks after resets. Not by one function with `cells::moves`: by a rule of the project what goes through again what the
// search found shares no code with it but `rows`.
pub fn with_resets(clocks: [u64; CLOCKS], resets: &[u32]) -> [u64; CLOCKS]
    ensures { (i : ℕ) → i < 8 → slice_index result i ≡ (if among i resets.now then 0 else slice_index clocks i) }
{
    array::from_fn(|place| {
        if resets.contains(&(place as u32)) {
            0
        } else {
            clocks[place]
        }
    })
}

// The edge of a number, from 0 in the order of the row.
pub(crate) fn numbered_edge<'a>(automaton: &Automaton<'a>, number: u32) -> Option<Edge<'a>>
    ensures { EdgeNumber (nth (automaton_value automaton.now).edges number) result }
{
    automaton.edges().nth(number as usize)
}
