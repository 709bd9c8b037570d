// Whether constraints hold of clocks whose values are numbers of d-ths. A rule of the project: what goes through again what the search
// found shares no code with it but `rows`, so `cells::guards` tests heights by functions of its own.
ghost use Rattle.std.specs.Prelude.{◌≡◌, slice_index};
ghost use Rattle.automata.specs.Automata.{invariant};
ghost use Rattle.rows.specs.Parts.{relation_value};
ghost use Rattle.rows.specs.Values.{conjunction_value};
ghost use Rattle.rows.specs.Views.{automaton_value};
ghost use Rattle.replay.specs.Checks.{Decides, MeetsParts, HoldsParts};

use rows::constraints::{Clock, Conjunction, Relation};
use rows::edges::Location;
use rows::limits::CLOCKS;
use rows::views::Automaton;

// Whether `value` d-ths stand to the bound as the relation says.
fn meets(relation: Relation, value: u64, bound: u32, denominator: u64) -> bool
    ensures { Decides result (MeetsParts denominator (relation_value relation) value bound) }
{
    let limit = bound as u128 * denominator as u128;
    relation.holds(value as u128, limit)
}

// The value of a clock; a clock that there is none of stays at 0.
fn value_of(clocks: &[u64; CLOCKS], clock: Clock) -> u64
    ensures { result ≡ slice_index clocks.now clock.0 }
{
    clocks.get(clock.0 as usize).copied().unwrap_or(0)
}

// Whether all constraints hold of the clocks.
pub fn holds(conjunction: &Conjunction, denominator: u64, clocks: &[u64; CLOCKS]) -> bool
    ensures { Decides result (HoldsParts denominator (slice_index clocks.now) (conjunction_value conjunction.now)) }
{
    conjunction.iter().all(|constraint| {
        let value = value_of(clocks, constraint.clock);
        meets(constraint.relation, value, constraint.bound, denominator)
    })
}

// Whether the invariant of the location holds; where there is no such location there is none to hold.
pub fn allowed(
    automaton: &Automaton,
    location: Location,
    denominator: u64,
    clocks: &[u64; CLOCKS],
) -> bool
    ensures { Decides result (HoldsParts denominator (slice_index clocks.now) (invariant (automaton_value automaton.now) location.0)) }
{
    automaton.invariant(location).map_or(
        true,
        |conjunction| holds(&conjunction, denominator, clocks),
    )
}
