// What a run is told in: the times of a run are over one denominator d, so each is a number of d-ths.
use rows::edges::Location;
use rows::limits::CLOCKS;

#[derive(Clone, Copy, Debug, PartialEq, Eq)]
pub enum Move {
    // a number of d-ths
    Wait(u64),
    // the number of an edge, from 0 in the order of the row
    Step(u32),
}

// A location, the value of each clock and the time since the start, in d-ths. Only the values of the automaton's clocks count:
// an array of the most that there may be, since a rule of the project asks for fixed memory, with no heap; their count is in the automaton,
// which is given with every moment.
#[derive(Clone, Copy, Debug, PartialEq, Eq)]
pub struct Moment {
    pub location: Location,
    pub clocks: [u64; CLOCKS],
    pub time: u64,
}

// Why a move, or a list of them, is refused. With a text it would be no plainer: callers tell one from another, and no user is shown it.
#[derive(Clone, Copy, Debug, PartialEq, Eq)]
pub enum Fault {
    // the denominator is 0
    NoDenominator,
    // a sum is too large for its type
    NoRoom,
    // the invariant of location 0 does not hold at the start
    NotAllowedAtStart,
    // there is no edge of that number
    NoSuchStep,
    // the edge leads from another location
    OtherPosition,
    // the guard of the edge does not hold
    GuardFails,
    // the invariant does not hold after the move
    InvariantFails,
}
