// The second opinion on an automaton: for each position the answer, and what the grid says of it.
ghost use Rattle.std.specs.Prelude.{◌≡◌, IfOk, vec_len};
ghost use Rattle.sixtieths.specs.Opinions.{OpinionIs, AllOpinions, differing};

use crate::comparison::{Finding, Kind, judge, kind_of};
use crate::grid_search::{Space, search};
use crate::texts::{Found, Told};
use crate::trails::{Astray, follow, moves_to};
use crate::visits::{Arrival, Fault, Visits};
use crate::ways::find_ways;
use clocks::answers::{Asked, look_up};
use rows::edges::Location;
use rows::limits::MOST_WORDS;
use rows::views::Automaton;
use search::explores::{WORDS, WORDS_FOR_A_KIND, WORDS_FOR_A_WORD, explore};
use std::alloc::Global;
use std::fmt;

// As many kinds of states are allowed, which is more than any automaton has that is asked about here.
pub const KINDS: u32 = 16_384;

// Words for rows of any length. Not by `words_needed`, since a constant calls no function.
pub const WORK: usize = WORDS + WORDS_FOR_A_WORD * MOST_WORDS + WORDS_FOR_A_KIND * KINDS as usize;

// The first time on the grid, in sixtieths, and what came of the run to it.
#[derive(Clone, Copy)]
pub struct First {
    pub time: u64,
    pub followed: Result<(), Astray>,
}

#[derive(Clone, Copy)]
pub struct Opinion {
    pub asked: Asked,
    pub kind: Kind,
    pub finding: Finding,
    pub first: Option<First>,
}

impl Opinion {
    fn new(asked: Asked, has_way: bool, first: Option<First>) -> Self
        ensures given { (result.asked ≡ asked) × (result.first ≡ first) }
        ensures judged { OpinionIs has_way result }
    {
        Opinion {
            asked,
            kind: kind_of(asked, has_way),
            finding: judge(asked, first.map(|first| first.time)),
            first,
        }
    }

    // Whether the answer and the grid contradict each other, or the grid's run is none.
    pub fn differs(&self) -> bool
        ensures { result ≡ differing self.now }
    {
        self.finding == Finding::Contradiction
            || self.first.is_some_and(|first| first.followed.is_err())
    }
}

impl fmt::Display for Opinion {
    fn fmt<W: fmt::Write>(&self, f: &mut fmt::Formatter<W>) -> fmt::Result {
        let told = Told(self.asked);
        let found = Found(self.first.map(|first| first.time));
        write!(f, "{told}; in sixtieths {found}")
    }
}

// The first time at a location, where there is one.
fn first_at(
    heap: Global,
    automaton: &Automaton,
    visits: &Visits,
    location: Location,
) -> Result<Option<First>, Fault> {
    let Some(Arrival { state, time }) = visits.first(location) else {
        return Ok(None);
    };
    let moves = moves_to(heap, visits, state)?;
    let followed = follow(automaton, moves.as_slice(), location, time);
    Ok(Some(First { time, followed }))
}

// An opinion for each position.
pub fn opinions(heap: Global, space: Space<'_>, work: &mut [u32]) -> Result<Vec<Opinion>, Fault>
    ensures judged { IfOk result (λ all. AllOpinions all.items) }
    ensures all { IfOk result (λ all. vec_len all ≡ space.entry.automaton.locations) }
{
    let automaton = &space.automaton;
    let ways = find_ways(heap, automaton)?;
    let visits = search(heap, space)?;
    let explored = explore(automaton.words(), KINDS, work);
    // A loop: tried by `map` and `try_collect`, and that each is an opinion (`returns-clause-judged`) stayed open.
    let mut all = Vec::new(heap);
    for (location, has_way) in (0..automaton.locations()).zip(ways) {
        let asked = look_up(explored, location as usize);
        let first = first_at(heap, automaton, &visits, Location(location))?;
        all.push(Opinion::new(asked, has_way, first))?;
    }
    Ok(all)
}
