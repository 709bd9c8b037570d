// Reads a row: goes over its words once, and tells where its edges begin or which rule it breaks.
ghost use Rattle.std.specs.Prelude.{◌≡◌, ℕ, suc, ◌+◌, ◌<◌, ◌≤◌, length, slice_index};
ghost use Rattle.rows.specs.Parse.{parse_constraints, parse_conjunction, parse_invariants, parse_clocks, parse_resets, parse_edge, parse_edges};
ghost use Rattle.rows.specs.Parts.{relations_of};
ghost use Rattle.rows.specs.Reading.{ends_at, WordAt, Repeated, Counted, Step, Tells, TellsEnd, ReadPost};
ghost use Rattle.rows.specs.Standing.{ValuesStand};
ghost use Rattle.rows.specs.Statements.{RowsRound};

use crate::constraints::{Owner, Relation};
use crate::limits::{MOST_BOUND, MOST_CLOCKS, MOST_LOCATIONS, MOST_WORDS};
use crate::refusals::{Refusal, Rule};
use crate::views::Automaton;

// Reads a number of parts from a place on, each where the one before ends: where the last ends.
fn check_each<F: Fn(usize) -> Result<usize, Refusal>>(
    count: u32,
    from: usize,
    check: F,
) -> Result<usize, Refusal>
    requires { F.IsAlwaysCallable check }
    ensures { Repeated (F.post check) count from result }
{
    let mut next = from;
    for _ in 0..count {
        next = check(next)?;
    }
    Ok(next)
}

// A row, with the numbers of clocks and of locations that it begins with.
#[derive(Clone, Copy)]
struct Reader<'a> {
    row: &'a [u32],
    clocks: u32,
    locations: u32,
    ghost counts: { (clocks ≡ slice_index row.now 0) × (locations ≡ slice_index row.now 1) × (0 < locations) × (2 ≤ length row.now) },
}

impl Reader<'_> {
    // That the row ends too soon.
    fn ends(&self) -> Refusal
        ensures { result ≡ ends_at self.now.row.now }
    {
        Rule::Ends.at(self.row.len())
    }

    // The word at a place.
    fn word(&self, at: usize) -> Result<u32, Refusal>
        ensures { WordAt self.now.row.now at result }
    {
        self.row.get(at).copied().ok_or(self.ends())
    }

    // A number of parts, and these, each where the one before ends: where the last ends.
    fn check_counted<F: Fn(usize) -> Result<usize, Refusal>>(
        &self,
        at: usize,
        check: F,
    ) -> Result<usize, Refusal>
        requires { F.IsAlwaysCallable check }
        ensures { Counted (F.post check) self.now.row.now at result }
    {
        check_each(self.word(at)?, at + 1, check)
    }

    // The three words of a constraint: where they end.
    fn check_constraint(&self, at: usize, owner: Owner) -> Result<usize, Refusal>
        ensures { Step (parse_constraints self.now.clocks (relations_of owner)) self.now.row.now at result }
    {
        let clock = self.word(at)?;
        let relation = self.word(at + 1)?;
        let bound = self.word(at + 2)?;
        if clock >= self.clocks {
            return Err(Rule::Clock.at(at));
        }
        let relation = Relation::try_from(relation).map_err(|_| Rule::Relation.at(at + 1))?;
        if !owner.takes(relation) {
            return Err(Rule::LowerBound.at(at + 1));
        }
        if bound > MOST_BOUND {
            return Err(Rule::Bound.at(at + 2));
        }
        Ok(at + 3)
    }

    // A number of constraints, and these: where they end.
    fn check_conjunction(&self, at: usize, owner: Owner) -> Result<usize, Refusal>
        ensures { Tells (parse_conjunction self.now.clocks (relations_of owner)) self.now.row.now at result }
    {
        self.check_counted(at, |next| self.check_constraint(next, owner))
    }

    // The invariants of all locations, from the third word on: where they end.
    fn check_invariants(&self) -> Result<usize, Refusal>
        ensures { Tells (parse_invariants self.now.clocks self.now.locations) self.now.row.now 2 result }
    {
        check_each(
            self.locations,
            2,
            |next| self.check_conjunction(next, Owner::Location),
        )
    }

    // The number of a clock: where it ends.
    fn check_clock(&self, at: usize) -> Result<usize, Refusal>
        ensures { Step (parse_clocks self.now.clocks) self.now.row.now at result }
    {
        if self.word(at)? >= self.clocks {
            return Err(Rule::Clock.at(at));
        }
        Ok(at + 1)
    }

    // A number of clocks that are reset, and these: where they end.
    fn check_resets(&self, at: usize) -> Result<usize, Refusal>
        ensures { Tells (parse_resets self.now.clocks) self.now.row.now at result }
    {
        self.check_counted(at, |next| self.check_clock(next))
    }

    // An edge: where it ends.
    fn check_edge(&self, at: usize) -> Result<usize, Refusal>
        ensures { Tells (parse_edge self.now.clocks self.now.locations) self.now.row.now at result }
    {
        let source = self.word(at)?;
        let target = self.word(at + 1)?;
        if source >= self.locations {
            return Err(Rule::Location.at(at));
        }
        if target >= self.locations {
            return Err(Rule::Location.at(at + 1));
        }
        let guard_end = self.check_conjunction(at + 2, Owner::Edge)?;
        self.check_resets(guard_end)
    }

    // Edges to the end of the row.
    fn check_edges(&self, at: usize) -> Result<usize, Refusal>
        requires { at ≤ length self.now.row.now }
        ensures { TellsEnd (λ ws. parse_edges self.now.clocks self.now.locations (length ws) ws) self.now.row.now at result }
    {
        let row = self.row;
        let mut next = at;
        while next < row.len() {
            next = self.check_edge(next)?;
        }
        Ok(next)
    }
}

// Accepts exactly the rows that are the writing of an automaton, and no row is the writing of two.
pub fn read(row: &[u32]) -> Result<Automaton<'_>, Refusal>
    ensures post { ReadPost row.now result }
    ensures round { RowsRound }
    ensures values { ValuesStand }
{
    if row.len() > MOST_WORDS {
        return Err(Rule::TooLong.at(MOST_WORDS));
    }
    let [clocks, locations, ..] = *row else {
        return Err(Rule::Ends.at(row.len()));
    };
    if clocks < 1 || clocks > MOST_CLOCKS {
        return Err(Rule::Clocks.at(0));
    }
    if locations < 1 || locations > MOST_LOCATIONS {
        return Err(Rule::Locations.at(1));
    }
    let reader = Reader {
        row,
        clocks,
        locations,
    };
    let edges = reader.check_invariants()?;
    reader.check_edges(edges)?;
    Ok(Automaton::new(row, clocks, locations, edges))
}
