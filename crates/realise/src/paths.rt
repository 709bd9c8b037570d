// What the guards and invariants along a path ask of the points in time at which its edges are taken.
use crate::points::Demand;
use crate::runs::Failure;
use rows::constraints::{Conjunction, Constraint, Relation};
use rows::edges::{Edge, Location};
use rows::limits::CLOCKS;
use rows::views::Automaton;
use std::alloc::{AllocError, Global};

// That a clock that was set back at the point `since` stands so to the bound at the point `now`.
fn demand_of(constraint: Constraint, since: usize, now: usize) -> Demand {
    let bound = i64::from(constraint.bound);
    let later = matches!(constraint.relation, Relation::Below | Relation::Above);
    if constraint.relation.bounds_above() {
        // it was set back no earlier than so long before
        Demand {
            point: since,
            since: now,
            delay: -bound,
            later,
        }
    } else {
        Demand {
            point: now,
            since,
            delay: bound,
            later,
        }
    }
}

// A path so far. Its last edge is taken at the point `now`; at the point 0 it starts.
#[derive(Drop)]
struct Path<'a> {
    automaton: Automaton<'a>,
    location: Location,
    now: usize,
    // the point at which each clock was last set back
    resets: [usize; CLOCKS],
    demands: Vec<Demand>,
    // how many demands there were before the edge that is taken now
    before: usize,
}

impl<'a> Path<'a> {
    fn new(heap: Global, automaton: Automaton<'a>) -> Self {
        Path {
            automaton,
            location: Location(0),
            now: 0,
            resets: [0; CLOCKS],
            demands: Vec::new(heap),
            before: 0,
        }
    }

    // What is asked now. Of what is asked now of the same two points only the sharper is kept, so that many constraints of one clock take no more room than two.
    fn demand(&mut self, asked: Demand) -> Result<(), AllocError> {
        if let Some(fresh) = self.demands.as_mut_slice().get_mut(self.before..) {
            for kept in fresh {
                if kept.is_beside(asked) {
                    *kept = kept.sharper(asked);
                    return Ok(());
                }
            }
        }
        self.demands.push(asked)?;
        Ok(())
    }

    // The constraints hold now. A clock that there is none of stays as at the start.
    fn hold(&mut self, conjunction: &Conjunction<'_>) -> Result<(), AllocError> {
        for constraint in conjunction.iter() {
            let since = self
                .resets
                .get(constraint.clock.0 as usize)
                .copied()
                .unwrap_or(0);
            self.demand(demand_of(constraint, since, self.now))?;
        }
        Ok(())
    }

    // The invariant of the location holds now. It bounds clocks from above only, so it holds all the time until now if it holds now.
    fn stay(&mut self) -> Result<(), AllocError> {
        match self.automaton.invariant(self.location) {
            Some(invariant) => self.hold(&invariant),
            None => Ok(()),
        }
    }

    // Time goes on until an edge is taken.
    fn wait(&mut self) -> Result<(), Failure> {
        let since = self.now;
        self.now = since.checked_add(1).ok_or(Failure::NoRoom)?;
        self.before = self.demands.len();
        self.demand(Demand {
            point: self.now,
            since,
            delay: 0,
            later: false,
        })?;
        self.stay()?;
        Ok(())
    }

    // The edge is taken now.
    fn take(&mut self, edge: Edge<'_>) -> Result<(), AllocError> {
        self.hold(&edge.guard)?;
        for clock in edge.resets {
            if let Some(reset) = self.resets.get_mut(*clock as usize) {
                *reset = self.now;
            }
        }
        self.location = edge.target;
        self.stay()
    }
}

// The demands of all edges of a path, by their numbers in the order of the row. The point of an edge is its place in the path, from 1.
pub fn demands_along(
    heap: Global,
    automaton: &Automaton<'_>,
    edges: &[u32],
) -> Result<Vec<Demand>, Failure> {
    let mut path = Path::new(heap, *automaton);
    for number in edges {
        let edge = automaton
            .edges()
            .nth(*number as usize)
            .ok_or(Failure::Astray)?;
        path.wait()?;
        path.take(edge)?;
    }
    Ok(path.demands)
}
