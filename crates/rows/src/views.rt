// An automaton as a row that was read: the row is lent, and its parts start in its middle.
ghost use Rattle.std.specs.Prelude.{◌≡◌, ℕ, ◌-◌, List, length};
ghost use Rattle.automata.specs.Automata as automata;
ghost use Rattle.automata.specs.Automata.{nth};
ghost use Rattle.rows.specs.Viewed.{value_of, Viewed};
ghost use Rattle.std.specs.Iterator.{at_most};

use crate::constraints::Conjunction;
use crate::edges::{Edge, Location};
use crate::placed::{PlacedEdges, PlacedInvariants};

#[derive(Clone, Copy)]
pub struct Automaton<'a> {
    row: &'a [u32],
    clocks: u32,
    locations: u32,
    // the word at which the edges begin
    edges: usize,
    ghost viewed: { Viewed row.now clocks locations edges (value_of row.now) },
}

// The invariants from a word of the row on, so many.
#[derive(Clone, Copy)]
pub struct Invariants<'a> {
    placed: PlacedInvariants<'a>,
}

// The edges from a word of the row on.
#[derive(Clone, Copy)]
pub struct Edges<'a> {
    placed: PlacedEdges<'a>,
}

impl<'a> Automaton<'a> {
    ghost use Rattle.automata.specs.Rows.{write_edges};
    ghost use Rattle.rows.specs.Placed.{PlacedInvariantsAre, PlacedEdgesAre};
    ghost use Rattle.rows.specs.Views.{Made, automaton_value, InvariantIs, InvariantsAre, EdgesAre};

    pub(crate) fn new(row: &'a [u32], clocks: u32, locations: u32, edges: usize) -> Self
        requires { Viewed row.now clocks locations edges (value_of row.now) }
        ensures { Made row.now clocks locations edges result }
    {
        Automaton {
            row,
            clocks,
            locations,
            edges,
        }
    }

    pub fn clocks(&self) -> u32
        ensures { result ≡ self.now.clocks }
    {
        self.clocks
    }

    pub fn locations(&self) -> u32
        ensures { result ≡ self.now.locations }
    {
        self.locations
    }

    // The whole row.
    pub fn words(&self) -> &'a [u32]
        ensures { result.now ≡ self.now.row.now }
    {
        self.row
    }

    // The word at which the first edge begins: the length of the row where there is none.
    pub fn first_edge(&self) -> usize
        ensures { result ≡ self.now.edges }
    {
        self.edges
    }

    // The invariant of a location, or none where there is no such location.
    pub fn invariant(&self, location: Location) -> Option<Conjunction<'a>>
        ensures { InvariantIs (nth (automaton_value self.now).invariants location.0) result }
    {
        // so a location that is none is told without a walk over the row
        if location.0 >= self.locations {
            return None;
        }
        self.invariants().nth(location.0 as usize)
    }

    // The invariants of all locations, in their order.
    pub fn invariants(&self) -> Invariants<'a>
        ensures { InvariantsAre (automaton_value self.now).invariants result }
    {
        Invariants {
            placed: self.placed_invariants(),
        }
    }

    pub fn edges(&self) -> Edges<'a>
        ensures { EdgesAre (automaton_value self.now).edges result }
    {
        Edges {
            placed: self.placed_edges(),
        }
    }

    // The invariants of all locations, each with the word at which it begins.
    pub fn placed_invariants(&self) -> PlacedInvariants<'a>
        ensures { PlacedInvariantsAre self.now.row.now (automaton_value self.now).invariants (write_edges (automaton_value self.now).edges) result }
    {
        PlacedInvariants {
            row: self.row,
            at: 2,
            left: self.locations,
        }
    }

    // The edges, each with the word at which it begins.
    pub fn placed_edges(&self) -> PlacedEdges<'a>
        ensures { PlacedEdgesAre self.now.row.now (automaton_value self.now).edges result }
    {
        PlacedEdges {
            row: self.row,
            at: self.edges,
        }
    }
}

impl<'a> Iterator for Invariants<'a> {
    ghost use Rattle.rows.specs.Views.{InvariantsAre, NextInvariant};

    type Item = Conjunction<'a>;

    ghost next_gives = { λ s r t. ((css : List (List automata.Constraint)) → InvariantsAre css s → NextInvariant css r t) };

    ghost remaining = { λ s. at_most s.placed.left };

    fn next(&mut self) -> Option<Conjunction<'a>> {
        self.placed.next().map(|(_, conjunction)| conjunction)
    }
}

impl<'a> Iterator for Edges<'a> {
    ghost use Rattle.rows.specs.Views.{EdgesAre, NextEdge};

    type Item = Edge<'a>;

    ghost next_gives = { λ s r t. ((es : List automata.Edge) → EdgesAre es s → NextEdge es r t) };

    ghost remaining = { λ s. at_most (length s.placed.row.now - s.placed.at) };

    fn next(&mut self) -> Option<Edge<'a>> {
        self.placed.next().map(|(_, edge)| edge)
    }
}
