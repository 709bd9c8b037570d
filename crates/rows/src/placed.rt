// The invariants and the edges of a row, each with the word of the row at which it begins.
ghost use Rattle.std.specs.Prelude.{◌-◌, ℕ, List, length};
ghost use Rattle.std.specs.Iterator.{at_most};
ghost use Rattle.automata.specs.Automata as automata;
ghost use Rattle.rows.specs.Placed.{PlacedInvariantsAre, NextPlacedInvariant, PlacedEdgesAre, NextPlacedEdge};

use crate::constraints::{Conjunction, conjunction_at};
use crate::edges::{Edge, edge_at};

// The invariants from a word of the row on, so many.
#[derive(Clone, Copy)]
pub struct PlacedInvariants<'a> {
    pub(crate) row: &'a [u32],
    pub(crate) at: usize,
    pub(crate) left: u32,
}

// The edges from a word of the row on.
#[derive(Clone, Copy)]
pub struct PlacedEdges<'a> {
    pub(crate) row: &'a [u32],
    pub(crate) at: usize,
}

impl<'a> Iterator for PlacedInvariants<'a> {
    type Item = (usize, Conjunction<'a>);

    ghost next_gives = { λ s r t. ((row : List ℕ) (css : List (List automata.Constraint)) (rest : List ℕ) → PlacedInvariantsAre row css rest s → NextPlacedInvariant row css rest r t) };

    ghost remaining = { λ s. at_most s.left };

    fn next(&mut self) -> Option<(usize, Conjunction<'a>)> {
        let left = self.left.checked_sub(1)?;
        let at = self.at;
        let (conjunction, behind) = conjunction_at(self.row, at)?;
        self.at = behind;
        self.left = left;
        Some((at, conjunction))
    }
}

impl<'a> Iterator for PlacedEdges<'a> {
    type Item = (usize, Edge<'a>);

    ghost next_gives = { λ s r t. ((row : List ℕ) (es : List automata.Edge) → PlacedEdgesAre row es s → NextPlacedEdge row es r t) };

    ghost remaining = { λ s. at_most (length s.row.now - s.at) };

    fn next(&mut self) -> Option<(usize, Edge<'a>)> {
        let at = self.at;
        let (edge, end) = edge_at(self.row, at)?;
        self.at = end;
        Some((at, edge))
    }
}
