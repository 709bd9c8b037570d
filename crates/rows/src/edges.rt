// Edges, as parts of a row.
ghost use Rattle.std.specs.Prelude.{◌≡◌, ℕ, List, drop, IfSome};
ghost use Rattle.automata.specs.Automata as automata;
ghost use Rattle.rows.specs.Parts.{edge_words, Behind};
ghost use Rattle.rows.specs.EdgeParts.{EdgeAt};

use crate::constraints::{Conjunction, conjunction_at};
use crate::counted::part_at;

// The number of a location.
#[derive(Clone, Copy, Debug, PartialEq, Eq)]
pub struct Location(pub u32);

#[derive(Clone, Copy)]
pub struct Edge<'a> {
    pub source: Location,
    pub target: Location,
    pub guard: Conjunction<'a>,
    // the numbers of the clocks that it sets back
    pub resets: &'a [u32],
}

// The edge that begins at `at`, and the place behind it; none where the row ends before.
pub fn edge_at(row: &[u32], at: usize) -> Option<(Edge<'_>, usize)>
    ensures part { (e : automata.Edge) (rest : List ℕ) → drop at row.now ≡ edge_words e rest → EdgeAt row.now e rest result }
    ensures further { IfSome result (Behind row.now at) }
{
    let [source, target, ..] = row.get(at..)? else {
        return None;
    };
    let (guard, guard_end) = conjunction_at(row, at + 2)?;
    let (resets, end) = part_at(row, guard_end, 1)?;
    let edge = Edge {
        source: Location(*source),
        target: Location(*target),
        guard,
        resets,
    };
    Some((edge, end))
}
