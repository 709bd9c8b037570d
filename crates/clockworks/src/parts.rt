// A clockwork in parts: positions with their tests, and steps. Clocks and positions go by number, from 0.
ghost use Rattle.std.specs.Prelude.{◌≡◌, []};

pub use rows::constraints::{Clock, Constraint as Test, Relation};
use std::alloc::Global;

// The tests of a position have to hold as long as the clockwork is there.
#[derive(Drop)]
pub struct Position {
    pub tests: Vec<Test>,
}

// A step may be taken where its tests hold, and sets the clocks of `resets` back to 0.
#[derive(Drop)]
pub struct Step {
    pub source: u32,
    pub target: u32,
    pub tests: Vec<Test>,
    pub resets: Vec<u32>,
}

#[derive(Drop)]
pub struct Clockwork {
    pub clocks: u32,
    pub positions: Vec<Position>,
    pub steps: Vec<Step>,
}

impl Clockwork {
    // So many clocks, and no position or step yet.
    pub fn new(heap: Global, clocks: u32) -> Clockwork
        ensures clocks { result.clocks ≡ clocks }
        ensures positions { result.positions.items ≡ [] }
        ensures steps { result.steps.items ≡ [] }
    {
        Clockwork {
            clocks,
            positions: Vec::new(heap),
            steps: Vec::new(heap),
        }
    }
}
