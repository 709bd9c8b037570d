// Automata made at random, as rows: small ones, with two clocks and small numbers.
use crate::generator::Generator;
use std::alloc::{AllocError, Global};

const CLOCKS: u32 = 2;

// Bounds are from 0 to 4.
const BOUNDS: u32 = 5;

// The relations of an invariant are the first two, those of a guard all four. By their numbers: they are words of a row, of which any
// is drawn.
const UPPER_RELATIONS: u32 = 2;

const RELATIONS: u32 = 4;

// A row in the making.
#[derive(Drop)]
struct Draft<'a> {
    row: Vec<u32>,
    numbers: &'a mut Generator,
}

impl<'a> Draft<'a> {
    fn push_constraint(&mut self, relations: u32) -> Result<(), AllocError> {
        let words = [
            self.numbers.below(CLOCKS),
            self.numbers.below(relations),
            self.numbers.below(BOUNDS),
        ];
        self.row.extend_from_slice(&words)
    }

    fn push_conjunction(&mut self, count: u32, relations: u32) -> Result<(), AllocError> {
        self.row.push(count)?;
        for _ in 0..count {
            self.push_constraint(relations)?;
        }
        Ok(())
    }

    // No clock is reset, or one, or both.
    fn push_resets(&mut self) -> Result<(), AllocError> {
        match self.numbers.below(4) {
            0 => self.row.extend_from_slice(&[0]),
            1 => self.row.extend_from_slice(&[2, 0, 1]),
            _ => {
                let clock = self.numbers.below(CLOCKS);
                self.row.extend_from_slice(&[1, clock])
            }
        }
    }

    // An edge between two locations, with one or two constraints.
    fn push_edge(&mut self, source: u32, target: u32) -> Result<(), AllocError> {
        self.row.extend_from_slice(&[source, target])?;
        let count = 1 + self.numbers.below(2);
        self.push_conjunction(count, RELATIONS)?;
        self.push_resets()
    }

    // To each location but the first leads an edge from an earlier one, so that most have a way in the drawing; some from itself.
    fn push_ways(&mut self, locations: u32) -> Result<(), AllocError> {
        for target in 1..locations {
            let source = match self.numbers.below(6) {
                0 => target,
                _ => self.numbers.below(target),
            };
            self.push_edge(source, target)?;
        }
        Ok(())
    }

    // With 3 to 5 locations and 4 to 8 edges.
    fn push_all(&mut self) -> Result<(), AllocError> {
        let locations = 3 + self.numbers.below(3);
        self.row.extend_from_slice(&[CLOCKS, locations])?;
        for _ in 0..locations {
            let count = u32::from(self.numbers.below(3) == 0);
            self.push_conjunction(count, UPPER_RELATIONS)?;
        }
        self.push_ways(locations)?;
        for _ in 0..2 + self.numbers.below(3) {
            let source = self.numbers.below(locations);
            let target = self.numbers.below(locations);
            self.push_edge(source, target)?;
        }
        Ok(())
    }
}

// The row of an automaton.
pub fn invent(heap: Global, numbers: &mut Generator) -> Result<Vec<u32>, AllocError> {
    let mut draft = Draft {
        row: Vec::new(heap),
        numbers,
    };
    draft.push_all()?;
    Ok(draft.row)
}
