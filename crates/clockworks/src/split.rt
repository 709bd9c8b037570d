// A row of numbers is split into the parts of a clockwork. They are written again and compared, so that no other row passes.
ghost use Rattle.std.specs.Prelude.{◌<◌, length, IfOk, OnOk};
ghost use Rattle.automata.specs.Rows.{Reads};
ghost use Rattle.clockworks.specs.Meaning.{automaton};

use crate::parts::{Clock, Clockwork, Position, Relation, Step, Test};
use crate::write::{Unfit, write_row};
use std::alloc::Global;

// The numbers of a row that are still to be read.
#[derive(Drop)]
struct Numbers<'a> {
    heap: Global,
    rest: &'a [u32],
}

// What is read from numbers, and takes one of them or more.
trait Split: Drop {
    fn split(numbers: &mut Numbers) -> Result<Self, Unfit>
        ensures { OnOk result (length numbers.new.rest.now < length numbers.old.rest.now) };
}

impl Numbers<'_> {
    // A count, and then so many parts.
    fn list<P: Split>(&mut self) -> Result<Vec<P>, Unfit>
        ensures { OnOk result (length self.new.rest.now < length self.old.rest.now) }
    {
        // A loop: tried by `map` and `try_collect`, and `returns` stayed open, as what a closure borrowed is not known past its chain.
        let mut parts = Vec::new(self.heap);
        for _ in 0..u32::split(self)? {
            parts.push(P::split(self)?)?;
        }
        Ok(parts)
    }

    // Parts to the end of the row.
    fn all<P: Split>(&mut self) -> Result<Vec<P>, Unfit> {
        let mut parts = Vec::new(self.heap);
        while !self.rest.is_empty() {
            parts.push(P::split(self)?)?;
        }
        Ok(parts)
    }
}

impl Split for u32 {
    fn split(numbers: &mut Numbers) -> Result<u32, Unfit> {
        let (first, rest) = numbers.rest.split_first().ok_or(Unfit::Short)?;
        numbers.rest = rest;
        Ok(*first)
    }
}

impl Split for Test {
    fn split(numbers: &mut Numbers) -> Result<Test, Unfit> {
        Ok(Test {
            clock: Clock(u32::split(numbers)?),
            relation: Relation::try_from(u32::split(numbers)?)?,
            bound: u32::split(numbers)?,
        })
    }
}

impl Split for Position {
    fn split(numbers: &mut Numbers) -> Result<Position, Unfit> {
        Ok(Position {
            tests: numbers.list()?,
        })
    }
}

impl Split for Step {
    fn split(numbers: &mut Numbers) -> Result<Step, Unfit> {
        Ok(Step {
            source: u32::split(numbers)?,
            target: u32::split(numbers)?,
            tests: numbers.list()?,
            resets: numbers.list()?,
        })
    }
}

fn split_numbers(heap: Global, row: &[u32]) -> Result<Clockwork, Unfit> {
    let mut numbers = Numbers { heap, rest: row };
    Ok(Clockwork {
        clocks: u32::split(&mut numbers)?,
        positions: numbers.list()?,
        steps: numbers.all()?,
    })
}

// The parts of the clockwork that has this row.
pub fn split_row(heap: Global, row: &[u32]) -> Result<Clockwork, Unfit>
    ensures { IfOk result (λ c. Reads row.now (automaton c)) }
{
    let clockwork = split_numbers(heap, row)?;
    let again = write_row(heap, &clockwork)?;
    if again.as_slice() != row {
        return Err(Unfit::Other);
    }
    Ok(clockwork)
}
