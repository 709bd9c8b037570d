// A clockwork is written as its row of numbers. What is out of range, or too much, is refused.
ghost use Rattle.std.specs.Prelude.{◌≡◌, ℕ, Bool, true, List, [], ◌∷◌, length, IfOk, OnOk, ltb};
ghost use Rattle.std.specs.List.{flat_map, list_all};
ghost use Rattle.automata.specs.Rows.{Reads, upper, fine_constraint, fine_invariant, fine_edge};
ghost use Rattle.rows.specs.Parts.{relation_value, constraint_value};
ghost use Rattle.clockworks.specs.Meaning.{invariant_of, edge, automaton, test_words, position_words, step_words, all_upper, Wrote};

use crate::parts::{Clockwork, Position, Step, Test};
use rows::constraints::UnknownRelation;
use rows::limits::{LOCATIONS, MOST_BOUND, MOST_CLOCKS, MOST_WORDS};
use std::alloc::{AllocError, Global};
use std::fmt;
use thiserror::Error;

// Why a clockwork has no row, or a row is no clockwork's.
#[derive(Clone, Copy, Debug, PartialEq, Eq, Error)]
pub enum Unfit {
    #[error("not enough memory")]
    Memory(#[from(alloc)] AllocError),
    #[error("no clock, or more than 8 clocks")]
    Clocks,
    #[error("no position, or more than 256 positions")]
    Positions,
    #[error("a clock that is not there")]
    Clock,
    #[error("a position that is not there")]
    Position,
    // with an escape, since the plain word in an attribute makes `rt` look for tests here
    #[error("a number above 10000 in a t\u{65}st")]
    Bound,
    #[error("a position that bounds a clock from below")]
    Lower,
    #[error("more than 16384 numbers")]
    Words,
    #[error("a row that ends too early")]
    Short,
    #[error("a relation above 3")]
    Relation,
    #[error("a row that no clockwork has")]
    Other,
}

// By hand: a derive has no clause to say that it is `Relation`.
impl From<UnknownRelation> for Unfit {
    ghost use Rattle.clockworks.specs.declared.write.Unfit.TheVariants.{Relation as UnfitRelation};

    ghost from_gives = { λ _ unfit. unfit ≡ UnfitRelation };

    fn from(_e: UnknownRelation) -> Unfit {
        Unfit::Relation
    }
}

// Only want of memory keeps a text from being written.
impl From<fmt::Error> for Unfit {
    fn from(_e: fmt::Error) -> Unfit {
        Unfit::Memory(AllocError)
    }
}

// The row as far as it is written, and the clocks and positions that its parts may name.
#[derive(Drop)]
struct Writer {
    row: Vec<u32>,
    clocks: u32,
    positions: usize,
}

// A part of a clockwork, or a clock that is set back.
trait Part {
    ghost words: { Self → List ℕ };

    // whether it fits so many clocks and positions
    ghost fits: { ℕ → ℕ → Self → Bool };

    fn write(&self, writer: &mut Writer) -> Result<(), Unfit>
        ensures { OnOk result (Wrote writer.old writer.new (words self.now) (λ n p. fits n p self.now)) };
}

impl Writer {
    fn count(&mut self, count: usize) -> Result<(), Unfit>
        ensures { OnOk result (Wrote self.old self.new (count ∷ []) (λ _ _. true)) }
    {
        if count > MOST_WORDS {
            return Err(Unfit::Words);
        }
        self.row.push(count as u32)?;
        Ok(())
    }

    fn all<P: Part>(&mut self, parts: &[P]) -> Result<(), Unfit>
        ensures { OnOk result (Wrote self.old self.new (flat_map P.words parts.now) (λ n p. list_all (P.fits n p) parts.now)) }
    {
        for part in parts {
            part.write(self)?;
        }
        Ok(())
    }

    // The parts, with their count before them.
    fn list<P: Part>(&mut self, parts: &[P]) -> Result<(), Unfit>
        ensures { OnOk result (Wrote self.old self.new (length parts.now ∷ flat_map P.words parts.now) (λ n p. list_all (P.fits n p) parts.now)) }
    {
        self.count(parts.len())?;
        self.all(parts)?;
        Ok(())
    }
}

fn all_bound_above(tests: &[Test]) -> bool
    ensures { result ≡ all_upper tests.now }
{
    tests.iter().all(|test| test.relation.bounds_above())
}

impl Part for u32 {
    ghost words = { λ clock. clock ∷ [] };

    ghost fits = { λ n p clock. ltb clock n };

    fn write(&self, writer: &mut Writer) -> Result<(), Unfit> {
        if *self >= writer.clocks {
            return Err(Unfit::Clock);
        }
        writer.row.push(*self)?;
        Ok(())
    }
}

impl Part for Test {
    ghost words = { test_words };

    ghost fits = { λ n p test. fine_constraint n (constraint_value test) };

    fn write(&self, writer: &mut Writer) -> Result<(), Unfit> {
        if self.clock.0 >= writer.clocks {
            return Err(Unfit::Clock);
        }
        if self.bound > MOST_BOUND {
            return Err(Unfit::Bound);
        }
        let words = [self.clock.0, u32::from(self.relation), self.bound];
        writer.row.extend_from_slice(&words)?;
        Ok(())
    }
}

impl Part for Position {
    ghost words = { position_words };

    ghost fits = { λ n p position. fine_invariant n (invariant_of position) };

    fn write(&self, writer: &mut Writer) -> Result<(), Unfit> {
        let tests = self.tests.as_slice();
        if !all_bound_above(tests) {
            return Err(Unfit::Lower);
        }
        writer.list(tests)?;
        Ok(())
    }
}

impl Part for Step {
    ghost words = { step_words };

    ghost fits = { λ n p step. fine_edge n p (edge step) };

    fn write(&self, writer: &mut Writer) -> Result<(), Unfit> {
        if self.source as usize >= writer.positions || self.target as usize >= writer.positions {
            return Err(Unfit::Position);
        }
        writer.row.extend_from_slice(&[self.source, self.target])?;
        writer.list(self.tests.as_slice())?;
        writer.list(self.resets.as_slice())?;
        Ok(())
    }
}

// The row of a clockwork.
pub fn write_row(heap: Global, clockwork: &Clockwork) -> Result<Vec<u32>, Unfit>
    ensures { IfOk result (λ row. Reads row.items (automaton clockwork.now)) }
{
    let clocks = clockwork.clocks;
    let positions = clockwork.positions.len();
    if !(1..=MOST_CLOCKS).contains(&clocks) {
        return Err(Unfit::Clocks);
    }
    if !(1..=LOCATIONS).contains(&positions) {
        return Err(Unfit::Positions);
    }
    let mut row = Vec::new(heap);
    row.push(clocks)?;
    let mut writer = Writer {
        row,
        clocks,
        positions,
    };
    writer.list(clockwork.positions.as_slice())?;
    writer.all(clockwork.steps.as_slice())?;
    if writer.row.len() > MOST_WORDS {
        return Err(Unfit::Words);
    }
    Ok(writer.row)
}
