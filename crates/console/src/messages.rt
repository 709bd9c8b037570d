// What the programs tell beside their answers: why there is none, and where.
ghost use Rattle.std.specs.Prelude.{◌≡◌};
ghost use Rattle.console.specs.declared.messages.Problem.TheVariants.{Memory};

use crate::budget::TEXT_BYTES;
use crate::input::Source;
use crate::positions::Unknown;
use clockworks::write::Unfit;
use drawing::errors::{Refusal, Wrong};
use std::alloc::AllocError;
use std::{fmt, io};

// What stands in a row of numbers in place of what was expected.
#[derive(Debug, Drop)]
pub enum Found {
    Word(String),
    // A word that is long, or has characters that are not shown.
    Other,
    TextEnd,
}

#[derive(Debug, Clone, Copy)]
pub enum Expected {
    Number,
    FewNumbers,
    MoreNumbers,
    Clocks,
    Positions,
    Clock { clocks: u32 },
    Relation,
    UpperRelation,
    Bound,
    Position { positions: u32 },
}

// Why there is no answer. Told by a `Report`, with the source.
#[derive(Debug, Drop)]
pub enum Problem {
    Memory,
    Unreadable(io::Error),
    Unwritable(io::Error),
    TooLarge,
    Drawing(Refusal),
    Unfit(Unfit),
    Row(Wrong<Found, Expected>),
    Position(Unknown),
    Kinds { asked: u32, fit: u32 },
}

// A problem with the text of a source.
#[derive(Clone, Copy)]
pub struct Report<'a> {
    pub source: Source<'a>,
    pub problem: &'a Problem,
}

// By hand, and the next two: a derive has no clause to say which problem it gives.
impl From<AllocError> for Problem {
    ghost from_gives = { λ _ problem. problem ≡ Memory };

    fn from(_e: AllocError) -> Problem {
        Problem::Memory
    }
}

impl From<Refusal> for Problem {
    ghost use Rattle.console.specs.declared.messages.Problem.TheVariants.{Drawing};

    ghost from_gives = { λ refusal problem. problem ≡ Drawing refusal };

    fn from(refusal: Refusal) -> Problem {
        Problem::Drawing(refusal)
    }
}

impl From<Unfit> for Problem {
    ghost use Rattle.console.specs.Problems.{problem_of};

    ghost from_gives = { λ unfit problem. problem ≡ problem_of unfit };

    fn from(unfit: Unfit) -> Problem {
        match unfit {
            Unfit::Memory(_) => Problem::Memory,
            unfit => Problem::Unfit(unfit),
        }
    }
}

// Only want of memory keeps a text from being written.
impl From<fmt::Error> for Problem {
    ghost from_gives = { λ _ problem. problem ≡ Memory };

    fn from(_e: fmt::Error) -> Problem {
        Problem::Memory
    }
}

impl fmt::Display for Found {
    fn fmt<W: fmt::Write>(&self, f: &mut fmt::Formatter<W>) -> fmt::Result {
        match self {
            Found::Word(word) => write!(f, "`{word}`"),
            Found::Other => f.write_str("something else"),
            Found::TextEnd => f.write_str("the end of the text"),
        }
    }
}

impl fmt::Display for Expected {
    fn fmt<W: fmt::Write>(&self, f: &mut fmt::Formatter<W>) -> fmt::Result {
        match self {
            Expected::Number => f.write_str("a number from 0 to 4294967295"),
            Expected::FewNumbers => f.write_str("at most 16384 numbers"),
            Expected::MoreNumbers => f.write_str("more numbers, since the row ends in the middle"),
            Expected::Clocks => f.write_str("1 to 8 clocks"),
            Expected::Positions => f.write_str("1 to 256 positions"),
            Expected::Clock { clocks } => write!(
                f,
                "the number of a clock, which is below {clocks}"
            ),
            Expected::Relation => f.write_str("a relation: 0 for <=, 1 for <, 2 for >= or 3 for >"),
            Expected::UpperRelation => f.write_str(
                "0 for <= or 1 for <, since a position bounds clocks only from above",
            ),
            Expected::Bound => f.write_str("a number from 0 to 10000 to compare a clock with"),
            Expected::Position { positions } => write!(
                f,
                "the number of a position, which is below {positions}"
            ),
        }
    }
}

impl fmt::Display for Unknown {
    fn fmt<W: fmt::Write>(&self, f: &mut fmt::Formatter<W>) -> fmt::Result {
        let word = &self.word;
        let known = &self.known;
        write!(f, "no position is called `{word}`")?;
        if let Some(nearest) = &self.nearest {
            write!(f, "; did you mean `{nearest}`?")?;
        }
        write!(f, "; the positions are {known}")
    }
}

// As `FILE:LINE:COLUMN: found .., expected ..`, or as `FILE: ..` where no place in the text is at fault.
impl<'a> fmt::Display for Report<'a> {
    fn fmt<W: fmt::Write>(&self, f: &mut fmt::Formatter<W>) -> fmt::Result {
        let source = self.source;
        match self.problem {
            Problem::Memory | Problem::Drawing(Refusal::Memory) => write!(
                f,
                "{source}: not enough memory"
            ),
            Problem::Unreadable(error) => write!(f, "{source}: {error}"),
            Problem::Unwritable(error) => write!(f, "standard output: {error}"),
            Problem::TooLarge => write!(f, "{source}: the text is larger than {TEXT_BYTES} bytes"),
            Problem::Drawing(refusal) => write!(f, "{source}:{refusal}"),
            Problem::Unfit(unfit) => write!(f, "{source}: found {unfit}"),
            Problem::Row(wrong) => write!(f, "{source}:{wrong}"),
            Problem::Position(unknown) => write!(f, "{source}: {unknown}"),
            Problem::Kinds { asked, fit } => write!(
                f,
                "{source}: found {asked} kinds of states to allow, expected at most {fit}, which fit into the memory"
            ),
        }
    }
}
