// Why a row is refused, and at which word.
ghost use Rattle.std.specs.Prelude.{◌≡◌, ◌++◌, Some, codes, decimal};
ghost use Rattle.rows.specs.Refusals.{rule_text};

use crate::limits::{MOST_BOUND, MOST_CLOCKS, MOST_LOCATIONS, MOST_WORDS};
use std::error::Error;
use std::fmt;

// The rules of a row, each with what is wrong at the word where it is broken.
#[derive(Clone, Copy, Debug, PartialEq, Eq)]
pub enum Rule {
    // more than 16,384 words
    TooLong,
    // the row ends in the middle
    Ends,
    // not 1 to 8 clocks
    Clocks,
    // not 1 to 256 locations
    Locations,
    // no such clock
    Clock,
    // no such relation
    Relation,
    // an invariant that bounds a clock from below
    LowerBound,
    // a number above 10,000
    Bound,
    // no such location
    Location,
}

#[derive(Clone, Copy, Debug, PartialEq, Eq)]
pub struct Refusal {
    pub rule: Rule,
    pub word: usize,
}

impl Rule {
    // That the rule is broken at a word.
    pub fn at(self, word: usize) -> Refusal
        ensures { result ≡ record { rule = self; word = word } }
    {
        Refusal { rule: self, word }
    }
}

impl fmt::Display for Rule {
    ghost output = { λ rule. Some (rule_text rule) };

    fn fmt<W: fmt::Write>(&self, f: &mut fmt::Formatter<W>) -> fmt::Result {
        match self {
            Rule::TooLong => write!(f, "more than {MOST_WORDS} words"),
            Rule::Ends => f.write_str("a row that ends in the middle"),
            Rule::Clocks => write!(f, "not 1 to {MOST_CLOCKS} clocks"),
            Rule::Locations => write!(f, "not 1 to {MOST_LOCATIONS} locations"),
            Rule::Clock => f.write_str("no such clock"),
            Rule::Relation => f.write_str("no such relation"),
            Rule::LowerBound => f.write_str("an invariant that bounds a clock from below"),
            Rule::Bound => write!(f, "a number above {MOST_BOUND}"),
            Rule::Location => f.write_str("no such location"),
        }
    }
}

// By hand, as `Error` below: of the text a clause speaks, and thiserror's derive writes none.
impl fmt::Display for Refusal {
    ghost output = { λ refusal. Some (rule_text refusal.rule ++ (codes " at word " ++ decimal refusal.word)) };

    fn fmt<W: fmt::Write>(&self, f: &mut fmt::Formatter<W>) -> fmt::Result {
        write!(f, "{} at word {}", self.rule, self.word)
    }
}

impl Error for Refusal {}
