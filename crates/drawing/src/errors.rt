// Why a text is no drawing: where, what was found there, and what was expected.
ghost use Rattle.std.specs.Prelude.{◌≡◌, ◌+◌, ◌≤◌, length, Some, take};
ghost use Rattle.drawing.specs.Words.{text_of};
ghost use Rattle.drawing.specs.Places.{newline_count, last_line_len as characters_since, place_text};
ghost use Rattle.drawing.specs.declared.errors.Refusal.TheVariants.{Wrong as RefusedFor};

use clockworks::parts::Relation;
use clockworks::write::Unfit;
use std::fmt;
use thiserror::Error;

// Lines and columns count from 1, columns in characters.
#[derive(Clone, Copy, Debug, PartialEq, Eq)]
pub struct Place {
    pub line: usize,
    pub column: usize,
}

// A byte that goes on with a character is none of its own.
fn last_line_len(text: &[u8]) -> usize
    ensures characters { result ≡ characters_since text.now }
    ensures bound { result ≤ length text.now }
{
    text.iter()
        .rev()
        .take_while(|byte| **byte != b'\n')
        .filter(|byte| **byte & 0xc0 != 0x80)
        .count()
}

impl Place {
    // The place past the first `count` bytes of a text, or past all of them.
    pub fn after(bytes: &[u8], count: usize) -> Place
        ensures line { result.line ≡ newline_count (take count bytes.now) + 1 }
        ensures column { result.column ≡ characters_since (take count bytes.now) + 1 }
    {
        let before = &bytes[..count.min(bytes.len())];
        Place {
            line: before.iter().filter(|byte| **byte == b'\n').count() + 1,
            column: last_line_len(before) + 1,
        }
    }
}

// As `LINE:COLUMN`.
impl fmt::Display for Place {
    ghost output = { λ place. Some (place_text place) };

    fn fmt<W: fmt::Write>(&self, f: &mut fmt::Formatter<W>) -> fmt::Result {
        let line = self.line;
        let column = self.column;
        write!(f, "{line}:{column}")
    }
}

#[derive(Debug, PartialEq, Eq, Drop)]
pub enum Found {
    Text(String),
    Sign(Sign),
    Character(char),
    Bytes,
    LineEnd,
    TextEnd,
    Unfit(Unfit),
}

// The signs of a drawing.
#[derive(Clone, Copy, Debug, PartialEq, Eq)]
pub enum Sign {
    Colon,
    Comma,
    Arrow,
    Relation(Relation),
    Equal,
}

impl Sign {
    // The texts of relations stand here again, since rows only prints them, and a line is cut by the text of a sign.
    pub fn text(self) -> &'static str
        ensures { result.now ≡ text_of self }
    {
        match self {
            Sign::Colon => ":",
            Sign::Comma => ",",
            Sign::Arrow => "->",
            Sign::Relation(Relation::AtMost) => "<=",
            Sign::Relation(Relation::Below) => "<",
            Sign::Relation(Relation::AtLeast) => ">=",
            Sign::Relation(Relation::Above) => ">",
            Sign::Equal => "=",
        }
    }
}

#[derive(Clone, Copy, Debug, PartialEq, Eq)]
pub enum Expected {
    Utf8,
    Character,
    Statement,
    ClockName,
    NewClock,
    FewClocks,
    PositionName,
    NewPosition,
    FewPositions,
    KnownClock,
    KnownPosition,
    Relation,
    UpperRelation,
    Bound,
    Arrow,
    AfterPosition,
    AfterTest,
    AfterTarget,
    AfterGuard,
    Clocks,
    Positions,
    Row,
}

// What stands at a place of a text, and what was expected there.
#[derive(Debug, PartialEq, Eq, Drop, Error)]
#[error_bound(F: fmt::Display, E: fmt::Display)]
#[error("{place}: found {found}, expected {expected}")]
pub struct Wrong<F, E> {
    pub place: Place,
    pub found: F,
    pub expected: E,
}

#[derive(Debug, PartialEq, Eq, Drop, Error)]
pub enum Refusal {
    #[error("not enough memory")]
    Memory,
    #[error("{0}")]
    Wrong(Wrong<Found, Expected>),
}

impl Refusal {
    // Something else was expected at the place than what was found.
    pub(crate) fn wrong(place: Place, found: Found, expected: Expected) -> Refusal
        ensures { result ≡ RefusedFor (record { place = place; found = found; expected = expected }) }
    {
        Refusal::Wrong(Wrong {
            place,
            found,
            expected,
        })
    }
}

impl fmt::Display for Sign {
    ghost output = { λ s. Some (text_of s) };

    fn fmt<W: fmt::Write>(&self, f: &mut fmt::Formatter<W>) -> fmt::Result {
        f.write_str(self.text())
    }
}

impl fmt::Display for Found {
    fn fmt<W: fmt::Write>(&self, f: &mut fmt::Formatter<W>) -> fmt::Result {
        match self {
            Found::Text(text) => write!(f, "`{text}`"),
            Found::Sign(sign) => write!(f, "`{sign}`"),
            Found::Character(c) => write!(f, "the character {c:?}"),
            Found::Bytes => f.write_str("bytes that are not text"),
            Found::LineEnd => f.write_str("the end of the line"),
            Found::TextEnd => f.write_str("the end of the text"),
            Found::Unfit(unfit) => write!(f, "{unfit}"),
        }
    }
}

impl fmt::Display for Expected {
    fn fmt<W: fmt::Write>(&self, f: &mut fmt::Formatter<W>) -> fmt::Result {
        f.write_str(match self {
            Expected::Utf8 => "text in UTF-8",
            Expected::Character => "a name, a number or one of : , -> <= < >= > = #",
            Expected::Statement => "`clocks`, `position` or `step`",
            Expected::ClockName => "a name for a clock",
            Expected::NewClock => "a name that no clock has yet",
            Expected::FewClocks => "at most 8 clocks",
            Expected::PositionName => "a name for a position",
            Expected::NewPosition => "a name that no position has yet",
            Expected::FewPositions => "at most 256 positions",
            Expected::KnownClock => "a clock that a line `clocks` names",
            Expected::KnownPosition => "a position that a line `position` names",
            Expected::Relation => "`<=`, `<`, `>=`, `>` or `=`",
            Expected::UpperRelation => {
                "`<=` or `<`, since a position bounds clocks only from above"
            }
            Expected::Bound => "a whole number from 0 to 10000",
            Expected::Arrow => "`->`",
            Expected::AfterPosition => "`:` or the end of the line",
            Expected::AfterTest => "`,` or the end of the line",
            Expected::AfterTarget => "`when`, `reset` or the end of the line",
            Expected::AfterGuard => "`,`, `reset` or the end of the line",
            Expected::Clocks => "a line `clocks` with a name for each clock",
            Expected::Positions => "a line `position` for each position",
            Expected::Row => "a clockwork that a row can hold",
        })
    }
}
