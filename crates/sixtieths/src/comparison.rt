// An answer held against what was found on the grid.
ghost use Rattle.std.specs.Prelude.{◌≡◌};
ghost use Rattle.sixtieths.specs.Judging.{Compared, Judged, kind_is};

use clocks::answers::Asked;
use grids::grid::PARTS;
use std::cmp::Ordering;
use std::fmt;

// The kinds of answers. Whether there is a way in the drawing parts those that say never.
#[derive(Clone, Copy)]
pub enum Kind {
    AtStart,
    AtLater,
    After,
    NeverOnWay,
    NeverOffWay,
    NoAnswer,
}

impl Kind {
    // In the order in which they are declared.
    pub const ALL: [Kind; 6] = [
        Kind::AtStart,
        Kind::AtLater,
        Kind::After,
        Kind::NeverOnWay,
        Kind::NeverOffWay,
        Kind::NoAnswer,
    ];
}

impl fmt::Display for Kind {
    fn fmt<W: fmt::Write>(&self, f: &mut fmt::Formatter<W>) -> fmt::Result {
        f.pad(match self {
            Kind::AtStart => "at 0",
            Kind::AtLater => "at a time above 0",
            Kind::After => "after a time",
            Kind::NeverOnWay => "never, with a way in the drawing",
            Kind::NeverOffWay => "never, without one",
            Kind::NoAnswer => "no answer",
        })
    }
}

// What the grid says of an answer.
#[derive(Clone, Copy, PartialEq, Eq)]
pub enum Finding {
    // the first time on the grid is the one that was told, or the first one behind it
    Exact,
    // it is a later one
    Later,
    // nothing was found, though something was told
    Missing,
    // the answer is wrong, or is none
    Contradiction,
}

pub fn kind_of(asked: Asked, has_way: bool) -> Kind
    ensures { result ≡ kind_is asked has_way }
{
    match asked {
        Asked::At(0) => Kind::AtStart,
        Asked::At(_) => Kind::AtLater,
        Asked::After(_) => Kind::After,
        Asked::Never if has_way => Kind::NeverOnWay,
        Asked::Never => Kind::NeverOffWay,
        _ => Kind::NoAnswer,
    }
}

// What a time that was found says, where the first one that is left is `earliest`. Both are in sixtieths.
fn compare(earliest: u128, found: u64) -> Finding
    ensures { Compared earliest found result }
{
    match u128::from(found).cmp(&earliest) {
        Ordering::Less => Finding::Contradiction,
        Ordering::Equal => Finding::Exact,
        Ordering::Greater => Finding::Later,
    }
}

// Holds an answer against the first time that was found on the grid.
pub fn judge(asked: Asked, found: Option<u64>) -> Finding
    ensures { Judged asked found result }
{
    match (asked, found) {
        (Asked::At(time), Some(found)) => compare(u128::from(time) * u128::from(PARTS), found),
        (Asked::After(time), Some(found)) => {
            compare(u128::from(time) * u128::from(PARTS) + 1, found)
        }
        (Asked::At(_) | Asked::After(_), None) => Finding::Missing,
        (Asked::Never, None) => Finding::Exact,
        _ => Finding::Contradiction,
    }
}
