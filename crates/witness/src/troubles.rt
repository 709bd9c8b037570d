// Why no run is shown.
use accounts::runs::Untold;
use console::input::Source;
use console::messages::{Problem, Report};
use std::alloc::AllocError;
use std::fmt;

#[derive(Debug, Drop)]
pub enum Trouble {
    Problem(Problem),
    // with the names that there are
    NoPosition(String),
    // 1 / 0 is no time
    NoPart,
    // the trail that the search left leads to no run
    Astray,
}

// A trouble with the text of a source.
#[derive(Clone, Copy)]
pub struct Complaint<'a> {
    pub source: Source<'a>,
    pub trouble: &'a Trouble,
}

// By hand: thiserror's derive asks for a text of each variant, and a trouble is told with its source, by `Complaint`.
impl From<Problem> for Trouble {
    fn from(problem: Problem) -> Trouble {
        Trouble::Problem(problem)
    }
}

// By hand: thiserror's `#[from(alloc)]` wants a variant that holds the error, and `Problem` has one for it already.
impl From<AllocError> for Trouble {
    fn from(_e: AllocError) -> Trouble {
        Trouble::Problem(Problem::Memory)
    }
}

impl From<Untold> for Trouble {
    fn from(untold: Untold) -> Trouble {
        match untold {
            Untold::Memory(_) => Trouble::Problem(Problem::Memory),
            Untold::NoRun(_) => Trouble::Astray,
        }
    }
}

impl<'a> fmt::Display for Complaint<'a> {
    fn fmt<W: fmt::Write>(&self, f: &mut fmt::Formatter<W>) -> fmt::Result {
        let source = self.source;
        match self.trouble {
            Trouble::Problem(problem) => {
                let report = Report { source, problem };
                write!(f, "{report}")
            }
            Trouble::NoPosition(known) => write!(
                f,
                "{source}: found no `--position NAME`, expected one; the positions are {known}"
            ),
            Trouble::NoPart => write!(
                f,
                "{source}: found `--within 0`, expected a number from 1 to 4294967295"
            ),
            Trouble::Astray => write!(f, "{source}: the search left no run that shows the answer"),
        }
    }
}
