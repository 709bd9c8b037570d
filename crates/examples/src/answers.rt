// Answers as text. Not console's `Answer` nor the `Told` of sixtieths: the words for what is no answer are others in each, and what
// each program prints stays as it is.
use clocks::answers::Asked;
use std::fmt;
use std::num::ParseIntError;
use std::str::FromStr;

// An answer as text: printed, and read.
#[derive(Clone, Copy)]
pub struct Written(pub Asked);

// A text that says no answer that a clockwork can have. No Display: it is told as a flaw of its line.
#[derive(Debug, Clone, Copy)]
pub struct NoAnswer;

// By hand: with `#[from]` it would keep the error, of which nothing is told.
impl From<ParseIntError> for NoAnswer {
    fn from(_e: ParseIntError) -> NoAnswer {
        NoAnswer
    }
}

impl fmt::Display for Written {
    fn fmt<W: fmt::Write>(&self, f: &mut fmt::Formatter<W>) -> fmt::Result {
        match self.0 {
            Asked::At(time) => write!(f, "at {time}"),
            Asked::After(time) => write!(f, "after {time}"),
            Asked::Never => f.write_str("never"),
            Asked::NoWork => f.write_str("no work"),
            Asked::NoPlace => f.write_str("no place"),
            Asked::Many => f.write_str("many"),
            Asked::Few => f.write_str("few"),
        }
    }
}

impl FromStr for Written {
    type Err = NoAnswer;

    fn from_str(text: &str) -> Result<Written, NoAnswer> {
        let asked = match text.split_once(' ') {
            Some(("at", time)) => Asked::At(time.parse()?),
            Some(("after", time)) => Asked::After(time.parse()?),
            None if text == "never" => Asked::Never,
            None if text == "many" => Asked::Many,
            _ => return Err(NoAnswer),
        };
        Ok(Written(asked))
    }
}
