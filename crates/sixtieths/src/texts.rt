// Answers and times as text.
use clocks::answers::Asked;
use grids::grid::PARTS;
use replay::fractions::Fraction;
use std::fmt;

// An answer. Not console's `Answer` nor the `Written` of examples: the words for what is no answer are others in each, and what each
// program prints stays as it is.
#[derive(Clone, Copy)]
pub struct Told(pub Asked);

// A time in sixtieths, with its fraction in lowest terms.
#[derive(Clone, Copy)]
pub struct Time(pub u64);

#[derive(Clone, Copy)]
pub struct Found(pub Option<u64>);

impl fmt::Display for Told {
    fn fmt<W: fmt::Write>(&self, f: &mut fmt::Formatter<W>) -> fmt::Result {
        match self.0 {
            Asked::At(time) => write!(f, "at {time}"),
            Asked::After(time) => write!(f, "after {time}"),
            Asked::Never => f.write_str("never"),
            Asked::NoWork => f.write_str("no answer, since the row is refused"),
            Asked::NoPlace => f.write_str("no answer, since the position is not there"),
            Asked::Many => f.write_str("no answer, since there are too many kinds of states"),
            Asked::Few => f.write_str("no answer, since there are too few words"),
        }
    }
}

impl fmt::Display for Time {
    fn fmt<W: fmt::Write>(&self, f: &mut fmt::Formatter<W>) -> fmt::Result {
        let whole = self.0 / PARTS;
        let part = Fraction::lowest(self.0 % PARTS, PARTS);
        if part.numerator == 0 {
            return write!(f, "{whole}");
        }
        write!(f, "{whole} {part}")
    }
}

impl fmt::Display for Found {
    fn fmt<W: fmt::Write>(&self, f: &mut fmt::Formatter<W>) -> fmt::Result {
        match self.0 {
            Some(parts) => write!(f, "first at {}", Time(parts)),
            None => f.write_str("never"),
        }
    }
}
