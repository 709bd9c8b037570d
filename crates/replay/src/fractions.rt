// Fractions in lowest terms.
ghost use Rattle.replay.specs.Fractions.{GreatestDivisor, Lowest};

use std::fmt;

// A whole number is written without its 1.
#[derive(Clone, Copy)]
pub struct Fraction {
    pub numerator: u64,
    pub denominator: u64,
}

// By Euclid's algorithm.
fn greatest_common_divisor(a: u64, b: u64) -> u64
    ensures { GreatestDivisor a b result }
{
    let mut divisor = a;
    let mut other = b;
    while other != 0 {
        let rest = divisor % other;
        divisor = other;
        other = rest;
    }
    divisor
}

impl Fraction {
    // The same fraction with no common divisor; where the denominator is 0, as it is.
    pub fn lowest(numerator: u64, denominator: u64) -> Self
        ensures { Lowest numerator denominator result.numerator result.denominator }
    {
        if denominator == 0 {
            return Fraction {
                numerator,
                denominator,
            };
        }
        let divisor = greatest_common_divisor(numerator, denominator);
        Fraction {
            numerator: numerator / divisor,
            denominator: denominator / divisor,
        }
    }
}

impl fmt::Display for Fraction {
    ghost use Rattle.std.specs.Prelude.{Some};
    ghost use Rattle.replay.specs.Fractions.{ratio_text};

    ghost output = { λ fraction. Some (ratio_text fraction.numerator fraction.denominator) };

    fn fmt<W: fmt::Write>(&self, f: &mut fmt::Formatter<W>) -> fmt::Result {
        let Fraction {
            numerator,
            denominator,
        } = *self;
        if denominator == 1 {
            write!(f, "{numerator}")
        } else {
            write!(f, "{numerator}/{denominator}")
        }
    }
}
