// What was tried and how often it came out otherwise than expected, with the text that tells it.
ghost use Rattle.std.specs.Prelude.{◌≡◌, ◌+◌, ◌-◌, ◌^◌, min, cond, ◌≢◌, vec_len};
ghost use Rattle.clocks.specs.Asked.{AskedPost};
ghost use Rattle.examples.specs.Trying.{Grew};

use crate::answers::Written;
use clocks::answers::{Asked, ask};
use std::alloc::{AllocError, Global};
use std::fmt;

#[derive(Clone, Copy, Default)]
pub struct Tally {
    pub tried: u64,
    pub differences: u64,
}

#[derive(Drop)]
pub struct Report {
    pub text: String,
    pub tally: Tally,
}

impl Tally {
    // With one try more, that came out as expected or not. Numbers past the largest stay there.
    pub fn with(self, as_expected: bool) -> Tally
        ensures tried { result.tried ≡ min (self.tried + 1) (2 ^ 64 - 1) }
        ensures differences { result.differences ≡ cond as_expected self.differences (min (self.differences + 1) (2 ^ 64 - 1)) }
    {
        Tally {
            tried: self.tried.saturating_add(1),
            differences: if as_expected {
                self.differences
            } else {
                self.differences.saturating_add(1)
            },
        }
    }

    // What was tried since an earlier tally.
    pub fn since(self, earlier: Tally) -> Tally
        ensures { (result.tried ≡ self.tried - earlier.tried) × (result.differences ≡ self.differences - earlier.differences) }
    {
        Tally {
            tried: self.tried.saturating_sub(earlier.tried),
            differences: self.differences.saturating_sub(earlier.differences),
        }
    }
}

impl fmt::Display for Tally {
    fn fmt<W: fmt::Write>(&self, f: &mut fmt::Formatter<W>) -> fmt::Result {
        let tried = self.tried;
        let differences = self.differences;
        write!(f, "{tried} tried, {differences} differences")
    }
}

impl Report {
    pub fn new(heap: Global) -> Report {
        Report {
            text: String::new(heap),
            tally: Tally::default(),
        }
    }

    pub fn line(&mut self, text: &str) -> Result<(), AllocError>
        ensures { self.new.tally ≡ self.old.tally }
    {
        write!(self.text, "{text}\n")
    }

    // What was tried since an earlier tally.
    pub fn sum_up(&mut self, what: &str, earlier: Tally) -> Result<(), AllocError>
        ensures { self.new.tally ≡ self.old.tally }
    {
        let tally = self.tally.since(earlier);
        write!(self.text, "{what}: {tally}\n")
    }

    // A thing that went wrong, which counts as a difference.
    pub fn fault<D: fmt::Display + Drop>(&mut self, what: D) -> Result<(), AllocError>
        ensures grew { Grew 1 self.old.tally self.new.tally }
        ensures difference { self.new.tally.differences ≡ min (self.old.tally.differences + 1) (2 ^ 64 - 1) }
    {
        self.tally = self.tally.with(false);
        write!(self.text, "  DIFFERENCE: {what}\n")
    }

    // An answer beside the expected one: a line is written only where they differ.
    pub fn expect(
        &mut self,
        what: &str,
        position: usize,
        expected: Asked,
        got: Asked,
    ) -> Result<(), AllocError>
        ensures grew { Grew 1 self.old.tally self.new.tally }
        ensures as_expected { expected ≡ got → self.new.tally.differences ≡ self.old.tally.differences }
        ensures difference { (expected ≢ got) → self.new.tally.differences ≡ min (self.old.tally.differences + 1) (2 ^ 64 - 1) }
    {
        let as_expected = expected == got;
        self.tally = self.tally.with(as_expected);
        if as_expected {
            return Ok(());
        }
        let expected = Written(expected);
        let got = Written(got);
        write!(
            self.text,
            "  DIFFERENCE: {what}, position {position}: {got}, expected {expected}\n"
        )
    }
}

// A report, and the words that are lent for its answers.
#[derive(Drop)]
pub struct Tester {
    pub report: Report,
    pub work: Vec<u32>,
}

impl Tester {
    pub fn ask(&mut self, row: &[u32], position: usize, kinds: u32) -> Asked
        ensures promised { AskedPost row.now position kinds (vec_len self.old.work) result }
        ensures report { self.new.report ≡ self.old.report }
        ensures room { vec_len self.new.work ≡ vec_len self.old.work }
    {
        ask(row, position, kinds, self.work.as_mut_slice())
    }
}
