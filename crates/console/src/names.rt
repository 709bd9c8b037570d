// What clocks and positions are called.
ghost use Rattle.std.specs.Prelude.{map, Some, string_bytes};
ghost use Rattle.console.specs.Names.{called_text};

use std::fmt;

// The name of a clock or position; some letters and its number where it has none.
#[derive(Clone, Copy)]
pub struct Name<'a> {
    pub known: &'a [String],
    pub letters: &'a str,
    pub number: usize,
}

impl<'a> fmt::Display for Name<'a> {
    ghost output = { λ name. Some (called_text (map string_bytes name.known.now) name.letters.now name.number) };

    fn fmt<W: fmt::Write>(&self, f: &mut fmt::Formatter<W>) -> fmt::Result {
        match self.known.get(self.number) {
            Some(name) => f.write_str(name.as_str()),
            None => write!(f, "{}{}", self.letters, self.number),
        }
    }
}
