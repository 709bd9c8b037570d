// Texts in columns: how wide a text is, and a text with blanks behind it.
#![tactic(auto)]

ghost use Rattle.std.specs.Prelude.{◌≡◌, Some};
ghost use Rattle.columns.specs.Columns.{columns, padded};

use std::fmt;

// How many columns a text takes: one for each character.
pub fn count_columns(text: &str) -> usize
    ensures { result ≡ columns text.now }
{
    text.chars().count()
}

// A text, and blanks behind it up to a width. A wider text is not cut.
#[derive(Clone, Copy)]
pub struct Padded<'a> {
    pub text: &'a str,
    pub width: usize,
}

impl<'a> fmt::Display for Padded<'a> {
    ghost output = { λ cell. Some (padded cell.width cell.text.now) };

    fn fmt<W: fmt::Write>(&self, f: &mut fmt::Formatter<W>) -> fmt::Result {
        let text = self.text;
        let width = self.width;
        write!(f, "{text:width$}")
    }
}
