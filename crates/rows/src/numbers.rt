// Numbers as text, with a blank between them.
ghost use Rattle.std.specs.Prelude.{Some};
ghost use Rattle.rows.specs.Numbers.{numbers_text};

use std::fmt;

#[derive(Clone, Copy)]
pub struct Numbers<'a>(pub &'a [u32]);

impl<'a> fmt::Display for Numbers<'a> {
    ghost output = { λ numbers. Some (numbers_text numbers.0.now) };

    fn fmt<W: fmt::Write>(&self, f: &mut fmt::Formatter<W>) -> fmt::Result {
        let [first, rest @ ..] = self.0 else {
            return Ok(());
        };
        write!(f, "{first}")?;
        for number in rest {
            write!(f, " {number}")?;
        }
        Ok(())
    }
}
