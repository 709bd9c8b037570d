// Answers as text: `at 5`, `after 2`, `never`, and lines with a name and an answer in columns.
ghost use Rattle.std.specs.Prelude.{Some, OnOk};
ghost use Rattle.clockworks.specs.Meaning.{AddsText};
ghost use Rattle.console.specs.Answers.{answer_text, line_text};

use clocks::answers::Asked;
use columns::Padded;
use std::alloc::AllocError;
use std::fmt;

// An answer, where so many kinds of states were allowed.
#[derive(Clone, Copy)]
pub struct Answer {
    pub asked: Asked,
    pub kinds: u32,
}

impl fmt::Display for Answer {
    ghost output = { λ answer. Some (answer_text answer.kinds answer.asked) };

    fn fmt<W: fmt::Write>(&self, f: &mut fmt::Formatter<W>) -> fmt::Result {
        let kinds = self.kinds;
        match self.asked {
            Asked::At(time) => write!(f, "at {time}"),
            Asked::After(time) => write!(f, "after {time}"),
            Asked::Never => f.write_str("never"),
            Asked::Many => write!(f, "many: more than {kinds} kinds of states"),
            Asked::NoWork => f.write_str("no clockwork"),
            Asked::NoPlace => f.write_str("no such position"),
            Asked::Few => f.write_str("too few words"),
        }
    }
}

// A line: the name, blanks up to the width of its column and two more, and the answer. A longer name is not cut.
#[derive(Clone, Copy)]
pub struct Line<'a> {
    pub name: &'a str,
    pub width: usize,
    pub answer: Answer,
}

impl<'a> fmt::Display for Line<'a> {
    ghost output = { λ line. Some (line_text line.answer.kinds line.width line.name.now line.answer.asked) };

    fn fmt<W: fmt::Write>(&self, f: &mut fmt::Formatter<W>) -> fmt::Result {
        let answer = self.answer;
        let name = Padded {
            text: self.name,
            width: self.width,
        };
        write!(f, "{name}  {answer}\n")
    }
}

// What an answer says.
pub fn write_answer(text: &mut String, answer: Answer) -> Result<(), AllocError>
    ensures { OnOk result (AddsText text.old (answer_text answer.kinds answer.asked) text.new) }
{
    write!(text, "{answer}")
}

// A line. Of its own beside `write_answer`, as each says in its clause what text it adds.
pub fn write_line(text: &mut String, line: Line<'_>) -> Result<(), AllocError>
    ensures { OnOk result (AddsText text.old (line_text line.entry.answer.kinds line.entry.width line.entry.name.now line.entry.answer.asked) text.new) }
{
    write!(text, "{line}")
}
