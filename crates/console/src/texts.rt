// A clockwork's text, as a drawing or as a row of numbers, and why it is refused.
ghost use Rattle.automata.specs.Automata as automata;
ghost use Rattle.automata.specs.Rows.{Reads};
ghost use Rattle.console.specs.Calls.{SourceIs};
ghost use Rattle.console.specs.Clockworks.{IsClockwork};
ghost use Rattle.std.specs.Prelude.{◌≡◌, IfOk, option_map, string_bytes, MatchResult};
ghost use Rattle.drawing.specs.Drawn.{DrawnAs};

use crate::input::Source;
use crate::messages::{Expected, Found, Problem};
use crate::numbers::Mistake;
use crate::{input, numbers};
use clockworks::write::Unfit;
use drawing::Drawing;
use drawing::errors::{Place, Wrong};
use rows::limits::MOST_WORDS;
use rows::reader;
use rows::refusals::Rule;
use rows::views::Automaton;
use std::alloc::{AllocError, Global};

// How a text is written.
#[derive(Clone, Copy)]
pub enum Form {
    Drawing,
    Row,
}

// A text that a call names, and how it is written: standard input where no file is named.
#[derive(Drop)]
pub struct Text {
    pub form: Form,
    pub file: Option<String>,
}

// A word that is shown has at most so many characters.
const MOST_SHOWN: usize = 40;

fn can_be_shown(word: &[u8]) -> bool {
    word.len() <= MOST_SHOWN && word.iter().all(|byte| byte.is_ascii_graphic())
}

fn show_word(heap: Global, word: &[u8]) -> Result<Found, AllocError> {
    if word.is_empty() {
        return Ok(Found::TextEnd);
    }
    match std::str::from_utf8(word) {
        Ok(text) if can_be_shown(word) => Ok(Found::Word(String::from_str(heap, text)?)),
        _ => Ok(Found::Other),
    }
}

// Something else was expected in place of a word, or at the end of the text where there is no such word.
fn refuse(
    heap: Global,
    bytes: &[u8],
    word: usize,
    expected: Expected,
) -> Result<Problem, AllocError> {
    let word = numbers::find_word(bytes, word);
    Ok(Problem::Row(Wrong {
        place: Place::after(bytes, word.start),
        found: show_word(heap, word.text)?,
        expected,
    }))
}

// Why the numbers of a text cannot be read.
fn explain(heap: Global, bytes: &[u8], mistake: Mistake) -> Result<Problem, AllocError> {
    match mistake {
        Mistake::Memory => Ok(Problem::Memory),
        Mistake::NoNumber(word) => refuse(heap, bytes, word, Expected::Number),
        Mistake::TooMany => refuse(heap, bytes, MOST_WORDS, Expected::FewNumbers),
    }
}

// What a rule asks for.
fn expect(rule: Rule, row: &[u32]) -> Expected {
    match rule {
        Rule::TooLong => Expected::FewNumbers,
        Rule::Ends => Expected::MoreNumbers,
        Rule::Clocks => Expected::Clocks,
        Rule::Locations => Expected::Positions,
        Rule::Clock => Expected::Clock {
            clocks: row.first().copied().unwrap_or(0),
        },
        Rule::Relation => Expected::Relation,
        Rule::LowerBound => Expected::UpperRelation,
        Rule::Bound => Expected::Bound,
        Rule::Location => Expected::Position {
            positions: row.get(1).copied().unwrap_or(0),
        },
    }
}

// A row that stands in a text, if it is a clockwork's. It has no names.
fn read_row(heap: Global, bytes: &[u8]) -> Result<Drawing, Problem>
    ensures { IfOk result IsClockwork }
{
    let row = numbers::read(heap, bytes).try_map_err(|mistake| -> Result<Problem, Problem> {
        Ok(explain(heap, bytes, mistake)?)
    })?;
    reader::read(row.as_slice()).try_map_err(|refusal| -> Result<Problem, Problem> {
        let expected = expect(refusal.rule, row.as_slice());
        Ok(refuse(heap, bytes, refusal.word, expected)?)
    })?;
    Ok(Drawing {
        row,
        clocks: Vec::new(heap),
        positions: Vec::new(heap),
    })
}

// The clockwork of a row, if it is one's. What `read` gives always is.
pub fn view(row: &[u32]) -> Result<Automaton<'_>, Problem>
    ensures { MatchResult result (λ view. view.row.now ≡ row.now) (λ _. (a : automata.Automaton) → Reads row.now a → ⊥) }
{
    reader::read(row).map_err(|_| Problem::Unfit(Unfit::Other))
}

// The row of the clockwork that a text is of, with the names of its clocks and positions.
pub fn read(heap: Global, form: Form, bytes: &[u8]) -> Result<Drawing, Problem>
    ensures { IfOk result IsClockwork }
{
    match form {
        Form::Row => read_row(heap, bytes),
        Form::Drawing => Ok(drawing::read(heap, bytes)?),
    }
}

impl Text {
    pub fn source(&self) -> Source<'_>
        ensures { SourceIs (option_map string_bytes self.now.file) result }
    {
        Source::of(self.file.as_ref().map(|name| name.as_str()))
    }

    // The clockwork of the text, which is let go of.
    pub fn read(&self, rt: &HostRuntime) -> Result<Drawing, Problem>
        ensures { IfOk result IsClockwork }
    {
        let bytes = input::read(rt, self.source())?;
        read(rt.alloc(), self.form, bytes.as_slice())
    }
}

// The drawing of a row.
pub fn draw(heap: Global, row: &[u32]) -> Result<String, Problem>
    ensures { IfOk result (λ text. DrawnAs row.now (string_bytes text)) }
{
    Ok(drawing::draw(heap, row)?)
}
