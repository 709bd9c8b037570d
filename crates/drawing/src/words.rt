// The words of a line of a drawing: names, numbers and signs. Each is cut from the text when it is come to, and is a part of it.
ghost use Rattle.std.specs.Prelude.{◌≡◌, ◌<◌, ◌++◌, length, IfSome};
ghost use Rattle.drawing.specs.Words.{text_of, Cuts};

use crate::errors::Sign;
use clockworks::parts::Relation;

// All signs, each before those that it begins with.
const SIGNS: [Sign; 8] = [
    Sign::Arrow,
    Sign::Relation(Relation::AtMost),
    Sign::Relation(Relation::AtLeast),
    Sign::Relation(Relation::Below),
    Sign::Relation(Relation::Above),
    Sign::Equal,
    Sign::Colon,
    Sign::Comma,
];

// What a text begins with. `Stray` is a character that is part of no word, and `End` the end of the line or the comment there.
#[derive(Clone, Copy)]
pub enum Word<'a> {
    Text(&'a str),
    Sign(Sign),
    Stray(char),
    End,
}

impl Word<'_> {
    // How many columns the word takes.
    pub fn width(&self) -> usize {
        match self {
            Word::Text(text) => text.chars().count(),
            Word::Sign(sign) => sign.text().len(),
            Word::Stray(_) => 1,
            Word::End => 0,
        }
    }
}

// A word and what of the text is past it.
#[derive(Clone, Copy)]
pub struct Cut<'a> {
    pub word: Word<'a>,
    pub rest: &'a str,
}

fn belongs_to_text(c: char) -> bool {
    c.is_alphabetic() || c.is_ascii_digit() || c == '_' || c == '-'
}

// The name or number that a text begins with ends where another character stands, or an arrow, so that no name takes its `-`.
fn text_len(text: &str) -> usize {
    text.char_indices()
        .find(|(at, c)| {
            !belongs_to_text(*c) || text.get(*at..).is_some_and(|rest| rest.starts_with("->"))
        })
        .map_or(text.len(), |(at, _)| at)
}

// The sign that a text begins with, and what is past it.
fn cut_sign(text: &str) -> Option<(Sign, &str)>
    ensures { IfSome result (λ x. text.now ≡ text_of x.0 ++ x.1.now) }
{
    let sign = SIGNS.iter().find(|sign| text.starts_with(sign.text()))?;
    Some((*sign, text.strip_prefix(sign.text())?))
}

// The name or number that a text begins with, and what is past it.
fn cut_text(text: &str) -> Option<(&str, &str)>
    ensures { IfSome result (λ x. (text.now ≡ x.0.now ++ x.1.now) × (0 < length x.0.now)) }
{
    let (name, rest) = text.split_at_checked(text_len(text))?;
    (!name.is_empty()).then_some((name, rest))
}

// The first word of a text that begins with no blank.
pub fn cut_word(text: &str) -> Cut<'_>
    ensures { Cuts text.now result.word result.rest.now }
{
    if let Some((sign, rest)) = cut_sign(text) {
        let word = Word::Sign(sign);
        return Cut { word, rest };
    }
    if let Some((name, rest)) = cut_text(text) {
        let word = Word::Text(name);
        return Cut { word, rest };
    }
    let mut characters = text.chars();
    match characters.next() {
        None | Some('#') => Cut {
            word: Word::End,
            rest: text,
        },
        Some(c) => Cut {
            word: Word::Stray(c),
            rest: characters.as_str(),
        },
    }
}
