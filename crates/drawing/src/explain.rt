// A mistake is put into words: what stands at its place is looked up in the text.
ghost use Rattle.drawing.specs.Explained.{Explained};

use crate::cursor::Cursor;
use crate::errors::{Expected, Found, Place, Refusal};
use crate::mistakes::Mistake;
use crate::words::Word;
use clockworks::write::Unfit;
use std::alloc::{AllocError, Global};

fn found_word(heap: Global, word: Word) -> Result<Found, AllocError> {
    match word {
        Word::Text(text) => Ok(Found::Text(String::from_str(heap, text)?)),
        Word::Sign(sign) => Ok(Found::Sign(sign)),
        Word::Stray(c) => Ok(Found::Character(c)),
        Word::End => Ok(Found::LineEnd),
    }
}

// The word at a column.
fn found_in_line(heap: Global, line: &str, place: Place) -> Result<Found, AllocError> {
    let mut cursor = Cursor::new(place.line.saturating_sub(1), line);
    while !cursor.at_end() && cursor.place().column < place.column {
        cursor.advance();
    }
    found_word(heap, cursor.word())
}

fn found_at(heap: Global, text: &str, place: Place) -> Result<Found, AllocError> {
    match text.lines().nth(place.line.saturating_sub(1)) {
        Some(line) => found_in_line(heap, line, place),
        None => Ok(Found::TextEnd),
    }
}

pub fn explain(heap: Global, text: &str, mistake: Mistake) -> Refusal
    ensures { Explained mistake result }
{
    match mistake {
        Mistake::Memory => Refusal::Memory,
        Mistake::Word(place, expected) => found_at(heap, text, place).map_or(
            Refusal::Memory,
            |found| Refusal::wrong(place, found, expected),
        ),
        Mistake::Row(place) => Refusal::wrong(place, Found::Unfit(Unfit::Words), Expected::Row),
    }
}
