// A reader's place in a line: it takes the next word if that is what may stand there, and else it is a mistake.
ghost use Rattle.std.specs.Prelude.{◌≡◌, ◌<◌, length, true, false, T, Some, MatchResult};
ghost use Rattle.std.specs.Option.{option_map};
ghost use Rattle.drawing.specs.Words.{text_part, sign_part, is_end};
ghost use Rattle.drawing.specs.declared.mistakes.Mistake.TheVariants.{Word as Mistaken};

use crate::errors::{Expected, Place, Sign};
use crate::mistakes::Mistake;
use crate::words::{Cut, Word, cut_word};

// The next word with its place, and what of the line is past it. No `Peekable` of words: its `peek` changes it, also where a mistake is
// only told, and a mistake at the end of the line wants a place too, where there is no word.
#[derive(Drop)]
pub struct Cursor<'a> {
    word: Word<'a>,
    place: Place,
    rest: &'a str,
    // the column at which the rest begins
    column: usize,
}

impl<'a> Cursor<'a> {
    // A cursor at the first word of the line with this index, from 0.
    pub fn new(index: usize, line: &'a str) -> Cursor<'a> {
        let mut cursor = Cursor {
            word: Word::End,
            place: Place {
                line: index.saturating_add(1),
                column: 1,
            },
            rest: line,
            column: 1,
        };
        cursor.advance();
        cursor
    }

    pub fn word(&self) -> Word<'a>
        ensures { result ≡ self.now.word }
    {
        self.word
    }

    pub fn place(&self) -> Place
        ensures { result ≡ self.now.place }
    {
        self.place
    }

    // The next word, if it is a name or a number.
    pub fn text(&self) -> Option<&'a str>
        ensures { option_map (λ x. x.now) result ≡ text_part self.now.word }
    {
        match self.word {
            Word::Text(text) => Some(text),
            _ => None,
        }
    }

    pub fn sign(&self) -> Option<Sign>
        ensures { result ≡ sign_part self.now.word }
    {
        match self.word {
            Word::Sign(sign) => Some(sign),
            _ => None,
        }
    }

    // Goes on to the next word. A blank is one byte.
    pub fn advance(&mut self)
        ensures { is_end self.new.word ≡ false → length self.new.rest.now < length self.old.rest.now }
    {
        let text = self.rest.trim_start_matches([' ', '\t']);
        let blanks = self.rest.len().saturating_sub(text.len());
        let Cut { word, rest } = cut_word(text);
        self.place.column = self.column.saturating_add(blanks);
        self.column = self.place.column.saturating_add(word.width());
        self.word = word;
        self.rest = rest;
    }

    pub fn at_end(&self) -> bool
        ensures { result ≡ is_end self.now.word }
    {
        matches!(self.word, Word::End)
    }

    // Goes on if the word that is asked for is here.
    fn take_if(&mut self, here: bool) -> bool
        ensures here { result ≡ here }
        ensures left { result ≡ false → self.new ≡ self.old }
    {
        if here {
            self.advance();
        }
        here
    }

    // Takes the sign, if it is the next word.
    pub fn take_sign(&mut self, sign: Sign) -> bool
        ensures taken { result ≡ true → sign_part self.old.word ≡ Some sign }
        ensures left { result ≡ false → self.new ≡ self.old }
    {
        let here = self.sign() == Some(sign);
        self.take_if(here)
    }

    // Takes the word of the language, if it is the next word.
    pub fn take_word(&mut self, word: &str) -> bool
        ensures taken { result ≡ true → text_part self.old.word ≡ Some word.now }
        ensures left { result ≡ false → self.new ≡ self.old }
    {
        let here = self.text() == Some(word);
        self.take_if(here)
    }

    // Whether a list goes on, whose parts have blanks between them, and may have a comma.
    pub fn goes_on(&mut self) -> bool
        ensures end { result ≡ false → is_end self.old.word ≡ true }
        ensures left { result ≡ false → self.new ≡ self.old }
    {
        self.take_sign(Sign::Comma) || !self.at_end()
    }

    // Something else was expected here.
    pub fn mistake(&self, expected: Expected) -> Mistake
        ensures { result ≡ Mistaken self.now.place expected }
    {
        Mistake::Word(self.place, expected)
    }

    pub fn expect_end(&self, expected: Expected) -> Result<(), Mistake>
        ensures { MatchResult result (λ _. is_end self.now.word ≡ true) (λ m. m ≡ Mistaken self.now.place expected) }
    {
        if !self.at_end() {
            return Err(self.mistake(expected));
        }
        Ok(())
    }
}
