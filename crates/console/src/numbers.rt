// A row of numbers as text: decimal numbers with white space between them, and the place of each.
ghost use Rattle.std.specs.Prelude.{◌≡◌, ◌+◌, ◌-◌, ◌≤◌, not, ◌++◌, length, position, IfOk, string_bytes, codes, MatchResult};
ghost use Rattle.std.specs.Bool.{beq};
ghost use Rattle.console.specs.Numbers.{digit_pushed, number_of};
ghost use Rattle.console.specs.declared.numbers.Mistake.TheVariants.{Memory};
ghost use Rattle.console.specs.Rows.{blank as isBlankByte, FirstBlank, RowIs, RowRefused};
ghost use Rattle.rows.specs.Numbers.{numbers_text};

use crate::messages::Problem;
use rows::limits::MOST_WORDS;
use rows::numbers::Numbers;
use std::alloc::{AllocFailed, Global};

// Why a text is no row of numbers. Words are counted from 0. No Display: it is told with what stands there, as a `Wrong`.
#[derive(Debug, Clone, Copy)]
pub enum Mistake {
    Memory,
    NoNumber(usize),
    TooMany,
}

// A word of a text, and the place at which it begins.
#[derive(Clone, Copy)]
pub(crate) struct Word<'a> {
    pub start: usize,
    pub text: &'a [u8],
}

// The words of a text from a place on. Not what is left of it: each word tells where it begins.
#[derive(Clone, Copy)]
struct Words<'a> {
    bytes: &'a [u8],
    at: usize,
}

// By hand: a derive has no clause to say that it is `Memory`.
impl<T: Drop> From<AllocFailed<T>> for Mistake {
    ghost from_gives = { λ _ mistake. mistake ≡ Memory };

    fn from(_e: AllocFailed<T>) -> Mistake {
        Mistake::Memory
    }
}

// `is_ascii_whitespace` leaves out the vertical tab.
fn is_blank(byte: u8) -> bool
    ensures { result ≡ isBlankByte byte }
{
    matches!(byte, b' ' | b'\t'..=b'\r')
}

// Where white space stands first, or else where there is none.
fn first_blank(bytes: &[u8], blank: bool) -> Option<usize>
    ensures { result ≡ position (λ byte. beq (isBlankByte byte) blank) bytes.now }
{
    bytes.iter().position(|byte| is_blank(*byte) == blank)
}

// The first place from `at` on where white space stands, or else where there is none; or else the end.
fn find_blank(bytes: &[u8], at: usize, blank: bool) -> usize
    requires { at ≤ length bytes.now }
    ensures { FirstBlank bytes.now at blank (not blank) result }
{
    let rest = &bytes[at..];
    at + first_blank(rest, blank).unwrap_or(rest.len())
}

impl<'a> Iterator for Words<'a> {
    ghost use Rattle.std.specs.Iterator.{at_most};
    ghost use Rattle.console.specs.Rows.{GivesWord};

    type Item = Word<'a>;

    ghost can_next = { λ s. s.at ≤ length s.bytes.now };

    ghost next_gives = { GivesWord };

    ghost remaining = { λ s. at_most (length s.bytes.now - s.at) };

    fn next(&mut self) -> Option<Word<'a>> {
        let start = find_blank(self.bytes, self.at, false);
        if start == self.bytes.len() {
            return None;
        }
        let stop = find_blank(self.bytes, start, true);
        self.at = stop;
        Some(Word {
            start,
            text: &self.bytes[start..stop],
        })
    }
}

// One digit more, if the number still fits.
fn push_digit(number: u32, byte: u8) -> Option<u32>
    ensures { result ≡ digit_pushed number byte }
{
    if !byte.is_ascii_digit() {
        return None;
    }
    number.checked_mul(10)?.checked_add(u32::from(byte - b'0'))
}

// The number that a word of digits writes, if it is one and fits. In one walk: the library's `parse` asks for text first, and takes a plus.
pub fn parse(word: &[u8]) -> Option<u32>
    ensures { result ≡ number_of word.now }
{
    if word.is_empty() {
        return None;
    }
    word.iter()
        .try_fold(0, |number, byte| push_digit(number, *byte))
}

// The numbers of the text.
pub fn read(heap: Global, bytes: &[u8]) -> Result<Vec<u32>, Mistake>
    ensures { MatchResult result (λ row. RowIs bytes.now row.items) (λ mistake. RowRefused bytes.now mistake) }
{
    let mut numbers = Vec::new(heap);
    for word in (Words { bytes, at: 0 }) {
        if numbers.len() == MOST_WORDS {
            return Err(Mistake::TooMany);
        }
        let number = parse(word.text).ok_or(Mistake::NoNumber(numbers.len()))?;
        numbers.push(number)?;
    }
    Ok(numbers)
}

// A word of a text: an empty one at the end of the text where there is no such word.
pub(crate) fn find_word(bytes: &[u8], word: usize) -> Word<'_>
    ensures { result.start + length result.text.now ≤ length bytes.now }
{
    (Words { bytes, at: 0 }).nth(word).unwrap_or(Word {
        start: bytes.len(),
        text: &[],
    })
}

// The row as text, which is one line.
pub fn write(heap: Global, row: &[u32]) -> Result<String, Problem>
    ensures { IfOk result (λ text. string_bytes text ≡ numbers_text row.now ++ codes "\n") }
{
    Ok(format!(in heap; "{}\n", Numbers(row))?)
}
