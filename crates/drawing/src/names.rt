// The names of a drawing's clocks and positions, in the order of their numbers.
ghost use Rattle.std.specs.Prelude.{◌≡◌, ◌+◌, ◌<◌, ◌≤◌, length, IfSome, IfOk, vec_len, string_bytes, OnOk};
ghost use Rattle.std.specs.List.{HoldsAt};

use crate::cursor::Cursor;
use crate::errors::Expected;
use crate::mistakes::Mistake;
use rows::limits::{CLOCKS, LOCATIONS};
use std::alloc::Global;

// Lists, and no maps: there are at most 8 and 256 names, and a drawing gives them in the order of their numbers.
#[derive(Drop)]
pub struct Names {
    pub clocks: Vec<String>,
    pub positions: Vec<String>,
}

// What a name is for: how many there may be, and what is expected where another word stands, a name a second time, or one too many.
#[derive(Clone, Copy)]
struct Kind {
    most: usize,
    name: Expected,
    fresh: Expected,
    few: Expected,
}

const OF_CLOCKS: Kind = Kind {
    most: CLOCKS,
    name: Expected::ClockName,
    fresh: Expected::NewClock,
    few: Expected::FewClocks,
};

const OF_POSITIONS: Kind = Kind {
    most: LOCATIONS,
    name: Expected::PositionName,
    fresh: Expected::NewPosition,
    few: Expected::FewPositions,
};

// A word of the language is no name.
fn is_keyword(text: &str) -> bool {
    matches!(text, "clocks" | "position" | "step" | "when" | "reset")
}

// A name begins with a letter or `_`, so that no number is one.
fn is_name(text: &str) -> bool {
    text.starts_with(|c: char| c.is_alphabetic() || c == '_') && !is_keyword(text)
}

// The number of a name.
pub fn find(names: &[String], name: &str) -> Option<u32>
    ensures { IfSome result (λ i. (i < length names.now) × HoldsAt (λ s. string_bytes s ≡ name.now) names.now i) }
{
    let number = names.iter().position(|known| known.as_str() == name)?;
    u32::try_from(number).ok()
}

// The next word is a name that is not there yet, and there is place for it.
fn declare(
    heap: Global,
    names: &mut Vec<String>,
    kind: Kind,
    cursor: &Cursor,
) -> Result<(), Mistake>
    ensures most { OnOk result (vec_len names.new ≤ kind.most) }
    ensures more { OnOk result (vec_len names.new ≡ vec_len names.old + 1) }
{
    if names.len() >= kind.most {
        return Err(cursor.mistake(kind.few));
    }
    let text = cursor
        .text()
        .filter(|text| is_name(text))
        .ok_or(cursor.mistake(kind.name))?;
    if find(names.as_slice(), text).is_some() {
        return Err(cursor.mistake(kind.fresh));
    }
    names.push(String::from_str(heap, text)?)?;
    Ok(())
}

// The names after `clocks`.
fn declare_clocks(
    heap: Global,
    clocks: &mut Vec<String>,
    cursor: &mut Cursor,
) -> Result<(), Mistake>
    ensures { OnOk result (vec_len clocks.new ≤ 8) }
{
    loop {
        declare(heap, clocks, OF_CLOCKS, cursor)?;
        cursor.advance();
        if !cursor.goes_on() {
            return Ok(());
        }
    }
}

// All names of the text, so that a step may go to a position that is named below it.
pub fn declare_all(heap: Global, text: &str) -> Result<Names, Mistake>
    ensures { IfOk result (λ names. (vec_len names.clocks ≤ 8) × (vec_len names.positions ≤ 256)) }
{
    let mut clocks = Vec::new(heap);
    let mut positions = Vec::new(heap);
    for (index, line) in text.lines().enumerate() {
        let mut cursor = Cursor::new(index, line);
        if cursor.take_word("clocks") {
            declare_clocks(heap, &mut clocks, &mut cursor)?;
        } else if cursor.take_word("position") {
            declare(heap, &mut positions, OF_POSITIONS, &cursor)?;
        }
    }
    Ok(Names { clocks, positions })
}
