// Whether one word is nearly another, so that what was mistyped is told with what was meant.
ghost use Rattle.std.specs.Prelude.{◌≡◌, ℕ, ◌<◌, ◌≤◌, length, drop, IfOk, Decides, ◌≢◌, slice_index, map, option_map};
ghost use Rattle.std.specs.Str.{chars};
ghost use Rattle.console.specs.Nearness.{Nearly, NearestIs, OneChange, StartChange, Swapped};

use std::alloc::{AllocError, Global};
use std::convert::AsStr;

// How many characters both begin with.
fn common_start(a: &[char], b: &[char]) -> usize
    ensures within { (result ≤ length a.now) × (result ≤ length b.now) }
    ensures before { (k : ℕ) → k < result → slice_index a.now k ≡ slice_index b.now k }
    ensures differ { result < length a.now → result < length b.now → slice_index a.now result ≢ slice_index b.now result }
{
    a.iter()
        .zip(b)
        .position(|(x, y)| x != y)
        .unwrap_or(a.len().min(b.len()))
}

fn rest(word: &[char]) -> &[char]
    ensures { result.now ≡ drop 1 word.now }
{
    match word {
        [_, rest @ ..] => rest,
        [] => word,
    }
}

// Whether the first two characters of both are the same in the other order, and what follows is the same.
fn is_swapped(a: &[char], b: &[char]) -> bool
    ensures { Decides result (Swapped a.now b.now) }
{
    let [a_first, a_second, a_rest @ ..] = a else {
        return false;
    };
    let [b_first, b_second, b_rest @ ..] = b else {
        return false;
    };
    a_first == b_second && a_second == b_first && a_rest == b_rest
}

// Whether the first character was changed, left out or put in, or swapped with the second, or nothing is different.
fn differs_at_start(a: &[char], b: &[char]) -> bool
    ensures { Decides result (StartChange a.now b.now) }
{
    rest(a) == rest(b) || rest(a) == b || a == rest(b) || is_swapped(a, b)
}

// Whether one character was changed, left out or put in, or two neighbours swapped, or nothing is different. By hand: `osa_distance` of strsim
// promises a number of a table of all starts of both words, and `OneChange` names the one place; it would be no plainer with both.
fn differs_once(a: &[char], b: &[char]) -> bool
    ensures { Decides result (OneChange a.now b.now) }
{
    let start = common_start(a, b);
    differs_at_start(&a[start..], &b[start..])
}

fn characters(heap: Global, word: &str) -> Result<Vec<char>, AllocError>
    ensures { IfOk result (λ all. all.items ≡ chars word.now) }
{
    word.chars().collect(heap)
}

// Whether two words are equal but for the case of A to Z, or one character was changed, left out or put in, or two neighbours swapped.
pub fn is_nearly(heap: Global, a: &str, b: &str) -> Result<bool, AllocError>
    ensures { IfOk result (λ near. Decides near (Nearly a.now b.now)) }
{
    if a.eq_ignore_ascii_case(b) {
        return Ok(true);
    }
    let first = characters(heap, a)?;
    let second = characters(heap, b)?;
    Ok(differs_once(first.as_slice(), second.as_slice()))
}

// The first of some words that is nearly a word.
pub(crate) fn nearest<'a, S: AsStr>(
    heap: Global,
    words: &'a [S],
    word: &str,
) -> Result<Option<&'a S>, AllocError>
    ensures { IfOk result (λ found. NearestIs (map S.text words.now) word.now (option_map (λ w. S.text w.now) found)) }
{
    for candidate in words {
        if is_nearly(heap, candidate.as_str(), word)? {
            return Ok(Some(candidate));
        }
    }
    Ok(None)
}
