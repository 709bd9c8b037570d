// All buffers of a program together have at most 4 MiB: how they are shared out, and how many kinds of states that allows.
ghost use Rattle.std.specs.Prelude.{◌≡◌, ◌-◌, ◌^◌, min, vec_len, MatchResult};
ghost use Rattle.search.specs.Answering.{needed};
ghost use Rattle.console.specs.Budget.{Suffices, KindsFit, WordsRefused};

use crate::messages::Problem;
use search::explores::{WORDS, WORDS_FOR_A_KIND, WORDS_FOR_A_WORD};
use std::alloc::Global;

pub const ALL_BYTES: usize = 4 * 1024 * 1024;

pub const TEXT_BYTES: usize = 256 * 1024;

// Room for the text, its row, the names and the output. What reading a drawing takes is given back before the search begins.
const OTHER_BYTES: usize = 768 * 1024;

const BYTES_OF_A_WORD: usize = 4;

// The words that are lent to the search have the rest.
pub const WORK_WORDS: usize = (ALL_BYTES - OTHER_BYTES) / BYTES_OF_A_WORD;

// The words that a search for so many kinds needs, with a row of so many words. By a sum that is cut off, and not `words_needed`: what
// has no place is refused like what is too much.
fn words_for(row: usize, kinds: u32) -> usize
    ensures { result ≡ min (needed row kinds) (2 ^ 64 - 1) }
{
    row.saturating_mul(WORDS_FOR_A_WORD)
        .saturating_add(WORDS + WORDS_FOR_A_KIND * kinds as usize)
}

// The greatest number of kinds that the work words suffice for, with a row of so many words: 0 where they suffice for none.
pub fn kinds_that_fit(row: usize) -> u32
    ensures { KindsFit row result }
{
    (WORK_WORDS.saturating_sub(words_for(row, 0)) / WORDS_FOR_A_KIND) as u32
}

// Just the words that a search for so many kinds needs. Refused where these are more than there are.
pub fn lend_words(heap: Global, row: usize, kinds: u32) -> Result<Vec<u32>, Problem>
    ensures { MatchResult result (λ words. (vec_len words ≡ needed row kinds) × Suffices row kinds) (λ problem. WordsRefused row kinds problem) }
{
    let words = words_for(row, kinds);
    if words > WORK_WORDS {
        return Err(Problem::Kinds {
            asked: kinds,
            fit: kinds_that_fit(row),
        });
    }
    Ok(vec![in heap; 0; words]?)
}
