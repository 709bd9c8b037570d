// How many lent words are enough.
ghost use Rattle.std.specs.Prelude.{◌≡◌, ◌+◌, ◌*◌, ◌≤◌};

use rows::limits::MOST_WORDS;

// The most kinds of states that a drawing is allowed.
pub const KINDS: u32 = 3000;

// What a search asks for: so many words at least, and more for each word of a row and for each kind of states. Not the search's
// own numbers: the test does not ask what it tests how many words are enough.
const AT_LEAST: usize = 65_536;

const FOR_A_WORD: usize = 8;

const FOR_A_KIND: usize = 256;

// Enough for every row with so many kinds.
pub const WORDS: usize = AT_LEAST + FOR_A_WORD * MOST_WORDS + FOR_A_KIND * KINDS as usize;

// How many words a search must be lent.
pub fn enough(row: usize, kinds: u32) -> usize
    ensures { row ≤ 16384 → result ≡ 65536 + 8 * row + 256 * kinds }
{
    row.saturating_mul(FOR_A_WORD)
        .saturating_add(AT_LEAST + FOR_A_KIND * kinds as usize)
}
