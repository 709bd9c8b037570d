// The call that answers where one of the two searches can: through zones, and where they do not fit, through regions.
ghost use Rattle.std.specs.Prelude.{T, ◌↔◌, ◌≤◌, length};
ghost use Rattle.search.specs.Answering.{needed};
ghost use Rattle.answers.specs.Either.{AnsweredPost};

use crate::by_zones::{AskedByZones, ask_by_zones};
use clocks::answers::{Asked, ask};
use search::explores::words_needed;

// Whether so many words suffice for a search through regions.
fn suffices(row: usize, kinds: u32, words: usize) -> bool
    ensures { T result ↔ (needed row kinds ≤ words) }
{
    words_needed(row, kinds).is_some_and(|needed| needed <= words)
}

// When a position of a clockwork can be come to. Many only where the zones do not fit, and there are more kinds of states than allowed. The lent
// words may hold anything.
pub fn answer(clockwork: &[u32], position: usize, kinds: u32, work: &mut [u32]) -> Asked
    ensures { AnsweredPost clockwork.now position kinds (length work.old) result }
{
    if !suffices(clockwork.len(), kinds, work.len()) {
        return Asked::Few;
    }
    match ask_by_zones(clockwork, position, work) {
        AskedByZones::At(time) => Asked::At(time),
        AskedByZones::After(time) => Asked::After(time),
        AskedByZones::Never => Asked::Never,
        AskedByZones::NoWork => Asked::NoWork,
        AskedByZones::NoPlace => Asked::NoPlace,
        AskedByZones::Full => ask(clockwork, position, kinds, work),
    }
}
