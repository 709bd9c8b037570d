// What C calls. A slice crosses as a pointer and a length.
ghost use Rattle.std.specs.Prelude.{◌≡◌, length};
ghost use Rattle.clocks.specs.Asked.{OneAnswer};
ghost use Rattle.c_interface.specs.Exploring.{AllReplied, OneExploration};
ghost use Rattle.c_interface.specs.Replies.{RepliedTo, OneReply};
ghost use Rattle.c_interface.specs.Words.{WordsAre};

use crate::exploring::{Exploration, settle};
use crate::replies::Reply;
use clocks::answers::ask;
use search::explores::{explore, words_needed};

// How many words must be lent for a row of so many words, where so many kinds are allowed; 0 where the number has no place.
#[unsafe(no_mangle)]
pub extern "C" fn pushkhami_words(row: usize, kinds: u32) -> usize
    ensures { WordsAre row kinds result }
{
    words_needed(row, kinds).unwrap_or(0)
}

// When a position can be come to.
#[unsafe(no_mangle)]
pub extern "C" fn pushkhami_ask(
    clockwork: &[u32],
    position: usize,
    kinds: u32,
    work: &mut [u32],
) -> Reply
    ensures replied { RepliedTo clockwork.now position kinds (length work.old) result }
    ensures one_answer { OneAnswer }
    ensures one_reply { OneReply }
{
    Reply::from(ask(clockwork, position, kinds, work))
}

// When each position can be come to, by one exploration.
#[unsafe(no_mangle)]
pub extern "C" fn pushkhami_explore(
    clockwork: &[u32],
    kinds: u32,
    work: &mut [u32],
    replies: &mut [Reply],
) -> Exploration
    ensures replied { AllReplied clockwork.now kinds (length work.old) replies.old result replies.new }
    ensures one_exploration { OneExploration }
{
    Exploration::from(settle(explore(clockwork, kinds, work), replies))
}
