// One exploration for all positions: a reply for each.
ghost use Rattle.std.specs.Prelude.{◌≡◌, ℕ, ◌≤◌, List, length};
ghost use Rattle.automata.specs.Automata as automata;
ghost use Rattle.search.specs.Answering.{ExploredIs, TableIs};
ghost use Rattle.c_interface.specs.Exploring.{exploration_of, OutcomeIs, Replied};

use crate::replies::Reply;
use clocks::answers::Asked;
use search::answers::Table;
use search::explores::Unexplored;

// What came of an exploration. Explored: every position has its reply. The others leave all replies as they were. Many: there are more
// kinds of states than allowed. Few: too few words were lent. NoWork: the row is no clockwork's. FewReplies: there are fewer replies than
// positions. positions: how many there are; kinds: there are no more kinds of states than so many.
#[derive(Clone, Copy, Debug, PartialEq, Eq)]
pub enum Outcome {
    Explored { positions: u32, kinds: usize },
    Many { positions: u32 },
    Few,
    NoWork,
    FewReplies { positions: u32 },
}

// The outcome as numbers, which C reads. positions, kinds: 0 where the outcome has none.
#[repr(C)]
#[derive(Clone, Copy)]
pub struct Exploration {
    pub outcome: u32,
    pub positions: u32,
    pub kinds: usize,
}

impl From<Outcome> for Exploration {
    ghost from_gives = { λ outcome exploration. exploration ≡ exploration_of outcome };

    fn from(outcome: Outcome) -> Self {
        let (number, positions, kinds) = match outcome {
            Outcome::Explored { positions, kinds } => (0, positions, kinds),
            Outcome::Many { positions } => (4, positions, 0),
            Outcome::Few => (5, 0, 0),
            Outcome::NoWork => (6, 0, 0),
            Outcome::FewReplies { positions } => (8, positions, 0),
        };
        Exploration {
            outcome: number,
            positions,
            kinds,
        }
    }
}

// Writes for each position what the table tells of it.
fn reply_all(table: &Table<'_>, replies: &mut [Reply])
    requires { table.now.locations ≤ length replies.old }
    ensures { (row : List ℕ) (kinds : ℕ) (a : automata.Automaton) → TableIs row kinds table.now a → Replied a replies.old replies.new }
{
    for position in 0..table.locations() as usize {
        replies[position] = Reply::from(Asked::from(table.told(position)));
    }
}

// What came of an exploration, with a reply for each position.
pub fn settle(explored: Result<Table<'_>, Unexplored>, replies: &mut [Reply]) -> Outcome
    ensures { (row : List ℕ) (kinds lent : ℕ) → ExploredIs row kinds lent explored.entry → OutcomeIs row kinds lent replies.old result replies.new }
{
    match explored {
        Err(Unexplored::Few) => Outcome::Few,
        Err(Unexplored::NoWork) => Outcome::NoWork,
        Err(Unexplored::Many(positions)) if replies.len() < positions as usize => {
            Outcome::FewReplies { positions }
        }
        Err(Unexplored::Many(positions)) => Outcome::Many { positions },
        Ok(table) if replies.len() < table.locations() as usize => Outcome::FewReplies {
            positions: table.locations(),
        },
        Ok(table) => {
            reply_all(&table, replies);
            Outcome::Explored {
                positions: table.locations(),
                kinds: table.len(),
            }
        }
    }
}
