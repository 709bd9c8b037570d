// A run as text: a line for each wait and each step.
ghost use Rattle.std.specs.Prelude.{◌≡◌, ℕ, min, List, ◌++◌, length, IfOk, string_bytes, codes, OnOk};
ghost use Rattle.rows.specs.Views.{automaton_value};
ghost use Rattle.clockworks.specs.Meaning.{Adds};
ghost use Rattle.replay.specs.declared.moments.Moment as moments;
ghost use Rattle.replay.specs.Fractions.{Lowest};
ghost use Rattle.accounts.specs.Lines.{PartsText, name_of, MoveText, ClocksText, LineText, Lines, Account};
ghost use Rattle.accounts.specs.Walks.{Walked};

use crate::names::{Names, name_of};
use crate::widths::Widths;
use columns::{Padded, count_columns};
use replay::fractions::Fraction;
use replay::moments::{Fault, Moment, Move};
use replay::runs::{advance, begin};
use rows::views::Automaton;
use std::alloc::{AllocError, Global};
use thiserror::Error;

// Why a run is not told.
#[derive(Clone, Copy, Debug, PartialEq, Eq, Error)]
pub enum Untold {
    #[error("not enough memory")]
    Memory(#[from(alloc)] AllocError),
    #[error("the moves are no run of the automaton")]
    NoRun(Fault),
}

// By hand, since by thiserror it would be no plainer: `#[from]` asks that `Fault` be an error itself, which would have a text for each of its
// variants that no user is shown, for this one function.
impl From<Fault> for Untold {
    fn from(fault: Fault) -> Untold {
        Untold::NoRun(fault)
    }
}

// A column is at most so wide; a wider cell stands out of it, so that one does not make all lines long.
const MOST_COLUMNS: usize = 40;

// The width of a column with one more cell.
fn wider(width: usize, cell: &str) -> usize {
    width.max(count_columns(cell).min(MOST_COLUMNS))
}

// What the lines of a run are told by.
#[derive(Clone, Copy)]
struct Teller<'a> {
    heap: Global,
    automaton: Automaton<'a>,
    names: Names<'a>,
    denominator: u64,
}

impl<'a> Teller<'a> {
    // The name of a moment's position.
    fn position(&self, moment: &Moment) -> &'a str
        ensures { result.now ≡ name_of string_bytes self.now.names.positions.now moment.now.location.0 }
    {
        name_of(self.names.positions, moment.location.0 as usize)
    }

    // So many parts of a unit, in lowest terms.
    fn fraction(&self, parts: u64) -> Fraction
        ensures { Lowest parts self.now.denominator result.numerator result.denominator }
    {
        Fraction::lowest(parts, self.denominator)
    }

    // `wait 5/3` or `step 0`.
    fn move_cell(&self, by: Move) -> Result<String, AllocError>
        ensures { IfOk result (λ cell. MoveText self.now.denominator by (string_bytes cell)) }
    {
        match by {
            Move::Wait(parts) => {
                let delay = self.fraction(parts);
                format!(in self.heap; "wait {delay}")
            }
            Move::Step(number) => format!(in self.heap; "step {number}"),
        }
    }

    // `at 5/3`.
    fn time_cell(&self, time: u64) -> Result<String, AllocError>
        ensures { IfOk result (λ cell. (words : List ℕ) × PartsText self.now.denominator time words × (string_bytes cell ≡ codes "at " ++ words)) }
    {
        let time = self.fraction(time);
        format!(in self.heap; "at {time}")
    }

    // `x = 1/3`.
    fn clock_cell(&self, name: &str, value: u64) -> Result<String, AllocError>
        ensures { IfOk result (λ cell. (words : List ℕ) × PartsText self.now.denominator value words × (string_bytes cell ≡ (name.now ++ codes " = ") ++ words)) }
    {
        let value = self.fraction(value);
        format!(in self.heap; "{name} = {value}")
    }

    // The widths of columns with one more line.
    fn widths_with(&self, widths: Widths, by: Move, after: &Moment) -> Result<Widths, AllocError> {
        let mut clocks = widths.clocks;
        let cells = self.names.clocks.iter().zip(after.clocks.iter());
        for (width, (name, value)) in clocks.iter_mut().zip(cells) {
            let cell = self.clock_cell(name.as_str(), *value)?;
            *width = wider(*width, cell.as_str());
        }
        let moved = self.move_cell(by)?;
        let time = self.time_cell(after.time)?;
        Ok(Widths {
            moves: wider(widths.moves, moved.as_str()),
            times: wider(widths.times, time.as_str()),
            positions: wider(widths.positions, self.position(after)),
            clocks,
        })
    }

    // Goes through a run. What is done after a move goes on from what was done after the one before.
    fn walk<S: Drop, F: Fn(S, Move, Moment) -> Result<S, AllocError>>(
        &self,
        moves: &[Move],
        first: S,
        then: F,
    ) -> Result<S, Untold>
        requires { F.IsAlwaysCallable then }
        ensures { IfOk result (λ last. (m : moments.Moment) × Walked (automaton_value self.now.automaton) self.now.denominator (F.post then) first moves.now m last) }
    {
        let mut moment = begin(&self.automaton)?;
        let mut so_far = first;
        for next in moves {
            moment = advance(&self.automaton, self.denominator, &moment, *next)?;
            so_far = then(so_far, *next, moment)?;
        }
        Ok(so_far)
    }

    // The widths of the columns of a run.
    fn measure(&self, moves: &[Move]) -> Result<Widths, Untold> {
        let widths = self.walk(moves, Widths::default(), |widths, by, after| {
            self.widths_with(widths, by, &after)
        })?;
        Ok(widths.without_last(self.names.clocks.len()))
    }

    // The cells of the clocks.
    fn write_clocks(
        &self,
        text: &mut String,
        widths: &Widths,
        moment: &Moment,
    ) -> Result<(), AllocError>
        ensures { OnOk result ((words : List ℕ) × ClocksText string_bytes self.now.names.clocks.now widths.now self.now.denominator moment.now (min (length self.now.names.clocks.now) 8) words × Adds (string_bytes text.old) words (string_bytes text.new)) }
    {
        let cells = moment.clocks.iter().zip(widths.clocks.iter());
        for (name, (value, width)) in self.names.clocks.iter().zip(cells) {
            let cell = self.clock_cell(name.as_str(), *value)?;
            let cell = Padded {
                text: cell.as_str(),
                width: *width,
            };
            write!(text, "  {cell}")?;
        }
        Ok(())
    }

    // The text with one more line: a move, and the time, the position and the clocks after it.
    fn with_line(
        &self,
        mut text: String,
        widths: &Widths,
        by: Move,
        after: &Moment,
    ) -> Result<String, AllocError>
        ensures { IfOk result (λ longer. (line : List ℕ) × LineText string_bytes self.now.names.clocks.now self.now.names.positions.now widths.now self.now.denominator by after.now line × Adds (string_bytes text) line (string_bytes longer)) }
    {
        let moved = self.move_cell(by)?;
        let time = self.time_cell(after.time)?;
        let moved = Padded {
            text: moved.as_str(),
            width: widths.moves,
        };
        let time = Padded {
            text: time.as_str(),
            width: widths.times,
        };
        let position = Padded {
            text: self.position(after),
            width: widths.positions,
        };
        write!(text, "{moved}  {time}  {position}")?;
        self.write_clocks(&mut text, widths, after)?;
        write!(text, "\n")?;
        Ok(text)
    }

    // The lines of a run in columns.
    fn write_lines(&self, widths: &Widths, moves: &[Move]) -> Result<String, Untold>
        ensures { IfOk result (λ text. (m : moments.Moment) × Lines (automaton_value self.now.automaton) string_bytes self.now.names.clocks.now self.now.names.positions.now widths.now self.now.denominator moves.now m (string_bytes text)) }
    {
        self.walk(moves, String::new(self.heap), |text, by, after| {
            self.with_line(text, widths, by, &after)
        })
    }
}

// The lines of a run, of which each move is gone through again. The denominator and the moves apart, as `replay` takes them: a struct would be no
// plainer, since the one that has them, `Run`, is of `realise`, on which this crate does not stand.
pub fn write_run(
    heap: Global,
    automaton: &Automaton,
    names: Names<'_>,
    denominator: u64,
    moves: &[Move],
) -> Result<String, Untold>
    ensures { IfOk result (λ text. Account (automaton_value automaton.now) string_bytes names.entry.clocks.now names.entry.positions.now denominator moves.now (string_bytes text)) }
{
    let teller = Teller {
        heap,
        automaton: *automaton,
        names,
        denominator,
    };
    let widths = teller.measure(moves)?;
    teller.write_lines(&widths, moves)
}
