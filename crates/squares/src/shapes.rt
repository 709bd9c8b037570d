// The square of a region: the bounds that its states keep, and no others do.
ghost use Rattle.std.specs.Prelude.{◌≡◌, ℕ, ◌<◌, T, ◌↔◌};
ghost use Rattle.cells.specs.Meaning.{cell_of, region_value};
ghost use Rattle.squares.specs.Entries.{Consistent, cell_at, between, bound_at};
ghost use Rattle.squares.specs.Shown.{Squared};

use crate::bounds::Bound;
use crate::squares::{SIDE, Square};
use cells::frames::Frame;
use cells::values::{Cell, Region};
use rows::limits::{CLOCKS, MOST_BOUND};
use std::array;

// Whether a clock can have the cell.
fn is_consistent(cell: Cell, frame: Frame) -> bool
    ensures { T result ↔ Consistent frame.top cell }
{
    if cell.is_inside(frame) {
        (cell.rank == 0) == (cell.height % 2 == 0)
    } else {
        cell.height == 2 * frame.top + 1
    }
}

fn has_consistent_cells(region: &Region, frame: Frame) -> bool
    ensures { T result ↔ ((i : ℕ) → i < frame.clocks → Consistent frame.top (cell_of region.now i)) }
{
    region.cells[..frame.clocks]
        .iter()
        .all(|cell| is_consistent(*cell, frame))
}

// The cell at an index of a square: nought has the cell of a clock that is 0.
fn cell_at(region: &Region, index: usize) -> Cell
    ensures { result ≡ cell_at region.now index }
{
    index
        .checked_sub(1)
        .and_then(|clock| region.cells.get(clock))
        .copied()
        .unwrap_or(Cell::ZERO)
}

// The bound on a clock of the first cell less one of the second.
fn bound_between(first: Cell, second: Cell, frame: Frame) -> Bound
    ensures { result ≡ between frame.top first second }
{
    if !first.is_inside(frame) {
        return Bound::Unbounded;
    }
    let whole = (first.height / 2) as i32;
    if !second.is_inside(frame) {
        let most = if first.rank > 0 { whole + 1 } else { whole };
        return Bound::UpTo {
            number: most - frame.top as i32,
            below: true,
        };
    }
    let number = whole - (second.height / 2) as i32;
    if first.rank > second.rank {
        Bound::UpTo {
            number: number + 1,
            below: true,
        }
    } else {
        Bound::UpTo {
            number,
            below: first.rank < second.rank,
        }
    }
}

// The bound on the value at an index less that at another: a clock less itself is 0.
fn bound_on(region: &Region, i: usize, j: usize, frame: Frame) -> Bound
    ensures { result ≡ bound_at frame.top region.now i j }
{
    if i == j {
        Bound::UpTo {
            number: 0,
            below: false,
        }
    } else {
        bound_between(cell_at(region, i), cell_at(region, j), frame)
    }
}

// The bounds that the states of a region keep, as sharp as they can be. A clock beyond the top is bounded from below only, so
// that it is unbounded less any other. None where there are too many clocks, the top is too high, or no state shows the
// region. Clocks and top, and no `Frame`, by a rule of the project: a type may not ask more of callers, and a `Frame` has few clocks and a low top.
pub fn of_region(region: &Region, clocks: usize, top: u32) -> Option<Square>
    ensures { Squared clocks top (region_value region.now) result }
{
    if clocks > CLOCKS || top > MOST_BOUND {
        return None;
    }
    let frame = Frame { clocks, top };
    if !has_consistent_cells(region, frame) {
        return None;
    }
    let bounds = array::from_fn(|place| bound_on(region, place / SIDE, place % SIDE, frame));
    Some(Square { bounds })
}
