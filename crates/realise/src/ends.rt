// The region in which a run ends.
ghost use Rattle.std.specs.Prelude.{◌≡◌, ◌/◌, ◌%◌, ◌≤◌, length, IfOk};
ghost use Rattle.cells.specs.Meaning.{region_value};
ghost use Rattle.realise.specs.Ends.{point_at, height_of, told_cell, RestsOf, ShownBy};

use crate::places::Places;
use cells::frames::Frame;
use cells::values::{Cell, Region};
use replay::moments::Moment;
use std::alloc::{AllocError, Global};
use std::array;

// The height of a clock of so many d-ths.
fn height_of(value: u64, denominator: u64, frame: Frame) -> u32
    requires { 1 ≤ denominator }
    ensures { result ≡ height_of frame.top denominator value }
{
    let left = value % denominator != 0;
    let height = 2 * (value / denominator) as u128 + u128::from(left);
    height.min(2 * frame.top as u128 + 1) as u32
}

// The cell of a clock of so many d-ths, by the places of what is left over of all clocks that are not beyond the top.
fn cell_of(value: u64, denominator: u64, frame: Frame, rests: &Places) -> Cell
    requires some { 1 ≤ denominator }
    requires few { length rests.now.numbers.items ≤ 9 }
    ensures { result ≡ told_cell frame.top denominator rests.now.numbers.items value }
{
    let height = height_of(value, denominator, frame);
    let cell = Cell { height, rank: 0 };
    if !cell.is_inside(frame) {
        return cell;
    }
    let rank = rests.place(value % denominator) as u32;
    Cell { rank, ..cell }
}

// What is left over of all clocks that are not beyond the top, and 0.
fn rests_of(
    heap: Global,
    end: &Moment,
    denominator: u64,
    frame: Frame,
) -> Result<Places, AllocError>
    requires { 1 ≤ denominator }
    ensures { IfOk result (λ rests. RestsOf frame.clocks frame.top (point_at denominator end.now) rests.numbers.items) }
{
    let mut rests = vec![in heap; 0u64]?;
    for value in &end.clocks[..frame.clocks] {
        let height = height_of(*value, denominator, frame);
        if height <= 2 * frame.top {
            rests.push(*value % denominator)?;
        }
    }
    Ok(Places::of(rests))
}

// The region that is shown at a moment, over a denominator.
pub fn region_at(
    heap: Global,
    end: &Moment,
    denominator: u64,
    frame: Frame,
) -> Result<Region, AllocError>
    requires { 1 ≤ denominator }
    ensures { IfOk result (λ region. ShownBy frame.clocks frame.top (point_at denominator end.now) (region_value region)) }
{
    let rests = rests_of(heap, end, denominator, frame)?;
    Ok(Region {
        location: end.location,
        cells: array::from_fn(|clock| cell_of(end.clocks[clock], denominator, frame, &rests)),
    })
}
