// How wide the columns of a run are.
ghost use Rattle.std.specs.Prelude.{◌≡◌};

use rows::limits::CLOCKS;

// How wide each column of a run is, in characters. An array of the most clocks that there may be, since a vector would be no plainer: widths are
// copied and handed on by value, and to make a vector could fail.
#[derive(Clone, Copy, Default)]
pub struct Widths {
    pub moves: usize,
    pub times: usize,
    pub positions: usize,
    pub clocks: [usize; CLOCKS],
}

impl Widths {
    // The widths with no blanks after the last of so many clocks.
    pub fn without_last(self, clocks: usize) -> Widths
        ensures others { (result.moves ≡ self.moves) × (result.times ≡ self.times) × (result.positions ≡ self.positions) }
        ensures without { clocks ≡ 0 → result.clocks ≡ self.clocks }
    {
        let mut widths = self;
        if let Some(last) = clocks.checked_sub(1)
            && let Some(width) = widths.clocks.get_mut(last)
        {
            *width = 0;
        }
        widths
    }
}
