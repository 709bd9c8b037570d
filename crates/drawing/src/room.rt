// How many numbers may still come in the row of a clockwork whose parts are being read.
ghost use Rattle.std.specs.Prelude.{◌≡◌, ◌+◌, ◌^◌, ◌<◌, MatchResult};
ghost use Rattle.drawing.specs.Sizes.{Took};
ghost use Rattle.drawing.specs.declared.mistakes.Mistake.TheVariants.{Row};

use crate::errors::Place;
use crate::mistakes::Mistake;
use rows::limits::MOST_WORDS;

#[derive(Drop)]
pub struct Room {
    left: usize,
}

impl Room {
    // The room of a row past the number of clocks and the number of positions.
    pub fn new() -> Room
        ensures { result.left + 2 ≡ 16384 }
    {
        Room {
            left: MOST_WORDS - 2,
        }
    }

    // Room for any parts: a text is only gone through for mistakes. The largest number, and no case without a limit: no text has so many
    // parts, and what a part takes stays one difference.
    pub fn boundless() -> Room
        ensures { result.left + 1 ≡ 2 ^ 64 }
    {
        Room { left: usize::MAX }
    }

    // Takes the room of the part at the place: if there is too little, that is a mistake, and nothing is taken.
    pub fn take(&mut self, numbers: usize, place: Place) -> Result<(), Mistake>
        ensures { MatchResult result (λ _. Took self.old self.new 0 numbers) (λ m. (self.old.left < numbers) × (self.new.left ≡ self.old.left) × (m ≡ Row place)) }
    {
        self.left = self.left.checked_sub(numbers).ok_or(Mistake::Row(place))?;
        Ok(())
    }
}
