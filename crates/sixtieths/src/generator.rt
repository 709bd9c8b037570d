// Numbers that look random: a linear congruential generator, so that one seed always gives the same numbers.
ghost use Rattle.std.specs.Prelude.{◌≡◌, ◌+◌, ◌*◌, ◌/◌, ◌%◌, ◌^◌, ◌<◌, max};

const FACTOR: u64 = 6364136223846793005;

const SUMMAND: u64 = 1442695040888963407;

#[derive(Clone, Copy)]
pub struct Generator {
    state: u64,
}

impl Generator {
    pub fn new(seed: u64) -> Self
        ensures { result.state ≡ seed }
    {
        Generator { state: seed }
    }

    // The next number is the upper half of the next state, since the lower half comes round soon.
    pub fn next(&mut self) -> u32
        ensures state { self.new.state ≡ (self.old.state * 6364136223846793005 + 1442695040888963407) % 2 ^ 64 }
        ensures number { result ≡ self.new.state / 2 ^ 32 }
    {
        self.state = self.state.wrapping_mul(FACTOR).wrapping_add(SUMMAND);
        (self.state >> 32) as u32
    }

    // One of the numbers below `count`, or 0 where there is none.
    pub fn below(&mut self, count: u32) -> u32
        ensures state { self.new.state ≡ (self.old.state * 6364136223846793005 + 1442695040888963407) % 2 ^ 64 }
        ensures number { result ≡ (self.new.state / 2 ^ 32) % max count 1 }
        ensures bound { result < max count 1 }
    {
        self.next() % count.max(1)
    }
}
