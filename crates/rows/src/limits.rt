// The limits of the format: what a row may have at most.

pub const MOST_WORDS: usize = 16_384;

pub const MOST_CLOCKS: u32 = 8;

pub const MOST_LOCATIONS: u32 = 256;

// The greatest number that a clock is compared with.
pub const MOST_BOUND: u32 = 10_000;

// The same as sizes of arrays.
pub const CLOCKS: usize = MOST_CLOCKS as usize;

pub const LOCATIONS: usize = MOST_LOCATIONS as usize;
