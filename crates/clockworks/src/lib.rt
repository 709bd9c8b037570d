// A clockwork in parts, its row of numbers, and the way between the two.
#![tactic(auto)]

pub mod parts;
pub mod split;
pub mod write;
