// A region as differences of clocks: a square of upper bounds (a difference-bound matrix).
#![tactic(auto)]

pub mod bounds;
pub mod shapes;
pub mod squares;
