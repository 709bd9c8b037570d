// A path of edges made into a run: waits and steps, with times that are exact fractions.
#![tactic(auto)]

pub mod arrivals;
pub mod ends;
mod paths;
mod places;
mod points;
pub mod runs;
