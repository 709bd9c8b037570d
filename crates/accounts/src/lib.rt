// Runs and bounds on clocks as text.
#![tactic(auto)]

pub mod bounds;
pub mod names;
pub mod runs;
mod widths;
