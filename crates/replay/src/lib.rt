// Runs gone through again: a list of waits and steps is followed by the definitions, with exact fractions over one
// denominator, and accepted only if it is a run.
#![tactic(auto)]

pub mod changes;
pub mod checks;
pub mod fractions;
pub mod moments;
pub mod runs;
