// A run that shows what a table tells of a location.
#![tactic(auto)]

pub mod answers;
mod trails;
