// Rows of numbers read as timed automata. `reader` accepts exactly the rows that are the writing of one; the parts of a row
// that is read are lent, never copied.
#![tactic(auto)]

pub mod constraints;
mod counted;
pub mod edges;
pub mod limits;
pub mod numbers;
pub mod placed;
pub mod reader;
pub mod refusals;
pub mod views;
