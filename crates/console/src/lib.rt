// What the programs share: texts read and refused, positions by name, the budget of memory, and answers as text.
#![tactic(auto)]

pub mod answers;
pub mod budget;
pub mod input;
pub mod messages;
pub mod names;
pub mod nearness;
pub mod numbers;
pub mod options;
pub mod positions;
pub mod programs;
pub mod texts;
