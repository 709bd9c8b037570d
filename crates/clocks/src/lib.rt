// When a position of a clockwork can be come to.
#![tactic(auto)]

pub mod answers;
