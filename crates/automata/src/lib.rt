// Timed automata by definition: what stands here is proved of the definitions alone, so that the gate asks for it.
#![tactic(auto)]

ghost use Rattle.automata.specs.Bell.{BellStruck};

// The bell has its row of fifteen numbers, can be struck at two and a half, and the whole part of that time is 2.
pub fn bell_is_struck()
    ensures { BellStruck }
{}
