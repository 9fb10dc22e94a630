// One line of a script: its arguments by their place, its order in a case, and what can be wrong with it.
#![tactic(auto)]

pub mod args;
pub mod fault;
pub mod stage;
