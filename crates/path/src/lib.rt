// Paths in a script: the steps from the root of a message to a place in it.
#![tactic(auto)]

pub mod back;
pub mod place;
pub mod step;
