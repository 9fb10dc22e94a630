// Objects in the words of a source.
#![tactic(auto)]

pub mod zeroing;
