// An object is rebuilt in a larger shape.
#![tactic(auto)]

pub mod rebuild;
