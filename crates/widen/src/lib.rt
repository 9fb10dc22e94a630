// Moving what an object has to a larger one: children with their landing pads, and numbers.
#![tactic(auto)]

pub mod children;
pub mod numbers;
pub mod transfer;
