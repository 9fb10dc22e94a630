// Numbers: decimal numbers in a script, the kinds of values that a message holds, and where they stand in it.
#![tactic(auto)]

pub mod back;
pub mod decimal;
pub mod home;
pub mod kind;
