// What an edit makes of a slot: null, a new object, a text, a number in its object.
#![tactic(auto)]

pub mod clear;
pub mod fill;
pub mod init;
pub mod set;
