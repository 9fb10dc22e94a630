// Scripts in words: what each command would do, and what is wrong with a bad line.
#![tactic(auto)]

pub mod action;
pub mod bad;
pub mod command;
pub mod shown;
