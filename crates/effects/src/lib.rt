// Single steps on an arena, with promises in the words of the law of calls.
#![tactic(auto)]

pub mod laws;
pub mod mark;
pub mod root;
pub mod words;
