// Lines of a script cut into words, and the bytes of a text, in hex or in quotes.
#![tactic(auto)]

pub mod cut;
pub mod hex;
pub mod quoted;
