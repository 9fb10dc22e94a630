// New objects in words: how many words they take, their pointers, pads, tags and slots, and the bytes of texts.
#![tactic(auto)]

pub mod object;
pub mod place;
pub mod pointer;
pub mod text;
pub mod write;
