// A call that no ruling refuses: the root word is there or is allocated, the edit is made at its slot, and if there was no space on the
// way, all goes back to how it was.
#![tactic(auto)]

pub mod make;
pub mod perform;
mod whole;
