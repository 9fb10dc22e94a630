// Lists of calls, made one after another on a draft.
#![tactic(auto)]

pub mod build;
pub mod calls;
pub mod numbers;
pub mod play;
pub mod replay;
pub mod reply;
