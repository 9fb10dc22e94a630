// The public face of the builder: drafts of messages, and the calls on them.
#![tactic(auto)]

pub mod draft;
pub mod reading;
pub mod refusal;
pub mod writing;
