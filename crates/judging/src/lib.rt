// What a call meets at its place, judged before anything changes, and reads.
#![tactic(auto)]

pub mod growth;
pub mod looks;
pub mod numbers;
pub mod objections;
pub mod ruling;
pub mod site;
