// What a whole call decides before anything changes: refused by a ruling, or what is to be made where.
#![tactic(auto)]

pub mod decision;
pub mod edit;
mod making;
pub mod numbers;
