// Reading a message through any reading interface: where slots lead, what they lead to, and where a path ends.
#![tactic(auto)]

pub mod held;
pub mod landing;
pub mod route;
pub mod shape;
pub mod spot;
