// Words and pointer words of Cap'n Proto messages: packing and unpacking, and sizes in words.
#![tactic(auto)]

pub mod bits;
pub mod pointers;
pub mod sizes;
pub mod worked;
