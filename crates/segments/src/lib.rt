// Segments of 64-bit words: the interface that reads them, the interface of the sources that grant them, and refusals.
#![tactic(auto)]

pub mod reading;
pub mod refusal;
pub mod source;
