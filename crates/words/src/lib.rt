// What the marker says, in words.
#![tactic(auto)]

pub mod bytes;
pub mod refused;
pub mod sentence;
pub mod verdict;
