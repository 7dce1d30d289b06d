// The sheets of the marker: what they say, their bytes, and the checks of their layout.
#![tactic(auto)]

mod faults;
pub mod layout;
pub mod reading;
pub mod step;
pub mod verdict;
pub mod writing;
