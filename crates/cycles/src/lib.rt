// Cycles of a relation on at most 64 vertices that is given as a yes/no table: is there one, and which is the shortest.
#![tactic(auto)]

pub mod exists;
pub mod shortest;
