// Path measures: what a path through a square table is worth, and the best over all paths.
//
// A measure says what one step is worth, how the worth of two parts of a path is joined, and which of
// two paths is the better. Settling a table is then proved once, for every measure, from its laws.
#![tactic(auto)]

pub mod measure;
pub mod reach;
pub mod settling;
pub mod steps;
pub mod table;
