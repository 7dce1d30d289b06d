// Judging execution graphs: which axiom does a graph break under a push order, and by which cycle.
#![tactic(auto)]

mod finding;
pub mod judging;
mod laying;
mod steps;
