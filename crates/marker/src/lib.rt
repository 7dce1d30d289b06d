// The marker: calls on a new graph, judging, marking and searching it, in one call.
#![tactic(auto)]

pub mod answers;
pub mod entries;
pub mod examination;
