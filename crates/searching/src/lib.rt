// The search for a push order under which a graph is permitted.
#![tactic(auto)]

pub mod answer;
mod precedence;
pub mod search;
mod sieve;
