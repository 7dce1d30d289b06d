// Orders of a few numbered items, and the search for the first one that is wanted.
#![tactic(auto)]

pub mod counting;
pub mod finding;
pub mod items;
pub mod precedence;
pub mod sieve;
