// The relations of an execution graph, push orders, and the axiom on program order and reads-from.
#![tactic(auto)]

pub mod lawful;
pub mod pairs;
pub mod push_order;
pub mod relation;
pub mod rule;
pub mod source_cycle;
pub mod source_reach;
pub mod source_steps;
pub mod table;
