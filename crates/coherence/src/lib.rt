// What is visible in an execution graph under a push order, coherence between its writes, and the axiom on coherence.
#![tactic(auto)]

pub mod cycle;
pub mod naming;
pub mod sight;
pub mod visibility;
