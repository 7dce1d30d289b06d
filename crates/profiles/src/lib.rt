// Ordering profiles: which pairs of events a memory model keeps in order, and which it pushes.
#![tactic(auto)]

pub mod jam21;
pub mod mode;
pub mod profile;
pub mod scan;
pub mod strict;
