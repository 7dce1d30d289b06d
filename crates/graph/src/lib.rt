// Execution graphs: events, program order and reads-from; graphs in lent memory, the calls that
// change them and their history; the refusals of the marker.
#![tactic(auto)]

pub mod call;
pub mod code;
pub mod event;
pub mod graph;
pub mod lookup;
pub mod order;
pub mod refusal;
mod undo;
