// Lists of steps between numbered events, and the cycles that they make.
#![tactic(auto)]

pub mod step_list;
