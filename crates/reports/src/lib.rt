// What the program reads and says, apart from reaching outside.
#![tactic(auto)]

pub mod drawing;
pub mod options;
pub mod pairs;
pub mod script;
