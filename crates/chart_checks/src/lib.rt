// Refusals 6 and 8 of chart files: what the records name, and how nodes are used.
#![tactic(auto)]

pub mod names;
pub mod uses;
