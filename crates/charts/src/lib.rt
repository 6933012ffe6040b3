// Chart sets at work: runs, and the turns and cycles that they take.
#![tactic(auto)]

pub mod cycles;
pub mod lent;
pub mod plays;
pub mod turns;
