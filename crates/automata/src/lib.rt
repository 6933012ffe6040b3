// Automata at work: runs, and the turns and cycles that they take by their open edges.
#![tactic(auto)]

pub mod cycles;
pub mod lent;
pub mod plays;
pub mod runs;
pub mod turns;
