// Whether a run of a set and a run of its twin are alike, and whether the answers of one call on both are.
#![tactic(auto)]

pub mod outcomes;
pub mod runs;
