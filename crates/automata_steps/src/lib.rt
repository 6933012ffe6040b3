// An automaton's turn in place, on a run's arrays, of an accepted table; the index of a table, built once.
#![tactic(auto)]

pub mod edges;
pub mod fields;
pub mod index;
pub mod literals;
pub mod steps;
pub mod values;
