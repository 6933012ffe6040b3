// A chart's turn in place, on a run's arrays, of an accepted set; tables that are built once per set.
#![tactic(auto)]

pub mod actions;
pub mod deeds;
pub mod steps;
pub mod tables;
pub mod transitions;
pub mod triggers;
pub mod values;
