// Records of a twin, written one after the other: edges, clocks, and the sections that are copied.
#![tactic(auto)]

pub mod clocks;
pub mod edges;
pub mod fields;
pub mod sections;
pub mod writing;
