// The records of a twin's edges: their literals, updates and resets, written into a lent buffer.
#![tactic(auto)]

pub mod literals;
pub mod resets;
pub mod updates;
