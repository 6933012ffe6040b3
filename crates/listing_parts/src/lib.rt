// The parts of a listing's lines: words with numbers, and what the lines of sets and of tables share.
#![tactic(auto)]

pub mod fields;
pub mod texts;
