// What the programs share: a set read from its file, texts of numbers, and refusals told by their number and meaning, with what a file of the wrong kind is.
#![tactic(auto)]

pub mod files;
pub mod host;
pub mod input;
pub mod texts;
pub mod words;
