// The C interface: what control units, other languages, tests and benchmarks link. Each function takes any bytes, runs, events and buffers. A result of 0 or
// more is the answer; a refusal or fault is minus its number, and then nothing lent has changed. C knows the functions by name, so charts and automata have one
// each of those that do the same.
#![tactic(auto)]

pub mod files;
pub mod guard_lines;
pub mod sets;
mod sizes;
pub mod tables;
pub mod traces;
pub mod translations;
