// The records of a framed automata file, and the fields of each.
#![tactic(auto)]

pub mod fields;

// How many records a framed automata file has of each kind, from kind 33 on. A file's bytes are passed beside it: a field is read of any bytes by any shape, so
// a struct of both that holds `Accepted` would be taken apart at each field.
#[derive(Clone, Copy)]
pub struct Shape {
    pub automata: u16,
    pub locations: u16,
    pub edges: u16,
    pub literals: u16,
    pub clocks: u16,
    pub variables: u16,
    pub nodes: u16,
    pub updates: u16,
    pub resets: u16,
}
