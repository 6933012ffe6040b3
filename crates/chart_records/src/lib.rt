// The records of a framed chart file, and the fields of each.
#![tactic(auto)]

pub mod fields;

// How many records a framed chart file has of each kind, from kind 1 on. A file's bytes are passed beside it: a field is read of any bytes by any shape
// (`findings` reads a record alone, by a shape of zeros), so a struct of both that holds `Accepted` would be taken apart at each field.
#[derive(Clone, Copy)]
pub struct Shape {
    pub charts: u16,
    pub states: u16,
    pub transitions: u16,
    pub variables: u16,
    pub nodes: u16,
    pub actions: u16,
}
