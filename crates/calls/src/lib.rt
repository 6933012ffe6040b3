// Calls on any bytes: the file is checked here and nowhere below, and what is not refused goes on to the work of an accepted file. `sets` and `tables` have the
// same four calls each, as document 01 names them on either side (docs/DECISIONS.md, "Forms that document 01 names").
#![tactic(auto)]

pub mod sets;
pub mod tables;
