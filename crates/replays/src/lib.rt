// A cycle played with its lines, of a chart set or of a table of automata: a replay is one such call for each mask of its input.
#![tactic(auto)]

pub mod parts;
pub mod sets;
pub mod twins;
