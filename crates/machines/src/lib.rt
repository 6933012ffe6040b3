// What runs of charts and of automata share: variables, nodes and events, deeds on them, the checks before a turn, and chains in tables.
#![tactic(auto)]

pub mod checks;
pub mod deeds;
pub mod values;
