// The expression layer: numbers and truths of the nodes of a file, and the checks on nodes. Node n is the n-th record of 16 bytes of `nodes`; a
// byte past the end counts as 0, so every function takes any bytes.
#![tactic(auto)]

pub mod nodes;
pub mod outcomes;
pub mod sorts;
pub mod values;
