// The examples have no code: rows of the model, worked out, stand in proofs/.
#![tactic(auto)]
