// The prelude has no code: words about lists stand in specs/, and general laws, which every crate may cite, in proofs/.
#![tactic(auto)]
