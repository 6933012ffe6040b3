// What document 02 says of guards typed as a line (specs/), and what follows of it.
#![tactic(auto)]
