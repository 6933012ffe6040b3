// The model has no code: its definitions stand in specs/.
#![tactic(auto)]
