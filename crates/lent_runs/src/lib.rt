// Laws alone, of functions on a run that is lent to them: no code.
#![tactic(auto)]
