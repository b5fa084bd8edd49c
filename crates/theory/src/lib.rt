// Laws only: demand 3 as a theorem on the definitions of the crate rules.
#![tactic(auto)]
