// Laws only: P1 to P10 of document 01, on the definitions of the crate rules.
#![tactic(auto)]
