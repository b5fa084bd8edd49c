// Laws only: what every crate needs of tests, and of what holds at the places of a range.
#![tactic(auto)]
