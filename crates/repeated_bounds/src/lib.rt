// Laws only: several bounds of one pair all apply, and nothing else moved.
#![tactic(auto)]
