// Laws only: the user's demands on every routine, in the user's order and words, and that the definitions of the answers meet them.
#![tactic(auto)]
