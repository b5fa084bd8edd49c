// Laws only: what delays can break, when a plan has a fault, that the answers leave no choice, and what a run state holds.
#![tactic(auto)]
