// Laws only: that the answer leaves no choice, that the sum is exact, and that groups, order and delays do not move it.
#![tactic(auto)]
