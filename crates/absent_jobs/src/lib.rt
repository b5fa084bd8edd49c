// Laws only: what makes a job absent, that nobody draws 15, and that nothing else moved.
#![tactic(auto)]
