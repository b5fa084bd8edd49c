// Laws only: that of two sheets one answer says which counts, when each answer comes, and what exchanging the sheets changes.
#![tactic(auto)]
