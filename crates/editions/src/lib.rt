// Laws only: what was said of edition 1 still holds, and rewriting a sheet to the other edition loses nothing.
#![tactic(auto)]
