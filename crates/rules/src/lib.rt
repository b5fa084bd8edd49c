// No code: the definitions of document 01 stand in specs/.
#![tactic(auto)]
