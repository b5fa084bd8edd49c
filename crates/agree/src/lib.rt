// Laws only: sheets that agree below their counts have the same plans and the same answers.
#![tactic(auto)]
