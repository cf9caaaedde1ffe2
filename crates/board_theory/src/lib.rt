// Laws of boards: statements only.
#![tactic(auto)]
