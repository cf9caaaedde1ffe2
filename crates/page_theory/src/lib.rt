// Laws of wall pages: statements only.
#![tactic(auto)]
