// Laws of label sheets, and of wall pages with their labels: statements only.
#![tactic(auto)]
