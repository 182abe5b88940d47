// Laws for proofs by hand of functions that the borrow checker does not cover; all of it is in proofs/. No function is declared here.
#![tactic(auto)]
