// Sums and tables over an index: definitions and laws only.
#![tactic(auto)]
