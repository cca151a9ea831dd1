// Patterns, what is heard through them and what undoes it: definitions, contracts and theorems only.
#![tactic(auto)]
