// Rings modulo m and their laws: definitions and theorems only.
#![tactic(auto)]
