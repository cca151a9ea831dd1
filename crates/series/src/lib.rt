// Polynomials modulo m, and modulo x^n - 1 and m: definitions and laws only.
#![tactic(auto)]
