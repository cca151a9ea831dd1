// Numbers modulo a prime and modulo any m.
#![tactic(auto)]

// Whether a number is a prime.
pub mod prime;

// The inverse of a number.
pub mod inverse;

// Powers: the rounds of doubling that reach an exponent.
pub mod power;

// Factor lists.
pub mod factor;
