// One division of polynomials modulo m, with the row of cofactors alongside.
#![tactic(auto)]

ghost use Rattle.std.specs.Prelude.{◌≡◌, ◌∷◌, ◌-◌};
ghost use Rattle.sums.specs.Table.{at};
ghost use Rattle.division.specs.Division.{Dividing, Divided};
ghost use Rattle.division.specs.Terms.{Front, Trimmed, Residues, Digit, Place, Longer, NextTerms, AddableTerms, Added};

use limits::MOST_ENTRIES;
use rows::{Factor, add_linear};

// The places of an array: x^n - 1 has up to 1,025 coefficients, and a quotient's terms are taken two at a time.
pub const PLACES: usize = MOST_ENTRIES + 2;

// A remainder of at most len coefficients, with its cofactor.
#[derive(Drop)]
pub struct Row {
    pub remainder: [u32; PLACES],
    pub cofactor: [u32; PLACES],
    pub len: usize,
}

// (low + high x) x^shift, two terms of a quotient.
#[derive(Clone, Copy)]
struct Terms {
    low: Factor,
    high: Factor,
    shift: usize,
}

// How many coefficients are left when the zeros at the top of the first len are dropped.
pub fn trim(a: &[u32], len: usize) -> usize
    requires { Front a.now len }
    ensures { Trimmed a.now len result }
{
    // By hand: with `rposition` the goal `returns` did not close, that from the place found on all is 0.
    for last in (0..len).rev() {
        if a[last] != 0 {
            return last + 1;
        }
    }
    0
}

// - x z modulo p. It ends in a remainder of 32 bits and has no branch: so the compiler sees that a row's factor has 32 bits, and vectorises the row.
fn digit(x: u32, z: u32, p: u32) -> u32
    requires { Residues p x z }
    ensures { Digit p x z result }
{
    let t = (u64::from(x) * u64::from(z) % u64::from(p)) as u32;
    (p - t) % p
}

// The coefficient before the last of the first l, and 0 where there is only one.
fn second(a: &[u32], l: usize) -> u32
    requires { Place a.now l }
    ensures { result ≡ at (0 ∷ a.now) (l - 1) }
{
    if l == 1 { 0 } else { a[l - 2] }
}

impl Terms {
    // The next two terms of the quotient of the first top coefficients of a dividend. z is the inverse of the divisor's leading coefficient.
    fn next(dividend: &Row, divisor: &Row, top: usize, z: u32, p: u32) -> Terms
        requires { Longer p top dividend.now divisor.now z }
        ensures { NextTerms p top dividend.now divisor.now result }
    {
        let len = divisor.len;
        let high = Factor::new(digit(dividend.remainder[top - 1], z, p), p);
        let rest = high.plus_multiple(dividend.remainder[top - 2], second(&divisor.remainder, len));
        let low = Factor::new(digit(rest, z, p), p);
        Terms {
            low,
            high,
            shift: top - len - 1,
        }
    }

    // a plus the terms times b, of which len coefficients may be other than 0.
    fn add_to(self, a: &mut [u32], b: &[u32], len: usize)
        requires { AddableTerms self len a.old b.now }
        ensures { Added self a.old a.new b.now }
    {
        let from = self.shift;
        add_linear(&mut a[from..], &b[..len], self.low, self.high);
    }
}

impl Row {
    // Adds the divisor's multiple by a polynomial q, remainder and cofactor, so that the remainder is left with a smaller degree than the divisor's.
    // z is the inverse of the divisor's leading coefficient, and its cofactor has at most k coefficients. Two terms a turn, from place top down, so that
    // top - divisor.len is odd.
    pub fn divide(&mut self, divisor: &Row, k: usize, z: u32, p: u32)
        requires { Dividing p k self.old divisor.now z }
        ensures { Divided p self.old self.new divisor.now }
    {
        while divisor.len <= self.len {
            let top = self.len + 1 - (self.len - divisor.len) % 2;
            let t = Terms::next(self, divisor, top, z, p);
            t.add_to(&mut self.remainder, &divisor.remainder, divisor.len);
            t.add_to(&mut self.cofactor, &divisor.cofactor, k);
            self.len = trim(&self.remainder, top - 2);
        }
    }
}
