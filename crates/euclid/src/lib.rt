// The extended Euclid on a polynomial and x^n - 1 modulo m.
#![tactic(auto)]

ghost use Rattle.std.specs.Prelude.{◌≡◌, ◌+◌, length};
ghost use Rattle.sums.specs.Table.{at};
ghost use Rattle.series.specs.Operations.{red, term, xn_minus_one};
ghost use Rattle.euclid.specs.Answer.{Entries, Attemptable, Attempts, Solvable, Answers};
ghost use Rattle.euclid.specs.Descent.{HoldsPolynomial, Steppable, AfterStep, Beginning, Last, Finished, Dividable, Over};

// The modulus.
pub mod modulo;

use crate::modulo::Modulus;
use division::{PLACES, Row, trim};
use modular::inverse::{Shares, lead_inverse};
use rows::Factor;
use slices::{copy, remainders};

// Why f has no inverse: f and x^n - 1 share a factor of that degree.
#[derive(Clone, Copy, Debug, PartialEq, Eq)]
pub struct Shared {
    pub degree: usize,
}

// What is in the output: the inverse of f, or else the ghost polynomial.
pub type Outcome = Result<(), Shared>;

// A row of zeros. What it begins with is written into it where it stands, since an array that is made apart is copied into its row.
fn zero_row(len: usize) -> Row
    ensures remainder { HoldsPolynomial result.remainder (term 0 0) }
    ensures cofactor { HoldsPolynomial result.cofactor (term 0 0) }
    ensures len { result.len ≡ len }
{
    Row {
        remainder: [0; PLACES],
        cofactor: [0; PLACES],
        len,
    }
}

// The constant c, where zeros stand.
fn constant(c: u32, a: &mut [u32; PLACES])
    requires { HoldsPolynomial a.old (term 0 0) }
    ensures { HoldsPolynomial a.new (term c 0) }
{
    a[0] = c;
}

// x^n - 1, where zeros stand.
fn cycle(n: usize, m: Modulus, a: &mut [u32; PLACES])
    requires { Entries n × HoldsPolynomial a.old (term 0 0) }
    ensures { HoldsPolynomial a.new (xn_minus_one n m.value) }
{
    constant(m.value - 1, a);
    a[n] = 1;
}

// f modulo m, where zeros stand.
fn pattern(f: &[u32], m: Modulus, a: &mut [u32; PLACES])
    requires { Entries (length f.now) × HoldsPolynomial a.old (term 0 0) }
    ensures { HoldsPolynomial a.new (red m.value (at f.now)) }
{
    remainders(f, m.value, &mut a[..f.len()]);
}

// src over y, which has an inverse.
fn over(src: &[u32], y: u32, m: Modulus, out: &mut [u32])
    requires { Dividable m y src.now out.old }
    ensures { Over m.value y src.now out.new }
{
    // By hand: `unwrap` would leave a trap in Euclid's loop, which bench/bounds forbids.
    let z = lead_inverse(y, m.value, m.prime).unwrap_or(0);
    copy(src, out);
    Factor::new(z, m.value).scale(out);
}

// One division of a row by another, unless the divisor's leading number has no inverse.
fn step(dividend: &mut Row, divisor: &Row, n: usize, m: Modulus) -> Result<(), Shares>
    requires { Steppable n m dividend.old divisor.now }
    ensures { AfterStep m.value dividend.old dividend.new divisor.now result }
{
    let lead = divisor.remainder[divisor.len - 1];
    let z = lead_inverse(lead, m.value, m.prime)?;
    dividend.divide(divisor, n + 2 - dividend.len, z, m.value);
    Ok(())
}

// The answer, from the last divisor's row, and the row with the remainder 0 that came after it.
fn finish(last: &Row, zero: &Row, m: Modulus, out: &mut [u32]) -> Outcome
    requires { Last (length out.old) m last.now zero.now }
    ensures { Finished (length out.old) m.value last.now zero.now out.new result }
{
    let n = out.len();
    if last.len == 1 {
        over(&last.cofactor[..n], last.remainder[0], m, out);
        return Ok(());
    }
    let top = zero.cofactor[n + 1 - last.len];
    over(&zero.cofactor[..n], top, m, out);
    Err(Shared {
        degree: last.len - 1,
    })
}

// Divisions with the roles exchanged, until one leaves nothing or finds a divisor of the modulus.
fn descend(
    first: &mut Row,
    second: &mut Row,
    m: Modulus,
    out: &mut [u32],
) -> Result<Outcome, Shares>
    requires { Beginning (length out.old) m first.old second.old }
    ensures { Attempts (length out.old) m.value (at second.old.remainder) out.new result }
{
    let n = out.len();
    while 0 < second.len {
        step(first, second, n, m)?;
        if first.len == 0 {
            return Ok(finish(second, first, m, out));
        }
        step(second, first, n, m)?;
    }
    Ok(finish(first, second, m, out))
}

// The inverse of f modulo x^n - 1 and m, where n is the length of f, or the ghost. It fails where a leading number has no inverse, since it shares a
// divisor with m.
pub fn euclid_modulo(f: &[u32], m: Modulus, out: &mut [u32]) -> Result<Outcome, Shares>
    requires { Attemptable f.now out.old }
    ensures { Attempts (length f.now) m.value (at f.now) out.new result }
{
    let n = f.len();
    let mut first = zero_row(n + 1);
    cycle(n, m, &mut first.remainder);
    let mut second = zero_row(n);
    pattern(f, m, &mut second.remainder);
    constant(1, &mut second.cofactor);
    second.len = trim(&second.remainder, n);
    descend(&mut first, &mut second, m, out)
}

// Modulo a prime p: the inverse, or the ghost.
pub fn euclid(f: &[u32], p: u32, out: &mut [u32]) -> Outcome
    requires { Solvable p f.now out.old }
    ensures { Answers (length f.now) p (at f.now) out.new result }
{
    let m = Modulus {
        value: p,
        prime: true,
    };
    euclid_modulo(f, m, out).unwrap()
}
