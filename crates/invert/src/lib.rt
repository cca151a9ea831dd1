// The call invert of document 01, and the same without its checks.
#![tactic(auto)]

ghost use Rattle.std.specs.Prelude.{◌≡◌};
ghost use Rattle.answer.specs.First.{first};
ghost use Rattle.lift.specs.Asks.{Joined};
ghost use Rattle.factors.specs.Factored.{factored_of};
ghost use Rattle.pattern.specs.Promises.{invert_order, Inverts};
ghost use Rattle.invert.specs.Inversions.{CanInvert, Inverting, of_ring};
ghost use Rattle.invert.specs.Inner.{PrimePower, PowerFound, Apart, NextPower, Progressed, Solved};

use answer::{Answer, Failure, Refusal};
use checks::check_room;
use euclid::{Shared, euclid};
use factors::Factored;
use lift::power::Power;
use lift::{join, lift};
use limits::MOST_ENTRIES;
use modular::inverse::inverse;
use slices::multiply;

// Why a pattern has no inverse: its smallest singular prime. The ghost stands in the output.
#[derive(Clone, Copy, Debug, PartialEq, Eq)]
pub struct Ghost {
    pub prime: u32,
}

impl Ghost {
    // Why a call fails that inverts the pattern which is its ring `ring`.
    pub fn of_ring(self, ring: usize) -> Failure
        ensures { result ≡ of_ring self ring }
    {
        Failure::Singular {
            ring,
            prime: self.prime,
        }
    }
}

// out becomes the inverse of f modulo that power of a prime, or the ghost polynomial modulo the prime.
fn modulo_power(f: &[u32], power: Power, out: &mut [u32]) -> Result<(), Shared>
    requires { PrimePower f.now power out.old }
    ensures { PowerFound f.now power out.new result }
{
    euclid(f, power.prime, out)?;
    lift(f, out, power);
    Ok(())
}

// acc, the inverse of a pattern modulo big, and g, its inverse modulo q, become one modulo q times big.
fn join_power(g: &[u32], acc: &mut [u32], q: u32, big: u32)
    requires { Apart g.now acc.old q big }
    ensures { Joined g.now acc.old q big acc.new }
{
    // By hand: `unwrap` would leave a trap in Euclid's loop, which bench/bounds forbids.
    let z = inverse(big, q).unwrap_or(0);
    join(g, acc, q, big, z);
}

// One prime power more: acc, the inverse of f modulo big, becomes the inverse modulo the product that is told, of both, or the ghost polynomial modulo the prime.
fn next_power(f: &[u32], power: Power, big: u32, acc: &mut [u32]) -> Result<u32, Ghost>
    requires { NextPower f.now power big acc.old }
    ensures { Progressed f.now power big acc.new result }
{
    let n = f.len();
    let g = &mut [0u32; MOST_ENTRIES][..n];
    match modulo_power(f, power, g) {
        Ok(()) => {
            join_power(g, acc, power.value, big);
            Ok(power.value * big)
        }
        Err(_) => {
            acc.copy_from_slice(g);
            Err(Ghost { prime: power.prime })
        }
    }
}

// out becomes the inverse of f, or the ghost polynomial of the smallest singular prime.
fn solve(f: &[u32], m: Factored<'_>, out: &mut [u32]) -> Result<(), Ghost>
    requires { CanInvert f.now (factored_of m) out.old }
    ensures { Solved f.now m.entry.modulus out.new result }
{
    out.fill(0);
    let mut big = 1;
    for (&p, &k) in m.primes.iter().zip(m.exponents) {
        let power = Power::of(p, u32::from(k));
        big = next_power(f, power, big, out)?;
    }
    Ok(())
}

// Invert where nothing is left to check: out becomes the inverse, or the ghost.
pub fn invert_legal(f: &[u32], m: Factored<'_>, out: &mut [u32]) -> Result<(), Ghost>
    requires { CanInvert f.now (factored_of m) out.old }
    ensures { Inverting f.now m.entry.modulus out.new result }
{
    if let Err(why) = solve(f, m, out) {
        multiply(out, m.modulus / why.prime);
        return Err(why);
    }
    Ok(())
}

#[tactic(auto, using(checks::proofs::Orders::then_rest))]
fn check_invert(f: &[u32], m: Factored<'_>, room: usize) -> Result<(), Refusal>
    ensures { result ≡ first (invert_order f.now (factored_of m.entry) room) }
{
    m.check_rings(f, &[])?;
    check_room(f.len(), room)
}

pub fn invert(f: &[u32], m: Factored<'_>, out: &mut [u32]) -> Answer
    ensures { Inverts f.now (factored_of m.entry) out.old result out.new }
{
    check_invert(f, m, out.len())?;
    invert_legal(f, m, out).map_err(|why| why.of_ring(1))
}
