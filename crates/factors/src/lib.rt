// A modulus with what is lent as its factor list, and its check: 5 by the lists' lengths, then 10, 11 and 12 entry by entry, then 13.
#![tactic(auto)]

ghost use Rattle.std.specs.Prelude.{◌≡◌, []};
ghost use Rattle.answer.specs.First.{first};
ghost use Rattle.modular.specs.FactorList.{Rising};
ghost use Rattle.checks.specs.Factors.{list_sizes, entry_order, entries_order, product};
ghost use Rattle.checks.specs.Order.{lent};
ghost use Rattle.factors.specs.Factored.{factored_of, listed, listed_order};

use answer::{Case, Refusal, refuse_if};
use checks::{check_coefficients, check_shape};
use limits::MOST_FACTORS;
use modular::factor::multiply_to;
use modular::prime::is_prime;

// A modulus with what is lent as its factor list. Whether it is that list is for `check` to say.
#[derive(Clone, Copy)]
pub struct Factored<'a> {
    pub modulus: u32,
    pub primes: &'a [u32],
    pub exponents: &'a [u8],
}

// 5, of lists of so many primes and so many exponents.
fn check_sizes(primes: usize, exponents: usize, most: usize) -> Result<(), Refusal>
    ensures { result ≡ list_sizes most primes exponents }
{
    refuse_if(
        primes != exponents || primes == 0 || most < primes,
        Case::Factors,
        0,
        0,
    )
}

// 10, 11 and 12 of entry i, prime p with exponent e after the prime `before`.
#[tactic(auto, using(modular::proofs::PrimeTest::tells_prime))]
fn check_entry(before: u32, i: usize, p: u32, e: u8) -> Result<(), Refusal>
    ensures { result ≡ first (entry_order before i p e) }
{
    refuse_if(e == 0, Case::Exponent, 0, i)?;
    refuse_if(!is_prime(p), Case::Prime, 0, i)?;
    refuse_if(p <= before, Case::Order, 0, i)
}

// 10, 11 and 12 of all entries: what is told is what the first bad one has.
#[tactic(auto, using(crate::proofs::Entries::one_entry, crate::proofs::Entries::no_entry))]
fn check_entries(primes: &[u32], exponents: &[u8]) -> Result<(), Refusal>
    ensures { result ≡ first (entries_order 0 0 primes.now exponents.now) }
{
    let mut before = 0;
    for (i, (&p, &e)) in primes.iter().zip(exponents).enumerate() {
        check_entry(before, i, p, e)?;
        before = p;
    }
    Ok(())
}

// 13, of a list whose entries passed.
fn check_product(primes: &[u32], exponents: &[u8], m: u32) -> Result<(), Refusal>
    requires { Rising 0 primes.now exponents.now }
    ensures { result ≡ product m primes.now exponents.now }
{
    refuse_if(!multiply_to(primes, exponents, m), Case::Product, 0, 0)
}

impl Factored<'_> {
    // The whole check. An entry is looked at only where 5 passed, so that no list costs more than `MOST_FACTORS` tests of a prime.
    #[tactic(auto, using(checks::proofs::FactorCheck::rises, checks::proofs::FactorCheck::factors_in_parts))]
    pub fn check(self) -> Result<(), Refusal>
        ensures { result ≡ listed (factored_of self.entry) }
    {
        check_sizes(self.primes.len(), self.exponents.len(), MOST_FACTORS)?;
        check_entries(self.primes, self.exponents)?;
        check_product(self.primes, self.exponents, self.modulus)
    }

    // All checks up to 6 of a call on rings modulo this modulus: ring 1 is a, the others follow it.
    #[tactic(auto, using(checks::proofs::Orders::in_parts))]
    pub fn check_rings(self, a: &[u32], others: &[&[u32]]) -> Result<(), Refusal>
        ensures { result ≡ first (listed_order a.now (lent others.now) (factored_of self.entry) []) }
    {
        check_shape(a, others, self.modulus)?;
        self.check()?;
        check_coefficients(a, others, self.modulus)
    }
}
