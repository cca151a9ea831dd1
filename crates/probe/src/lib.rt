// Numbers and polynomials modulo p for the comparison and the benchmark: each function asks nothing, and answers "refused" where the one behind it
// asks for more.
#![tactic(auto)]

ghost use Rattle.std.specs.Prelude.{◌≡◌};
ghost use Rattle.modular.specs.Prime.{TellsPrime};
ghost use Rattle.modular.specs.Rounds.{Rounds};
ghost use Rattle.answer.specs.Reply.{check_reply};
ghost use Rattle.checks.specs.Factors.{factors};
ghost use Rattle.probe.specs.Takes.{Takes, Tells};
ghost use Rattle.probe.specs.Number.{number_of, TellsInverse};
ghost use Rattle.probe.specs.Solution.{solution, solution_of, TellsSolution};

use answer::{Failure, Reply};
use euclid::{Outcome, euclid};
use factors::Factored;
use limits::{MOST_ENTRIES, MOST_MODULUS};
use modular::inverse::{Shares, inverse};
use modular::power::rounds;
use modular::prime::is_prime;

// By hand: the kinds are numbers of the C interface (tests/probe.h).
const DONE: u32 = 0;

const OTHER: u32 = 1;

const REFUSED: u32 = 2;

#[unsafe(no_mangle)]
pub extern "C" fn probe_is_prime(p: u32) -> bool
    ensures { TellsPrime p result }
{
    is_prime(p)
}

// What the check of a factor list finds, in numbers.
#[unsafe(no_mangle)]
pub extern "C" fn probe_factors(primes: &[u32], exponents: &[u8], m: u32) -> Reply
    ensures { result ≡ check_reply (factors m primes.now exponents.now) }
{
    let list = Factored {
        modulus: m,
        primes,
        exponents,
    };
    Reply::from(list.check().map_err(Failure::from))
}

// The inverse, or the greatest common divisor.
#[repr(C)]
#[derive(Clone, Copy)]
pub struct Number {
    pub kind: u32,
    pub value: u32,
}

impl From<Result<u32, Shares>> for Number {
    ghost from_gives = { λ found number. number ≡ number_of found };

    fn from(found: Result<u32, Shares>) -> Number {
        match found {
            Ok(value) => Number { kind: DONE, value },
            Err(shares) => Number {
                kind: OTHER,
                value: shares.divisor,
            },
        }
    }
}

#[unsafe(no_mangle)]
pub extern "C" fn probe_inverse(y: u32, m: u32) -> Number
    ensures { TellsInverse y m result }
{
    if m < 2 {
        return Number {
            kind: REFUSED,
            value: 0,
        };
    }
    Number::from(inverse(y, m))
}

#[unsafe(no_mangle)]
pub extern "C" fn probe_rounds(k: u32) -> u32
    ensures { Rounds k result }
{
    rounds(k)
}

// The inverse, or the ghost with the degree of the shared factor.
#[repr(C)]
#[derive(Clone, Copy)]
pub struct Solution {
    pub kind: u32,
    pub zero: u32,
    pub degree: usize,
}

fn told(kind: u32, degree: usize) -> Solution
    ensures { result ≡ solution kind degree }
{
    Solution {
        kind,
        zero: 0,
        degree,
    }
}

impl From<Outcome> for Solution {
    ghost from_gives = { λ outcome told. told ≡ solution_of outcome };

    fn from(outcome: Outcome) -> Solution {
        match outcome {
            Ok(()) => told(DONE, 0),
            Err(shared) => told(OTHER, shared.degree),
        }
    }
}

// Whether f modulo p is what the extended Euclid takes.
fn solvable(f: &[u32], p: u32, room: usize) -> bool
    ensures { Tells (Takes f.now p room) result }
{
    let n = f.len();
    0 < n
        && n <= MOST_ENTRIES
        && room == n
        && p <= MOST_MODULUS
        && is_prime(p)
        && f.iter().all(|x| *x < p)
}

#[unsafe(no_mangle)]
pub extern "C" fn probe_euclid(f: &[u32], p: u32, out: &mut [u32]) -> Solution
    ensures { TellsSolution f.now p out.old out.new result }
{
    if solvable(f, p, out.len()) {
        return Solution::from(euclid(f, p, out));
    }
    told(REFUSED, 0)
}
