// The checks of document 01's table but for that of a factor list, and their order in a call on rings.
#![tactic(auto)]

ghost use Rattle.std.specs.Prelude.{◌≡◌, [], ◌∷◌, ◌<◌, leb, position};
ghost use Rattle.limits.specs.Limits.{most_entries, least_modulus, most_modulus};
ghost use Rattle.answer.specs.First.{first};
ghost use Rattle.checks.specs.Checks.{empty, large, mismatch, modulus, coefficient, room, divisor};
ghost use Rattle.checks.specs.Order.{lent, mismatches, coefficients, shape_order, ring_order, no_list};

use answer::{Case, Refusal, refuse_if};
use limits::{LEAST_MODULUS, MOST_ENTRIES, MOST_MODULUS};

pub fn check_empty(n: usize) -> Result<(), Refusal>
    ensures { result ≡ empty n }
{
    refuse_if(n == 0, Case::Empty, 0, 0)
}

pub fn check_large(n: usize, most: usize) -> Result<(), Refusal>
    ensures { result ≡ large most n }
{
    refuse_if(most < n, Case::Large, 0, 0)
}

pub fn check_mismatch(n: usize, len: usize, ring: usize) -> Result<(), Refusal>
    ensures { result ≡ mismatch n ring len }
{
    refuse_if(len != n, Case::Mismatch, ring, 0)
}

pub fn check_modulus(m: u32, least: u32, most: u32) -> Result<(), Refusal>
    ensures { result ≡ modulus least most m }
{
    refuse_if(m < least || most < m, Case::Modulus, 0, 0)
}

// The place of the first entry that is m or more.
pub fn first_high(a: &[u32], m: u32) -> Option<usize>
    ensures { result ≡ position (λ x. leb m x) a.now }
{
    a.iter().position(|&x| m <= x)
}

#[tactic(auto, using(crate::proofs::FirstHigh::coefficient_is))]
pub fn check_coefficient(a: &[u32], m: u32, ring: usize) -> Result<(), Refusal>
    ensures { result ≡ coefficient m ring a.now }
{
    match first_high(a, m) {
        Some(place) => Err(Refusal {
            case: Case::Coefficient,
            ring,
            place,
        }),
        None => Ok(()),
    }
}

// By hand: beside `check_mismatch`, since each definition of a check has its function.
pub fn check_room(n: usize, len: usize) -> Result<(), Refusal>
    ensures { result ≡ room n len }
{
    refuse_if(len != n, Case::Room, 0, 0)
}

pub fn check_divisor(d: usize, n: usize, least: usize) -> Result<(), Refusal>
    requires { 0 < least }
    ensures { result ≡ divisor least n d }
{
    refuse_if(d < least || n % d != 0, Case::Divisor, 0, 0)
}

// 3 of the rings from ring 2 on.
fn check_lengths(n: usize, others: &[&[u32]]) -> Result<(), Refusal>
    ensures { result ≡ first (mismatches n 2 (lent others.now)) }
{
    for (i, b) in others.iter().enumerate() {
        check_mismatch(n, b.len(), i + 2)?;
    }
    Ok(())
}

// 1 to 4 of a call on rings: ring 1 is a, the others follow it.
#[tactic(auto, using(answer::proofs::Firsts::first_last))]
pub fn check_shape(a: &[u32], others: &[&[u32]], m: u32) -> Result<(), Refusal>
    ensures { result ≡ first (shape_order a.now (lent others.now) m) }
{
    let n = a.len();
    check_empty(n)?;
    check_large(n, MOST_ENTRIES)?;
    check_lengths(n, others)?;
    check_modulus(m, LEAST_MODULUS, MOST_MODULUS)
}

// 6 of these rings. Entries are looked at only where all checks before found nothing.
pub fn check_coefficients(a: &[u32], others: &[&[u32]], m: u32) -> Result<(), Refusal>
    ensures { result ≡ first (coefficients m 1 (a.now ∷ lent others.now)) }
{
    check_coefficient(a, m, 1)?;
    // By hand: as `check_lengths` goes; a closure's `F.post` would be as long as this loop.
    for (i, b) in others.iter().enumerate() {
        check_coefficient(b, m, i + 2)?;
    }
    Ok(())
}

// All checks up to 6 of a call on rings that has no factor list.
#[tactic(auto, using(crate::proofs::Orders::in_parts))]
pub fn check_rings(a: &[u32], others: &[&[u32]], m: u32) -> Result<(), Refusal>
    ensures { result ≡ first (ring_order a.now (lent others.now) m no_list []) }
{
    check_shape(a, others, m)?;
    check_coefficients(a, others, m)
}
