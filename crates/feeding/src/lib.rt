// The calls unmix and same feeding of document 01, and unmixing without its checks.
#![tactic(auto)]

ghost use Rattle.std.specs.Prelude.{◌≡◌, ◌↔◌, true, length};
ghost use Rattle.ring.specs.Mix.{mix};
ghost use Rattle.convolve.specs.Mixable.{Mixable};
ghost use Rattle.answer.specs.First.{first};
ghost use Rattle.factors.specs.Factored.{factored_of};
ghost use Rattle.pattern.specs.Same.{Same};
ghost use Rattle.pattern.specs.Granted.{BothGranted};
ghost use Rattle.pattern.specs.Promises.{unmix_order, Unmixes, SameFeeding};
ghost use Rattle.feeding.specs.Sent.{sent_of};
ghost use Rattle.feeding.specs.Told.{answer_in, yes};
ghost use Rattle.feeding.specs.Unmixings.{CanCount, Counted, CanUnmix, Unmixing};
ghost use Rattle.feeding.specs.Inner.{Judged};

use answer::{Answer, Failure, Refusal};
use checks::{check_room, first_high};
use convolve::convolve;
use factors::Factored;
use invert::{Ghost, invert_legal};
use limits::MOST_ENTRIES;

// What a logger sends: a pattern, and its readings.
#[derive(Clone, Copy)]
pub struct Sent<'a> {
    pub pattern: &'a [u32],
    pub readings: &'a [u32],
}

// The readings mixed with the inverse.
// Not inlined: else the program unmix holds the product's rows while it inverts, and needs 24 KiB more of stack.
#[inline(never)]
fn counts_behind(inverse: &[u32], readings: &[u32], m: u32, out: &mut [u32])
    requires { Mixable inverse.now readings.now m out.old }
    ensures { out.new ≡ mix (length inverse.now) m inverse.now readings.now }
{
    convolve(inverse, readings, m, out);
}

// Unmix where nothing is left to check: `inverse` becomes the inverse of the pattern, or its ghost, and out the counts behind the readings, or it stays as it
// came.
pub fn unmix_legal(
    s: Sent<'_>,
    m: Factored<'_>,
    inverse: &mut [u32],
    out: &mut [u32],
) -> Result<(), Ghost>
    requires { CanUnmix (sent_of s) (factored_of m) inverse.old out.old }
    ensures { Unmixing (sent_of s.entry) m.entry.modulus out.old inverse.new out.new result }
{
    invert_legal(s.pattern, m, inverse)?;
    counts_behind(inverse, s.readings, m.modulus, out);
    Ok(())
}

// out becomes the counts behind the readings, or stays as it came.
fn count(s: Sent<'_>, m: Factored<'_>, out: &mut [u32]) -> Result<(), Ghost>
    requires { CanCount (sent_of s) (factored_of m) out.old }
    ensures { Counted (sent_of s.entry) m.entry.modulus out.old out.new result }
{
    let n = s.pattern.len();
    let inverse = &mut [0u32; MOST_ENTRIES][..n];
    unmix_legal(s, m, inverse, out)
}

#[tactic(auto, using(checks::proofs::Orders::then_rest))]
fn check_unmix(s: Sent<'_>, m: Factored<'_>, room: usize) -> Result<(), Refusal>
    ensures { result ≡ first (unmix_order (sent_of s.entry) (factored_of m.entry) room) }
{
    m.check_rings(s.pattern, &[s.readings])?;
    check_room(s.pattern.len(), room)
}

pub fn unmix(s: Sent<'_>, m: Factored<'_>, out: &mut [u32]) -> Answer
    ensures { Unmixes (sent_of s.entry) (factored_of m.entry) out.old result out.new }
{
    check_unmix(s, m, out.len())?;
    count(s, m, out).map_err(|why| why.of_ring(1))
}

// Whether two rings of counts are the same feeding: they agree, and at least one entry isn't zero.
fn same_counts(a: &[u32], b: &[u32]) -> bool
    requires { length b.now ≡ length a.now }
    ensures { (result ≡ true) ↔ Same (length a.now) a.now b.now }
{
    first_high(a, 1).is_some() && a == b
}

// Both sides are unmixed and the counts compared.
fn compare(first: Sent<'_>, second: Sent<'_>, m: Factored<'_>) -> Result<bool, Failure>
    requires { BothGranted (sent_of first) (sent_of second) (factored_of m) }
    ensures { Judged m.entry.modulus (sent_of first.entry) (sent_of second.entry) result }
{
    let n = first.pattern.len();
    let c1 = &mut [0u32; MOST_ENTRIES][..n];
    let c2 = &mut [0u32; MOST_ENTRIES][..n];
    count(first, m, c1).map_err(|why| why.of_ring(1))?;
    count(second, m, c2).map_err(|why| why.of_ring(3))?;
    Ok(same_counts(c1, c2))
}

pub fn same_feeding(first: Sent<'_>, second: Sent<'_>, m: Factored<'_>) -> Result<bool, Failure>
    ensures { SameFeeding (sent_of first.entry) (sent_of second.entry) (factored_of m.entry) (answer_in result) (yes result) }
{
    m.check_rings(
        first.pattern,
        &[first.readings, second.pattern, second.readings],
    )?;
    compare(first, second, m)
}
