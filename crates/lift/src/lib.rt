// From inverses modulo primes to inverses modulo their powers, and from those to one modulo their product.
#![tactic(auto)]

ghost use Rattle.std.specs.Prelude.{◌≡◌, ◌+◌, ◌-◌, ◌*◌, ◌%◌, min, length};
ghost use Rattle.sums.specs.Table.{at, table};
ghost use Rattle.ring.specs.Inverse.{Inverse};
ghost use Rattle.lift.specs.Asks.{Lessened, Round, Rounded, Liftable, Blendable, Blends, Joinable, Joined};

// A prime's power.
pub mod power;

use crate::power::Power;
use convolve::convolve;
use limits::MOST_ENTRIES;
use modular::power::rounds;
use slices::remainders;

// g becomes 2 g - h modulo q.
fn twice_less(g: &mut [u32], h: &[u32], q: u32)
    requires { Lessened g.old h.now q }
    ensures { g.new ≡ table (length g.old) (λ k. (2 * at g.old k + (q - at h.now k)) % q) }
{
    for (k, y) in h.iter().enumerate() {
        g[k] = (2 * g[k] + (q - *y)) % q;
    }
}

// g becomes 2 g - g² f modulo q. The other three are lent for what lies between.
fn round(
    f: &[u32],
    g: &mut [u32],
    q: u32,
    pattern: &mut [u32],
    square: &mut [u32],
    product: &mut [u32],
)
    requires { Round f.now g.old q pattern.old square.old product.old }
    ensures { Rounded f.now g.old q g.new }
{
    remainders(f, q, pattern);
    convolve(g, g, q, square);
    convolve(square, pattern, q, product);
    twice_less(g, product, q);
}

// The square of q, but at most top.
fn squared(q: u32, top: u32) -> u32
    ensures { result ≡ min (q * q) top }
{
    q.saturating_mul(q).min(top)
}

// g, the inverse of f modulo a prime, becomes the inverse modulo its power.
pub fn lift(f: &[u32], g: &mut [u32], power: Power)
    requires { Liftable f.now g.old power }
    ensures { Inverse (length f.now) power.value f.now g.new }
{
    let n = f.len();
    let pattern = &mut [0u32; MOST_ENTRIES][..n];
    let square = &mut [0u32; MOST_ENTRIES][..n];
    let product = &mut [0u32; MOST_ENTRIES][..n];
    let turns = rounds(power.exponent);
    let mut q = power.prime;
    for _t in 0..turns {
        q = squared(q, power.value);
        round(f, g, q, pattern, square, product);
    }
}

fn blended(x: u32, y: u32, first: u64, second: u64, m: u64) -> u32
    requires { Blendable x y first second m }
    ensures { result ≡ (first * x + second * y) % m }
{
    ((first * u64::from(x) + second * u64::from(y)) % m) as u32
}

// Each entry of acc becomes first times that of g and second times its own, modulo m.
fn blend(g: &[u32], acc: &mut [u32], first: u64, second: u64, m: u64)
    requires { Blends g.now acc.old first second m }
    ensures { acc.new ≡ table (length g.now) (λ k. (first * at g.now k + second * at acc.old k) % m) }
{
    for (k, x) in g.iter().enumerate() {
        acc[k] = blended(*x, acc[k], first, second, m);
    }
}

// acc, the inverse of a pattern modulo big, and g, its inverse modulo q, become one modulo q times big. z is the inverse of big modulo q.
pub fn join(g: &[u32], acc: &mut [u32], q: u32, big: u32, z: u32)
    requires { Joinable g.now acc.old q big z }
    ensures { Joined g.now acc.old q big acc.new }
{
    let m = u64::from(q) * u64::from(big);
    let first = u64::from(z) * u64::from(big);
    blend(g, acc, first, m + 1 - first, m);
}
