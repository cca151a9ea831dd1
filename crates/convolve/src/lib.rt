// The product of two rings on plain slices: the work behind the public call mix.
//
// a is laid out backwards, and b around and around; both in words of 64 bits. Entry k of the product is then a backwards
// along the part of b that starts at k + 1: no place wraps inside a sum, and four sums at a time share what they read.
#![tactic(auto)]

ghost use Rattle.std.specs.Prelude.{◌≡◌, ◌++◌, ◌+◌, ◌%◌, ◌≤◌, length, drop};
ghost use Rattle.sums.specs.Table.{table};
ghost use Rattle.ring.specs.Mix.{mix};
ghost use Rattle.along.specs.Along.{along};
ghost use Rattle.convolve.specs.Mixable.{Mixable};
ghost use Rattle.convolve.specs.Layout.{backwards, around};
ghost use Rattle.convolve.specs.Inner.{Rows, HoldsOnce, RoomForBoth};

use along::four_entries;
use limits::MOST_ENTRIES;

// Rings of up to this many entries are laid out in small arrays, which cost less to clear.
const FEW: usize = 128;

// How long b is laid out.
const FEW_AROUND: usize = 2 * FEW + 3;

const MOST_AROUND: usize = 2 * MOST_ENTRIES + 3;

// Entry k is x along d from k + 1 on.
fn entries(x: &[u64], d: &[u64], m: u32, out: &mut [u32])
    requires { Rows x.now d.now m out.old }
    ensures { out.new ≡ table (length out.old) (λ k. along x.now d.now (k + 1) % m) }
{
    let n = x.len();
    for k in (0..n).step_by(4) {
        let from = k + 1;
        let sums = four_entries(x, &d[from..], m);
        // By hand: after chunks_mut(4), or iter_mut() under zip, nothing is known of what was written, and the goal `returns` stays open.
        for (j, &sum) in sums.iter().enumerate() {
            if k + j < n {
                out[k + j] = sum as u32;
            }
        }
    }
}

fn lay_backwards(a: &[u32], x: &mut [u64])
    requires { length x.old ≡ length a.now }
    ensures { x.new ≡ backwards a.now }
{
    for (i, entry) in x.iter_mut().enumerate() {
        let j = a.len() - (i + 1);
        *entry = u64::from(a[j]);
    }
}

fn lay_once(b: &[u32], d: &mut [u64])
    requires { length b.now ≤ length d.old }
    ensures { d.new ≡ around (length b.now) b.now ++ drop (length b.now) d.old }
{
    for (j, &entry) in b.iter().enumerate() {
        d[j] = u64::from(entry);
    }
}

// b around and around, as far as d goes.
fn lay_around(b: &[u32], d: &mut [u64])
    requires { HoldsOnce b.now d.old }
    ensures { d.new ≡ around (length d.old) b.now }
{
    let n = b.len();
    lay_once(b, d);
    // By hand: an entry comes from the same slice, n places before, and no iterator lends both.
    for j in n..d.len() {
        d[j] = d[j - n];
    }
}

// The product of rings of at most N entries, with room for both layouts.
fn convolve_within<const N: usize, const D: usize>(a: &[u32], b: &[u32], m: u32, out: &mut [u32])
    requires { RoomForBoth N D a.now b.now m out.old }
    ensures { out.new ≡ mix (length a.now) m a.now b.now }
{
    let n = a.len();
    let mut x = [0u64; N];
    let mut d = [0u64; D];
    let x = &mut x[..n];
    let d = &mut d[..2 * n + 3];
    lay_backwards(a, x);
    lay_around(b, d);
    entries(x, d, m, out);
}

// Entry k of out becomes the sum over i of a_i times b_((k-i) mod n), modulo m.
pub fn convolve(a: &[u32], b: &[u32], m: u32, out: &mut [u32])
    requires { Mixable a.now b.now m out.old }
    ensures { out.new ≡ mix (length a.now) m a.now b.now }
{
    if a.len() <= FEW {
        convolve_within::<FEW, FEW_AROUND>(a, b, m, out);
    } else {
        convolve_within::<MOST_ENTRIES, MOST_AROUND>(a, b, m, out);
    }
}
