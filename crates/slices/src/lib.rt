// Small loops on plain slices that several crates need.
#![tactic(auto)]

ghost use Rattle.std.specs.Prelude.{◌≡◌, ◌++◌, ◌*◌, ◌≤◌, length, drop};
ghost use Rattle.sums.specs.Table.{at, table};
ghost use Rattle.ring.specs.Reduce.{reduce};
ghost use Rattle.slices.specs.Asks.{Reducible, Multipliable};

// out becomes the remainders of all entries of a.
pub fn remainders(a: &[u32], divisor: u32, out: &mut [u32])
    requires { Reducible a.now divisor out.old }
    ensures { out.new ≡ reduce (length a.now) divisor a.now }
{
    for (i, x) in a.iter().enumerate() {
        out[i] = *x % divisor;
    }
}

// dst begins with src.
// By hand: of `copy_from_slice` in `euclid::over` the compiler makes a memmove, which the library for C would need from elsewhere.
pub fn copy(src: &[u32], dst: &mut [u32])
    requires { length src.now ≤ length dst.old }
    ensures { dst.new ≡ src.now ++ drop (length src.now) dst.old }
{
    for (i, &x) in src.iter().enumerate() {
        dst[i] = x;
    }
}

// Each entry becomes its multiple by a factor.
pub fn multiply(row: &mut [u32], factor: u32)
    requires { Multipliable row.old factor }
    ensures { row.new ≡ table (length row.old) (λ k. factor * at row.old k) }
{
    for x in row.iter_mut() {
        *x *= factor;
    }
}
