// Rows of numbers below a modulus p: multiples by a fixed factor, with no division for an entry.
#![tactic(auto)]

ghost use Rattle.std.specs.Prelude.{◌≡◌, ◌+◌, ◌*◌, ◌%◌, ◌<◌, length};
ghost use Rattle.rows.specs.Row.{Prepared, LinearAddable, Scalable, times, times_linear, terms, plus};
ghost use Rattle.rows.specs.Near.{Near, Entry, TwoEntries};

// r modulo p, of r below three times p.
fn thrice(r: u32, p: u32) -> u32
    requires { r < 3 * p }
    ensures { result ≡ r % p }
{
    let s = if p <= r { r - p } else { r };
    if p <= s { s - p } else { s }
}

// x + t modulo p.
fn plus_near(x: u32, t: u64, s: u64, p: u32) -> u32
    requires { Near x t s p }
    ensures { result ≡ (x + t) % p }
{
    let q = u64::from((s >> 32) as u32);
    thrice((u64::from(x) + t - q * u64::from(p)) as u32, p)
}

// A factor below the modulus of a row, and its quotient: computed once for a row, it spares a division for each entry.
#[derive(Clone, Copy)]
pub struct Factor {
    pub value: u32,
    pub quotient: u32,
    pub modulus: u32,
    pub ghost prepared: { Prepared modulus value quotient },
}

impl Factor {
    pub fn new(value: u32, modulus: u32) -> Factor
        requires { value < modulus }
        ensures value { result.value ≡ value }
        ensures modulus { result.modulus ≡ modulus }
    {
        let quotient = (0x1_0000_0000 * u64::from(value) / u64::from(modulus)) as u32;
        Factor {
            value,
            quotient,
            modulus,
        }
    }

    // x + f y modulo p, where f is the factor.
    pub fn plus_multiple(self, x: u32, y: u32) -> u32
        requires { Entry self.modulus x y }
        ensures { result ≡ (x + self.value * y) % self.modulus }
    {
        let a = u64::from(y);
        let t = u64::from(self.value) * a;
        let s = u64::from(self.quotient) * a;
        plus_near(x, t, s, self.modulus)
    }

    // The row becomes its multiple.
    pub fn scale(self, row: &mut [u32])
        requires { Scalable self.modulus row.old }
        ensures { row.new ≡ terms (length row.old) self.modulus (times self.value row.old) }
    {
        for y in row.iter_mut() {
            *y = self.plus_multiple(0, *y);
        }
    }
}

// x + f y + g z modulo p, where low is f and high g.
fn plus_two(x: u32, y: u32, z: u32, low: Factor, high: Factor) -> u32
    requires { TwoEntries low.modulus high.modulus x y z }
    ensures { result ≡ (x + (low.value * y + high.value * z)) % low.modulus }
{
    let a = u64::from(y);
    let b = u64::from(z);
    let t = u64::from(low.value) * a + u64::from(high.value) * b;
    let s = u64::from(low.quotient) * a + u64::from(high.quotient) * b;
    plus_near(x, t, s, low.modulus)
}

// dst plus low + high x times src, where entry i stands for x^i; what is past the product's length stays.
pub fn add_linear(dst: &mut [u32], src: &[u32], low: Factor, high: Factor)
    requires { LinearAddable low.modulus high.modulus dst.old src.now }
    ensures { dst.new ≡ plus low.modulus dst.old (times_linear low.value high.value src.now) }
{
    let mut last = 0;
    for (i, &y) in src.iter().enumerate() {
        dst[i] = plus_two(dst[i], y, last, low, high);
        last = y;
    }
    let n = src.len();
    dst[n] = high.plus_multiple(dst[n], last);
}
