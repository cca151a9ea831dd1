ghost use Rattle.std.specs.Prelude.{◌≡◌, ◌*◌, ◌^◌, ◌<◌, eqb};
ghost use Rattle.modular.specs.FactorList.{Rising, powers};
ghost use Rattle.modular.specs.Capped.{Capped};

// x times p^e, or some number above m where that is above m: no product wraps.
fn times_power(x: u64, p: u32, e: u8, m: u32) -> u64
    requires { 0 < p }
    ensures { Capped m (x * p ^ e) result }
{
    let mut product = x;
    for _k in 0..e {
        if u64::from(m) < product {
            return product;
        }
        product *= u64::from(p);
    }
    product
}

// The product of the powers, or some number above m where that is above m.
fn product(primes: &[u32], exponents: &[u8], m: u32) -> u64
    requires { Rising 0 primes.now exponents.now }
    ensures { Capped m (powers primes.now exponents.now) result }
{
    let mut x = 1;
    for (p, e) in primes.iter().zip(exponents) {
        x = times_power(x, *p, *e, m);
    }
    x
}

// Whether the powers multiply to m.
pub fn multiply_to(primes: &[u32], exponents: &[u8], m: u32) -> bool
    requires { Rising 0 primes.now exponents.now }
    ensures { result ≡ eqb (powers primes.now exponents.now) m }
{
    let made = product(primes, exponents, m);
    made == u64::from(m)
}
