ghost use Rattle.std.specs.Prelude.{◌<◌};
ghost use Rattle.modular.specs.Inverse.{InverseOf, Nonzero, Lead};
ghost use Rattle.modular.specs.Finds.{Finds};

// What a number and the modulus share, above 1, where there is no inverse.
#[derive(Clone, Copy, Debug, PartialEq, Eq)]
pub struct Shares {
    pub divisor: u32,
}

// The inverse of a number, or the greatest common divisor with the modulus where there is none.
// Extended Euclid on m and y. The factors s and t have no signs: b is s y and a is -t y modulo m, and a s + b t is m.
pub fn inverse(y: u32, m: u32) -> Result<u32, Shares>
    requires { 1 < m }
    ensures { Finds m y result }
{
    let mut a = m;
    let mut b = y % m;
    let mut s = 1;
    let mut t = 0;
    while 1 < b {
        t += a / b * s;
        a %= b;
        if a == 1 {
            return Ok(m - t);
        }
        if a == 0 {
            return Err(Shares { divisor: b });
        }
        s += b / a * t;
        b %= a;
    }
    if b == 1 {
        return Ok(s);
    }
    Err(Shares { divisor: a })
}

// The inverse of y modulo a prime.
pub fn inverse_mod_prime(y: u32, p: u32) -> u32
    requires { Nonzero p y }
    ensures { InverseOf p y result }
{
    // By hand: `unwrap` would leave a trap in Euclid's loop, which bench/bounds forbids.
    inverse(y, p).unwrap_or(0)
}

// What is found of the inverse of a leading number. prime: the modulus is known to be a prime.
// By hand: a flag and no `impl Fn`, since what it stands for is a fact: `Lead` and `Modulus` state it once, where `F.post` would stand in each of Euclid's contracts.
pub fn lead_inverse(y: u32, m: u32, prime: bool) -> Result<u32, Shares>
    requires { Lead m y prime }
    ensures { Finds m y result }
{
    if prime {
        return Ok(inverse_mod_prime(y, m));
    }
    inverse(y, m)
}
