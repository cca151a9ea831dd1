ghost use Rattle.std.specs.Prelude.{◌≡◌, ◌<◌, ◌≤◌, ◌^◌};
ghost use Rattle.limits.specs.Limits.{most_modulus};

// prime^exponent, which is value. That the prime is one is for those to ask who need it.
#[derive(Clone, Copy)]
pub struct Power {
    pub prime: u32,
    pub exponent: u32,
    pub value: u32,
    pub ghost above: { 1 < prime },
    pub ghost some: { 1 ≤ exponent },
    pub ghost is: { value ≡ prime ^ exponent },
    pub ghost limit: { value ≤ most_modulus },
}

impl Power {
    pub fn of(prime: u32, exponent: u32) -> Self
        requires { (1 < prime) × (1 ≤ exponent) × (prime ^ exponent ≤ most_modulus) }
        ensures { (result.prime ≡ prime) × (result.exponent ≡ exponent) }
    {
        Power {
            prime,
            exponent,
            value: prime.pow(exponent),
        }
    }
}
