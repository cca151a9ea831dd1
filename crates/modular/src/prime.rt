ghost use Rattle.modular.specs.Prime.{TellsPrime};

// No number of 32 bits reaches its square.
const ROOT: u32 = 0x1_0000;

// Whether p is a prime, by trial division.
pub fn is_prime(p: u32) -> bool
    ensures { TellsPrime p result }
{
    if p < 2 {
        return false;
    }
    if p % 2 == 0 {
        return p == 2;
    }
    let mut q = p / 3;
    for d in (3..ROOT).step_by(2) {
        if q < d {
            return true;
        }
        if q * d == p {
            return false;
        }
        q = p / (d + 2);
    }
    true
}
