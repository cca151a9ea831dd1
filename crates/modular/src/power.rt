ghost use Rattle.modular.specs.Rounds.{Rounds};

// How often 1 must be doubled to reach k.
pub fn rounds(k: u32) -> u32
    ensures { Rounds k result }
{
    if k <= 1 {
        return 0;
    }
    32 - (k - 1).leading_zeros()
}
