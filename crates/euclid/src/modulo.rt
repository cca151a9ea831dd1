ghost use Rattle.std.specs.Prelude.{◌≡◌, ◌<◌, ◌≤◌, true};
ghost use Rattle.modular.specs.PrimeTest.{prime?};
ghost use Rattle.rows.specs.Row.{most_row_modulus};

// A modulus that rows of words take. prime: it is known to be a prime.
// By hand: a flag and not two types, since modulo either one Euclid is the same but for the inverse of a leading number.
#[derive(Clone, Copy)]
pub struct Modulus {
    pub value: u32,
    pub prime: bool,
    pub ghost two: { 1 < value },
    pub ghost word: { value ≤ most_row_modulus },
    pub ghost known: { prime ≡ true → prime? value ≡ true },
}
