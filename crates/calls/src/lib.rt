// The calls mix, reduce and fold of document 01.
#![tactic(auto)]

ghost use Rattle.std.specs.Prelude.{◌≡◌, ◌+◌, ◌*◌, length};
ghost use Rattle.sums.specs.Sum.{sum};
ghost use Rattle.sums.specs.Table.{at};
ghost use Rattle.ring.specs.Fold as folded;
ghost use Rattle.calls.specs.Promises.{mix_order, reduce_order, fold_order, Mixes, Reduces, Folds};
ghost use Rattle.answer.specs.First.{first};
ghost use Rattle.calls.specs.Ready.{Foldable, InParts};

use answer::{Answer, Refusal};
use checks::{check_divisor, check_rings, check_room};
use convolve::convolve;
use limits::LEAST_MODULUS;
use slices::remainders;

#[tactic(auto, using(checks::proofs::Orders::then_rest))]
fn check_mix(a: &[u32], b: &[u32], m: u32, room: usize) -> Result<(), Refusal>
    ensures { result ≡ first (mix_order a.now b.now m room) }
{
    check_rings(a, &[b], m)?;
    check_room(a.len(), room)
}

#[tactic(auto, using(crate::proofs::Legal::mix_ready))]
pub fn mix(a: &[u32], b: &[u32], m: u32, out: &mut [u32]) -> Answer
    ensures { Mixes a.now b.now m out.old result out.new }
{
    check_mix(a, b, m, out.len())?;
    convolve(a, b, m, out);
    Ok(())
}

#[tactic(auto, using(checks::proofs::Orders::then_rest))]
fn check_reduce(a: &[u32], m: u32, divisor: u32, room: usize) -> Result<(), Refusal>
    ensures { result ≡ first (reduce_order a.now m divisor room) }
{
    check_rings(a, &[], m)?;
    check_room(a.len(), room)?;
    check_divisor(divisor as usize, m as usize, LEAST_MODULUS as usize)
}

#[tactic(auto, using(crate::proofs::Legal::reduce_ready))]
pub fn reduce(a: &[u32], m: u32, divisor: u32, out: &mut [u32]) -> Answer
    ensures { Reduces a.now m divisor out.old result out.new }
{
    check_reduce(a, m, divisor, out.len())?;
    remainders(a, divisor, out);
    Ok(())
}

// The sum of the entries at k, k + step, k + 2 step, ..: one from each part.
fn sum_parts(a: &[u32], step: usize, parts: usize, k: usize) -> u64
    requires { InParts a.now step parts k }
    ensures { result ≡ sum parts (λ t. at a.now (k + t * step)) }
{
    let mut total: u64 = 0;
    let mut i = k;
    // By hand: with `a[k + t * step]` a fold of 1,024 entries onto as many takes 1.3 times as long, with `step_by(step)` onto one 1.4 times, with `chunks(step)` 2.0 times.
    for _t in 0..parts {
        total += u64::from(a[i]);
        i += step;
    }
    total
}

fn fold_parts(a: &[u32], m: u32, out: &mut [u32])
    requires { Foldable a.now m out.old }
    ensures { out.new ≡ folded.fold (length a.now) (length out.old) m a.now }
{
    let step = out.len();
    let parts = a.len() / step;
    for (k, entry) in out.iter_mut().enumerate() {
        *entry = (sum_parts(a, step, parts, k) % u64::from(m)) as u32;
    }
}

#[tactic(auto, using(checks::proofs::Orders::then_rest))]
fn check_fold(a: &[u32], m: u32, onto: usize) -> Result<(), Refusal>
    ensures { result ≡ first (fold_order a.now m onto) }
{
    check_rings(a, &[], m)?;
    check_divisor(onto, a.len(), 1)
}

#[tactic(auto, using(crate::proofs::Legal::fold_ready))]
pub fn fold(a: &[u32], m: u32, out: &mut [u32]) -> Answer
    ensures { Folds a.now m out.old result out.new }
{
    check_fold(a, m, out.len())?;
    fold_parts(a, m, out);
    Ok(())
}
