// Sums of products along a row, four at a time: what the product of rings is made of. A sum is added first and reduced last; where it has more than BLOCK
// products, it is reduced once a block.
#![tactic(auto)]

ghost use Rattle.std.specs.Prelude.{◌≡◌, ◌+◌, ◌*◌, ◌%◌, ◌^◌, ◌<◌};
ghost use Rattle.sums.specs.Table.{table};
ghost use Rattle.along.specs.Along.{along};
ghost use Rattle.along.specs.Asks.{ProductFits, OneBlock, AnyLength};

// The most products that are added before a remainder is taken.
const BLOCK: usize = 1024;

// x, masked, so that LLVM sees a factor of 32 bits.
fn low(x: u64) -> u64
    requires { x < 2 ^ 32 }
    ensures { result ≡ x }
{
    x & 0xffff_ffff
}

fn plus_product(s: u64, x: u64, y: u64) -> u64
    requires { ProductFits s x y }
    ensures { result ≡ s + x * y }
{
    s + low(x) * low(y)
}

// x along c from 0, 1, 2 and 3 on: at most a block of products each.
fn four_sums(x: &[u64], c: &[u64]) -> [u64; 4]
    requires { OneBlock x.now c.now }
    ensures { result ≡ table 4 (along x.now c.now) }
{
    let mut sums = [0; 4];
    for (i, &y) in x.iter().enumerate() {
        for (j, sum) in sums.iter_mut().enumerate() {
            *sum = plus_product(*sum, y, c[i + j]);
        }
    }
    sums
}

// As four_sums, for any number of products, and modulo m: block after block, with a remainder after each.
pub fn four_entries(x: &[u64], c: &[u64], m: u32) -> [u64; 4]
    requires { AnyLength x.now c.now m }
    ensures { result ≡ table 4 (λ j. along x.now c.now j % m) }
{
    let mut sums = [0; 4];
    for (k, block) in x.chunks(BLOCK).enumerate() {
        let block_sums = four_sums(block, &c[k * BLOCK..]);
        for (j, sum) in sums.iter_mut().enumerate() {
            *sum = (*sum + block_sums[j]) % u64::from(m);
        }
    }
    sums
}
