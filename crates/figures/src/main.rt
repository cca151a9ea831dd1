// The figures of document 01 that are run and not proved: the limits of n, of m and of an entry, the matrix applied to a column, one lifting round,
// and factor lists.
#![tactic(auto)]

use answer::{Answer, Reply};
use factors::Factored;
use std::io;
use std::io::Print;

// The number, and the ring and the place, all of them also where they are not told. Each piece is written by itself.
fn say<R: Print>(rt: &R, figure: &str, answer: Answer) -> io::Result<()> {
    let reply = Reply::from(answer);
    print!(rt; "{figure}")?;
    print!(rt; " {}", reply.number)?;
    print!(rt; " {}", reply.ring)?;
    print!(rt; " {}", reply.place)?;
    println!(rt)
}

fn say_ring<R: Print>(rt: &R, figure: &str, ring: &[u32]) -> io::Result<()> {
    print!(rt; "{figure}")?;
    for x in ring {
        print!(rt; " {x}")?;
    }
    println!(rt)
}

// What mixing a ring with itself answers.
fn say_squared<R: Print>(
    rt: &R,
    figure: &str,
    ring: &[u32],
    m: u32,
    out: &mut [u32],
) -> io::Result<()> {
    say(rt, figure, calls::mix(ring, ring, m, out))
}

fn sizes<R: Print>(rt: &R) -> io::Result<()> {
    let ring = [1u32; 1024];
    let larger = [1u32; 1025];
    let mut out = [0u32; 1024];
    say_squared(rt, "n 1024:", &ring, 1000000, &mut out)?;
    say_squared(rt, "n 1025:", &larger, 1000000, &mut out)?;
    say_squared(rt, "n 0:", &[], 1000000, &mut out)
}

fn moduli<R: Print>(rt: &R) -> io::Result<()> {
    let ring = [0u32, 1];
    let mut out = [0u32; 2];
    say_squared(rt, "m 1:", &ring, 1, &mut out)?;
    say_squared(rt, "m 2:", &ring, 2, &mut out)?;
    say_squared(rt, "m 1000000:", &ring, 1000000, &mut out)?;
    say_squared(rt, "m 1000001:", &ring, 1000001, &mut out)
}

fn largest_entries<R: Print>(rt: &R) -> io::Result<()> {
    let mut out = [0u32; 3];
    say_squared(rt, "entry m-1:", &[1, 2, 9], 10, &mut out)?;
    say_squared(rt, "entry m:", &[1, 2, 10], 10, &mut out)
}

// The row times the matrix, and the matrix times the column: [1,2,0] turned round is [1,0,2].
fn row_and_column<R: Print>(rt: &R) -> io::Result<()> {
    let counts = [1u32, 0, 5];
    let mut out = [0u32; 3];
    let _ = calls::mix(&[1, 2, 0], &counts, 10, &mut out);
    say_ring(rt, "row:", &out)?;
    let _ = calls::mix(&[1, 0, 2], &counts, 10, &mut out);
    say_ring(rt, "column:", &out)
}

fn folded<R: Print>(rt: &R) -> io::Result<()> {
    let mut out = [0u32; 2];
    let _ = calls::fold(&[1, 2, 3, 4], 10, &mut out);
    say_ring(rt, "fold:", &out)
}

// Document 01's first error: [1,6] is right modulo 4, and modulo 8 its product with [1,2] is 5; all rounds give [5,6].
fn rounds<R: Print>(rt: &R) -> io::Result<()> {
    let mut low = [0u32; 2];
    let mut out = [0u32; 2];
    let _ = calls::mix(&[1, 2], &[1, 6], 8, &mut out);
    say_ring(rt, "one round, modulo 8:", &out)?;
    let _ = calls::reduce(&[1, 6], 8, 4, &mut low);
    let _ = calls::mix(&[1, 2], &low, 4, &mut out);
    say_ring(rt, "one round, modulo 4:", &out)?;
    let eight = Factored {
        modulus: 8,
        primes: &[2],
        exponents: &[3],
    };
    let _ = invert::invert(&[1, 2], eight, &mut out);
    say_ring(rt, "all rounds:", &out)
}

// What inverting [1] modulo 12 with this list answers.
fn say_list<R: Print>(rt: &R, figure: &str, primes: &[u32], exponents: &[u8]) -> io::Result<()> {
    let mut out = [0u32; 1];
    let list = Factored {
        modulus: 12,
        primes,
        exponents,
    };
    say(rt, figure, invert::invert(&[1], list, &mut out))
}

fn factor_lists<R: Print>(rt: &R) -> io::Result<()> {
    say_list(rt, "2 3 with 2 1:", &[2, 3], &[2, 1])?;
    say_list(rt, "4 3 with 1 1:", &[4, 3], &[1, 1])?;
    say_list(rt, "3 2 with 1 2:", &[3, 2], &[1, 2])?;
    say_list(rt, "2 3 with 255 1:", &[2, 3], &[255, 1])
}

fn main(rt: HostRuntime) -> io::Result<()> {
    sizes(&rt)?;
    moduli(&rt)?;
    largest_entries(&rt)?;
    row_and_column(&rt)?;
    folded(&rt)?;
    rounds(&rt)?;
    factor_lists(&rt)
}
