// What a sheet comes to by what it holds: its rings are checked, the pattern is inverted or the readings unmixed, and the page put into a lent buffer.
#![tactic(auto)]

ghost use Rattle.std.specs.Prelude.{◌≡◌, ◌≤◌, length};
ghost use Rattle.answer.specs.First.{first};
ghost use Rattle.page.specs.Outcome.{held_order};
ghost use Rattle.page.specs.Report.{text_room};
ghost use Rattle.display.specs.Decoded.{decoded, ShowsHeld};
ghost use Rattle.display.specs.Inner.{LegalSheet, CanSolve, Solving};

use answer::Refusal;
use factors::Factored;
use feeding::{Sent, unmix_legal};
use invert::{Ghost, invert_legal};
use limits::MOST_ENTRIES;
use print::{put_ghost, put_inverse, put_refusal};

// What a sheet holds: a pattern, its readings where there are any, and a modulus with its factor list.
#[derive(Clone, Copy)]
pub struct Held<'a> {
    pub pattern: &'a [u32],
    pub readings: Option<&'a [u32]>,
    pub list: Factored<'a>,
}

// "With readings present, both rings are checked before anything is inverted."
fn check_held(held: Held<'_>) -> Result<(), Refusal>
    ensures { result ≡ first (held_order (decoded held.entry)) }
{
    held.list
        .check_rings(held.pattern, held.readings.as_slice())
}

// `inverse` becomes the inverse of the pattern, or its ghost. The counts are told where there are readings.
fn solve<'a>(
    held: Held<'_>,
    inverse: &mut [u32],
    counts: &'a mut [u32],
) -> Result<Option<&'a [u32]>, Ghost>
    requires { CanSolve (decoded held) inverse.old counts.old }
    ensures { Solving (decoded held.entry) inverse.new result }
{
    let Some(readings) = held.readings else {
        invert_legal(held.pattern, held.list, inverse)?;
        return Ok(None);
    };
    let sent = Sent {
        pattern: held.pattern,
        readings,
    };
    unmix_legal(sent, held.list, inverse, counts)?;
    Ok(Some(counts))
}

// The page of a sheet that no check refuses.
fn display_legal(held: Held<'_>, text: &mut [u8]) -> usize
    requires { LegalSheet (decoded held) text.old }
    ensures { ShowsHeld (decoded held.entry) text.old text.new result }
{
    let n = held.pattern.len();
    let m = held.list.modulus;
    let inverse = &mut [0u32; MOST_ENTRIES][..n];
    let counts = &mut [0u32; MOST_ENTRIES][..n];
    match solve(held, inverse, counts) {
        Ok(counts) => put_inverse(text, n, m, inverse, counts),
        Err(why) => put_ghost(text, n, m, why.prime, inverse),
    }
}

// Checks what a sheet holds, inverts or unmixes, and writes its page at the start of `text`; answers where it ends.
pub fn display(held: Held<'_>, text: &mut [u8]) -> usize
    requires { text_room ≤ length text.old }
    ensures { ShowsHeld (decoded held.entry) text.old text.new result }
{
    match check_held(held) {
        Ok(()) => display_legal(held, text),
        Err(refusal) => put_refusal(text, refusal),
    }
}
