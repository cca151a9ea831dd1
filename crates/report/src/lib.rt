// What a sheet comes to, as text: the work of the program unmix.
#![tactic(auto)]

ghost use Rattle.std.specs.Prelude.{◌≡◌, ◌/◌, ◌≤◌, length};
ghost use Rattle.limits.specs.Limits.{entry_bytes};
ghost use Rattle.sheet.specs.Entries as entries;
ghost use Rattle.sheet.specs.Held.{held};
ghost use Rattle.page.specs.Report.{Reports};
ghost use Rattle.display.specs.Decoded.{ShowsHeld};
ghost use Rattle.report.specs.Inner.{in_parts, Parts, Accepted};

use display::{Held, display};
use factors::Factored;
use limits::{ENTRY_BYTES, FACTOR_BYTES, MOST_DIGITS, MOST_ENTRIES, MOST_FACTORS};
use print::put_refusal;
use sheet::{Sheet, exponents_of, numbers_of, read};

// Room for every text: two rings with a blank before each entry, and the words.
pub const TEXT_ROOM: usize = 2 * MOST_ENTRIES * (1 + MOST_DIGITS) + 128;

// The entries of a part, at the start of what is lent for them.
fn entries_of<'a>(part: &[u8], room: &'a mut [u32]) -> &'a [u32]
    requires { length part.now / entry_bytes ≤ length room.old }
    ensures { result.now ≡ entries.entries_of part.now }
{
    let out = &mut room[..part.len() / ENTRY_BYTES];
    numbers_of(part, ENTRY_BYTES, out);
    out
}

// The text of parts that are no longer than a sheet's.
fn report_parts(
    factors: &[u8],
    pattern: &[u8],
    readings: Option<&[u8]>,
    modulus: u32,
    text: &mut [u8],
) -> usize
    requires { Parts factors.now pattern.now readings text.old }
    ensures { ShowsHeld (in_parts factors.now pattern.now readings.entry modulus) text.old text.new result }
{
    let listed = factors.len() / FACTOR_BYTES;
    let primes = &mut [0u32; MOST_FACTORS][..listed];
    let exponents = &mut [0u8; MOST_FACTORS][..listed];
    numbers_of(factors, FACTOR_BYTES, primes);
    exponents_of(factors, exponents);
    let list = Factored {
        modulus,
        primes,
        exponents,
    };
    let mut first = [0u32; MOST_ENTRIES];
    let mut second = [0u32; MOST_ENTRIES];
    let held = Held {
        pattern: entries_of(pattern, &mut first),
        readings: readings.map(|part| entries_of(part, &mut second)),
        list,
    };
    display(held, text)
}

// The text of a sheet that was read.
#[tactic(auto, using(crate::proofs::Reading::parts))]
fn report_accepted(bytes: &[u8], sheet: Sheet, text: &mut [u8]) -> usize
    requires { Accepted bytes.now sheet text.old }
    ensures { ShowsHeld (held bytes.now sheet) text.old text.new result }
{
    report_parts(
        sheet.factors.of(bytes),
        sheet.pattern.of(bytes),
        sheet.readings.map(|part| part.of(bytes)),
        sheet.modulus,
        text,
    )
}

// Writes the text of a sheet at the start of `text` and answers its length; 0, and nothing written, where `text` has less than TEXT_ROOM bytes.
// By hand: 0 and no Option, since the C call `dowelbrook_report`, whose clause is `Reports` too, answers a buffer without room so.
pub fn report(bytes: &[u8], text: &mut [u8]) -> usize
    ensures { Reports bytes.now text.old text.new result }
{
    if text.len() < TEXT_ROOM {
        return 0;
    }
    match read(bytes) {
        Ok(sheet) => report_accepted(bytes, sheet, text),
        Err(refusal) => put_refusal(text, refusal),
    }
}
