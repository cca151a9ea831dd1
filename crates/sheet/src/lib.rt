// The reader of document 01's pattern sheet: it walks over the fields, and tells what the sheet holds and where.
#![tactic(auto)]

ghost use Rattle.std.specs.Prelude.{◌≡◌, ℕ, ◌+◌, ◌*◌, ◌≤◌, ◌<◌, length, slice_get, slice_range, IfSome};
ghost use Rattle.std.specs.Fn.{FnReturnsAt};
ghost use Rattle.sums.specs.Table.{table};
ghost use Rattle.sheet.specs.Walked.{Walked};
ghost use Rattle.sheet.specs.Sheets.{sheet_of};
ghost use Rattle.sheet.specs.Entries.{number_of, exponent_of, HoldsNumbers};

use answer::{Case, Refusal};
use fields::{Fields, Part, check_end, check_value, header_at};
use limits::{FACTOR_BYTES, HEADER_BYTES};
use octets::number_at;

// What a sheet holds, and where.
#[derive(Clone, Copy, Debug, PartialEq, Eq)]
pub struct Sheet {
    pub modulus: u32,
    pub factors: Part,
    pub pattern: Part,
    pub readings: Option<Part>,
}

// Walks over the fields of a sheet, checking each: those that have come, or which refusal the sheet gets at which offset.
fn walk(bytes: &[u8]) -> Result<Fields, Refusal>
    ensures { Walked bytes.now result }
{
    let mut found = Fields::none();
    let mut at = 0;
    while at < bytes.len() {
        let cut = Refusal {
            case: Case::Cut,
            ring: 0,
            place: at,
        };
        let header = header_at(bytes, at).ok_or(cut)?;
        check_value(bytes, at, header, found)?;
        let from = at + HEADER_BYTES;
        let len = header.len;
        found = found.with(header.tag, Part { from, len });
        at = from + len;
    }
    check_end(found, bytes.len())?;
    Ok(found)
}

// Reads a sheet: what it holds and where, or which refusal it gets at which offset.
pub fn read(bytes: &[u8]) -> Result<Sheet, Refusal>
    ensures { result ≡ sheet_of bytes.now }
{
    let found = walk(bytes)?;
    Ok(Sheet {
        modulus: number_at(bytes, found.modulus.unwrap().from),
        factors: found.factors.unwrap(),
        pattern: found.pattern.unwrap(),
        readings: found.readings,
    })
}

// Reads the entries of a part, `step` bytes each, as many as out takes.
// By hand: over `out.iter_mut().zip(part.chunks_exact(step))` the goal `returns` stays open, since a proof knows no element that is written through a zip.
fn read_entries<T: Copy, F: Fn(&[u8]) -> T>(part: &[u8], step: usize, entry: F, out: &mut [T])
    requires room { length out.old * step ≤ length part.now }
    requires reads { (bytes : _) → length bytes.now ≡ step → F.pre entry bytes }
    ensures { (i : ℕ) → IfSome (slice_get out.new i) (λ x. FnReturnsAt F.Fn entry (slice_range part.now (i * step) (i * step + step)) x) }
{
    for (i, x) in out.iter_mut().enumerate() {
        let from = i * step;
        *x = entry(&part[from..from + step]);
    }
}

// The numbers of a part, each `step` bytes after the one before, as many as out takes.
pub fn numbers_of(part: &[u8], step: usize, out: &mut [u32])
    requires { HoldsNumbers part.now step (length out.old) }
    ensures { out.new ≡ table (length out.old) (number_of step part.now) }
{
    read_entries(part, step, |entry| number_at(entry, 0), out);
}

// The exponents of a part that holds factors, as many as out takes.
pub fn exponents_of(part: &[u8], out: &mut [u8])
    requires { HoldsNumbers part.now 5 (length out.old) }
    ensures { out.new ≡ table (length out.old) (exponent_of part.now) }
{
    read_entries(part, FACTOR_BYTES, |entry| entry[4], out);
}
