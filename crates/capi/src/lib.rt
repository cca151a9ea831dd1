// The calls for C, Rust and Python: no call has a requires, each keeps the contract of the call behind it and replies in the paper's numbers.
// include/dowelbrook.h declares them.
#![tactic(auto)]

ghost use Rattle.std.specs.Prelude.{◌≡◌};
ghost use Rattle.answer.specs.Reply.{Replied};
ghost use Rattle.calls.specs.Promises.{Mixes, Reduces, Folds};
ghost use Rattle.pattern.specs.Sent.{sent};
ghost use Rattle.factors.specs.Factored.{factored};
ghost use Rattle.pattern.specs.Promises.{Inverts, Unmixes};
ghost use Rattle.sheet.specs.Sheets.{sheet_of};
ghost use Rattle.page.specs.Report.{Reports};
ghost use Rattle.capi.specs.Judgement.{judgement_of, Judges};
ghost use Rattle.capi.specs.SheetReply.{accepted, refused, sheet_reply};

use answer::{Failure, Refusal, Reply};
use factors::Factored;
use feeding::Sent;
use fields::Part;
use sheet::{Sheet, read};

#[unsafe(no_mangle)]
pub extern "C" fn dowelbrook_mix(a: &[u32], b: &[u32], m: u32, out: &mut [u32]) -> Reply
    ensures { Replied (λ answer. Mixes a.now b.now m out.old answer out.new) result }
{
    Reply::from(calls::mix(a, b, m, out))
}

#[unsafe(no_mangle)]
pub extern "C" fn dowelbrook_reduce(a: &[u32], m: u32, divisor: u32, out: &mut [u32]) -> Reply
    ensures { Replied (λ answer. Reduces a.now m divisor out.old answer out.new) result }
{
    Reply::from(calls::reduce(a, m, divisor, out))
}

#[unsafe(no_mangle)]
pub extern "C" fn dowelbrook_fold(a: &[u32], m: u32, out: &mut [u32]) -> Reply
    ensures { Replied (λ answer. Folds a.now m out.old answer out.new) result }
{
    Reply::from(calls::fold(a, m, out))
}

#[unsafe(no_mangle)]
pub extern "C" fn dowelbrook_invert(
    f: &[u32],
    m: u32,
    primes: &[u32],
    exponents: &[u8],
    out: &mut [u32],
) -> Reply
    ensures { Replied (λ answer. Inverts f.now (factored m primes.now exponents.now) out.old answer out.new) result }
{
    let list = Factored {
        modulus: m,
        primes,
        exponents,
    };
    Reply::from(invert::invert(f, list, out))
}

#[unsafe(no_mangle)]
pub extern "C" fn dowelbrook_unmix(
    f: &[u32],
    y: &[u32],
    m: u32,
    primes: &[u32],
    exponents: &[u8],
    out: &mut [u32],
) -> Reply
    ensures { Replied (λ answer. Unmixes (sent f.now y.now) (factored m primes.now exponents.now) out.old answer out.new) result }
{
    let sent = Sent {
        pattern: f,
        readings: y,
    };
    let list = Factored {
        modulus: m,
        primes,
        exponents,
    };
    Reply::from(feeding::unmix(sent, list, out))
}

// A reply, and whether the feedings are the same: 1 or 0.
// By hand: yes and no in a number, and beside it the reply's fields, as C has them.
#[repr(C)]
#[derive(Clone, Copy)]
pub struct Judgement {
    pub number: u32,
    pub prime: u32,
    pub ring: usize,
    pub place: usize,
    pub same: usize,
}

impl From<Result<bool, Failure>> for Judgement {
    ghost from_gives = { λ told judgement. judgement ≡ judgement_of told };

    fn from(told: Result<bool, Failure>) -> Judgement {
        let same = usize::from(told.unwrap_or(false));
        let reply = Reply::from(told.map(|_| ()));
        Judgement {
            number: reply.number,
            prime: reply.prime,
            ring: reply.ring,
            place: reply.place,
            same,
        }
    }
}

#[unsafe(no_mangle)]
pub extern "C" fn dowelbrook_same_feeding(
    f1: &[u32],
    y1: &[u32],
    f2: &[u32],
    y2: &[u32],
    m: u32,
    primes: &[u32],
    exponents: &[u8],
) -> Judgement
    ensures { Judges (sent f1.now y1.now) (sent f2.now y2.now) (factored m primes.now exponents.now) result }
{
    let first = Sent {
        pattern: f1,
        readings: y1,
    };
    let second = Sent {
        pattern: f2,
        readings: y2,
    };
    let list = Factored {
        modulus: m,
        primes,
        exponents,
    };
    Judgement::from(feeding::same_feeding(first, second, list))
}

// What a sheet holds and where, or the refusal in the paper's numbers. Offsets count from the sheet's first byte.
// By hand: whether there are readings in a number, with 0 for parts that there are not, as C has them.
#[repr(C)]
#[derive(Clone, Copy, Default)]
pub struct SheetReply {
    pub number: u32,
    pub modulus: u32,
    pub place: usize,
    pub factors_from: usize,
    pub factors_len: usize,
    pub pattern_from: usize,
    pub pattern_len: usize,
    pub readings_present: usize,
    pub readings_from: usize,
    pub readings_len: usize,
}

impl From<Sheet> for SheetReply {
    ghost from_gives = { λ sheet r. r ≡ accepted sheet };

    fn from(sheet: Sheet) -> SheetReply {
        let readings = sheet.readings.unwrap_or(Part { from: 0, len: 0 });
        SheetReply {
            modulus: sheet.modulus,
            factors_from: sheet.factors.from,
            factors_len: sheet.factors.len,
            pattern_from: sheet.pattern.from,
            pattern_len: sheet.pattern.len,
            readings_present: usize::from(sheet.readings.is_some()),
            readings_from: readings.from,
            readings_len: readings.len,
            ..SheetReply::default()
        }
    }
}

impl From<Refusal> for SheetReply {
    ghost from_gives = { λ refusal r. r ≡ refused refusal };

    fn from(refusal: Refusal) -> SheetReply {
        let reply = Reply::from(refusal);
        SheetReply {
            number: reply.number,
            place: reply.place,
            ..SheetReply::default()
        }
    }
}

#[unsafe(no_mangle)]
pub extern "C" fn dowelbrook_read_sheet(sheet: &[u8]) -> SheetReply
    ensures { result ≡ sheet_reply (sheet_of sheet.now) }
{
    match read(sheet) {
        Ok(sheet) => SheetReply::from(sheet),
        Err(refusal) => SheetReply::from(refusal),
    }
}

#[unsafe(no_mangle)]
pub extern "C" fn dowelbrook_report(sheet: &[u8], text: &mut [u8]) -> usize
    ensures { Reports sheet.now text.old text.new result }
{
    report::report(sheet, text)
}
