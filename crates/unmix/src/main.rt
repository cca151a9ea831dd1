// The program unmix: a sheet from standard input, its text to standard output.
#![tactic(auto)]

ghost use Rattle.std.specs.Prelude.{◌≡◌, ◌≤◌, length};
ghost use Rattle.limits.specs.Limits.{deciding_bytes};

use limits::DECIDING_BYTES;
use report::{TEXT_ROOM, report};
use std::io::{Input, Print, Read};

// What cannot be written is not told.
fn print_report<R: Print>(rt: &R, sheet: &[u8]) {
    let mut text = [0u8; TEXT_ROOM];
    let length = report(sheet, &mut text);
    let _ = rt.write_all(&text[..length]);
}

// Reads until the bytes are full or the input ends, and tells how many came. A read that fails counts as the end.
fn read_full<R: Input>(rt: &R, bytes: &mut [u8]) -> usize
    ensures { result ≤ length bytes.new }
{
    let mut reader = rt.reader();
    let mut at = 0;
    // By hand: `read_to_end` needs the heap, which this project has not, and `read_exact` doesn't tell how many bytes came.
    while at < bytes.len() {
        match reader.read(&mut bytes[at..]) {
            Ok(0) => return at,
            Ok(n) => at += n,
            Err(_) => return at,
        }
    }
    at
}

// Reads as many bytes as decide what a sheet means, and so what is printed for it (`first-bytes_print`).
fn print_read<R: Input + Print>(rt: &R, bytes: &mut [u8])
    requires { length bytes.old ≡ deciding_bytes }
{
    let length = read_full(rt, bytes);
    print_report(rt, &bytes[..length]);
}

fn main(rt: HostRuntime) {
    let mut bytes = [0u8; DECIDING_BYTES];
    print_read(&rt, &mut bytes);
}
