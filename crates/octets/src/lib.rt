// Numbers in the bytes of a slice.
// By hand: at an offset and not of a slice from there on, since `big_endian` is stated so, by which the grammar of sheets is.
#![tactic(auto, unfolding(crate::specs::Numbers::big_endian))]

ghost use Rattle.std.specs.Prelude.{◌≡◌, ◌+◌, ◌≤◌, length};
ghost use Rattle.sums.specs.Table.{at as entry};
ghost use Rattle.octets.specs.Numbers.{big_endian};

// The byte at an offset; 0 past the end.
pub fn byte_at(bytes: &[u8], at: usize) -> u8
    ensures { result ≡ entry bytes.now at }
{
    bytes.get(at).copied().unwrap_or(0)
}

// The number in the two bytes at an offset, high byte first.
// By hand: beside `number_at`, since a length is a usize and an entry a u32, and `from_be_bytes` is each type's own and of no trait.
pub fn short_at(bytes: &[u8], at: usize) -> usize
    requires { at + 2 ≤ length bytes.now }
    ensures { result ≡ big_endian 2 bytes.now at }
{
    usize::from(u16::from_be_bytes([bytes[at], bytes[at + 1]]))
}

// The number in the four bytes at an offset, high byte first.
pub fn number_at(bytes: &[u8], at: usize) -> u32
    requires { at + 4 ≤ length bytes.now }
    ensures { result ≡ big_endian 4 bytes.now at }
{
    u32::from_be_bytes([bytes[at], bytes[at + 1], bytes[at + 2], bytes[at + 3]])
}
