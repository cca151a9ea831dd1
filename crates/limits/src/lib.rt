// The limits of document 01, for the code; specs/Limits.antt has the same names for contracts.
#![tactic(auto)]

pub const MOST_ENTRIES: usize = 1024;

pub const LEAST_MODULUS: u32 = 2;

pub const MOST_MODULUS: u32 = 1_000_000;

// The most decimal digits of a modulus, and so of an entry.
pub const MOST_DIGITS: usize = 7;

// The most entries of a factor list.
pub const MOST_FACTORS: usize = 7;

// The pattern sheet, in bytes: a field's header, and the values.
pub const HEADER_BYTES: usize = 3;

pub const VERSION_BYTES: usize = 1;

pub const MODULUS_BYTES: usize = 4;

pub const FACTOR_BYTES: usize = 5;

pub const ENTRY_BYTES: usize = 4;

pub const MOST_FACTOR_BYTES: usize = MOST_FACTORS * FACTOR_BYTES;

pub const MOST_ENTRY_BYTES: usize = MOST_ENTRIES * ENTRY_BYTES;

// The longest sheet: five fields.
pub const MOST_SHEET_BYTES: usize = 5 * HEADER_BYTES
    + VERSION_BYTES
    + MODULUS_BYTES
    + MOST_FACTOR_BYTES
    + MOST_ENTRY_BYTES
    + MOST_ENTRY_BYTES;

// The first bytes of a sheet that decide what it means.
pub const DECIDING_BYTES: usize = MOST_SHEET_BYTES + HEADER_BYTES;
