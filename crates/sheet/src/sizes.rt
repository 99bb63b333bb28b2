// How long a sheet and its parts are, where its fields stand, and how large its numbers can be.

// ---- the header

pub const HEADER_LENGTH: usize = 8;

pub const LENGTH_AT: usize = 0;

// The second of a number's two bytes has a place with a name too, where the number is read alone.
pub const LENGTH_LOW_AT: usize = 1;

pub const VERSION_AT: usize = 2;

pub const KIND_AT: usize = 3;

pub const BOUND_AT: usize = 4;

pub const PARTIES_AT: usize = 5;

pub const UNITS_AT: usize = 6;

pub const UNITS_LOW_AT: usize = 7;

// The one version of a sheet.
pub const VERSION: u8 = 1;

// ---- a row

pub const ROW_LENGTH: usize = 14;

pub const START_AT: usize = 0;

pub const MASK_AT: usize = 2;

pub const OWN_AT: usize = 10;

pub const PAIR_AT: usize = 12;

// ---- the largest sheet

pub const MOST_BOUND: u32 = 64;

pub const MOST_PARTIES: usize = 16;

pub const MOST_UNITS: usize = 1024;

pub const MOST_ROWS: usize = MOST_PARTIES * (MOST_PARTIES + 1) / 2 - 1;

pub const MOST_SHEET: usize = HEADER_LENGTH + ROW_LENGTH * MOST_ROWS;
