// The limits of documents 01 and 02, each once. specs/Limits has them for the definitions; a contract holds the two together.

// 01, "Points, rules, sets": n is 1 to 8; at most 8 divisions and 48 rules in a basic set, 32 basic sets in a set.
pub const AXES: usize = 8;

pub const DIVISIONS: usize = 8;

pub const CONSTRAINTS: usize = 48;

pub const BASIC_SETS: usize = 32;

// Places for coefficients in a row: those of the axes, or those of the divisions.
pub const PLACES: usize = 8;

// 01, "Bytes of a set": coefficients −32,767 to 32,767, divisors 1 to 32,767, constants of divisions ±1,000,000,000.
pub const COEFFICIENT: i32 = 32767;

pub const DIVISOR: u64 = 32767;

pub const DIVISION_CONSTANT: i32 = 1000000000;

// 01, "The test for fractions", step 3.
pub const PIVOTS: usize = 200;

// 01, "Asking": coordinates −1,048,576 to 1,048,576, limits of a search 1 to 1,000,000.
pub const COORDINATE: i32 = 1048576;

pub const PREFIXES: u32 = 1000000;

// 01, "The script program": sets 0 to 3, of 8,000 bytes each.
pub const LAST_SET: u8 = 3;

pub const SET_BYTES: usize = 8000;

// 02, requests 2, 8 and 12: points of a fleet, the greatest name of a mark, values of a chosen axis.
pub const POINTS: usize = 64;

pub const NAME: usize = 15;

pub const VALUES: usize = 64;
