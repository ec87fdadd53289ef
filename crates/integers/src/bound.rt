// Step 4's bound of numbers at a word size (specs/Size `bound`): their products, and sums and differences of two products, fit.
pub const AT_64: i64 = 2147483647;

pub const AT_128: u64 = 9223372036854775807;
