// Signed numbers: their arithmetic, the number test, and the two words of a cell.
ghost use Rattle.std.specs.Prelude.{◌≡◌, true, ◌+◌, ◌^◌, ◌<◌, leb, pos, neg_ℤ, nat_abs, ◌+ℤ◌, ◌-ℤ◌, ◌*ℤ◌};
ghost use Rattle.std.specs.Int.Signed.{quot_z, lt_z};
ghost use Rattle.integers.specs.Z.{Within};
ghost use Rattle.integers.specs.Size.{bound};
ghost use Rattle.wide.specs.Wide.{xor, size, value_of, Bounded, Short, cell, high_of};

use crate::division::divide;
use crate::words::{difference, is_at_most, is_zero, less, product, sum};
use crate::{Magnitude, Wide};
use integers::bound;

pub fn negate(x: Wide) -> Wide
    ensures { (value_of result ≡ neg_ℤ (value_of x)) × (size result.magnitude ≡ size x.magnitude) }
{
    Wide {
        neg: !x.neg,
        magnitude: x.magnitude,
    }
}

pub fn times(x: Wide, y: Wide) -> Wide
    requires { Within (bound 128) (value_of x) × Within (bound 128) (value_of y) }
    ensures { value_of result ≡ value_of x *ℤ value_of y }
{
    Wide {
        neg: x.neg != y.neg,
        magnitude: product(x.magnitude.lo, y.magnitude.lo),
    }
}

pub fn plus(x: Wide, y: Wide) -> Wide
    requires { size x.magnitude + size y.magnitude < 2 ^ 128 }
    ensures { value_of result ≡ value_of x +ℤ value_of y }
{
    let a = x.magnitude;
    let b = y.magnitude;
    if x.neg == y.neg {
        Wide {
            neg: x.neg,
            magnitude: sum(a, b),
        }
    } else if less(a, b) {
        Wide {
            neg: y.neg,
            magnitude: difference(b, a),
        }
    } else {
        Wide {
            neg: x.neg,
            magnitude: difference(a, b),
        }
    }
}

pub fn minus(x: Wide, y: Wide) -> Wide
    requires { size x.magnitude + size y.magnitude < 2 ^ 128 }
    ensures { value_of result ≡ value_of x -ℤ value_of y }
{
    plus(x, negate(y))
}

// x / d, toward 0; exact where d divides it.
pub fn quotient(x: Wide, d: Magnitude) -> Wide
    requires { (size x.magnitude < 2 ^ 127) × (0 < size d) }
    ensures { (value_of result ≡ quot_z (value_of x) (pos (size d))) × (size result.magnitude < 2 ^ 127) }
{
    Wide {
        neg: x.neg,
        magnitude: divide(x.magnitude, d).quo,
    }
}

// The number test at 128 bits.
pub fn is_small(x: Wide) -> bool
    ensures { result ≡ leb (nat_abs (value_of x)) (bound 128) }
{
    is_at_most(x.magnitude, bound::AT_128)
}

// x < 0
pub fn is_negative(x: Wide) -> bool
    ensures { result ≡ lt_z (value_of x) (pos 0) }
{
    x.neg && !is_zero(x.magnitude)
}

// a · b − c · d, of any numbers within the bound.
fn long_determinant(a: Wide, b: Wide, c: Wide, d: Wide) -> Wide
    requires { Bounded a × Bounded b × Bounded c × Bounded d }
    ensures { (value_of result ≡ value_of a *ℤ value_of b -ℤ value_of c *ℤ value_of d) × (size result.magnitude < 2 ^ 127) }
{
    minus(times(a, b), times(c, d))
}

// The largest number of half a word.
const HALF_WORD: u64 = u32::MAX as u64;

// Whether half a word is enough.
fn is_short(x: Wide) -> bool
    ensures { result ≡ true → Short x }
{
    is_at_most(x.magnitude, HALF_WORD)
}

fn are_short(a: Wide, b: Wide, c: Wide, d: Wide) -> bool
    ensures { result ≡ true → Short a × Short b × Short c × Short d }
{
    is_short(a) && is_short(b) && is_short(c) && is_short(d)
}

// A product of one word.
fn times_short(x: Wide, y: Wide) -> Wide
    requires { Short x × Short y }
    ensures { value_of result ≡ value_of x *ℤ value_of y }
{
    Wide {
        neg: x.neg != y.neg,
        magnitude: Magnitude {
            hi: 0,
            lo: x.magnitude.lo * y.magnitude.lo,
        },
    }
}

// a · b − c · d
pub fn determinant(a: Wide, b: Wide, c: Wide, d: Wide) -> Wide
    requires { Bounded a × Bounded b × Bounded c × Bounded d }
    ensures { (value_of result ≡ value_of a *ℤ value_of b -ℤ value_of c *ℤ value_of d) × (size result.magnitude < 2 ^ 127) }
{
    if are_short(a, b, c, d) {
        minus(times_short(a, b), times_short(c, d))
    } else {
        long_determinant(a, b, c, d)
    }
}

// A number of one word.
pub fn widen(x: i64) -> Wide
    ensures { (value_of result ≡ x) × (size result.magnitude < 2 ^ 127) }
{
    Wide {
        neg: x < 0,
        magnitude: Magnitude {
            hi: 0,
            lo: x.unsigned_abs(),
        },
    }
}

// The bound of the definition `bound 64`, for magnitudes.
const NARROW: u64 = bound::AT_64 as u64;

// Whether the number test at 64 bits passes it.
pub fn is_narrow(x: Wide) -> bool
    ensures { result ≡ true → Within (bound 64) (value_of x) }
{
    is_at_most(x.magnitude, NARROW)
}

// Such a number in one word.
pub fn narrow(x: Wide) -> i64
    requires { Within (bound 64) (value_of x) }
    ensures { result ≡ value_of x }
{
    let size = x.magnitude.lo as i64;
    if x.neg { -size } else { size }
}

// A cell of a row is two words: the high word has the sign in its top bit.
pub const SIGN: u64 = 9223372036854775808;

pub fn unpack(hi: u64, lo: u64) -> Wide
    ensures { (value_of result ≡ cell hi lo) × (size result.magnitude < 2 ^ 127) }
{
    Wide {
        neg: hi >= SIGN,
        magnitude: Magnitude { hi: hi % SIGN, lo },
    }
}

// The high word: 0 has one form.
pub fn high_of(x: Wide) -> u64
    requires { size x.magnitude < 2 ^ 127 }
    ensures { result ≡ high_of (value_of x) }
{
    if is_negative(x) {
        x.magnitude.hi + SIGN
    } else {
        x.magnitude.hi
    }
}
