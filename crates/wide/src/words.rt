// Sizes: sums, differences, products.
ghost use Rattle.std.specs.Prelude.{◌≡◌, ◌+◌, ◌-◌, ◌*◌, ◌^◌, ◌<◌, ◌≤◌, ltb, leb, eqb};
ghost use Rattle.wide.specs.Wide.{size};

use crate::Magnitude;

// a · b, from its four partial products.
pub fn product(a: u64, b: u64) -> Magnitude
    ensures { size result ≡ a * b }
{
    let a1 = a / 4294967296;
    let a0 = a % 4294967296;
    let b1 = b / 4294967296;
    let b0 = b % 4294967296;
    let low = a0 * b0;
    let mid = a1 * b0 + low / 4294967296;
    let mid2 = a0 * b1 + mid % 4294967296;
    Magnitude {
        hi: a1 * b1 + mid / 4294967296 + mid2 / 4294967296,
        lo: mid2 % 4294967296 * 4294967296 + low % 4294967296,
    }
}

pub fn sum(a: Magnitude, b: Magnitude) -> Magnitude
    requires { size a + size b < 2 ^ 128 }
    ensures { size result ≡ size a + size b }
{
    let left = u64::MAX - b.lo;
    if a.lo <= left {
        Magnitude {
            hi: a.hi + b.hi,
            lo: a.lo + b.lo,
        }
    } else {
        Magnitude {
            hi: a.hi + b.hi + 1,
            lo: a.lo - left - 1,
        }
    }
}

pub fn less(a: Magnitude, b: Magnitude) -> bool
    ensures { result ≡ ltb (size a) (size b) }
{
    a.hi < b.hi || a.hi == b.hi && a.lo < b.lo
}

pub fn difference(a: Magnitude, b: Magnitude) -> Magnitude
    requires { size b ≤ size a }
    ensures { size result ≡ size a - size b }
{
    if a.lo < b.lo {
        Magnitude {
            hi: a.hi - b.hi - 1,
            lo: u64::MAX - (b.lo - a.lo) + 1,
        }
    } else {
        Magnitude {
            hi: a.hi - b.hi,
            lo: a.lo - b.lo,
        }
    }
}

pub fn is_zero(x: Magnitude) -> bool
    ensures { result ≡ eqb (size x) 0 }
{
    x.hi == 0 && x.lo == 0
}

pub fn is_one(x: Magnitude) -> bool
    ensures { result ≡ eqb (size x) 1 }
{
    x.hi == 0 && x.lo == 1
}

pub fn is_at_most(x: Magnitude, most: u64) -> bool
    ensures { result ≡ leb (size x) most }
{
    x.hi == 0 && x.lo <= most
}
