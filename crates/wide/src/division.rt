// Division of sizes, and their greatest common divisor.
ghost use Rattle.std.specs.Prelude.{◌≡◌, ◌*◌, ◌/◌, ◌%◌, ◌<◌, ◌≤◌, ltb};
ghost use Rattle.integers.specs.Gcd.{gcd as gcd_of};
ghost use Rattle.wide.specs.Wide.{size, Taken, Divided};

use crate::Magnitude;
use crate::words::{difference, less, product, sum};

#[derive(Clone, Copy)]
pub struct Split {
    pub quo: Magnitude,
    pub rem: Magnitude,
}

// ---- a guess of a quotient: nothing is promised of it, the division tries it

fn bits(x: u64) -> u32
    ensures { result ≤ 64 }
{
    u64::BITS - x.leading_zeros()
}

fn left(x: u64, s: u32) -> u64 {
    x.checked_shl(s).unwrap_or(0)
}

fn right(x: u64, s: u32) -> u64 {
    x.checked_shr(s).unwrap_or(0)
}

// The upper 64 bits of a number of 64 + a bits.
fn top(h: u64, l: u64, a: u32) -> u64
    requires { a ≤ 64 }
{
    left(h, 64 - a) | right(l, a)
}

// About r / d and not above it, from the upper 64 bits of r and the upper 32 bits of d.
fn guess(r: Magnitude, d: Magnitude) -> u64 {
    if r.hi == 0 {
        return r.lo.checked_div(d.lo).unwrap_or(0);
    }
    let a = bits(r.hi);
    let e = bits(d.hi);
    let t = top(d.hi, d.lo, e);
    let k = bits(t);
    let up = a + (64 - k);
    let down = e + 32;
    let m = left(t, 64 - k) / 4294967296 + 1;
    let g = top(r.hi, r.lo, a) / m;
    if down <= up {
        left(g, up - down)
    } else {
        right(g, down - up)
    }
}

// ---- division: guessed parts are taken off while they can be

// A multiple of d, and how many times.
#[derive(Clone, Copy)]
pub struct Part {
    pub by: u64,
    pub part: Magnitude,
}

// g times d, or d where that is no number of two words, or 0.
fn multiple(g: u64, d: Magnitude) -> Part
    ensures { (size result.part ≡ result.by * size d) × (0 < result.by) }
{
    let p = product(g, d.lo);
    let q = product(g, d.hi);
    if g == 0 || q.hi != 0 || u64::MAX - p.hi < q.lo {
        return Part { by: 1, part: d };
    }
    Part {
        by: g,
        part: Magnitude {
            hi: p.hi + q.lo,
            lo: p.lo,
        },
    }
}

// A multiple of d that r holds.
fn taken(r: Magnitude, d: Magnitude) -> Part
    requires { size d ≤ size r }
    ensures { Taken r d result }
{
    let p = multiple(guess(r, d), d);
    if less(r, p.part) {
        Part { by: 1, part: d }
    } else {
        p
    }
}

fn long_divide(x: Magnitude, d: Magnitude) -> Split
    requires { 0 < size d }
    ensures { Divided x d result }
{
    let mut quo = Magnitude { hi: 0, lo: 0 };
    let mut rem = x;
    while !less(rem, d) {
        let p = taken(rem, d);
        quo = sum(quo, Magnitude { hi: 0, lo: p.by });
        rem = difference(rem, p.part);
    }
    Split { quo, rem }
}

// x divided by d of one word: the high word first.
fn word_divide(x: Magnitude, d: u64) -> Split
    requires { 0 < d }
    ensures { (size result.quo ≡ size x / d) × (size result.rem ≡ size x % d) }
{
    let left = Magnitude {
        hi: x.hi % d,
        lo: x.lo,
    };
    let s = long_divide(left, Magnitude { hi: 0, lo: d });
    let high = Magnitude {
        hi: x.hi / d,
        lo: 0,
    };
    Split {
        quo: sum(high, s.quo),
        rem: s.rem,
    }
}

// x divided by d.
pub fn divide(x: Magnitude, d: Magnitude) -> Split
    requires { 0 < size d }
    ensures { Divided x d result }
{
    if d.hi != 0 {
        return long_divide(x, d);
    }
    if x.hi != 0 {
        return word_divide(x, d.lo);
    }
    Split {
        quo: Magnitude {
            hi: 0,
            lo: x.lo / d.lo,
        },
        rem: Magnitude {
            hi: 0,
            lo: x.lo % d.lo,
        },
    }
}

fn word_rem(x: Magnitude, d: u64) -> u64
    requires { 0 < d }
    ensures { result ≡ size x % d }
{
    divide(x, Magnitude { hi: 0, lo: d }).rem.lo
}

// The greatest common divisor: Euclid's steps on two words until one is enough.
pub fn gcd(a: Magnitude, b: Magnitude) -> Magnitude
    ensures { size result ≡ gcd_of (size a) (size b) }
{
    let mut x = a;
    let mut y = b;
    while y.hi != 0 {
        let s = long_divide(x, y);
        x = y;
        y = s.rem;
    }
    if y.lo == 0 {
        return x;
    }
    Magnitude {
        hi: 0,
        lo: integers::gcd(y.lo, word_rem(x, y.lo)),
    }
}
