// Rows of a tableau: denominator, constant and the entries of 16 columns, two words each. Only the first n numbers are looked at; the others are 0.
ghost use Rattle.std.specs.Prelude.{◌≡◌, true, ◌+◌, ◌^◌, ◌<◌, length, get_or, set, map, ◌<ℤ◌, pos, nat_abs};
ghost use Rattle.std.specs.Int.Signed.{quot_z};
ghost use Rattle.integers.specs.Z.{Within};
ghost use Rattle.integers.specs.Gcd.{gcd as gcd_of};
ghost use Rattle.integers.specs.Size.{bound};
ghost use Rattle.wide.specs.Wide.{size, value_of, Bounded};
ghost use Rattle.tableau.specs.Rows.{divisor, combine_rows, reduce_row, replace_row, turn_row, solve_row, minus_row, den, entry, Small, Line};
ghost use Rattle.wide_tableau.specs.Cells.{cells, Sheet, Becomes, Combined, Narrows};

use wide::{Magnitude, Wide};

// The number at place i.
pub fn cell_at(r: &[u64; 36], i: usize) -> Wide
    requires { Sheet r.now × (i < 18) }
    ensures { (value_of result ≡ get_or (cells r.now) i (pos 0)) × (size result.magnitude < 2 ^ 127) }
{
    wide::unpack(r[i + i], r[i + i + 1])
}

pub fn set_cell(r: &mut [u64; 36], i: usize, x: Wide)
    requires { Sheet r.old × (i < 18) × (size x.magnitude < 2 ^ 127) }
    ensures { Becomes r.new (set (cells r.old) i (value_of x)) }
{
    r[i + i] = wide::high_of(x);
    r[i + i + 1] = x.magnitude.lo;
}

pub fn zero() -> Wide
    ensures { (value_of result ≡ pos 0) × (size result.magnitude < 2 ^ 127) }
{
    Wide {
        neg: false,
        magnitude: Magnitude { hi: 0, lo: 0 },
    }
}

// The common divisor with one number more; that of 1 is 1.
fn divisor_with(g: Magnitude, x: Wide) -> Magnitude
    ensures { size result ≡ gcd_of (nat_abs (value_of x)) (size g) }
{
    if wide::is_one(g) {
        g
    } else {
        wide::gcd(x.magnitude, g)
    }
}

// The common divisor of a row's numbers.
fn common_divisor(r: &[u64; 36], n: usize) -> Magnitude
    requires { Sheet r.now × Line n (cells r.now) }
    ensures { size result ≡ divisor (cells r.now) }
{
    let mut g = Magnitude { hi: 0, lo: 0 };
    for i in 0..n {
        g = divisor_with(g, cell_at(r, i));
    }
    g
}

pub fn divide(r: &mut [u64; 36], n: usize, d: Magnitude)
    requires { Sheet r.old × Line n (cells r.old) × (0 < size d) }
    ensures { Becomes r.new (map (λ x. quot_z x (pos (size d))) (cells r.old)) }
{
    for i in 0..n {
        let z = wide::quotient(cell_at(r, i), d);
        set_cell(r, i, z);
    }
}

// x · m − b · y, place by place, and the common divisor of these numbers.
pub fn combine(r: &mut [u64; 36], n: usize, m: Wide, b: Wide, q: &[u64; 36]) -> Magnitude
    requires { Sheet r.old × Sheet q.now × Line n (cells r.old) × Line n (cells q.now) × Small (bound 128) (cells r.old) × Small (bound 128) (cells q.now) × Bounded m × Bounded b }
    ensures { Combined r.new (combine_rows (value_of m) (value_of b) (cells r.old) (cells q.now)) (size result) }
{
    let mut g = Magnitude { hi: 0, lo: 0 };
    for i in 0..n {
        let z = wide::determinant(cell_at(r, i), m, b, cell_at(q, i));
        set_cell(r, i, z);
        g = divisor_with(g, z);
    }
    g
}

// A row in lowest terms, given its common divisor.
fn reduce_by(r: &mut [u64; 36], n: usize, g: Magnitude)
    requires { Sheet r.old × Line n (cells r.old) × (pos 0 <ℤ den (cells r.old)) × (size g ≡ divisor (cells r.old)) }
    ensures { Becomes r.new (reduce_row (cells r.old)) }
{
    if !wide::is_one(g) {
        divide(r, n, g);
    }
}

// A row in lowest terms.
fn reduce(r: &mut [u64; 36], n: usize)
    requires { Sheet r.old × Line n (cells r.old) × (pos 0 <ℤ den (cells r.old)) }
    ensures { Becomes r.new (reduce_row (cells r.old)) }
{
    let g = common_divisor(r, n);
    reduce_by(r, n, g);
}

// The row with the variable of column j replaced, of any numbers within the bound.
fn long_replace(r: &mut [u64; 36], n: usize, j: usize, m: Wide, q: &[u64; 36])
    requires { Sheet r.old × Sheet q.now × (j < 16) × Line n (cells r.old) × Line n (cells q.now) × Small (bound 128) (cells r.old) × Small (bound 128) (cells q.now) × (get_or (cells q.now) 0 (pos 0) ≡ pos 0) × Bounded m × (pos 0 <ℤ value_of m) × (pos 0 <ℤ den (cells r.old)) }
    ensures { Becomes r.new (replace_row (cells r.old) j (value_of m) (cells q.now)) }
{
    let b = wide::negate(cell_at(r, j + 2));
    clear(r, j);
    let g = combine(r, n, m, b, q);
    reduce_by(r, n, g);
}

// A row of 64-bit numbers as one of two-word numbers.
pub fn carry_row(s: &[i64; 18], out: &mut [u64; 36])
    requires { length s.now ≡ 18 }
    ensures { Becomes out.new s.now }
{
    *out = [0u64; 36];
    for (i, x) in s.iter().enumerate() {
        set_cell(out, i, wide::widen(*x));
    }
}

// Whether the number test at 64 bits passes each number of a row; if so s has them. Lent, so that no array is copied back.
fn narrowed(r: &[u64; 36], n: usize, s: &mut [i64; 18]) -> bool
    requires { Sheet r.now × Line n (cells r.now) }
    ensures { result ≡ true → Narrows (cells r.now) s.new }
{
    *s = [0i64; 18];
    for i in 0..n {
        let x = cell_at(r, i);
        if !wide::is_narrow(x) {
            return false;
        }
        s[i] = wide::narrow(x);
    }
    true
}

// So of two rows and a number.
fn all_narrow(
    r: &[u64; 36],
    q: &[u64; 36],
    m: Wide,
    n: usize,
    s: &mut [i64; 18],
    p: &mut [i64; 18],
) -> bool
    requires { Sheet r.now × Sheet q.now × Line n (cells r.now) × Line n (cells q.now) }
    ensures { result ≡ true → Narrows (cells r.now) s.new × Narrows (cells q.now) p.new × Within (bound 64) (value_of m) }
{
    wide::is_narrow(m) && narrowed(r, n, s) && narrowed(q, n, p)
}

// The row with the variable of column j replaced by a row, given as its denominator m and its other numbers q: at 64
// bits where these are enough.
pub fn replace(r: &mut [u64; 36], n: usize, j: usize, m: Wide, q: &[u64; 36])
    requires { Sheet r.old × Sheet q.now × (j < 16) × Line n (cells r.old) × Line n (cells q.now) × Small (bound 128) (cells r.old) × Small (bound 128) (cells q.now) × (get_or (cells q.now) 0 (pos 0) ≡ pos 0) × Bounded m × (pos 0 <ℤ value_of m) × (pos 0 <ℤ den (cells r.old)) }
    ensures { Becomes r.new (replace_row (cells r.old) j (value_of m) (cells q.now)) }
{
    let mut s = [0i64; 18];
    let mut p = [0i64; 18];
    if all_narrow(r, q, m, n, &mut s, &mut p) {
        tableau::replace(&mut s, n, j, wide::narrow(m), &p);
        carry_row(&s, r);
    } else {
        long_replace(r, n, j, m, q);
    }
}

// The row without an entry in column j.
pub fn clear(r: &mut [u64; 36], j: usize)
    requires { Sheet r.old × (j < 16) }
    ensures { Becomes r.new (set (cells r.old) (j + 2) (pos 0)) }
{
    set_cell(r, j + 2, zero());
}

// The row without its denominator.
pub fn wipe(r: &mut [u64; 36])
    requires { Sheet r.old }
    ensures { Becomes r.new (set (cells r.old) 0 (pos 0)) }
{
    set_cell(r, 0, zero());
}

// Each number with the other sign.
fn negate(r: &mut [u64; 36], n: usize)
    requires { Sheet r.old × Line n (cells r.old) }
    ensures { Becomes r.new (minus_row (cells r.old)) }
{
    for i in 0..n {
        let z = wide::negate(cell_at(r, i));
        set_cell(r, i, z);
    }
}

// The row solved for the variable of column j, before it is reduced.
fn turn(r: &mut [u64; 36], n: usize, j: usize)
    requires { Sheet r.old × Line n (cells r.old) × (j < 16) }
    ensures { Becomes r.new (turn_row (cells r.old) j) }
{
    let a = cell_at(r, j + 2);
    let d = cell_at(r, 0);
    if wide::is_negative(a) {
        set_cell(r, 0, wide::negate(a));
        set_cell(r, j + 2, wide::negate(d));
    } else {
        negate(r, n);
        set_cell(r, 0, a);
        set_cell(r, j + 2, d);
    }
}

// The row solved for the variable of column j.
pub fn solve(r: &mut [u64; 36], n: usize, j: usize)
    requires { Sheet r.old × (j + 2 < n) × Line n (cells r.old) × Small (bound 128) (cells r.old) × (entry (cells r.old) j ≡ pos 0 → ⊥) }
    ensures { Becomes r.new (solve_row (cells r.old) j) }
{
    turn(r, n, j);
    reduce(r, n);
}
