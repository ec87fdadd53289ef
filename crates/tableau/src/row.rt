// Rows of a tableau: denominator, constant and the entries of 16 columns. Only the first n numbers are looked at; the others are 0.
// A second word size is a second instance of this file.
ghost use Rattle.std.specs.Prelude.{◌≡◌, ◌+◌, ◌<◌, get_or, map, ◌<ℤ◌, true, pos, negsuc, nat_abs, ◌-ℤ◌};
ghost use Rattle.std.specs.Int.Signed.{quot_z};
ghost use Rattle.integers.specs.Z.{Within};
ghost use Rattle.integers.specs.Gcd.{gcd as gcd_of};
ghost use Rattle.integers.specs.Size.{bound};
ghost use Rattle.tableau.specs.Rows.{divisor, combine_rows, reduce_row, replace_row, turn_row, solve_row, minus_row, den, entry, Small, Line};

// The common divisor of a row's numbers; at 1 the rest is not looked at.
fn common_divisor(r: &[i64; 18], n: usize) -> u64
    requires { Line n r.now }
    ensures { result ≡ divisor r.now }
{
    let mut g = 0;
    for at in 0..n {
        if g == 1 {
            return 1;
        }
        g = integers::gcd(r[at].unsigned_abs(), g);
    }
    g
}

fn divide(r: &mut [i64; 18], n: usize, d: i64)
    requires line { Line n r.old }
    requires pos_bound { pos 0 <ℤ d }
    ensures { r.new ≡ map (λ x. quot_z x d) r.old }
{
    for x in &mut r[..n] {
        *x /= d;
    }
}

// The common divisor with one number more; that of 1 is 1.
fn divisor_with(g: u64, x: i64) -> u64
    ensures { result ≡ gcd_of (nat_abs x) g }
{
    if g == 1 {
        1
    } else {
        integers::gcd(x.unsigned_abs(), g)
    }
}

// x · m − b · y, place by place, and the common divisor of these numbers.
fn combine(r: &mut [i64; 18], n: usize, m: i64, b: i64, q: &[i64; 18]) -> u64
    requires line { Line n r.old }
    requires line_2 { Line n q.now }
    requires small { Small (bound 64) r.old }
    requires small_2 { Small (bound 64) q.now }
    requires within { Within (bound 64) m }
    requires within_2 { Within (bound 64) b }
    ensures { (r.new ≡ combine_rows m b r.old q.now) × (result ≡ divisor r.new) }
{
    let mut g = 0;
    for i in 0..n {
        let z = integers::determinant(r[i], m, b, q[i]);
        r[i] = z;
        g = divisor_with(g, z);
    }
    g
}

// A row in lowest terms, given its common divisor.
fn reduce_by(r: &mut [i64; 18], n: usize, g: u64)
    requires line { Line n r.old }
    requires small { Small 9223372036854775807 r.old }
    requires pos_bound { pos 0 <ℤ den r.old }
    requires g_value { g ≡ divisor r.old }
    ensures { r.new ≡ reduce_row r.old }
{
    if 1 < g {
        divide(r, n, g as i64);
    }
}

// A row in lowest terms.
fn reduce(r: &mut [i64; 18], n: usize)
    requires line { Line n r.old }
    requires small { Small 9223372036854775807 r.old }
    requires pos_bound { pos 0 <ℤ den r.old }
    ensures { r.new ≡ reduce_row r.old }
{
    let g = common_divisor(r, n);
    reduce_by(r, n, g);
}

// x + y, place by place. All 18 places, so that the compiler adds them two at a time; by index, since nothing is known of
// what was written through a `zip` of `iter_mut`.
fn plus(r: &mut [i64; 18], q: &[i64; 18])
    requires { Line 18 r.old × Line 18 q.now × Small (bound 64) r.old × Small (bound 64) q.now }
    ensures { r.new ≡ combine_rows (pos 1) (negsuc 0) r.old q.now }
{
    for i in 0..18 {
        r[i] += q[i];
    }
}

// x − y, place by place.
fn minus(r: &mut [i64; 18], q: &[i64; 18])
    requires { Line 18 r.old × Line 18 q.now × Small (bound 64) r.old × Small (bound 64) q.now }
    ensures { r.new ≡ combine_rows (pos 1) (pos 1) r.old q.now }
{
    for i in 0..18 {
        r[i] -= q[i];
    }
}

// x + b · y, place by place, where the row's denominator is 1 and stays so: it is in lowest terms.
fn add(r: &mut [i64; 18], n: usize, b: i64, q: &[i64; 18])
    requires { Line n r.old × Line n q.now × Small (bound 64) r.old × Small (bound 64) q.now × Within (bound 64) b }
    ensures { r.new ≡ combine_rows (pos 1) (pos 0 -ℤ b) r.old q.now }
{
    match b {
        1 => plus(r, q),
        -1 => minus(r, q),
        _ => {
            combine(r, n, 1, -b, q);
        },
    }
}

// The row with the variable of column j replaced by a row, given as its denominator m and its other numbers q.
pub fn replace(r: &mut [i64; 18], n: usize, j: usize, m: i64, q: &[i64; 18])
    requires j_bound { j < 16 }
    requires line { Line n r.old }
    requires line_2 { Line n q.now }
    requires small { Small (bound 64) r.old }
    requires small_2 { Small (bound 64) q.now }
    requires pos_value { get_or q.now 0 (pos 0) ≡ pos 0 }
    requires within { Within (bound 64) m }
    requires pos_bound { pos 0 <ℤ m }
    requires pos_bound_2 { pos 0 <ℤ den r.old }
    ensures { r.new ≡ replace_row r.old j m q.now }
{
    let b = r[j + 2];
    r[j + 2] = 0;
    if m == 1 && r[0] == 1 {
        add(r, n, b, q);
    } else {
        let g = combine(r, n, m, -b, q);
        reduce_by(r, n, g);
    }
}

// Each number with the other sign.
fn negate(r: &mut [i64; 18], n: usize)
    requires line { Line n r.old }
    requires small { Small (bound 64) r.old }
    ensures { r.new ≡ minus_row r.old }
{
    for x in &mut r[..n] {
        *x = -*x;
    }
}

// The row solved for the variable of column j, before it is reduced.
fn turn(r: &mut [i64; 18], n: usize, j: usize)
    requires j_bound { j < 16 }
    requires line { Line n r.old }
    requires small { Small (bound 64) r.old }
    ensures { r.new ≡ turn_row r.old j }
{
    let a = r[j + 2];
    let d = r[0];
    if a < 0 {
        r[0] = -a;
        r[j + 2] = -d;
    } else {
        negate(r, n);
        r[0] = a;
        r[j + 2] = d;
    }
}

// The row solved for the variable of column j.
pub fn solve(r: &mut [i64; 18], n: usize, j: usize)
    requires j_bound { j + 2 < n }
    requires line { Line n r.old }
    requires small { Small (bound 64) r.old }
    requires fact { entry r.old j ≡ pos 0 → ⊥ }
    ensures { r.new ≡ solve_row r.old j }
{
    turn(r, n, j);
    reduce(r, n);
}
