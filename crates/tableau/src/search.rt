// The lowest-numbered violated row, the lowest-numbered helping column, and the number test.
ghost use Rattle.std.specs.Prelude.{◌≡◌, ℕ, ◌+◌, ◌-◌, ◌<◌, [], length, get_or};
ghost use Rattle.tableau.specs.Rows.{violated_by, violated_at, violated as violated_of, helps_by, helps_at, helping as helping_of, small as small_of, narrow_rows, narrow_row, Line};

use integers::bound;

pub fn is_violated(kind: u8, x: i64) -> bool
    ensures { result ≡ violated_by kind x }
{
    match kind {
        1 => x < 0,
        2 => x != 0,
        _ => false,
    }
}

fn is_helping(kind: u8, c: i64, e: i64) -> bool
    ensures { result ≡ helps_by kind c e }
{
    match kind {
        0 => e != 0,
        1 if c < 0 => 0 < e,
        1 => e < 0,
        _ => false,
    }
}

// The bound of the definition `bound 64`, for magnitudes.
const MOST: u64 = bound::AT_64 as u64;

// The bits of all magnitudes together, at all 18 places, so that the compiler takes them two at a time.
pub fn small(r: &[i64; 18], n: usize) -> bool
    requires { Line n r.now }
    ensures { result ≡ small_of r.now }
{
    let mut bits = 0;
    for x in r {
        bits |= x.unsigned_abs();
    }
    bits <= MOST
}

fn row_narrow(r: &[i64; 18], n: usize, j: usize) -> bool
    requires j_bound { j < 16 }
    requires line { Line n r.now }
    ensures { result ≡ narrow_row j r.now }
{
    r[j + 2] == 0 || small(r, n)
}

pub fn narrow(t: &[[i64; 18]], n: usize, j: usize) -> bool
    requires j_bound { j < 16 }
    requires by_index { (k : ℕ) → k < length t.now → Line n (get_or t.now k []) }
    ensures { result ≡ narrow_rows j t.now }
{
    for k in 0..t.len() {
        if !row_narrow(&t[k], n, j) {
            return false;
        }
    }
    true
}

fn row_violated(t: &[[i64; 18]], place: &[usize], kinds: &[u8], v: usize) -> bool
    requires v_in_bounds { v < length place.now }
    requires v_in_bounds_2 { v < length kinds.now }
    requires v_in_bounds_3 { get_or place.now v 0 < 64 → get_or place.now v 0 < length t.now }
    ensures { result ≡ violated_at t.now place.now kinds.now v }
{
    let i = place[v];
    i < 64 && is_violated(kinds[v], t[i][1])
}

// The variable of the lowest-numbered violated row; the number of variables where there is none.
pub fn violated(t: &[[i64; 18]], place: &[usize], kinds: &[u8]) -> usize
    requires kinds_len { length kinds.now ≡ length place.now }
    requires by_index { (v : ℕ) → v < length place.now → get_or place.now v 0 < 64 → get_or place.now v 0 < length t.now }
    ensures { result ≡ violated_of t.now place.now kinds.now }
{
    for v in 0..place.len() {
        if row_violated(t, place, kinds, v) {
            return v;
        }
    }
    place.len()
}

fn column_helps(r: &[i64; 18], place: &[usize], kinds: &[u8], v: usize) -> bool
    requires v_in_bounds { v < length place.now }
    requires v_in_bounds_2 { v < length kinds.now }
    requires v_bound { get_or place.now v 0 < 80 }
    ensures { result ≡ helps_at r.now place.now kinds.now v }
{
    let i = place[v];
    i >= 64 && is_helping(kinds[v], r[1], r[i - 64 + 2])
}

// The variable of the lowest-numbered column that helps the row; the number of variables where there is none.
pub fn helping(r: &[i64; 18], place: &[usize], kinds: &[u8]) -> usize
    requires kinds_len { length kinds.now ≡ length place.now }
    requires by_index { (v : ℕ) → v < length place.now → get_or place.now v 0 < 80 }
    ensures { result ≡ helping_of r.now place.now kinds.now }
{
    for v in 0..place.len() {
        if column_helps(r, place, kinds, v) {
            return v;
        }
    }
    place.len()
}
