// The lowest-numbered violated row, the lowest-numbered helping column, and the number test.
ghost use Rattle.std.specs.Prelude.{◌≡◌, ℕ, ◌+◌, ◌-◌, ◌<◌, [], length, get_or, pos};
ghost use Rattle.std.specs.Int.Signed.{lt_z};
ghost use Rattle.integers.specs.Size.{bound};
ghost use Rattle.wide.specs.Wide.{value_of};
ghost use Rattle.tableau.specs.Rows.{violated_by, violated_at, violated as violated_of, helps_by, helps_at, helping as helping_of, small_at, narrow_rows_at, narrow_row_at, Line};
ghost use Rattle.wide_tableau.specs.Cells.{cells, rows_of, Sheet, Sheets};

use wide::Wide;

pub fn is_violated(kind: u8, x: Wide) -> bool
    ensures { result ≡ violated_by kind (value_of x) }
{
    match kind {
        1 => wide::is_negative(x),
        2 => !wide::is_zero(x.magnitude),
        _ => false,
    }
}

// 0 < x
fn is_positive(x: Wide) -> bool
    ensures { result ≡ lt_z (pos 0) (value_of x) }
{
    wide::is_negative(wide::negate(x))
}

fn is_helping(kind: u8, c: Wide, e: Wide) -> bool
    ensures { result ≡ helps_by kind (value_of c) (value_of e) }
{
    match kind {
        0 => !wide::is_zero(e.magnitude),
        1 if wide::is_negative(c) => is_positive(e),
        1 => wide::is_negative(e),
        _ => false,
    }
}

pub fn small(r: &[u64; 36], n: usize) -> bool
    requires { Sheet r.now × Line n (cells r.now) }
    ensures { result ≡ small_at (bound 128) (cells r.now) }
{
    for i in 0..n {
        if !wide::is_small(crate::row::cell_at(r, i)) {
            return false;
        }
    }
    true
}

pub fn row_narrow(r: &[u64; 36], n: usize, j: usize) -> bool
    requires { Sheet r.now × (j < 16) × Line n (cells r.now) }
    ensures { result ≡ narrow_row_at (bound 128) j (cells r.now) }
{
    wide::is_zero(crate::row::cell_at(r, j + 2).magnitude) || small(r, n)
}

pub fn narrow(t: &[[u64; 36]], n: usize, j: usize) -> bool
    requires { Sheets t.now × (j < 16) × ((k : ℕ) → k < length t.now → Line n (cells (get_or t.now k []))) }
    ensures { result ≡ narrow_rows_at (bound 128) j (rows_of t.now) }
{
    t.iter().all(|r| row_narrow(r, n, j))
}

// The constant of row i.
fn constant_at(t: &[[u64; 36]], i: usize) -> Wide
    requires { Sheets t.now × (i < length t.now) }
    ensures { value_of result ≡ get_or (cells (get_or t.now i [])) 1 (pos 0) }
{
    crate::row::cell_at(&t[i], 1)
}

fn row_violated(t: &[[u64; 36]], place: &[usize], kinds: &[u8], v: usize) -> bool
    requires { Sheets t.now × (v < length place.now) × (v < length kinds.now) × (get_or place.now v 0 < 64 → get_or place.now v 0 < length t.now) }
    ensures { result ≡ violated_at (rows_of t.now) place.now kinds.now v }
{
    let i = place[v];
    i < 64 && is_violated(kinds[v], constant_at(t, i))
}

// The variable of the lowest-numbered violated row; the number of variables where there is none.
pub fn violated(t: &[[u64; 36]], place: &[usize], kinds: &[u8]) -> usize
    requires { Sheets t.now × (length kinds.now ≡ length place.now) × ((v : ℕ) → v < length place.now → get_or place.now v 0 < 64 → get_or place.now v 0 < length t.now) }
    ensures { result ≡ violated_of (rows_of t.now) place.now kinds.now }
{
    for v in 0..place.len() {
        if row_violated(t, place, kinds, v) {
            return v;
        }
    }
    place.len()
}

fn column_helps(r: &[u64; 36], place: &[usize], kinds: &[u8], v: usize) -> bool
    requires { Sheet r.now × (v < length place.now) × (v < length kinds.now) × (get_or place.now v 0 < 80) }
    ensures { result ≡ helps_at (cells r.now) place.now kinds.now v }
{
    let i = place[v];
    i >= 64
        && is_helping(
            kinds[v],
            crate::row::cell_at(r, 1),
            crate::row::cell_at(r, i - 64 + 2),
        )
}

// The variable of the lowest-numbered column that helps the row; the number of variables where there is none.
pub fn helping(r: &[u64; 36], place: &[usize], kinds: &[u8]) -> usize
    requires { Sheet r.now × (length kinds.now ≡ length place.now) × ((v : ℕ) → v < length place.now → get_or place.now v 0 < 80) }
    ensures { result ≡ helping_of (cells r.now) place.now kinds.now }
{
    for v in 0..place.len() {
        if column_helps(r, place, kinds, v) {
            return v;
        }
    }
    place.len()
}
