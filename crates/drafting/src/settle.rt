// Each variable that waits is replaced by its row, the lowest number first.
ghost use Rattle.std.specs.Prelude.{◌≡◌, ◌+◌, ◌<◌};
ghost use Rattle.integers.specs.Size.{bound};
ghost use Rattle.model.specs.Values.{constraint_of};
ghost use Rattle.wide.specs.Wide.{size};
ghost use Rattle.tableau.specs.Rows.{Line};
ghost use Rattle.wide_tableau.specs.Cells.{cells, rows_of, Sheet, Sheets};
ghost use Rattle.model.specs.Limits.{most_axes};
ghost use Rattle.drafting.specs.Sketch.{sketch_of, divided_by, substituted, both_small, replaced_by, settled_at, settled_from, rule_row, Sketched, Settles, Drafts, Laid, Sound, Ready, Near};

use model::{Constraint, limit};
use wide::Magnitude;

// Both rows divided by g.
fn lower(row: &mut [u64; 36], waiting: &mut [u64; 36], n: usize, g: Magnitude)
    requires { Sheet row.old × Sheet waiting.old × Line n (cells row.old) × Line n (cells waiting.old) × (0 < size g) }
    ensures { Sketched (divided_by (size g) (sketch_of row.old waiting.old)) row.new waiting.new }
{
    if wide::is_one(g) {
        return;
    }
    wide_tableau::row::divide(row, n, g);
    wide_tableau::row::divide(waiting, n, g);
}

// The sketch with variable v, that waits, replaced by its row r.
fn substitute(row: &mut [u64; 36], waiting: &mut [u64; 36], n: usize, v: usize, r: &[u64; 36])
    requires { Sheet row.old × Sheet waiting.old × Sheet r.now × (v < 16) × Near n (sketch_of row.old waiting.old) (cells r.now) }
    ensures { Sketched (substituted v (cells r.now) (sketch_of row.old waiting.old)) row.new waiting.new }
{
    let m = wide_tableau::row::cell_at(r, 0);
    let mut q = *r;
    wide_tableau::row::wipe(&mut q);
    let b = wide_tableau::row::cell_at(waiting, v + 2);
    let c = wide::negate(b);
    let z = wide_tableau::row::zero();
    wide_tableau::row::clear(waiting, v);
    let g = wide_tableau::row::combine(row, n, m, c, &q);
    let h = wide_tableau::row::combine(waiting, n, m, z, &q);
    let d = wide::gcd(g, h);
    lower(row, waiting, n, d);
}

// Both rows within step 4's bound.
fn both_small(row: &[u64; 36], waiting: &[u64; 36], n: usize, r: &[u64; 36]) -> bool
    requires { Sheet row.now × Sheet waiting.now × Sheet r.now × Ready n (sketch_of row.now waiting.now) (cells r.now) }
    ensures { result ≡ both_small (bound 128) (sketch_of row.now waiting.now) (cells r.now) }
{
    if !wide_tableau::search::small(row, n) {
        return false;
    }
    if !wide_tableau::search::small(waiting, n) {
        return false;
    }
    wide_tableau::search::small(r, n)
}

// Variable v replaced by its row r; false where a number is beyond the bound.
fn replace(row: &mut [u64; 36], waiting: &mut [u64; 36], n: usize, v: usize, r: &[u64; 36]) -> bool
    requires { Sheet row.old × Sheet waiting.old × Sheet r.now × (v < 16) × Ready n (sketch_of row.old waiting.old) (cells r.now) }
    ensures { Settles (replaced_by (bound 128) v (cells r.now) (sketch_of row.old waiting.old)) result row.new waiting.new }
{
    if !both_small(row, waiting, n, r) {
        return false;
    }
    substitute(row, waiting, n, v, r);
    true
}

// Variable v, where it waits.
fn settle_at(
    row: &mut [u64; 36],
    waiting: &mut [u64; 36],
    t: &[[u64; 36]],
    place: &[usize],
    k: usize,
    v: usize,
) -> bool
    requires { Sheets t.now × Sheet row.old × Sheet waiting.old × Laid k (rows_of t.now) place.now × Sound k (rows_of t.now) place.now (sketch_of row.old waiting.old) × (v < most_axes + k) }
    ensures { Settles (settled_at (bound 128) (rows_of t.now) place.now v (sketch_of row.old waiting.old)) result row.new waiting.new }
{
    let b = wide_tableau::row::cell_at(waiting, v + 2);
    let m = b.magnitude;
    if wide::is_zero(m) {
        return true;
    }
    let i = place[v];
    replace(row, waiting, k + 10, v, &t[i])
}

// The variables in order; false where a number is beyond the bound.
pub fn settle(
    row: &mut [u64; 36],
    waiting: &mut [u64; 36],
    t: &[[u64; 36]],
    place: &[usize],
    k: usize,
) -> bool
    requires { Sheets t.now × Sheet row.old × Sheet waiting.old × Laid k (rows_of t.now) place.now × Sound k (rows_of t.now) place.now (sketch_of row.old waiting.old) }
    ensures { Settles (settled_from (bound 128) (rows_of t.now) place.now (most_axes + k) 0 (sketch_of row.old waiting.old)) result row.new waiting.new }
{
    let mut v: usize = 0;
    while v < limit::AXES + k {
        if !settle_at(row, waiting, t, place, k, v) {
            return false;
        }
        v += 1;
    }
    true
}

// A rule's row over the table; false where it is wide.
pub fn draft(c: Constraint, t: &[[u64; 36]], place: &[usize], k: usize, row: &mut [u64; 36]) -> bool
    requires { Sheets t.now × Laid k (rows_of t.now) place.now }
    ensures { Drafts (rule_row (bound 128) k (rows_of t.now) place.now (constraint_of c)) result row.new }
{
    let mut waiting = [0u64; 36];
    crate::begin::begin(c, k, place, row, &mut waiting);
    settle(row, &mut waiting, t, place, k)
}
