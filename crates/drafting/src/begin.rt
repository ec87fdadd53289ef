// The first sketch: the coefficients of columns in their columns, those of rows waiting.
ghost use Rattle.std.specs.Prelude.{◌≡◌, ℕ, ◌+◌, ◌^◌, ◌<◌, ◌≤◌, length, get_or};
ghost use Rattle.model.specs.Values.{constraint_of};
ghost use Rattle.wide.specs.Wide.{size, value_of};
ghost use Rattle.wide_tableau.specs.Cells.{Sheet};
ghost use Rattle.model.specs.Limits.{most_axes, most_divisions};
ghost use Rattle.drafting.specs.Sketch.{sketch_of, coefficient_at, put_at, bare as bare_of, begun, Sketched};

use model::{Constraint, limit};
use wide::Wide;

fn widened(x: i16) -> Wide
    ensures { (value_of result ≡ x) × (size result.magnitude < 2 ^ 127) }
{
    wide::widen(x as i64)
}

// The coefficient of variable v.
fn coefficient(c: Constraint, v: usize) -> Wide
    requires { v < 16 }
    ensures { (value_of result ≡ coefficient_at (constraint_of c) v) × (size result.magnitude < 2 ^ 127) }
{
    if v < limit::AXES {
        let a = c.axes;
        let x = a[v];
        return widened(x);
    }
    let d = c.divisions;
    let y = d[v - limit::AXES];
    widened(y)
}

// Variable v of place i, with coefficient x.
fn put(row: &mut [u64; 36], waiting: &mut [u64; 36], v: usize, i: usize, x: Wide)
    requires { Sheet row.old × Sheet waiting.old × (v < 16) × (i < 80) × (size x.magnitude < 2 ^ 127) }
    ensures { Sketched (put_at v i (value_of x) (sketch_of row.old waiting.old)) row.new waiting.new }
{
    if i < 64 {
        wide_tableau::row::set_cell(waiting, v + 2, x);
        return;
    }
    wide_tableau::row::set_cell(row, i - 64 + 2, x);
}

// Denominator 1 and the constant.
fn bare(z: i32, row: &mut [u64; 36], waiting: &mut [u64; 36])
    ensures { Sketched (bare_of z) row.new waiting.new }
{
    *row = [0u64; 36];
    *waiting = [0u64; 36];
    let one = wide::widen(1);
    wide_tableau::row::set_cell(row, 0, one);
    let x = wide::widen(z as i64);
    wide_tableau::row::set_cell(row, 1, x);
}

pub fn begin(c: Constraint, k: usize, place: &[usize], row: &mut [u64; 36], waiting: &mut [u64; 36])
    requires { (k ≤ most_divisions) × (most_axes + k ≤ length place.now) × ((v : ℕ) → v < most_axes + k → get_or place.now v 0 < 80) }
    ensures { Sketched (begun k place.now (constraint_of c)) row.new waiting.new }
{
    let z = c.constant;
    bare(z, row, waiting);
    let mut v: usize = 0;
    while v < limit::AXES + k {
        let x = coefficient(c, v);
        let i = place[v];
        put(row, waiting, v, i, x);
        v += 1;
    }
}
