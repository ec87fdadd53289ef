// The first tableau of a basic set: the rows of the divisions' bounds, then those of the constraints, over the free variables.
ghost use Rattle.std.specs.Prelude.{◌≡◌, ◌+◌, ◌*◌, ◌<◌, ◌≤◌, cond, length, ltb, pos, neg_ℤ, ◌-ℤ◌, ◌*ℤ◌};
ghost use Rattle.integers.specs.Z.{Within};
ghost use Rattle.model.specs.Sets.{lower, upper};
ghost use Rattle.model.specs.Values.{division_of, constraint_of, kind_is};
ghost use Rattle.std.proofs.Math.Option.{some};
ghost use Rattle.model.specs.Limits.{most_axes, most_divisions};
ghost use Rattle.simplex.specs.Table.{start_row, place_at, kind_number, Copied, Started, Bounded, Named, Valid, First};

use model::{BasicSet, Constraint, Division, limit};

// s times the first n numbers of a, from place `base` on.
fn copy(r: &mut [i64; 18], base: usize, s: i64, a: [i16; limit::PLACES], n: usize)
    requires r_len { length r.old ≡ 18 }
    requires n_bound { base + n ≤ 18 }
    requires n_le_most_axes { n ≤ most_axes }
    requires within { Within 1 s }
    ensures { Copied base s n a r.old r.new }
{
    for i in 0..n {
        r[base + i] = s * i64::from(a[i]);
    }
}

// A first row without divisions.
fn row_of(r: &mut [i64; 18], k: usize, z: i64, s: i64, a: [i16; limit::PLACES])
    requires k_le_most_divisions { k ≤ most_divisions }
    requires within { Within 1 s }
    ensures { Started k z s a r.new }
{
    *r = [0i64; 18];
    r[0] = 1;
    r[1] = z;
    copy(r, k + 2, s, a, limit::AXES);
}

// numerator − d·q
fn lower_row(r: &mut [i64; 18], e: Division, i: usize, k: usize)
    requires i_lt_k { i < k }
    requires k_le_most_divisions { k ≤ most_divisions }
    ensures { r.new ≡ start_row k (lower i (division_of e)) }
{
    row_of(r, k, i64::from(e.constant), 1, e.axes);
    r[i + 2] = -i64::from(e.divisor);
}

// d·q − numerator + d − 1
fn upper_row(r: &mut [i64; 18], e: Division, i: usize, k: usize)
    requires i_lt_k { i < k }
    requires k_le_most_divisions { k ≤ most_divisions }
    ensures { r.new ≡ start_row k (upper i (division_of e)) }
{
    let divisor = i64::from(e.divisor);
    row_of(r, k, divisor - 1 - i64::from(e.constant), -1, e.axes);
    r[i + 2] = divisor;
}

pub fn constraint_row(r: &mut [i64; 18], c: Constraint, k: usize)
    requires { k ≤ most_divisions }
    ensures { r.new ≡ start_row k (constraint_of c) }
{
    row_of(r, k, i64::from(c.constant), 1, c.axes);
    copy(r, 2, 1, c.divisions, k);
}

// The rows of the bounds of the first k divisions.
pub fn fill_bounds(ds: [Division; limit::DIVISIONS], k: usize, rows: &mut [[i64; 18]])
    requires k_le_most_divisions { k ≤ most_divisions }
    requires ds_len { length ds ≡ most_divisions }
    requires k_in_bounds { 2 * k ≤ length rows.old }
    ensures { Bounded ds k k rows.old rows.new }
{
    for i in 0..k {
        lower_row(&mut rows[2 * i], ds[i], i, k);
        upper_row(&mut rows[2 * i + 1], ds[i], i, k);
    }
}

pub fn kind_of(equality: bool) -> u8
    ensures { result ≡ kind_number (some (kind_is equality)) }
{
    if equality { 2 } else { 1 }
}

fn place_of(k: usize, v: usize) -> usize
    requires { k ≤ most_divisions }
    ensures { result ≡ place_at k v }
{
    if v < limit::AXES {
        64 + k + v
    } else if v < limit::AXES + k {
        64 + (v - limit::AXES)
    } else {
        v - (limit::AXES + k)
    }
}

fn free_or_bound(k: usize, v: usize) -> u8
    requires { k ≤ most_divisions }
    ensures { result ≡ cond (ltb v (most_axes + k)) 0 1 }
{
    if v < limit::AXES + k { 0 } else { 1 }
}

// The first n variables.
pub fn name_variables(k: usize, n: usize, place: &mut [usize], kinds: &mut [u8])
    requires k_le_most_divisions { k ≤ most_divisions }
    requires n_in_bounds { n ≤ length place.old }
    requires n_in_bounds_2 { n ≤ length kinds.old }
    ensures { Named k n place.old place.new kinds.old kinds.new }
{
    for v in 0..n {
        place[v] = place_of(k, v);
        kinds[v] = free_or_bound(k, v);
    }
}

// The first table: the rows, then the places and kinds of its variables.
pub fn fill(b: BasicSet, rows: &mut [[i64; 18]], place: &mut [usize], kinds: &mut [u8])
    requires valid { Valid b }
    requires in_bounds { 64 ≤ length rows.old }
    requires in_bounds_2 { 80 ≤ length place.old }
    requires in_bounds_3 { 80 ≤ length kinds.old }
    ensures { First b rows.old rows.new place.old place.new kinds.old kinds.new }
{
    let k = b.divs;
    let cons = b.cons;
    name_variables(k, limit::AXES + k + (2 * k + cons), place, kinds);
    fill_bounds(b.divisions, k, rows);
    for i in 0..cons {
        let c = b.constraints[i];
        constraint_row(&mut rows[2 * k + i], c, k);
        kinds[limit::AXES + 3 * k + i] = kind_of(c.equality);
    }
}
