// The test of the working constraints with its pivots kept, one constraint more, and the test of a candidate.
ghost use Rattle.std.specs.Prelude.{◌≡◌, false, ◌≤◌, length};
ghost use Rattle.model.specs.Sets.{bounds};
ghost use Rattle.model.specs.Values.{basic_set_of};
ghost use Rattle.model.specs.Limits.{most_pivots};
ghost use Rattle.simplex.specs.Table.{Valid};
ghost use Rattle.sharing.specs.Working.{Beginning, Stands, Growing, Grown, Tried, Calm, Appended, onward};

use crate::history::{Standing, go_from, go_on, replay, rest};
use model::{BasicSet, Constraint, limit};
use simplex::Verdict;
use simplex::fill::{constraint_row, fill_bounds, kind_of, name_variables};
use tableau::{helping, is_violated};

// The test of the divisions' bounds alone.
pub fn begin(
    b: BasicSet,
    rows: &mut [[i64; 18]],
    place: &mut [usize],
    kinds: &mut [u8],
    past: &mut [[i64; 18]],
    columns: &mut [usize],
) -> Standing
    requires valid { Valid b }
    requires beginning { Beginning rows.old place.old kinds.old past.old columns.old }
    ensures { Stands b.divs (bounds 0 (basic_set_of b).divisions) result rows.new place.new kinds.new past.new columns.new }
{
    let k = b.divs;
    let m = 2 * k;
    let n = limit::AXES + 3 * k;
    name_variables(k, n, place, kinds);
    fill_bounds(b.divisions, k, rows);
    go_on(
        &mut rows[..m],
        k + 10,
        &mut place[..n],
        &kinds[..n],
        past,
        columns,
        0,
    )
}

// One row more in the tables, of a variable of this kind, and the test goes on.
fn append(
    m: usize,
    v: usize,
    made: usize,
    n: usize,
    r: [i64; 18],
    kind: u8,
    rows: &mut [[i64; 18]],
    place: &mut [usize],
    kinds: &mut [u8],
    past: &mut [[i64; 18]],
    columns: &mut [usize],
) -> Standing
    requires calm { Calm n m v r rows.old place.old kinds.old }
    requires made_le_most_pivots { (made ≤ most_pivots) × (length past.old ≡ most_pivots) × (length columns.old ≡ most_pivots) }
    ensures { Appended m v made kind r rows.old place.old kinds.old past.old columns.old result rows.new place.new kinds.new past.new columns.new }
{
    rows[m] = r;
    place[v] = m;
    kinds[v] = kind;
    if !is_violated(kind, r[1]) {
        return Standing {
            rows: m + 1,
            pivots: made,
            verdict: Verdict::Point,
        };
    }
    go_from(
        &mut rows[..m + 1],
        n,
        &mut place[..v + 1],
        &kinds[..v + 1],
        past,
        columns,
        made,
        v,
    )
}

// The test with one constraint more, over k divisions.
pub fn grow(
    h: Standing,
    c: Constraint,
    k: usize,
    rows: &mut [[i64; 18]],
    place: &mut [usize],
    kinds: &mut [u8],
    past: &mut [[i64; 18]],
    columns: &mut [usize],
) -> Standing
    requires { Growing k h rows.old place.old kinds.old past.old columns.old }
    ensures { Grown k c h rows.old place.old kinds.old past.old columns.old result rows.new place.new kinds.new past.new columns.new }
{
    let n = k + 10;
    let wide = Standing {
        rows: h.rows + 1,
        pivots: 0,
        verdict: Verdict::Wide,
    };
    let mut r = [0i64; 18];
    constraint_row(&mut r, c, k);
    if !replay(&mut r, n, past, columns, h.pivots) {
        return wide;
    }
    match h.verdict {
        Verdict::Point => append(
            h.rows,
            limit::AXES + k + h.rows,
            h.pivots,
            n,
            r,
            kind_of(c.equality),
            rows,
            place,
            kinds,
            past,
            columns,
        ),
        Verdict::Wide => wide,
        _ => Standing {
            rows: h.rows + 1,
            ..h
        },
    }
}

// The test goes on with the row of an inequality more, on copies.
fn finish(
    m: usize,
    v: usize,
    left: usize,
    n: usize,
    r: [i64; 18],
    rows: &[[i64; 18]],
    place: &[usize],
    kinds: &[u8],
    spare: &mut [[i64; 18]],
) -> Verdict
    requires calm { Calm n m v r rows.now place.now kinds.now }
    requires spare_len { length spare.old ≡ 64 }
    ensures { result ≡ (onward left m v 1 r rows.now place.now kinds.now).verdict }
{
    if !is_violated(1, r[1]) {
        return Verdict::Point;
    }
    let w = helping(&r, &place[..v], &kinds[..v]);
    if v <= w {
        return Verdict::Dropped;
    }
    let mut seats = [0usize; 80];
    let mut sorts = [0u8; 80];
    spare[..m].copy_from_slice(&rows[..m]);
    spare[m] = r;
    seats[..v].copy_from_slice(&place[..v]);
    sorts[..v].copy_from_slice(&kinds[..v]);
    seats[v] = m;
    sorts[v] = 1;
    rest(
        &mut spare[..m + 1],
        n,
        &mut seats[..v + 1],
        &sorts[..v + 1],
        left,
    )
}

// The test of the working constraints and one inequality more.
pub fn candidate(
    h: Standing,
    c: Constraint,
    k: usize,
    rows: &[[i64; 18]],
    place: &[usize],
    kinds: &[u8],
    past: &[[i64; 18]],
    columns: &[usize],
    spare: &mut [[i64; 18]],
) -> Verdict
    requires growing { Growing k h rows.now place.now kinds.now past.now columns.now }
    requires equality_value { (c.equality ≡ false) × (length spare.old ≡ 64) }
    ensures { Tried k c h rows.now place.now kinds.now past.now columns.now result }
{
    let mut r = [0i64; 18];
    constraint_row(&mut r, c, k);
    if !replay(&mut r, k + 10, past, columns, h.pivots) {
        return Verdict::Wide;
    }
    match h.verdict {
        Verdict::Point => finish(
            h.rows,
            limit::AXES + k + h.rows,
            limit::PIVOTS - h.pivots,
            k + 10,
            r,
            rows,
            place,
            kinds,
            spare,
        ),
        stopped => stopped,
    }
}
