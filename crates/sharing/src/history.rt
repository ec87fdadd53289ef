// Kept pivots: a test that keeps them, and a row that is brought through them.
ghost use Rattle.std.specs.Prelude.{◌≡◌, ◌+◌, ◌<◌, ◌≤◌, length, take};
ghost use Rattle.model.specs.Limits.{most_pivots};
ghost use Rattle.tableau.specs.Rows.{violated as violated_of, Whole};
ghost use Rattle.simplex.specs.Table.{run_table, Fine, Crossing};
ghost use Rattle.sharing.specs.Past.{Left, Kept, Passed, Replayed};
ghost use Rattle.sharing.specs.Trace.{Went, Made};

use model::limit;
use simplex::choose::{choose, choose_at};
use simplex::run::pivot;
use simplex::{Move, Verdict};
use tableau::{replace, small};

// Where a test stands: the rows of its table, the pivots made and kept, its answer.
#[derive(Clone, Copy)]
pub struct Standing {
    pub rows: usize,
    pub pivots: usize,
    pub verdict: Verdict,
}

// One kept pivot on a row: q is the row that the pivot left, j its column. Not true: step 4 would find the row too wide.
fn pass(r: &mut [i64; 18], n: usize, q: &[i64; 18], j: usize) -> bool
    requires j_bound { j < 16 }
    requires whole { Whole n r.old }
    requires left { Left n q.now }
    ensures { Passed j q.now r.old result r.new }
{
    if r[j + 2] == 0 {
        return true;
    }
    if !small(r, n) {
        return false;
    }
    let mut p = *q;
    p[0] = 0;
    replace(r, n, j, q[0], &p);
    true
}

// The row brought through the first `made` pivots. Not true: it is too wide at one of them.
pub fn replay(
    r: &mut [i64; 18],
    n: usize,
    past: &[[i64; 18]],
    columns: &[usize],
    made: usize,
) -> bool
    requires whole { Whole n r.old }
    requires made_in_bounds { (made ≤ length past.now) × (made ≤ length columns.now) }
    requires kept { Kept n (take made past.now) (take made columns.now) }
    ensures { Replayed (take made past.now) (take made columns.now) r.old result r.new }
{
    for (q, j) in past[..made].iter().zip(&columns[..made]) {
        if !pass(r, n, q, *j) {
            return false;
        }
    }
    true
}

// Step 5, kept at number k.
fn make(
    t: &mut [[i64; 18]],
    n: usize,
    place: &mut [usize],
    past: &mut [[i64; 18]],
    columns: &mut [usize],
    k: usize,
    v: usize,
    w: usize,
)
    requires crossing { Crossing n t.old place.old v w }
    requires k_in_bounds { k < length past.old }
    requires k_in_bounds_2 { k < length columns.old }
    ensures { Made t.old place.old past.old columns.old k v w t.new place.new past.new columns.new }
{
    let i = place[v];
    let j = place[w] - 64;
    pivot(t, n, place, v, w);
    past[k] = t[i];
    columns[k] = j;
}

// The steps from here on, after `start` pivots, each pivot kept.
pub fn go_on(
    t: &mut [[i64; 18]],
    n: usize,
    place: &mut [usize],
    kinds: &[u8],
    past: &mut [[i64; 18]],
    columns: &mut [usize],
    start: usize,
) -> Standing
    requires fine { Fine n t.old place.old kinds.now }
    requires past_len { (length past.old ≡ most_pivots) × (length columns.old ≡ most_pivots) }
    requires start_le_most_pivots { start ≤ most_pivots }
    ensures { Went kinds.now start t.old place.old past.old columns.old result t.new place.new past.new columns.new }
{
    let rows = t.len();
    let mut made = start;
    loop {
        match choose(t, n, place, kinds, limit::PIVOTS - made) {
            Move::Stop(x) => {
                return Standing {
                    rows,
                    pivots: made,
                    verdict: x,
                };
            }
            Move::Pivot(v, w) => {
                make(t, n, place, past, columns, made, v, w);
                made += 1;
            }
        }
    }
}

// The same, where the violated variable is known to be u: the first search is spared.
pub fn go_from(
    t: &mut [[i64; 18]],
    n: usize,
    place: &mut [usize],
    kinds: &[u8],
    past: &mut [[i64; 18]],
    columns: &mut [usize],
    start: usize,
    u: usize,
) -> Standing
    requires fine { Fine n t.old place.old kinds.now }
    requires past_len { (length past.old ≡ most_pivots) × (length columns.old ≡ most_pivots) }
    requires start_le_most_pivots { start ≤ most_pivots }
    requires u_value { (u ≡ violated_of t.old place.old kinds.now) × (u < length place.old) }
    ensures { Went kinds.now start t.old place.old past.old columns.old result t.new place.new past.new columns.new }
{
    let rows = t.len();
    match choose_at(t, n, place, kinds, limit::PIVOTS - start, u) {
        Move::Stop(x) => Standing {
            rows,
            pivots: start,
            verdict: x,
        },
        Move::Pivot(v, w) => {
            make(t, n, place, past, columns, start, v, w);
            go_on(t, n, place, kinds, past, columns, start + 1)
        }
    }
}

// The steps from here on, with so many pivots left, none kept.
pub fn rest(
    t: &mut [[i64; 18]],
    n: usize,
    place: &mut [usize],
    kinds: &[u8],
    most: usize,
) -> Verdict
    requires { Fine n t.old place.old kinds.now }
    ensures { result ≡ (run_table kinds.now most t.old place.old).verdict }
{
    let mut left = most;
    loop {
        match choose(t, n, place, kinds, left) {
            Move::Stop(x) => return x,
            Move::Pivot(v, w) => {
                pivot(t, n, place, v, w);
                left -= 1;
            }
        }
    }
}
