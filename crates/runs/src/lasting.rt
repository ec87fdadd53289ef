// For how many values of an axis a constraint that fails goes on failing: the guess, tested. Where the constraint fails
// over the whole side that these values make, it fails at each of them; so no answer rests on the guess.
ghost use Rattle.std.specs.Prelude.{◌≡◌, true, map, ◌≤◌, ◌<◌, length, take};
ghost use Rattle.model.specs.Limits.{most_axes, most_coordinate};
ghost use Rattle.codec.specs.Places.{basic_at, constraint_at};
ghost use Rattle.bounds.specs.Sizes.{most_move, most_quotient};
ghost use Rattle.bounds.specs.Intervals.{box_of, quotient_side};
ghost use Rattle.bounds.specs.Ends.{AllWithin, Ends, can_stand};
ghost use Rattle.bounds.specs.Rows.{start_of, Settled, Numbered};
ghost use Rattle.runs.specs.Upward.{widened, Reach, Lasts};

use crate::guesses::guess;
use model::limit;

// Highs with that of axis k up by some; or lows.
pub fn raised(high: &[i64], k: usize, up: u64) -> [i64; limit::AXES]
    requires { (length high.now ≤ most_axes) × (k < length high.now) × AllWithin most_coordinate high.now × (up ≤ most_move) }
    ensures is { take (length high.now) result ≡ widened k up high.now }
    ensures places { length result ≡ most_axes }
{
    let mut w = bounds::no_values();
    w[..high.len()].copy_from_slice(high);
    w[k] += up as i64;
    w
}

// Whether the constraint at a place can hold over the box from low to high.
fn can_over(
    s: &[u8],
    k: usize,
    low: &[i64],
    high: &[i64],
    r: &[i64; 129],
    at: usize,
    i: usize,
) -> bool
    requires { Settled s.now k low.now high.now r.now × Ends low.now high.now most_coordinate × Numbered s.now r.now at i }
    ensures { result ≡ can_stand (box_of low.now high.now) (map (quotient_side (box_of low.now high.now)) (basic_at s.now (start_of r.now)).divisions) (constraint_at s.now at) }
{
    let mut ql = bounds::no_values();
    let mut qh = bounds::no_values();
    let p = bounds::bounded(s, k, low, high, r, &mut ql, &mut qh);
    let d = p.count;
    bounds::can_stand(s, k, low, high, r, &ql[..d], &qh[..d], at, i)
}

// Whether it fails over the whole side of m values.
fn lasts(
    s: &[u8],
    k: usize,
    low: &[i64],
    high: &[i64],
    r: &[i64; 129],
    at: usize,
    i: usize,
    m: u64,
) -> bool
    requires { Settled s.now k low.now high.now r.now × Ends low.now high.now most_coordinate × Numbered s.now r.now at i × Reach k high.now m × (0 < m) }
    ensures { result ≡ true → Lasts s.now k low.now high.now (start_of r.now) (constraint_at s.now at) m }
{
    let w = raised(high, k, m - 1);
    let n = high.len();
    !can_over(s, k, low, &w[..n], r, at, i)
}

// For how many values, at most `most`, the constraint at a place, which fails, goes on failing.
pub fn constraint_run(
    s: &[u8],
    k: usize,
    low: &[i64],
    high: &[i64],
    r: &[i64; 129],
    ql: &[i64],
    qh: &[i64],
    at: usize,
    i: usize,
    most: u64,
) -> u64
    requires { Settled s.now k low.now high.now r.now × Ends low.now high.now most_coordinate × Ends ql.now qh.now most_quotient × Numbered s.now r.now at i × Reach k high.now most × (0 < most) × Lasts s.now k low.now high.now (start_of r.now) (constraint_at s.now at) 1 }
    ensures is { Lasts s.now k low.now high.now (start_of r.now) (constraint_at s.now at) result }
    ensures size { (0 < result) × (result ≤ most) }
{
    if most == 1 {
        return 1;
    }
    let from = bounds::gap(low, k, r, 56);
    let to = bounds::gap(high, k, r, 120);
    let m = guess(s, k, from, to, r, ql, qh, at, i, most);
    if m != 1 && lasts(s, k, low, high, r, at, i, m) {
        m
    } else {
        1
    }
}
