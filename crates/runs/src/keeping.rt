// For how many values of an axis a basic set that holds goes on holding: a guess, tested. A box with the least and the
// greatest value of the axis exchanged is one over which a rule can hold only where it holds at each of them.
ghost use Rattle.std.specs.Prelude.{◌≡◌, ◌≤◌, ◌<◌, length};
ghost use Rattle.model.specs.Limits.{most_coordinate};
ghost use Rattle.codec.specs.Places.{basic_at, Past};
ghost use Rattle.bounds.specs.Sizes.{most_quotient};
ghost use Rattle.bounds.specs.Ends.{Ends, Step};
ghost use Rattle.bounds.specs.Rows.{start_of, Loose, Row, Numbered, Settled};
ghost use Rattle.runs.specs.Upward.{Reach, Keeping};

use crate::guesses::guess_from;
use crate::holding::can_hold;
use crate::lasting::raised;

// For how many values the constraint at a place, which holds, goes on holding: until it is below 0, and an equality
// above it too.
fn constraint_keeps(
    s: &[u8],
    k: usize,
    from: i64,
    to: i64,
    r: &[i64; 129],
    ql: &[i64],
    qh: &[i64],
    at: usize,
    i: usize,
    most: u64,
) -> u64
    requires { Loose s.now r.now × Ends ql.now qh.now most_quotient × Step k from to × Numbered s.now r.now at i × (0 < most) }
    ensures { (0 < result) × (result ≤ most) }
{
    let t = codec::body(s, at);
    let f = bounds::end_at(t, k, from, to, r[i]);
    let low = bounds::extreme(t, codec::DIVISIONS_PLACE, ql, qh, f);
    let short = low.unsigned_abs() + 1;
    let m = guess_from(s, t, k, from, to, r, short, false, most);
    if codec::is_equality(codec::code(s, at)) {
        return guess_from(s, t, k, from, to, r, 1, true, m);
    }
    m
}

// The least of the constraints' guesses, the first of them at `first`; 1 is not looked into.
fn constraints_keep(
    s: &[u8],
    k: usize,
    low: &[i64],
    high: &[i64],
    r: &[i64; 129],
    ql: &[i64],
    qh: &[i64],
    first: usize,
    most: u64,
) -> u64
    requires { Settled s.now k low.now high.now r.now × Ends low.now high.now most_coordinate × Ends ql.now qh.now most_quotient × Past s.now (start_of r.now) first × (length ql.now ≡ length (basic_at s.now (start_of r.now)).divisions) × (0 < most) }
    ensures { (0 < result) × (result ≤ most) }
{
    let from = bounds::gap(low, k, r, 56);
    let to = bounds::gap(high, k, r, 120);
    let mut m = most;
    let mut i = ql.len();
    let mut at = first;
    while codec::constraint_at(s, at) {
        if m == 1 {
            return 1;
        }
        m = constraint_keeps(s, k, from, to, r, ql, qh, at, i, m);
        at = codec::next(s, at);
        i += 1;
    }
    m
}

// The guess for the basic set of a row that follows the box but for axis k.
fn keeps(s: &[u8], k: usize, low: &[i64], high: &[i64], r: &[i64; 129], most: u64) -> u64
    requires { Settled s.now k low.now high.now r.now × Ends low.now high.now most_coordinate × (0 < most) }
    ensures { (0 < result) × (result ≤ most) }
{
    let mut ql = bounds::no_values();
    let mut qh = bounds::no_values();
    let p = bounds::bounded(s, k, low, high, r, &mut ql, &mut qh);
    let d = p.count;
    constraints_keep(s, k, low, high, r, &ql[..d], &qh[..d], p.next, most)
}

// 1, or for how many values of axis k, at most `most`, the basic set of row r holds: over the box from the highest of
// them to `high` it can.
pub fn keeping_run(
    s: &[u8],
    k: usize,
    low: &[i64],
    high: &[i64],
    r: &mut [i64; 129],
    most: u64,
) -> u64
    requires { Row s.now (length low.now) r.old × Ends low.now high.now most_coordinate × (k < length low.now) × Reach k low.now most × (0 < most) }
    ensures { Keeping s.now k low.now high.now r.old r.new most result }
{
    bounds::settle(s, k, low, high, r);
    let m = keeps(s, k, low, high, r, most);
    if m == 1 {
        return 1;
    }
    let w = raised(low, k, m - 1);
    let n = low.len();
    if can_hold(s, k, &w[..n], high, r) {
        return m;
    }
    1
}
