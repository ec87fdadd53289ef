// Whether the basic set of a row can hold over a box, and for how many values of an axis it cannot.
ghost use Rattle.std.specs.Prelude.{◌≡◌, map, ◌<◌, length};
ghost use Rattle.model.specs.Limits.{most_coordinate};
ghost use Rattle.codec.specs.Places.{basic_at, Past};
ghost use Rattle.bounds.specs.Sizes.{most_quotient};
ghost use Rattle.bounds.specs.Intervals.{box_of, quotient_side, can_hold};
ghost use Rattle.bounds.specs.Ends.{Ends, can_stand};
ghost use Rattle.bounds.specs.Rows.{start_of, Row, Settled};
ghost use Rattle.runs.specs.Upward.{Reach, Stopped, Failing, Told};

use crate::lasting::constraint_run;

// A constraint of a basic set that cannot hold by itself: its place and its number.
#[derive(Clone, Copy)]
pub struct Stop {
    pub at: usize,
    pub i: usize,
}

// The first constraint, from that at `first` on, that cannot hold by itself. Those without a number have a loop of their own,
// in which the compiler knows their width.
fn first_failing(
    s: &[u8],
    k: usize,
    low: &[i64],
    high: &[i64],
    r: &[i64; 129],
    ql: &[i64],
    qh: &[i64],
    first: usize,
) -> Option<Stop>
    requires { Settled s.now k low.now high.now r.now × Ends low.now high.now most_coordinate × Ends ql.now qh.now most_quotient × Past s.now (start_of r.now) first × (length ql.now ≡ length (basic_at s.now (start_of r.now)).divisions) }
    ensures { Stopped s.now r.now (can_stand (box_of low.now high.now) (box_of ql.now qh.now)) result }
{
    let mut i = ql.len();
    let mut at = first;
    loop {
        while codec::bare_at(s, at) {
            if !bounds::can_stand(s, k, low, high, r, ql, qh, at, i) {
                return Some(Stop { at, i });
            }
            at = codec::next(s, at);
            i += 1;
        }
        if !codec::constraint_at(s, at) {
            return None;
        }
        if !bounds::can_stand(s, k, low, high, r, ql, qh, at, i) {
            return Some(Stop { at, i });
        }
        at = codec::next(s, at);
        i += 1;
    }
}

// 0 where each constraint, the first of them at `first`, can hold by itself; otherwise for how many values of axis k, at
// most `most`, one goes on failing.
fn constraints_run(
    s: &[u8],
    k: usize,
    low: &[i64],
    high: &[i64],
    r: &[i64; 129],
    ql: &[i64],
    qh: &[i64],
    first: usize,
    most: u64,
) -> u64
    requires { Settled s.now k low.now high.now r.now × Ends low.now high.now most_coordinate × Ends ql.now qh.now most_quotient × Past s.now (start_of r.now) first × (length ql.now ≡ length (basic_at s.now (start_of r.now)).divisions) × (box_of ql.now qh.now ≡ map (quotient_side (box_of low.now high.now)) (basic_at s.now (start_of r.now)).divisions) × Reach k high.now most × (0 < most) }
    ensures { Failing s.now k low.now high.now (start_of r.now) most result }
{
    match first_failing(s, k, low, high, r, ql, qh, first) {
        Some(stop) => constraint_run(s, k, low, high, r, ql, qh, stop.at, stop.i, most),
        None => 0,
    }
}

// 0 where the basic set of row r can hold over the box from low to high; otherwise for how many values of axis k, at
// most `most`, it cannot. The row follows the box but for axis k.
pub fn failing_run(
    s: &[u8],
    k: usize,
    low: &[i64],
    high: &[i64],
    r: &mut [i64; 129],
    most: u64,
) -> u64
    requires { Row s.now (length low.now) r.old × Ends low.now high.now most_coordinate × (k < length low.now) × Reach k high.now most × (0 < most) }
    ensures { Told s.now k low.now high.now r.old r.new most result }
{
    bounds::settle(s, k, low, high, r);
    let mut ql = bounds::no_values();
    let mut qh = bounds::no_values();
    let p = bounds::bounded(s, k, low, high, r, &mut ql, &mut qh);
    let d = p.count;
    constraints_run(s, k, low, high, r, &ql[..d], &qh[..d], p.next, most)
}

// Whether the basic set of row r, which follows the box from low to high but for axis k, can hold over the box. A function
// of its own, so that failing_run has one caller and stays part of it.
pub fn can_hold(s: &[u8], k: usize, low: &[i64], high: &[i64], r: &[i64; 129]) -> bool
    requires { Settled s.now k low.now high.now r.now × Ends low.now high.now most_coordinate }
    ensures { result ≡ can_hold (box_of low.now high.now) (basic_at s.now (start_of r.now)) }
{
    let mut ql = bounds::no_values();
    let mut qh = bounds::no_values();
    let p = bounds::bounded(s, k, low, high, r, &mut ql, &mut qh);
    let d = p.count;
    first_failing(s, k, low, high, r, &ql[..d], &qh[..d], p.next).is_none()
}
