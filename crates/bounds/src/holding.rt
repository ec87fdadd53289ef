// What the divisions and constraints of a row can reach over a box that the row has been settled to but for one axis.
ghost use Rattle.std.specs.Prelude.{◌≡◌, length};
ghost use Rattle.model.specs.Limits.{most_divisions, most_coordinate};
ghost use Rattle.bounds.specs.Intervals.{box_of};
ghost use Rattle.bounds.specs.Ends.{AllWithin, Ends, Bounded, can_stand};
ghost use Rattle.codec.specs.Places.{constraint_at};
ghost use Rattle.bounds.specs.Sizes.{most_quotient};
ghost use Rattle.bounds.specs.Rows.{start_of, Settled, Numbered};

use crate::ends::{can_meet, quotient_end};
use crate::rows::{gap, place};
use codec::Passed;

// The ends of the values of the divisions; how many these are, and the place after them.
pub fn bounded(
    s: &[u8],
    k: usize,
    low: &[i64],
    high: &[i64],
    r: &[i64; 129],
    ql: &mut [i64],
    qh: &mut [i64],
) -> Passed
    requires { Settled s.now k low.now high.now r.now × Ends low.now high.now most_coordinate × (length ql.old ≡ most_divisions) × AllWithin most_quotient ql.old × (length qh.old ≡ most_divisions) × AllWithin most_quotient qh.old }
    ensures { Bounded s.now (start_of r.now) (box_of low.now high.now) ql.new qh.new result }
{
    let from = gap(low, k, r, 56);
    let to = gap(high, k, r, 120);
    let mut at = place(r);
    let mut d = 0;
    while codec::division_at(s, at) {
        let e = codec::head(s, at);
        let t = codec::body(s, at);
        let l = quotient_end(e, t, k, from, to, r[d]);
        let h = quotient_end(e, t, k, to, from, r[64 + d]);
        ql[d] = l;
        qh[d] = h;
        d += 1;
        at = codec::next(s, at);
    }
    Passed { count: d, next: at }
}

// Whether the constraint at a place, number i of the row, can hold by itself.
pub fn can_stand(
    s: &[u8],
    k: usize,
    low: &[i64],
    high: &[i64],
    r: &[i64; 129],
    ql: &[i64],
    qh: &[i64],
    at: usize,
    i: usize,
) -> bool
    requires { Settled s.now k low.now high.now r.now × Ends low.now high.now most_coordinate × Ends ql.now qh.now most_quotient × Numbered s.now r.now at i }
    ensures { result ≡ can_stand (box_of low.now high.now) (box_of ql.now qh.now) (constraint_at s.now at) }
{
    let from = gap(low, k, r, 56);
    let to = gap(high, k, r, 120);
    let b = codec::code(s, at);
    let t = codec::body(s, at);
    can_meet(b, t, k, from, to, r[i], r[64 + i], ql, qh)
}
