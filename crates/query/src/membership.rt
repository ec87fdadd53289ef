// Membership of a point in the checked bytes of a set.
ghost use Rattle.std.specs.Prelude.{◌≡◌, true, ◌&&◌, ◌+◌, ◌*◌, ◌≤◌, ◌<◌, pos, length, get_or};
ghost use Rattle.model.specs.Sets as M;
ghost use Rattle.model.specs.Limits.{most_axes, most_divisions};
ghost use Rattle.codec.specs.Bytes.{is_constraint, constraint_body, read_constraint, kind_of};
ghost use Rattle.codec.specs.Places.{Opened, Accepted, Tail, set_from};
ghost use Rattle.bounds.specs.Sizes.{most_quotient};
ghost use Rattle.query.specs.Member.{member_bytes, point_fits};
ghost use Rattle.query.specs.Holder.{first_holding, numbered};
ghost use Rattle.query.specs.Holding.{AllWithin, Point, Values, Divided, Judging, Judged, Spanned, member_is, coordinate_fits};

use crate::values::{holds_at, quotient_at};
use codec::Passed;
use model::{Refusal, limit};

const LEAST_COORDINATE: i32 = -limit::COORDINATE;

// Whether a basic set holds the point, and the place after it.
#[derive(Clone, Copy)]
pub struct Span {
    pub holds: bool,
    pub next: usize,
}

// The values of the divisions of the basic set whose commands start at `start`; how many these are, and the place after
// them.
fn divided(s: &[u8], start: usize, x: &[i64], q: &mut [i64]) -> Passed
    requires { Opened s.now start × Point x.now × (length q.old ≡ most_divisions) × AllWithin most_quotient q.old }
    ensures { Divided s.now start x.now q.new result }
{
    let mut at = start;
    let mut d = 0;
    while codec::division_at(s, at) {
        let e = codec::head(s, at);
        let t = codec::body(s, at);
        let v = quotient_at(e, t, x);
        q[d] = v;
        d += 1;
        at = codec::next(s, at);
    }
    Passed { count: d, next: at }
}

// One constraint more, unless one has failed.
fn still(before: bool, b: u8, t: &[u8], x: &[i64], q: &[i64]) -> bool
    requires { (constraint_body ≤ length t.now) × Point x.now × Values q.now }
    ensures { result ≡ (before && M.holds (pos 1) x.now q.now (read_constraint (kind_of b) t.now)) }
{
    before && holds_at(b, t, x, q)
}

// The constraint at a place, behind those that hold or not.
fn one_judged(s: &[u8], at: usize, so: bool, x: &[i64], q: &[i64]) -> Span
    requires { Tail s.now at × (is_constraint (get_or s.now at 0) ≡ true) × Point x.now × Values q.now }
    ensures past { at < result.next }
    ensures judged { Judging s.now at (M.holds (pos 1) x.now q.now) so result.next result.holds }
{
    let b = codec::code(s, at);
    let t = codec::body(s, at);
    let holds = still(so, b, t, x, q);
    let next = codec::next(s, at);
    Span { holds, next }
}

// The constraints without a number that follow: in a loop of their own the compiler knows their width.
fn bare_judged(s: &[u8], start: usize, so: bool, x: &[i64], q: &[i64]) -> Span
    requires { Tail s.now start × Point x.now × Values q.now }
    ensures { Judging s.now start (M.holds (pos 1) x.now q.now) so result.next result.holds }
{
    let mut at = start;
    let mut holds = so;
    while codec::bare_at(s, at) {
        let r = one_judged(s, at, holds, x, q);
        holds = r.holds;
        at = r.next;
    }
    Span { holds, next: at }
}

// Whether the constraints from `start` on hold, and the place after them.
fn judged(s: &[u8], start: usize, x: &[i64], q: &[i64]) -> Span
    requires { Tail s.now start × Point x.now × Values q.now }
    ensures { Judged s.now start (M.holds (pos 1) x.now q.now) result }
{
    let mut at = start;
    let mut holds = true;
    while codec::constraint_at(s, at) {
        let t = one_judged(s, at, holds, x, q);
        let r = bare_judged(s, t.next, t.holds, x, q);
        holds = r.holds;
        at = r.next;
    }
    Span { holds, next: at }
}

// The basic set whose commands start at `start`.
pub fn spanned(s: &[u8], start: usize, x: &[i64]) -> Span
    requires { Opened s.now start × Point x.now }
    ensures { Spanned s.now start (M.in_basic x.now) result }
{
    let mut q = bounds::no_values();
    let p = divided(s, start, x, &mut q);
    let d = p.count;
    judged(s, p.next, x, &q[..d])
}

// The number, from 1, of the first basic set that holds the point.
pub fn first_holding(s: &[u8], x: &[i64]) -> Option<usize>
    requires { Accepted s.now × Point x.now }
    ensures { result ≡ numbered (first_holding 1 x.now (set_from s.now 0)) }
{
    let mut at = 0;
    let mut number = 0;
    while at < s.len() {
        number += 1;
        let span = spanned(s, at + 1, x);
        if span.holds {
            return Some(number);
        }
        at = span.next;
    }
    None
}

// Whether z can be coordinate i of a point with n axes.
pub fn coordinate_fits(n: usize, i: usize, z: i32) -> bool
    ensures { result ≡ coordinate_fits n i z }
{
    LEAST_COORDINATE <= z && z <= limit::COORDINATE && (i < n || z == 0)
}

// Whether a point has its coordinates in their range, and 0 on absent axes.
pub fn point_fits(n: usize, point: [i32; limit::AXES]) -> bool
    ensures { result ≡ point_fits n point }
{
    point
        .iter()
        .enumerate()
        .all(|(i, z)| coordinate_fits(n, i, *z))
}

// The same numbers, wider.
pub fn widened(p: [i32; limit::AXES]) -> [i64; limit::AXES]
    ensures { (result ≡ p) × (length result ≡ most_axes) }
{
    p.map(i64::from)
}

// Whether the point is in the set of the bytes.
pub fn member(n: usize, set: &[u8], point: [i32; limit::AXES]) -> Result<bool, Refusal>
    ensures { member_is result ≡ member_bytes n set.now point }
{
    codec::check(n, set)?;
    if !point_fits(n, point) {
        return Err(Refusal::BadPoint);
    }
    let x = widened(point);
    Ok(first_holding(set, &x[..n]).is_some())
}
