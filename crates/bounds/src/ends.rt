// The least and the greatest value of one division or constraint over a box, from the ends of its axes' part over a box that differs in one axis.
ghost use Rattle.std.specs.Prelude.{◌≡◌, cond, ℕ, ◌+◌, ◌*◌, ◌≤◌, ◌<◌, ◌+ℤ◌, ◌*ℤ◌, length, drop};
ghost use Rattle.std.specs.Int.Signed.{non_neg};
ghost use Rattle.integers.specs.Z.{Within};
ghost use Rattle.model.specs.Sets.{floor_div};
ghost use Rattle.model.specs.Limits.{most_divisions, coefficient_places};
ghost use Rattle.codec.specs.Bytes.{signed_list, constant_in, axes_in, division_body, constraint_body, read_constraint, kind_of};
ghost use Rattle.bounds.specs.Sizes.{most_axes_part, most_moved_part, most_quotient};
ghost use Rattle.bounds.specs.Intervals.{can_meet};
ghost use Rattle.bounds.specs.Ends.{AllWithin, best, gain, Ends, Step, meet_side};

use codec::{AXES_PLACE, CONSTANT_PLACE, DIVISIONS_PLACE, is_equality, s16_at, s32_at};
use model::limit;

pub fn no_values() -> [i64; limit::DIVISIONS]
    ensures { (length result ≡ most_divisions) × AllWithin most_quotient result }
{
    [0i64; limit::DIVISIONS]
}

// A coefficient times the end that makes it greatest, for a side from v to u.
fn term(a: i64, u: i64, v: i64) -> i64
    requires { Within 32768 a × Within 2199023255552 u × Within 2199023255552 v }
    ensures { result ≡ a *ℤ cond (non_neg a) u v }
{
    if 0 <= a { a * u } else { a * v }
}

// A number, and the greatest sum of the coefficients from p on times the sides from v to u.
pub fn extreme(t: &[u8], p: usize, u: &[i64], v: &[i64], from: i64) -> i64
    requires { (p + 16 ≤ length t.now) × Ends u.now v.now 2199023255552 × Within 2199023255552 from }
    ensures is { result ≡ from +ℤ best (signed_list coefficient_places (drop p t.now)) u.now v.now }
    ensures size { (F B : ℕ) → Within F from → AllWithin B u.now → AllWithin B v.now → Within (F + coefficient_places * (32768 * B)) result }
{
    let mut sum = from;
    for i in 0..u.len() {
        sum += term(s16_at(t, p + 2 * i), u[i], v[i]);
    }
    sum
}

// The greatest sum z of the axes' coefficients of a body t times sides, once the side of axis k has moved by to and
// from.
pub fn moved(t: &[u8], k: usize, from: i64, to: i64, z: i64) -> i64
    requires { (division_body ≤ length t.now) × Step k from to × Within most_axes_part z }
    ensures is { result ≡ z +ℤ gain k from to (axes_in t.now) }
    ensures size { Within most_moved_part result }
{
    z + term(s16_at(t, AXES_PLACE + 2 * k), from, to)
}

// The same, with the constant.
pub fn end_at(t: &[u8], k: usize, from: i64, to: i64, z: i64) -> i64
    requires { (division_body ≤ length t.now) × Step k from to × Within most_axes_part z }
    ensures is { result ≡ constant_in t.now +ℤ (z +ℤ gain k from to (axes_in t.now)) }
    ensures size { Within most_quotient result }
{
    let c = s32_at(t, CONSTANT_PLACE);
    c + moved(t, k, from, to, z)
}

// The floor of the greatest value of the numerator of the division by d whose body is t; with from and to exchanged of
// the least.
pub fn quotient_end(d: u64, t: &[u8], k: usize, from: i64, to: i64, z: i64) -> i64
    requires { (division_body ≤ length t.now) × (0 < d) × (d < 4294967296) × Step k from to × Within most_axes_part z }
    ensures is { result ≡ floor_div (constant_in t.now +ℤ (z +ℤ gain k from to (axes_in t.now))) d }
    ensures size { Within most_quotient result }
{
    let e = end_at(t, k, from, to, z);
    integers::floor_div(e, d as i64)
}

// Whether the constraint whose command is b and whose body is t can hold: l and h are the ends of its axes' part before
// axis k has moved, ql and qh those of the divisions' values.
pub fn can_meet(
    b: u8,
    t: &[u8],
    k: usize,
    from: i64,
    to: i64,
    l: i64,
    h: i64,
    ql: &[i64],
    qh: &[i64],
) -> bool
    requires { (constraint_body ≤ length t.now) × Step k from to × Within most_axes_part l × Within most_axes_part h × Ends ql.now qh.now most_quotient }
    ensures { result ≡ can_meet (kind_of b) (meet_side k from to l h ql.now qh.now (read_constraint (kind_of b) t.now)) }
{
    let g = end_at(t, k, to, from, h);
    if extreme(t, DIVISIONS_PLACE, qh, ql, g) < 0 {
        return false;
    }
    if !is_equality(b) {
        return true;
    }
    let f = end_at(t, k, from, to, l);
    extreme(t, DIVISIONS_PLACE, ql, qh, f) <= 0
}
