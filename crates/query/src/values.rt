// Values at a whole point, read from checked bytes.
ghost use Rattle.std.specs.Prelude.{◌≡◌, ℕ, ◌+◌, ◌*◌, ◌≤◌, ◌<◌, length, drop, pos};
ghost use Rattle.integers.specs.Z.{Within};
ghost use Rattle.model.specs.Sets.{dot, quotient, value, holds, Kind};
ghost use Rattle.model.specs.Limits.{most_axes, most_divisions, coefficient_places, most_coordinate};
ghost use Rattle.codec.specs.Bytes.{signed_list, division_body, constraint_body, read_division, read_constraint, kind_of};
ghost use Rattle.bounds.specs.Sizes.{most_quotient};
ghost use Rattle.query.specs.Holding.{AllWithin};

// The sum of the products of the coefficients from p on and the numbers x.
fn dot_at(t: &[u8], p: usize, x: &[i64]) -> i64
    requires { (p + 16 ≤ length t.now) × (length x.now ≤ most_axes) × AllWithin most_quotient x.now }
    ensures is { result ≡ dot (signed_list coefficient_places (drop p t.now)) x.now }
    ensures size { (B : ℕ) → AllWithin B x.now → Within (coefficient_places * (32768 * B)) result }
{
    let mut sum = 0;
    for (i, v) in x.iter().enumerate() {
        sum += codec::s16_at(t, p + 2 * i) * *v;
    }
    sum
}

// The value of the division by d whose body is t.
pub fn quotient_at(d: u64, t: &[u8], x: &[i64]) -> i64
    requires { (division_body ≤ length t.now) × (length x.now ≤ most_axes) × AllWithin most_coordinate x.now × (0 < d) × (d < 4294967296) }
    ensures is { result ≡ quotient x.now (read_division d t.now) }
    ensures size { Within most_quotient result }
{
    let c = codec::s32_at(t, codec::CONSTANT_PLACE) + dot_at(t, codec::AXES_PLACE, x);
    integers::floor_div(c, d as i64)
}

// The value at the point x, with the divisions' values q, of the constraint whose body is t.
pub fn value_at(t: &[u8], x: &[i64], q: &[i64]) -> i64
    requires { (constraint_body ≤ length t.now) × (length x.now ≤ most_axes) × (length q.now ≤ most_divisions) × AllWithin most_quotient x.now × AllWithin most_quotient q.now }
    ensures { (k : Kind) → result ≡ value (pos 1) x.now q.now (read_constraint k t.now) }
{
    let a = dot_at(t, codec::AXES_PLACE, x) + dot_at(t, codec::DIVISIONS_PLACE, q);
    codec::s32_at(t, codec::CONSTANT_PLACE) + a
}

// Whether the constraint whose command is b and whose body is t holds there.
pub fn holds_at(b: u8, t: &[u8], x: &[i64], q: &[i64]) -> bool
    requires { (constraint_body ≤ length t.now) × (length x.now ≤ most_axes) × (length q.now ≤ most_divisions) × AllWithin most_quotient x.now × AllWithin most_quotient q.now }
    ensures { result ≡ holds (pos 1) x.now q.now (read_constraint (kind_of b) t.now) }
{
    let v = value_at(t, x, q);
    if codec::is_equality(b) {
        return v == 0;
    }
    0 <= v
}
