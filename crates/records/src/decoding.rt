// One basic set of checked bytes, decoded into a value.
ghost use Rattle.std.specs.Prelude.{◌≡◌, ◌+◌, ◌≤◌, ◌<◌, length, drop};
ghost use Rattle.model.specs.Numbers.{numbered};
ghost use Rattle.model.specs.Values.{division_of, constraint_of};
ghost use Rattle.model.specs.Limits.{most_divisions, most_constraints, coefficient_places};
ghost use Rattle.codec.specs.Bytes.{signed_list, division_body, constraint_body, read_division, read_constraint, kind_of};
ghost use Rattle.codec.specs.Places.{Opened, Decoded};

use codec::{
    AXES_PLACE, CONSTANT_PLACE, DIVISIONS_PLACE, body, code, constraint_at, division_at, head,
    is_equality, next, rule_number,
};
use integers::{i16_at, i32_at};
use model::{BasicSet, Constraint, Division, limit};

// Eight calls, one by one: with `array::from_fn` it is not proved that these are the coefficients (the goal `returns`), since what `from_fn` promises
// of its closure does not give the list.
fn coefficients(t: &[u8], p: usize) -> [i16; limit::PLACES]
    requires { p + 16 ≤ length t.now }
    ensures { result ≡ signed_list coefficient_places (drop p t.now) }
{
    [
        i16_at(t, p),
        i16_at(t, p + 2),
        i16_at(t, p + 4),
        i16_at(t, p + 6),
        i16_at(t, p + 8),
        i16_at(t, p + 10),
        i16_at(t, p + 12),
        i16_at(t, p + 14),
    ]
}

// The division by d whose body is t.
fn read_division(d: u64, t: &[u8]) -> Division
    requires { (division_body ≤ length t.now) × (d < 4294967296) }
    ensures { division_of result ≡ read_division d t.now }
{
    Division {
        divisor: d as u32,
        constant: i32_at(t, CONSTANT_PLACE),
        axes: coefficients(t, AXES_PLACE),
    }
}

// The constraint whose command is b, whose number is m and whose body is t.
fn read_constraint(b: u8, m: u16, t: &[u8]) -> Constraint
    requires { constraint_body ≤ length t.now }
    ensures { constraint_of result ≡ numbered m (read_constraint (kind_of b) t.now) }
{
    Constraint {
        equality: is_equality(b),
        number: m,
        constant: i32_at(t, CONSTANT_PLACE),
        axes: coefficients(t, AXES_PLACE),
        divisions: coefficients(t, DIVISIONS_PLACE),
    }
}

fn no_division() -> Division {
    Division {
        divisor: 1,
        constant: 0,
        axes: [0i16; limit::AXES],
    }
}

fn no_constraint() -> Constraint {
    Constraint {
        equality: false,
        number: 0,
        constant: 0,
        axes: [0i16; limit::AXES],
        divisions: [0i16; limit::DIVISIONS],
    }
}

fn no_divisions() -> [Division; limit::DIVISIONS]
    ensures { length result ≡ most_divisions }
{
    let d = no_division();
    [d; limit::DIVISIONS]
}

fn no_constraints() -> [Constraint; limit::CONSTRAINTS]
    ensures { length result ≡ most_constraints }
{
    let r = no_constraint();
    [r; limit::CONSTRAINTS]
}

// The basic set of checked bytes whose commands start at `start`, just past its `11`.
pub fn decode_basic(s: &[u8], start: usize) -> BasicSet
    requires { Opened s.now start }
    ensures { Decoded s.now start result }
{
    let mut at = start;
    let mut ds = no_divisions();
    let mut d = 0;
    while division_at(s, at) {
        let e = head(s, at);
        let t = body(s, at);
        ds[d] = read_division(e, t);
        d += 1;
        at = next(s, at);
    }
    let mut rs = no_constraints();
    let mut r = 0;
    while constraint_at(s, at) {
        let b = code(s, at);
        let m = rule_number(s, at);
        let t = body(s, at);
        rs[r] = read_constraint(b, m, t);
        r += 1;
        at = next(s, at);
    }
    BasicSet {
        divisions: ds,
        constraints: rs,
        divs: d,
        cons: r,
    }
}
