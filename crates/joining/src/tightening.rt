// Tightened rules (document 02, request 3): coefficients divided by their common divisor, the constant rounded down.
ghost use Rattle.std.specs.Prelude.{◌≡◌, map, true, ◌≤◌, ◌<◌, nat_abs, take, unwrap_or};
ghost use Rattle.model.specs.Lists.{any};
ghost use Rattle.model.specs.Values.{constraint_of, basic_set_of, kind_is};
ghost use Rattle.model.specs.Limits.{most_divisions, most_constraints};
ghost use Rattle.feasibility.specs.Tableau as F;
ghost use Rattle.algebra.specs.Tighten as T;
ghost use Rattle.algebra.specs.Cut as C;
ghost use Rattle.algebra.specs.Cut.{move_constraint};
ghost use Rattle.joining.specs.Joining.{Below, Above, Placed, common_from, is_unit, down_by, reduced_of, Content, Reduces, Settled, Tightens};

use crate::divisions::moved;
use crate::opposites::{above, below};
use model::{BasicSet, Constraint, limit};

// The common divisor with one number more.
fn divisor_with(x: i16, g: u64) -> u64
    ensures { result ≡ F.gcd (nat_abs x) g }
{
    integers::gcd(u64::from(x.unsigned_abs()), g)
}

// The common divisor of g and eight numbers, from the last to the first; at 1 the rest is not looked at.
fn common(xs: [i16; limit::PLACES], g: u64) -> u64
    requires { g ≤ 32768 }
    ensures { (result ≡ common_from g xs) × (result ≤ 32768) }
{
    let mut r = g;
    for k in (0..limit::PLACES).rev() {
        if r == 1 {
            return 1;
        }
        r = divisor_with(xs[k], r);
    }
    r
}

fn is_unit(x: i16) -> bool
    ensures { result ≡ is_unit x }
{
    x == 1 || x == -1
}

// Whether 1 or −1 is among eight numbers. All are looked at, so that the compiler compares them at once.
fn unit_in(xs: [i16; limit::PLACES]) -> bool
    ensures { result ≡ any is_unit xs }
{
    let mut found = false;
    for x in &xs {
        found |= is_unit(*x);
    }
    found
}

// The common divisor of a constraint's coefficients. In most rules one of them is 1 or −1.
fn content(a: [i16; limit::PLACES], d: [i16; limit::PLACES]) -> u64
    ensures { Content a d result }
{
    if unit_in(a) || unit_in(d) {
        return 1;
    }
    common(a, common(d, 0))
}

fn quotient(x: i16, g: u64) -> i16
    requires { (0 < g) × (g ≤ 32768) }
    ensures { result ≡ down_by g x }
{
    integers::floor_div(i64::from(x), g as i64) as i16
}

fn quotients(xs: [i16; limit::PLACES], g: u64) -> [i16; limit::PLACES]
    requires { (0 < g) × (g ≤ 32768) }
    ensures { result ≡ map (down_by g) xs }
{
    let mut divided = xs;
    for x in &mut divided {
        *x = quotient(*x, g);
    }
    divided
}

// Coefficients divided by g, the constant rounded down.
fn divided_down(c: Constraint, g: u64) -> Constraint
    requires { (0 < g) × (g ≤ 32768) }
    ensures { constraint_of result ≡ T.divided_down g (constraint_of c) }
{
    Constraint {
        constant: integers::floor_div(i64::from(c.constant), g as i64) as i32,
        axes: quotients(c.axes, g),
        divisions: quotients(c.divisions, g),
        ..c
    }
}

fn undivided(equality: bool, k: i32, g: u64) -> bool
    requires { 0 < g }
    ensures { result ≡ T.undivided (kind_is equality) g k }
{
    equality && u64::from(k.unsigned_abs()) % g != 0
}

pub fn tight(c: Constraint) -> Constraint
    ensures { constraint_of result ≡ T.tight (constraint_of c) }
{
    let divisor = content(c.axes, c.divisions);
    if 1 < divisor {
        return divided_down(c, divisor);
    }
    c
}

// −e − 1 ≥ 0, tightened.
pub fn tight_below(c: Constraint) -> Constraint
    requires { Below (constraint_of c) }
    ensures { constraint_of result ≡ T.tight (C.below (constraint_of c)) }
{
    tight(below(c))
}

// e − 1 ≥ 0, of an equality, tightened.
pub fn tight_above(c: Constraint) -> Constraint
    requires { Above (constraint_of c) }
    ensures { constraint_of result ≡ T.tight (C.above (constraint_of c)) }
{
    tight(above(c))
}

// An equality whose constant the common divisor of its coefficients does not divide: no integer point meets it.
pub fn void(c: Constraint) -> bool
    ensures { result ≡ T.void (constraint_of c) }
{
    if !c.equality {
        return false;
    }
    let divisor = content(c.axes, c.divisions);
    1 < divisor && undivided(c.equality, c.constant, divisor)
}

// The opposites of a rule as it joins working rules, tightened: only those of a void rule have a common divisor left.
pub fn opposite_below(c: Constraint, void: bool) -> Constraint
    requires { Below (constraint_of c) × Settled (constraint_of c) void }
    ensures { constraint_of result ≡ T.tight (C.below (constraint_of c)) }
{
    if void { tight_below(c) } else { below(c) }
}

pub fn opposite_above(c: Constraint, void: bool) -> Constraint
    requires { (c.equality ≡ true) × Above (constraint_of c) × Settled (constraint_of c) void }
    ensures { constraint_of result ≡ T.tight (C.above (constraint_of c)) }
{
    if void { tight_above(c) } else { above(c) }
}

// A constraint tightened; nothing where it is void.
fn reduce(c: Constraint) -> Option<Constraint>
    ensures { Reduces (constraint_of c) result }
{
    let divisor = content(c.axes, c.divisions);
    if divisor <= 1 {
        return Some(c);
    }
    if undivided(c.equality, c.constant, divisor) {
        return None;
    }
    Some(divided_down(c, divisor))
}

// A constraint of a cutter, moved, as it joins the working rules: as it is where it is void (the opposites are those of the rule as given),
// else tightened. Moving leaves the axes' coefficients, so that 1 or −1 among them is seen before.
pub fn joining_rule(c: Constraint, places: [usize; limit::DIVISIONS], n: usize) -> Constraint
    requires { (n ≤ most_divisions) × Placed (take n places) }
    ensures { constraint_of result ≡ reduced_of (move_constraint (take n places) (constraint_of c)) }
{
    let rule = moved(c, places, n);
    if unit_in(c.axes) {
        return rule;
    }
    reduce(rule).unwrap_or(rule)
}

// Whether some constraint has a common divisor over 1: else the basic set is tight as it is, and none of them is void.
pub fn any_divisible(b: BasicSet) -> bool
    requires { b.cons ≤ most_constraints }
    ensures { result ≡ any T.divisible (basic_set_of b).constraints }
{
    for c in &b.constraints[..b.cons] {
        if 1 < content(c.axes, c.divisions) {
            return true;
        }
    }
    false
}

// A basic set with its constraints tightened; nothing where one of them is void, and the basic set contributes nothing.
pub fn tight_set(b: BasicSet) -> Option<BasicSet>
    requires { b.cons ≤ most_constraints }
    ensures { Tightens b result }
{
    let mut w = b;
    for k in 0..b.cons {
        w.constraints[k] = reduce(w.constraints[k])?;
    }
    Some(w)
}
