// The numbers of divisions, ten each: refused by 1, 9, 6, 7 or 8, else divisions.
ghost use Rattle.std.specs.Prelude.{◌≡◌, ◌&&◌, ◌+◌, ◌*◌, ◌≤◌, leb, ltb, length, take, drop};
ghost use Rattle.model.specs.Refused.{number_in};
ghost use Rattle.model.specs.Values.{division_of};
ghost use Rattle.model.specs.Limits.{most_axes, most_divisions, most_divisor};
ghost use Rattle.codec.specs.Bytes.{division_constant, refusal, division};
ghost use Rattle.planning.specs.State.{start_refusal};
ghost use Rattle.rules.specs.Divisions.{unsigned, quotient_of, division_by, divisions_in, Proper, Listed, Divided};

use crate::Quotient;
use crate::coefficients::{are_absent, are_coefficients, narrowed};
use model::{Division, Refusal, limit};

// The division whose ten numbers stand from place `at` on.
fn quotient_at(xs: &[i32], at: usize) -> Quotient
    requires { at + 10 ≤ length xs.now }
    ensures { quotient_of result ≡ division_by (drop at xs.now) }
{
    let mut axes = [0; limit::AXES];
    axes.copy_from_slice(&xs[at + 2..at + 10]);
    Quotient {
        divisor: xs[at],
        constant: xs[at + 1],
        axes,
    }
}

const MOST_DIVISOR: i32 = limit::DIVISOR as i32;

const LEAST_CONSTANT: i32 = -limit::DIVISION_CONSTANT;

fn divisor_fits(d: i32) -> bool
    ensures { result ≡ (ltb 0 (unsigned d) && leb (unsigned d) most_divisor) }
{
    1 <= d && d <= MOST_DIVISOR
}

fn numerator_fits(c: i32) -> bool
    ensures { result ≡ division_constant c }
{
    LEAST_CONSTANT <= c && c <= limit::DIVISION_CONSTANT
}

// Refused by 9, 6, 7 or 8 unless q may be division number i, from 0.
fn check_division(n: usize, i: usize, q: Quotient) -> Result<(), Refusal>
    ensures { number_in result ≡ refusal n (record { basics = 1; divisions = i; constraints = 0 }) (division (quotient_of q)) }
{
    if limit::DIVISIONS <= i {
        return Err(Refusal::TooMany);
    }
    if !divisor_fits(q.divisor) {
        return Err(Refusal::BadDivisor);
    }
    if !numerator_fits(q.constant) || !are_coefficients(q.axes) {
        return Err(Refusal::OutOfRange);
    }
    if !are_absent(n, q.axes) {
        return Err(Refusal::NotAbsent);
    }
    Ok(())
}

// Refused by 1, or as the first division that is refused.
pub fn check_start(n: usize, xs: &[i32], count: usize) -> Result<(), Refusal>
    requires { 10 * count ≤ length xs.now }
    ensures { number_in result ≡ start_refusal n (divisions_in count xs.now) }
{
    if n == 0 || limit::AXES < n {
        return Err(Refusal::BadAxes);
    }
    for i in 0..count {
        check_division(n, i, quotient_at(xs, 10 * i))?;
    }
    Ok(())
}

fn division_of(q: Quotient) -> Division
    requires { Proper (quotient_of q) }
    ensures { division_of result ≡ quotient_of q }
{
    Division {
        divisor: q.divisor as u32,
        constant: q.constant,
        axes: narrowed(q.axes),
    }
}

fn no_divisions() -> [Division; limit::DIVISIONS]
    ensures { length result ≡ most_divisions }
{
    let by_one = Division {
        divisor: 1,
        constant: 0,
        axes: [0; limit::AXES],
    };
    [by_one; limit::DIVISIONS]
}

// The divisions, none of which is refused.
pub fn divisions_of(xs: &[i32], count: usize) -> [Division; limit::DIVISIONS]
    requires { Listed count xs.now }
    ensures { Divided count xs.now result }
{
    let mut ds = no_divisions();
    for i in 0..count {
        ds[i] = division_of(quotient_at(xs, 10 * i));
    }
    ds
}
