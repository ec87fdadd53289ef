// The bytes of a set accepted quickly. Of the coefficients at each place of a basic set only the least and the greatest are kept, which the
// compiler does for eight places at once. What is not accepted here the scan decides.
ghost use Rattle.std.specs.Prelude.{◌≡◌, ℕ, true, ◌+◌, ◌≤◌, ◌<◌, IfSome, length};
ghost use Rattle.model.specs.Limits.{most_axes, coefficient_places};
ghost use Rattle.codec.specs.Bytes.{constraint_body};
ghost use Rattle.codec.specs.Accepting.{Under, Over, Upto, ranges_allowed, InRange, DivisionsTo, ConstraintsTo, Ends, Accepts, DivisionThere, CommandThere, ConstraintThere, Joined, Further};

use crate::layout::{
    AXES_PLACE, BARE_HEAD, CONSTANT_PLACE, CONSTRAINT_BODY, DIVISION, DIVISION_HEAD,
    DIVISION_WIDTH, DIVISIONS_PLACE, EQUALITY, HEAD_PLACE, INEQUALITY, NUMBERED_EQUALITY,
    NUMBERED_HEAD, NUMBERED_INEQUALITY, OPENS,
};
use integers::{i16_at, i32_at, u16_at, u32_at};
use model::limit;

// A `12`, read whole where it stands: the places of its numbers.
const DIVISION_CONSTANT: usize = DIVISION_HEAD + CONSTANT_PLACE;

const DIVISION_AXES: usize = DIVISION_HEAD + AXES_PLACE;

// The table of ranges: the least at each place, as many zeros, the greatest, as many zeros.
const RANGES: usize = 4 * limit::PLACES;

const PAST_GREATEST: usize = 3 * limit::PLACES;

const LEAST: i16 = -limit::COEFFICIENT as i16;

const GREATEST: i16 = limit::COEFFICIENT as i16;

const LEAST_CONSTANT: i32 = -limit::DIVISION_CONSTANT;

// The least and the greatest number at each of eight places.
#[derive(Clone, Copy)]
pub struct Spread {
    pub low: [i16; limit::PLACES],
    pub high: [i16; limit::PLACES],
}

// Divisions in a row: the place after them, how many they are, and the spread of their coefficients, 0 among them.
#[derive(Clone, Copy)]
pub struct DivisionRun {
    pub at: usize,
    pub count: usize,
    pub axes: Spread,
}

// Constraints in a row, with the spreads of the coefficients of axes and of divisions.
#[derive(Clone, Copy)]
pub struct ConstraintRun {
    pub at: usize,
    pub count: usize,
    pub axes: Spread,
    pub divisions: Spread,
}

impl Spread {
    fn zero() -> Spread {
        Spread {
            low: [0; limit::PLACES],
            high: [0; limit::PLACES],
        }
    }

    // This spread and the eight numbers from p on.
    fn widened(mut self, s: &[u8], p: usize) -> Spread
        requires { p + 16 ≤ length s.now }
        ensures low { Under result.low self.low × Over result.low s.now p }
        ensures high { Under self.high result.high × Upto result.high s.now p }
    {
        for i in 0..limit::PLACES {
            let v = i16_at(s, p + 2 * i);
            self.low[i] = self.low[i].min(v);
            self.high[i] = self.high[i].max(v);
        }
        self
    }

    // Whether the least and the greatest number at each place are in the range there, where n places are not absent. All are looked at, so
    // that the compiler compares them at once. `ranges` is what `ranges` gives.
    fn is_in_range(&self, n: usize, ranges: &[i16]) -> bool
        requires { (n ≤ coefficient_places) × (ranges.now ≡ ranges_allowed) }
        ensures { result ≡ true → InRange n self.now.low self.now.high }
    {
        let mut ok = true;
        for i in 0..limit::PLACES {
            ok &= ranges[limit::PLACES - n + i] <= self.low[i];
            ok &= self.high[i] <= ranges[PAST_GREATEST - n + i];
        }
        ok
    }
}

// The least coefficient at each place, from place 8 − n on, and 16 places further the greatest.
fn ranges() -> [i16; RANGES]
    ensures { result ≡ ranges_allowed }
{
    [
        LEAST, LEAST, LEAST, LEAST, LEAST, LEAST, LEAST, LEAST, 0, 0, 0, 0, 0, 0, 0, 0, GREATEST,
        GREATEST, GREATEST, GREATEST, GREATEST, GREATEST, GREATEST, GREATEST, 0, 0, 0, 0, 0, 0, 0,
        0,
    ]
}

// Whether a division is at `at`, with its divisor and its constant in range.
fn division_there(s: &[u8], at: usize) -> bool
    requires { at ≤ length s.now }
    ensures { result ≡ true → DivisionThere s.now at }
{
    if s.len() - at < DIVISION_WIDTH || s[at] != DIVISION {
        return false;
    }
    let d = u16_at(s, at + HEAD_PLACE);
    let k = i32_at(s, at + DIVISION_CONSTANT);
    0 < d && d <= limit::DIVISOR && LEAST_CONSTANT <= k && k <= limit::DIVISION_CONSTANT
}

// Whether one of two commands with such a head is at `at`, with its constant in range. Most are inequalities, which may have
// any.
fn command_there(s: &[u8], at: usize, head: usize, equality: u8, inequality: u8) -> bool
    requires { (at ≤ length s.now) × (head ≤ 3) }
    ensures { result ≡ true → CommandThere s.now at head equality inequality }
{
    if s.len() - at < head + CONSTRAINT_BODY {
        return false;
    }
    s[at] == inequality || s[at] == equality && u32_at(s, at + head + CONSTANT_PLACE) != 2147483648
}

// A constraint without a number.
fn bare_there(s: &[u8], at: usize) -> bool
    requires { at ≤ length s.now }
    ensures { result ≡ true → ConstraintThere s.now at (at + 1) }
{
    command_there(s, at, BARE_HEAD, EQUALITY, INEQUALITY)
}

// A constraint with a number that is not 0.
fn numbered_there(s: &[u8], at: usize) -> bool
    requires { at ≤ length s.now }
    ensures { result ≡ true → ConstraintThere s.now at (at + 3) }
{
    command_there(s, at, NUMBERED_HEAD, NUMBERED_EQUALITY, NUMBERED_INEQUALITY)
        && u16_at(s, at + HEAD_PLACE) != 0
}

fn divisions(s: &[u8], start: usize) -> DivisionRun
    requires { start ≤ length s.now }
    ensures { DivisionsTo s.now start result.at result.count result.axes.low result.axes.high }
{
    let mut run = DivisionRun {
        at: start,
        count: 0,
        axes: Spread::zero(),
    };
    while division_there(s, run.at) {
        run.axes = run.axes.widened(s, run.at + DIVISION_AXES);
        run.count += 1;
        run.at += DIVISION_WIDTH;
    }
    run
}

// Behind c the constraint whose body is at p.
fn joined(s: &[u8], c: ConstraintRun, p: usize) -> ConstraintRun
    requires { (p + constraint_body ≤ length s.now) × (c.count < length s.now) }
    ensures { Joined s.now c p result }
{
    ConstraintRun {
        at: p + CONSTRAINT_BODY,
        count: c.count + 1,
        axes: c.axes.widened(s, p + AXES_PLACE),
        divisions: c.divisions.widened(s, p + DIVISIONS_PLACE),
    }
}

// Behind c the constraints that follow with such a head, as long as `there` tells that one is at a place.
fn further<F: Fn(usize) -> bool>(
    s: &[u8],
    mut c: ConstraintRun,
    head: usize,
    there: F,
) -> ConstraintRun
    requires place { (c.at ≤ length s.now) × (c.count ≤ c.at) }
    requires asked { (at : ℕ) → at ≤ length s.now → F.pre there at }
    requires told { (at : ℕ) → at ≤ length s.now → F.post there at true → ConstraintThere s.now at (at + head) }
    ensures { Further s.now c result }
{
    while there(c.at) {
        c = joined(s, c, c.at + head);
    }
    c
}

// The constraints from `start` on, after divisions with such coefficients: in turns those without and those with a number, each in a loop of
// its own, where the place of the next waits for nothing.
fn constraints(s: &[u8], start: usize, axes: Spread) -> ConstraintRun
    requires { start ≤ length s.now }
    ensures { ConstraintsTo s.now start axes.low axes.high result }
{
    let mut c = ConstraintRun {
        at: start,
        count: 0,
        axes,
        divisions: Spread::zero(),
    };
    loop {
        let bare = further(s, c, BARE_HEAD, |at| bare_there(s, at));
        c = further(s, bare, NUMBERED_HEAD, |at| numbered_there(s, at));
        if c.at == bare.at {
            return c;
        }
    }
}

// The place after the basic set whose commands start at `start`, where it is accepted.
fn accepted_end(n: usize, s: &[u8], start: usize, ranges: &[i16]) -> Option<usize>
    requires { (n ≤ most_axes) × (start ≤ length s.now) × (ranges.now ≡ ranges_allowed) }
    ensures { IfSome result (λ end. Ends n s.now start end) }
{
    let d = divisions(s, start);
    if limit::DIVISIONS < d.count {
        return None;
    }
    let c = constraints(s, d.at, d.axes);
    if limit::CONSTRAINTS < c.count {
        return None;
    }
    if !c.axes.is_in_range(n, ranges) || !c.divisions.is_in_range(d.count, ranges) {
        return None;
    }
    Some(c.at)
}

// How many basic sets the bytes have, where they are accepted.
pub fn accepts(n: usize, s: &[u8]) -> Option<usize>
    ensures { Accepts n s.now result }
{
    if n == 0 || limit::AXES < n {
        return None;
    }
    let ranges = ranges();
    let mut at = 0;
    let mut basics = 0;
    while at < s.len() {
        if s[at] != OPENS || limit::BASIC_SETS <= basics {
            return None;
        }
        at = accepted_end(n, s, at + 1, &ranges)?;
        basics += 1;
    }
    Some(basics)
}
