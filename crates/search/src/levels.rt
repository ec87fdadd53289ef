// The levels of the first-point search: prefixes in dictionary order, each axis upward, below those only that can still
// hold.
ghost use Rattle.std.specs.Prelude.{◌≡◌, ◌≤◌, pos, nat_abs, ◌+ℤ◌, ◌-ℤ◌, ◌≤ℤ◌, ◌<◌, get_or};
ghost use Rattle.model.specs.Limits.{most_axes, most_coordinate};
ghost use Rattle.bounds.specs.Sizes.{most_move};
ghost use Rattle.bounds.specs.Ends.{AllWithin};
ghost use Rattle.search.specs.Sides.{trail_of};
ghost use Rattle.search.specs.Live.{Rowed};
ghost use Rattle.search.specs.Levels.{Ready, Climbed, stop_at, level_of, trail};

use crate::first::FirstPoint;
use crate::opening::{Opening, opened_in};
use model::limit;

// How many prefixes were tested: one record lent to each level, which adds to it there.
#[derive(Clone, Copy)]
pub struct Tally {
    pub tested: u32,
}

// A prefix of k numbers, on whose axes low and high are the same, and the basic sets that can hold over the box
// (`live`); with what all levels share: the number of axes, the limit, and how many rows are in use.
#[derive(Clone, Copy)]
pub struct Prefix {
    pub n: usize,
    pub k: usize,
    pub limit: u32,
    pub count: usize,
    pub low: [i64; limit::AXES],
    pub high: [i64; limit::AXES],
    pub live: [bool; limit::BASIC_SETS],
}

// A prefix that passed, and the number of the value after its last one.
#[derive(Clone, Copy)]
pub struct Passed {
    pub at: Prefix,
    pub next: u64,
}

// How far a level came: past its last value, to the limit, to a point, or to a prefix to go below.
#[derive(Clone, Copy)]
pub enum Way {
    Past,
    Spent,
    Point(Passed),
    Below(Passed),
}

// Where a level stops, and how many prefixes were tested on the way.
#[derive(Clone, Copy)]
pub struct Stop {
    pub way: Way,
    pub tested: u32,
}

// How a search ended: at its first point, which has 0 on absent axes, with none in the box, or at the limit.
#[derive(Clone, Copy)]
pub enum Outcome {
    At([i64; limit::AXES]),
    Nothing,
    Spent,
}

// How far the side of axis k goes.
pub fn span_of(low: [i64; limit::AXES], high: [i64; limit::AXES], k: usize) -> u64
    requires { (k < most_axes) × AllWithin most_coordinate low × AllWithin most_coordinate high × (get_or low k (pos 0) ≤ℤ get_or high k (pos 0)) }
    ensures is { result ≡ nat_abs (get_or high k (pos 0) -ℤ get_or low k (pos 0)) }
    ensures size { result ≤ most_move }
{
    (high[k] - low[k]) as u64
}

// Value i of the side of axis k.
pub fn value_at(low: [i64; limit::AXES], k: usize, i: u64) -> i64
    requires { (k < most_axes) × (i ≤ most_move) × AllWithin most_coordinate low }
    ensures { result ≡ get_or low k (pos 0) +ℤ pos i }
{
    low[k] + i as i64
}

// The prefix that passed: a point if no axis is left.
fn stop_at(
    p: Prefix,
    low: [i64; limit::AXES],
    high: [i64; limit::AXES],
    live: [bool; limit::BASIC_SETS],
    tested: u32,
    next: u64,
) -> Stop
    requires { p.k < most_axes }
    ensures { result ≡ stop_at p low high live tested next }
{
    let k = p.k + 1;
    let at = Prefix {
        k,
        low,
        high,
        live,
        ..p
    };
    let passed = Passed { at, next };
    let way = if k == p.n {
        Way::Point(passed)
    } else {
        Way::Below(passed)
    };
    Stop { way, tested }
}

// The values of axis k from number `from` on, up to one that passes; `tested` prefixes were tested before. A run of
// values that fail is counted as far as the side and the limit go, and only its first is looked at.
pub fn climb(
    s: &[u8],
    p: Prefix,
    from: u64,
    tested: u32,
    rows: &mut [[i64; 129]; limit::BASIC_SETS],
) -> Stop
    requires { Ready s.now p tested × Rowed s.now p.n p.count rows.old }
    ensures is { Climbed s.now p from tested result }
    ensures rows { Rowed s.now p.n p.count rows.new }
{
    let mut low = p.low;
    let mut high = p.high;
    let span = span_of(p.low, p.high, p.k);
    let mut t = 0;
    let mut i = from;
    while i <= span {
        if tested + t == p.limit {
            return Stop {
                way: Way::Spent,
                tested: t,
            };
        }
        let v = value_at(p.low, p.k, i);
        low[p.k] = v;
        high[p.k] = v;
        let most = (span - i + 1).min(u64::from(p.limit - (tested + t)));
        match opened_in(
            s,
            p.k,
            &low[..p.n],
            &high[..p.n],
            p.live,
            p.count,
            rows,
            most,
        ) {
            Opening::Open(live) => return stop_at(p, low, high, live, t + 1, i + 1),
            Opening::Shut(run) => {
                t += run as u32;
                i += run;
            }
        }
    }
    Stop {
        way: Way::Past,
        tested: t,
    }
}

// The walk below a prefix. `rows` has a row of ends for each basic set, over whatever box it was last asked; each level
// adds to the tally the prefixes that it tests.
pub fn level(
    s: &[u8],
    p: Prefix,
    tally: &mut Tally,
    rows: &mut [[i64; 129]; limit::BASIC_SETS],
) -> Outcome
    requires { Ready s.now p tally.old.tested × Rowed s.now p.n p.count rows.old }
    ensures { Rowed s.now p.n p.count rows.new × (trail result tally.new.tested ≡ trail_of (level_of s.now p tally.old.tested)) }
{
    let mut from = 0;
    loop {
        let stop = climb(s, p, from, tally.tested, rows);
        tally.tested += stop.tested;
        match stop.way {
            Way::Past => return Outcome::Nothing,
            Way::Spent => return Outcome::Spent,
            Way::Point(passed) => return Outcome::At(passed.at.low),
            Way::Below(passed) => match level(s, passed.at, tally, rows) {
                Outcome::Nothing => from = passed.next,
                found => return found,
            },
        }
    }
}

// The walk below a prefix, with a tally of its own: what every other caller calls.
pub fn tallied(s: &[u8], p: Prefix, rows: &mut [[i64; 129]; limit::BASIC_SETS]) -> FirstPoint
    requires { Ready s.now p 0 × Rowed s.now p.n p.count rows.old }
    ensures { result ≡ trail_of (level_of s.now p 0) }
{
    let mut tally = Tally { tested: 0 };
    let outcome = level(s, p, &mut tally, rows);
    FirstPoint {
        outcome,
        tested: tally.tested,
    }
}
