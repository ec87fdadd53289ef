// The levels of a count: the search's walk, going on past each member to the end. Members one after the other on the
// last axis are counted at once, as far as one basic set holds them.
ghost use Rattle.std.specs.Prelude.{◌≡◌, true, ◌≤◌, ◌<◌, replicate};
ghost use Rattle.integers.specs.Z.{Within};
ghost use Rattle.model.specs.Limits.{most_axes, most_coordinate};
ghost use Rattle.bounds.specs.Ends.{AllWithin};
ghost use Rattle.search.specs.Live.{Rowed};
ghost use Rattle.search.specs.Levels.{passes_at, span_at, Ready};
ghost use Rattle.counting.specs.Levels.{members_at, line_of, Along, Added, AtMost, Room, Raised, Gathered, Summed};

use model::limit;
use search::{Prefix, Way, climb, span_of, value_at};

// The chosen axis, from 0, and its first value: the counts of its values stand from there upward in a table. A table
// of no places counts none of them: an Option beside it would say the same twice.
#[derive(Clone, Copy)]
pub struct Chosen {
    pub axis: usize,
    pub first: i64,
}

// The answer of a count: the number of members, None where the limit came first; the number of prefixes tested.
#[derive(Clone, Copy)]
pub struct Counted {
    pub whole: Option<u32>,
    pub tested: u32,
}

// m more at the place of value v, where the places are those of the values from f on.
fn raise(f: i64, v: i64, m: u32, each: &mut [u32])
    requires { Within most_coordinate f × Within most_coordinate v × Room m each.old }
    ensures { Raised f v m each.old each.new }
{
    if f <= v {
        let j = (v - f) as usize;
        if j < each.len() {
            each[j] += m;
        }
    }
}

// m more at the place of a point's value on the chosen axis.
fn noted(c: Chosen, point: [i64; limit::AXES], m: u32, each: &mut [u32])
    requires { (c.axis < most_axes) × Within most_coordinate c.first × AllWithin most_coordinate point × Room m each.old }
    ensures { Added c (replicate m point) each.old each.new }
{
    raise(c.first, point[c.axis], m, each);
}

// Each of m members one after the other on axis k, which is the chosen one, from value number i on.
fn noted_along(c: Chosen, p: Prefix, i: u64, m: u32, each: &mut [u32])
    requires { (c.axis ≡ p.k) × Within most_coordinate c.first × Along p.low p.k i m × Room m each.old }
    ensures { Added c (line_of p.low p.k i m) each.old each.new }
{
    for x in 0..m {
        let v = value_at(p.low, p.k, i + u64::from(x));
        raise(c.first, v, 1, each);
    }
}

// The same; on another axis they all have one value.
fn noted_all(c: Chosen, p: Prefix, i: u64, m: u32, each: &mut [u32])
    requires { (c.axis < most_axes) × Within most_coordinate c.first × Along p.low p.k i m × Room m each.old }
    ensures { Added c (line_of p.low p.k i m) each.old each.new }
{
    if each.is_empty() {
        return;
    }
    if c.axis == p.k {
        noted_along(c, p, i, m, each);
    } else {
        noted(c, p.low, m, each);
    }
}

// How many values of the last axis are members, from number i on, which is one; each of them is noted. More than one
// are asked for where `ask` says so.
fn gathered(
    s: &[u8],
    p: Prefix,
    live: [bool; limit::BASIC_SETS],
    ask: bool,
    i: u64,
    tested: u32,
    c: Chosen,
    rows: &mut [[i64; 129]; limit::BASIC_SETS],
    each: &mut [u32],
) -> u32
    requires { Ready s.now p tested × Rowed s.now p.n p.count rows.old × (i ≤ span_at p) × (tested < p.limit) × (passes_at s.now p i ≡ true) × (c.axis < most_axes) × Within most_coordinate c.first × AtMost tested each.old }
    ensures is { Gathered s.now p i tested c result each.old each.new }
    ensures rows { Rowed s.now p.n p.count rows.new }
{
    let m = search::lasting(s, p, live, ask, i, tested, rows) as u32;
    noted_all(c, p, i, m, each);
    m
}

// Whether it is worth asking for a row of members: the value before did not fail, and three or more are left. So a row
// that begins later is asked for from its second member on.
fn worth(tested: u32, left: u64) -> bool {
    tested == 1 && 3 <= left
}

// The members below a prefix, `tested` prefixes having been tested before.
pub fn level(
    s: &[u8],
    p: Prefix,
    tested: u32,
    c: Chosen,
    rows: &mut [[i64; 129]; limit::BASIC_SETS],
    each: &mut [u32],
) -> Counted
    requires { Ready s.now p tested × Rowed s.now p.n p.count rows.old × (c.axis < most_axes) × Within most_coordinate c.first × AtMost tested each.old }
    ensures is { Summed p.limit tested c (members_at s.now p) each.old result each.new }
    ensures rows { Rowed s.now p.n p.count rows.new }
{
    let span = span_of(p.low, p.high, p.k);
    let mut whole = 0;
    let mut t = tested;
    let mut i = 0;
    while i <= span {
        let stop = climb(s, p, i, t, rows);
        t += stop.tested;
        match stop.way {
            Way::Past => {
                return Counted {
                    whole: Some(whole),
                    tested: t,
                };
            }
            Way::Spent => {
                return Counted {
                    whole: None,
                    tested: t,
                };
            }
            Way::Point(passed) => {
                let j = passed.next - 1;
                let ask = worth(stop.tested, span - j);
                let m = gathered(s, p, passed.at.live, ask, j, t - 1, c, rows, each);
                whole += m;
                t = t - 1 + m;
                i = j + u64::from(m);
            }
            Way::Below(passed) => {
                let below = level(s, passed.at, t, c, rows, each);
                match below.whole {
                    None => return below,
                    Some(more) => whole += more,
                }
                t = below.tested;
                i = passed.next;
            }
        }
    }
    Counted {
        whole: Some(whole),
        tested: t,
    }
}
