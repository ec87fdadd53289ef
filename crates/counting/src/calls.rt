// The calls: how many points of a box are in a set, and how many with each value of one axis.
ghost use Rattle.std.specs.Prelude.{◌≡◌, [], ◌≤◌, ◌<◌, length, take};
ghost use Rattle.std.proofs.Math.Option.{none, some};
ghost use Rattle.model.specs.Limits.{most_axes};
ghost use Rattle.codec.specs.Refusing.{answer_is};
ghost use Rattle.codec.specs.Places.{set_from};
ghost use Rattle.enumeration.specs.Search.{box_of};
ghost use Rattle.enumeration.specs.Search as S;
ghost use Rattle.search.specs.Sides.{Boxed};
ghost use Rattle.enumeration.specs.Counting.{members, members_in, side_at, axis_fits, count_bytes, counts_bytes};
ghost use Rattle.counting.specs.Answers.{counted_is, table_is};
ghost use Rattle.counting.specs.Levels.{Summed};
ghost use Rattle.counting.specs.Calls.{Checked, Fitting, Blank, Ended};

use crate::levels::{Chosen, Counted, level};
use model::{Refusal, limit};

// How many values axis i, from 0, has between the corners.
fn width(low: [i32; limit::AXES], high: [i32; limit::AXES], i: usize) -> usize
    requires { i < most_axes }
    ensures { result ≡ S.width (side_at i (box_of low high)) }
{
    let low = i64::from(low[i]);
    let high = i64::from(high[i]);
    if high < low {
        0
    } else {
        (high - low) as usize + 1
    }
}

// Whether the axis, from 1, is one of n and its side has at most 64 values.
fn axis_fits(n: usize, low: [i32; limit::AXES], high: [i32; limit::AXES], axis: usize) -> bool
    requires { n ≤ most_axes }
    ensures { result ≡ axis_fits n (some axis) (take n (box_of low high)) }
{
    0 < axis && axis <= n && width(low, high, axis - 1) <= limit::VALUES
}

// The refusal of the set, or that of the corners.
fn check(
    n: usize,
    set: &[u8],
    low: [i32; limit::AXES],
    high: [i32; limit::AXES],
) -> Result<(), Refusal>
    ensures { Fitting n set.now low high result }
{
    codec::check(n, set)?;
    if !search::corners_fit(n, low, high) {
        return Err(Refusal::BadPoint);
    }
    Ok(())
}

// The walk of checked bytes over a box that fits and is not upside down.
fn walked(
    n: usize,
    s: &[u8],
    low: [i32; limit::AXES],
    high: [i32; limit::AXES],
    limit: u32,
    c: Chosen,
    each: &mut [u32],
) -> Counted
    requires { Boxed n s.now low high × Blank c each.old }
    ensures { Summed limit 0 c (members (set_from s.now 0) [] (take n (box_of low high))) each.old result each.new }
{
    let mut rows = [[0i64; 129]; limit::BASIC_SETS];
    let all = search::begin(n, s, low, high, limit, &mut rows);
    level(s, all, 0, c, &mut rows, each)
}

// The count of checked bytes over a box whose corners fit: of one that is upside down 0, after no test.
fn ended(
    n: usize,
    s: &[u8],
    low: [i32; limit::AXES],
    high: [i32; limit::AXES],
    limit: u32,
    c: Chosen,
    each: &mut [u32],
) -> Counted
    requires { Checked n s.now low high × Blank c each.old }
    ensures { Ended limit c (members_in (set_from s.now 0) (take n (box_of low high))) (length each.old) result each.new }
{
    if !search::upright(low, high) {
        return Counted {
            whole: Some(0),
            tested: 0,
        };
    }
    let told = walked(n, s, low, high, limit, c, each);
    if told.whole.is_none() {
        each.fill(0);
    }
    told
}

// How many points of the box are in the set, with the number of prefixes tested.
pub fn count(
    n: usize,
    set: &[u8],
    lows: [i32; limit::AXES],
    highs: [i32; limit::AXES],
    limit: u32,
) -> Result<Counted, Refusal>
    ensures { answer_is (λ x. x) result ≡ counted_is (count_bytes n set.now lows highs none limit) }
{
    check(n, set, lows, highs)?;
    if !search::limit_fits(limit) {
        return Err(Refusal::BadLimit);
    }
    let chosen = Chosen { axis: 0, first: 0 };
    Ok(ended(n, set, lows, highs, limit, chosen, &mut []))
}

// The same, with the number of those that have each value of the axis, from 1, in the table.
pub fn counts(
    n: usize,
    set: &[u8],
    lows: [i32; limit::AXES],
    highs: [i32; limit::AXES],
    axis: usize,
    limit: u32,
    each: &mut [u32],
) -> Result<Counted, Refusal>
    ensures is { answer_is (λ x. x) result ≡ counted_is (counts_bytes n (length each.old) set.now lows highs axis limit) }
    ensures table { each.new ≡ table_is (length each.old) (counts_bytes n (length each.old) set.now lows highs axis limit) }
{
    each.fill(0);
    check(n, set, lows, highs)?;
    if !axis_fits(n, lows, highs, axis) {
        return Err(Refusal::BadAxis);
    }
    if !search::limit_fits(limit) {
        return Err(Refusal::BadLimit);
    }
    let i = axis - 1;
    let values = width(lows, highs, i);
    if each.len() < values {
        return Err(Refusal::TableFull);
    }
    let first = i64::from(lows[i]);
    let chosen = Chosen { axis: i, first };
    Ok(ended(n, set, lows, highs, limit, chosen, &mut each[..values]))
}
