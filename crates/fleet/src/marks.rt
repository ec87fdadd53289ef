// The flags of the points, the numbers of the list, and the mask.
ghost use Rattle.std.specs.Prelude.{◌≡◌, ◌||◌, ◌+◌, ◌*◌, ◌≤◌, ◌<◌, length, take};
ghost use Rattle.model.specs.Lists.{all};
ghost use Rattle.model.specs.Sets.{in_basic};
ghost use Rattle.model.specs.Limits.{most_axes, most_points};
ghost use Rattle.codec.specs.Places.{Opened, Accepted, basic_at};
ghost use Rattle.query.specs.Member.{coordinate};
ghost use Rattle.query.specs.Holding.{Point};
ghost use Rattle.fleet.specs.Fleet.{mask_of};
ghost use Rattle.fleet.specs.Looking.{Points, Marked, Walked, itself};

use model::limit;

// Whether the point is held already, or by the basic set whose commands start at `start`.
fn held(before: bool, s: &[u8], start: usize, x: &[i64]) -> bool
    requires { Opened s.now start × Point x.now }
    ensures { result ≡ (before || in_basic x.now (basic_at s.now start)) }
{
    before || query::spanned(s, start, x).holds
}

// One basic set: every point that no earlier one holds.
fn marked(s: &[u8], start: usize, n: usize, xs: &[i64], k: usize, flags: &mut [bool])
    requires { Opened s.now start × Points n k xs.now × (length flags.old ≡ most_points) }
    ensures { Marked s.now start n xs.now k flags.old flags.new }
{
    for i in 0..k {
        let x = &xs[n * i..n * i + n];
        flags[i] = held(flags[i], s, start, x);
    }
}

// The basic sets in a single pass.
pub fn walked(s: &[u8], n: usize, xs: &[i64], k: usize) -> [bool; limit::POINTS]
    requires { Accepted s.now × Points n k xs.now }
    ensures { Walked s.now n xs.now k result }
{
    let mut flags = [false; limit::POINTS];
    let mut at = 0;
    while at < s.len() {
        marked(s, at + 1, n, xs, k, &mut flags);
        at = codec::end_of(s, at + 1);
    }
    flags
}

// The first flag in the lowest bit: from the last one on.
pub fn mask_of(flags: [bool; limit::POINTS], k: usize) -> u64
    requires { k ≤ most_points }
    ensures { result ≡ mask_of itself (take k flags) }
{
    let mut mask = 0;
    for i in (0..k).rev() {
        mask = mask * 2 + u64::from(flags[i]);
    }
    mask
}

// Whether every number of the list is in the range of a coordinate. None is of an absent axis.
pub fn coordinates_fit(points: &[i32]) -> bool
    ensures { result ≡ all coordinate points.now }
{
    points.iter().all(|z| query::coordinate_fits(1, 0, *z))
}

// The most numbers of a list.
const COORDINATES: usize = limit::POINTS * limit::AXES;

// The same numbers, wider, and then 0.
pub fn widened(points: &[i32]) -> [i64; COORDINATES]
    requires { length points.now ≤ most_points * most_axes }
    ensures { (take (length points.now) result ≡ points.now) × (length result ≡ most_points * most_axes) }
{
    let mut r = [0i64; COORDINATES];
    for (i, z) in points.iter().enumerate() {
        r[i] = i64::from(*z);
    }
    r
}
