// The first point of a set in a box: the call, its refusals, and its walk from the whole box.
ghost use Rattle.std.specs.Prelude.{◌≡◌, [], take};
ghost use Rattle.codec.specs.Refusing.{answer_is};
ghost use Rattle.codec.specs.Places.{set_from};
ghost use Rattle.enumeration.specs.Search.{box_of, walk, search_bytes};
ghost use Rattle.search.specs.Sides.{limited, trail_of, point_or_zeros, Boxed, answer_of};

use crate::levels::{Outcome, tallied};
use crate::windows::{begin, corners_fit, limit_fits, upright};
use model::{Refusal, limit};

// The answer of a search: how it ended, and the number of prefixes tested.
#[derive(Clone, Copy)]
pub struct FirstPoint {
    pub outcome: Outcome,
    pub tested: u32,
}

impl FirstPoint {
    // The point that was found; zeros if none was.
    pub fn point(self) -> [i64; limit::AXES]
        ensures { result ≡ point_or_zeros self.outcome }
    {
        match self.outcome {
            Outcome::At(point) => point,
            Outcome::Nothing | Outcome::Spent => [0; limit::AXES],
        }
    }
}

// The walk of checked bytes over a box that fits and is not shut.
fn walked(
    n: usize,
    s: &[u8],
    low: [i32; limit::AXES],
    high: [i32; limit::AXES],
    limit: u32,
) -> FirstPoint
    requires { Boxed n s.now low high }
    ensures { result ≡ trail_of (limited limit 0 (walk (set_from s.now 0) [] (take n (box_of low high)))) }
{
    let mut rows = [[0i64; 129]; limit::BASIC_SETS];
    let all = begin(n, s, low, high, limit, &mut rows);
    tallied(s, all, &mut rows)
}

// An answer for which no prefix is tested.
fn untested(answer: Result<Outcome, Refusal>) -> Result<FirstPoint, Refusal>
    ensures { answer_is (λ x. x) result ≡ answer_is (λ outcome. record { outcome = outcome; tested = 0 }) answer }
{
    answer.map(|outcome| FirstPoint { outcome, tested: 0 })
}

// The first point of the set in the box, with the number of prefixes tested.
pub fn first_point(
    n: usize,
    set: &[u8],
    lows: [i32; limit::AXES],
    highs: [i32; limit::AXES],
    limit: u32,
) -> Result<FirstPoint, Refusal>
    ensures { answer_is (λ x. x) result ≡ answer_of (search_bytes n set.now lows highs limit) }
{
    if let Err(refusal) = codec::check(n, set) {
        return untested(Err(refusal));
    }
    if !corners_fit(n, lows, highs) {
        return untested(Err(Refusal::BadPoint));
    }
    if !limit_fits(limit) {
        return untested(Err(Refusal::BadLimit));
    }
    if !upright(lows, highs) {
        return untested(Ok(Outcome::Nothing));
    }
    Ok(walked(n, set, lows, highs, limit))
}
