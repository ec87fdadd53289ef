// The points of a box that are not in a set: the difference of the box and the set, in the lent table.
ghost use Rattle.std.specs.Prelude.{◌≡◌, length};
ghost use Rattle.codec.specs.Places.{set_from};
ghost use Rattle.algebra.specs.Result.{Result};
ghost use Rattle.results.specs.Outcome.{outcome_is};
ghost use Rattle.enumeration.specs.Search.{box_fits};
ghost use Rattle.search.specs.Sides.{Boxed};
ghost use Rattle.boxes.specs.Box.{outside_result, outside_bytes};
ghost use Rattle.coverage.specs.Calls.{Fitting};

use crate::boxing::boxed;
use model::{Refusal, limit};
use results::{finish, refuse};
use subtraction::subtract_from;

fn box_fits(n: usize, lows: [i32; limit::AXES], highs: [i32; limit::AXES]) -> bool
    ensures { result ≡ box_fits n lows highs }
{
    search::corners_fit(n, lows, highs) && search::upright(lows, highs)
}

// The refusal of the set, or that of the box.
pub fn check_box(
    n: usize,
    set: &[u8],
    lows: [i32; limit::AXES],
    highs: [i32; limit::AXES],
) -> Result<(), Refusal>
    ensures { Fitting n set.now lows highs result }
{
    codec::check(n, set)?;
    if !box_fits(n, lows, highs) {
        return Err(Refusal::BadPoint);
    }
    Ok(())
}

// Of checked bytes, and a box that fits.
pub fn taken(
    n: usize,
    set: &[u8],
    lows: [i32; limit::AXES],
    highs: [i32; limit::AXES],
    out: &mut [u8],
) -> Result<usize, Refusal>
    requires { Boxed n set.now lows highs }
    ensures { Result (length out.old) (outside_result n (length out.old) lows highs (set_from set.now 0)) (outcome_is result) out.new }
{
    let p = boxed(n, lows, highs);
    let d = subtract_from(p, set, out);
    finish(d, out)
}

// The points of the box that are not in the set.
pub fn outside(
    n: usize,
    set: &[u8],
    lows: [i32; limit::AXES],
    highs: [i32; limit::AXES],
    out: &mut [u8],
) -> Result<usize, Refusal>
    ensures { Result (length out.old) (outside_bytes n (length out.old) set.now lows highs) (outcome_is result) out.new }
{
    match check_box(n, set, lows, highs) {
        Ok(()) => taken(n, set, lows, highs, out),
        Err(refusal) => refuse(refusal, out),
    }
}
