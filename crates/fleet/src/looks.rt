// A list of points against one set.
ghost use Rattle.std.specs.Prelude.{◌≡◌, ◌<◌, ℕ};
ghost use Rattle.codec.specs.Places.{Accepted, set_from};
ghost use Rattle.codec.specs.Refusing.{answer_by};
ghost use Rattle.fleet.specs.Fleet.{points_of, mask_of, holding, fleet_bytes};
ghost use Rattle.fleet.specs.Looking.{Points, seen_is, fleet_is, mask_in};

use crate::marks::{coordinates_fit, mask_of, walked, widened};
use model::{Refusal, limit};

// The mask of the points in the set, the first in the lowest bit, and how many there are.
#[derive(Clone, Copy)]
pub struct Seen {
    pub mask: u64,
    pub count: u32,
}

fn points_mask(n: usize, set: &[u8], points: &[i32], k: usize) -> u64
    requires { Accepted set.now × Points n k points.now }
    ensures { result ≡ mask_of (holding (set_from set.now 0)) (points_of n k points.now) }
{
    let w = widened(points);
    let flags = walked(set, n, &w[..points.len()], k);
    mask_of(flags, k)
}

pub fn look(n: usize, set: &[u8], points: &[i32]) -> Result<Seen, Refusal>
    ensures { fleet_is result ≡ fleet_bytes n set.now points.now }
{
    codec::check(n, set)?;
    if points.len() % n != 0 {
        return Err(Refusal::BadFleet);
    }
    let k = points.len() / n;
    if limit::POINTS < k {
        return Err(Refusal::BadFleet);
    }
    if !coordinates_fit(points) {
        return Err(Refusal::BadPoint);
    }
    let mask = points_mask(n, set, points, k);
    Ok(Seen {
        mask,
        count: mask.count_ones(),
    })
}

// Its mask; 0 for a refusal, whatever tells it.
pub fn mask_in<E: Drop>(r: Result<Seen, E>) -> u64
    ensures { (number : E → ℕ) → result ≡ mask_in (answer_by number seen_is r) }
{
    match r {
        Ok(seen) => seen.mask,
        Err(_) => 0,
    }
}
