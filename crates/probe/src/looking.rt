// A whole fleet at one look.
ghost use Rattle.fleet.specs.Fleet.{fleet_bytes};
ghost use Rattle.probe.specs.Fleets.{Viewed};

use crate::numbers::fleet_number;

// fleet::look: how many of the points are in the set, 100 and the number of a refusal; and the mask.
#[unsafe(no_mangle)]
pub extern "C" fn probe_fleet(n: usize, set: &[u8], points: &[i32], mask: &mut u64) -> u64
    ensures { Viewed (fleet_bytes n set.now points.now) result mask.new }
{
    let look = fleet::look(n, set, points);
    *mask = fleet::mask_in(look);
    fleet_number(look)
}
