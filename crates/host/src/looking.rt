// Which points of a list are in a set.
ghost use Rattle.fleet.specs.Fleet.{fleet_bytes};
ghost use Rattle.answers.specs.Numbers.{Fleeted};

use answers::fleet_number;

// How many of the points are in the set, or minus the number of a refusal. Each point has its bit in the mask, the first
// the lowest; after a refusal the mask is 0.
#[unsafe(no_mangle)]
pub extern "C" fn pitsets_fleet(n: usize, set: &[u8], points: &[i32], mask: &mut u64) -> i64
    ensures { Fleeted (fleet_bytes n set.now points.now) result mask.new }
{
    let look = fleet::look(n, set, points);
    *mask = fleet::mask_in(look);
    fleet_number(look)
}
