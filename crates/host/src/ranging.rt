// Scale readings as ranges.
ghost use Rattle.std.specs.Prelude.{length};
ghost use Rattle.boxes.specs.Range.{range_bytes};
ghost use Rattle.answers.specs.Numbers.{RangeHosted};

use answers::range_number;
use coverage::Reading;
use model::limit;

// 1 sure, 2 never, 3 depends, with the first point in the set and the first outside it; 4 and 5 spent, in the search of
// the set or of the points outside it; or minus the number of a refusal. `within` and `beyond` are the limits of these
// searches. The difference of the box and the set is the first `size` bytes of the table.
#[unsafe(no_mangle)]
pub extern "C" fn pitsets_range(
    n: usize,
    set: &[u8],
    lows: &[i32; limit::AXES],
    highs: &[i32; limit::AXES],
    within: u32,
    beyond: u32,
    out: &mut [u8],
    size: &mut usize,
    inside: &mut [i64; limit::AXES],
    outside: &mut [i64; limit::AXES],
) -> i64
    ensures { RangeHosted (length out.old)
        (range_bytes n (length out.old) set.now lows.now highs.now within beyond)
        result out.new size.new inside.new outside.new }
{
    let reading = coverage::box_range(n, set, *lows, *highs, within, beyond, out);
    *size = reading.map_or(0, |reading| reading.length);
    *inside = reading.map_or([0; limit::AXES], Reading::inside);
    *outside = reading.map_or([0; limit::AXES], Reading::outside);
    range_number(reading)
}
