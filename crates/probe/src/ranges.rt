// Scale readings as ranges.
ghost use Rattle.std.specs.Prelude.{length};
ghost use Rattle.boxes.specs.Range.{range_bytes};
ghost use Rattle.probe.specs.Ranges.{RangeProbed};

use crate::numbers::range_number;
use coverage::Reading;
use model::limit;

// coverage::box_range: 0 sure, 1 never, 2 depends, 3 and 4 spent, 100 and the number of a refusal.
#[unsafe(no_mangle)]
pub extern "C" fn probe_range(
    n: usize,
    set: &[u8],
    within: u32,
    beyond: u32,
    lows: &[i32; limit::AXES],
    highs: &[i32; limit::AXES],
    out: &mut [u8],
    size: &mut usize,
    inside: &mut [i64; limit::AXES],
    outside: &mut [i64; limit::AXES],
) -> u64
    ensures { RangeProbed (length out.old)
        (range_bytes n (length out.old) set.now lows.now highs.now within beyond)
        result out.new size.new inside.new outside.new }
{
    let reading = coverage::box_range(n, set, *lows, *highs, within, beyond, out);
    *size = reading.map_or(0, |reading| reading.length);
    *inside = reading.map_or([0; limit::AXES], Reading::inside);
    *outside = reading.map_or([0; limit::AXES], Reading::outside);
    range_number(reading)
}
