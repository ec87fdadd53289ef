// The greatest and the least value of an expression.
ghost use Rattle.std.specs.Prelude.{pos, negsuc};
ghost use Rattle.extremes.specs.Answers.{extreme_bytes, extent_is};
ghost use Rattle.rules.specs.Expressions.{expression_by};
ghost use Rattle.probe.specs.Values.{ValueProbed};

use crate::numbers::extent_number;
use extremes::Extent;
use model::{Refusal, limit};
use rules::Expression;

fn told(extent: Result<Extent, Refusal>, value: &mut [u64; 4]) -> u64
    ensures { ValueProbed (extent_is extent) result value.new }
{
    *value = extremes::value_words(extent);
    extent_number(extent)
}

// extremes::greatest: 0 with the value's words, 1 empty, 2 unbounded, 3 wide, 4 long, 100 and the number of a refusal.
#[unsafe(no_mangle)]
pub extern "C" fn probe_greatest(
    n: usize,
    set: &[u8],
    k: usize,
    constant: i32,
    axes: &[i32; limit::AXES],
    divisions: &[i32; limit::DIVISIONS],
    value: &mut [u64; 4],
) -> u64
    ensures { ValueProbed
        (extreme_bytes (negsuc 0) n set.now k (expression_by constant axes.now divisions.now)) result value.new }
{
    let e = Expression {
        constant,
        axes: *axes,
        divisions: *divisions,
    };
    told(extremes::greatest(n, set, k, e), value)
}

// extremes::least, so too.
#[unsafe(no_mangle)]
pub extern "C" fn probe_least(
    n: usize,
    set: &[u8],
    k: usize,
    constant: i32,
    axes: &[i32; limit::AXES],
    divisions: &[i32; limit::DIVISIONS],
    value: &mut [u64; 4],
) -> u64
    ensures { ValueProbed
        (extreme_bytes (pos 1) n set.now k (expression_by constant axes.now divisions.now)) result value.new }
{
    let e = Expression {
        constant,
        axes: *axes,
        divisions: *divisions,
    };
    told(extremes::least(n, set, k, e), value)
}
