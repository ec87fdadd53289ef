// The greatest and the least value of an expression over one basic set of a set.
ghost use Rattle.std.specs.Prelude.{pos, negsuc};
ghost use Rattle.rules.specs.Expressions.{expression_by};
ghost use Rattle.extremes.specs.Answers.{extreme_bytes, extent_is};
ghost use Rattle.answers.specs.Numbers.{ValueHosted};

use answers::extent_number;
use extremes::Extent;
use model::{Refusal, limit};
use rules::Expression;

// 1 with the value in `value`; 2 empty, 3 unbounded, 4 wide, 5 long, or minus the number of a refusal, with zeros.
fn told(extent: Result<Extent, Refusal>, value: &mut [u64; 4]) -> i64
    ensures { ValueHosted (extent_is extent) result value.new }
{
    *value = extremes::value_words(extent);
    extent_number(extent)
}

#[unsafe(no_mangle)]
pub extern "C" fn pitsets_greatest(
    n: usize,
    set: &[u8],
    k: usize,
    constant: i32,
    axes: &[i32; limit::AXES],
    divisions: &[i32; limit::DIVISIONS],
    value: &mut [u64; 4],
) -> i64
    ensures { ValueHosted
        (extreme_bytes (negsuc 0) n set.now k (expression_by constant axes.now divisions.now)) result value.new }
{
    let e = Expression {
        constant,
        axes: *axes,
        divisions: *divisions,
    };
    told(extremes::greatest(n, set, k, e), value)
}

#[unsafe(no_mangle)]
pub extern "C" fn pitsets_least(
    n: usize,
    set: &[u8],
    k: usize,
    constant: i32,
    axes: &[i32; limit::AXES],
    divisions: &[i32; limit::DIVISIONS],
    value: &mut [u64; 4],
) -> i64
    ensures { ValueHosted
        (extreme_bytes (pos 1) n set.now k (expression_by constant axes.now divisions.now)) result value.new }
{
    let e = Expression {
        constant,
        axes: *axes,
        divisions: *divisions,
    };
    told(extremes::least(n, set, k, e), value)
}
