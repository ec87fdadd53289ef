// The greatest and the least value of an expression over basic set number k, from 1, of a set's bytes.
ghost use Rattle.std.specs.Prelude.{◌≡◌, pos, negsuc};
ghost use Rattle.climbing.specs.Steps.{aim_of};
ghost use Rattle.rules.specs.Expressions.{expression_of};
ghost use Rattle.extremes.specs.Answers.{extreme_bytes, extent_is};

use crate::Extent;
use crate::value::of_basic;
use model::Refusal;
use rules::{Expression, check_expression, inequality_of};

fn extreme(n: usize, set: &[u8], k: usize, e: Expression, greatest: bool) -> Result<Extent, Refusal>
    ensures { extent_is result ≡ extreme_bytes (aim_of greatest) n set.now k (expression_of e) }
{
    codec::check(n, set)?;
    if k == 0 {
        return Ok(Extent::Empty);
    }
    let at = codec::start_of(set, k - 1);
    if set.len() <= at {
        return Ok(Extent::Empty);
    }
    let basic = records::decode_basic(set, at + 1);
    check_expression(n, basic.divs, e)?;
    Ok(of_basic(basic, inequality_of(e), greatest))
}

pub fn greatest(n: usize, set: &[u8], k: usize, e: Expression) -> Result<Extent, Refusal>
    ensures { extent_is result ≡ extreme_bytes (negsuc 0) n set.now k (expression_of e) }
{
    extreme(n, set, k, e, true)
}

pub fn least(n: usize, set: &[u8], k: usize, e: Expression) -> Result<Extent, Refusal>
    ensures { extent_is result ≡ extreme_bytes (pos 1) n set.now k (expression_of e) }
{
    extreme(n, set, k, e, false)
}
