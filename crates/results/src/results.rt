// The result's basic sets, one behind the other in the lent table, and the answer of a call.
ghost use Rattle.std.specs.Prelude.{true, false, [], ◌∷◌, length};
ghost use Rattle.model.specs.Refused.{number_of};
ghost use Rattle.model.specs.Values.{basic_set_of};
ghost use Rattle.codec.specs.Bytes.{refused};
ghost use Rattle.algebra.specs.Result.{Result};
ghost use Rattle.records.specs.Sound.{Sound};
ghost use Rattle.results.specs.Outcome.{outcome_is};
ghost use Rattle.results.specs.Results.{Ready, Emits, Finished};

use model::{BasicSet, Refusal, limit};
use records::{clear, encode_basic};

// How far the result has come: its end, be that in the table or past it, and its basic sets. Not `fits`: refusal 10. One value, and not a
// Result, since what no longer fits is still passed on, basic set by basic set.
#[derive(Clone, Copy)]
pub struct Done {
    pub at: usize,
    pub count: usize,
    pub fits: bool,
}

// One more basic set; there is no 33rd.
pub fn emit(b: BasicSet, out: &mut [u8], s: Done) -> Done
    requires { Sound b × Ready s }
    ensures { Emits (basic_set_of b ∷ []) true out.old s result out.new }
{
    if s.count == limit::BASIC_SETS {
        return Done { fits: false, ..s };
    }
    Done {
        at: encode_basic(b, out, s.at),
        count: s.count + 1,
        fits: true,
    }
}

// The table is 0 after a refusal.
pub fn refuse(refusal: Refusal, out: &mut [u8]) -> Result<usize, Refusal>
    ensures { Result (length out.old) (refused (number_of refusal)) (outcome_is result) out.new }
{
    clear(out, 0);
    Err(refusal)
}

// 10 comes before 11, and the table is 0 past the result.
pub fn finish(s: Done, out: &mut [u8]) -> Result<usize, Refusal>
    ensures { Finished s out.old result out.new }
{
    let at = s.at;
    if !s.fits {
        return refuse(Refusal::OverLimit, out);
    }
    if out.len() < at {
        return refuse(Refusal::TableFull, out);
    }
    clear(out, at);
    Ok(at)
}
