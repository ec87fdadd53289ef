// The four operations on the bytes of sets.
ghost use Rattle.std.specs.Prelude.{◌≡◌, ◌+◌, length};
ghost use Rattle.model.specs.Refused.{number_in};
ghost use Rattle.codec.specs.Places.{set_from};
ghost use Rattle.algebra.specs.Cut as C;
ghost use Rattle.algebra.specs.Cut.{keeps, union_fits};
ghost use Rattle.algebra.specs.Operations.{union_bytes, intersection_bytes, difference_bytes, complement_bytes};
ghost use Rattle.algebra.specs.Result.{Result};
ghost use Rattle.results.specs.Outcome.{outcome_is};
ghost use Rattle.results.specs.Results.{Made};
ghost use Rattle.subtraction.specs.Subtraction.{Sets};
ghost use Rattle.operations.specs.Operations.{Checks, ChecksCounting};

use crate::pairs::intersect;
use codec::{check, check_counting};
use model::{Refusal, limit};
use records::copy_bytes;
use results::{Done, finish, refuse};
use subtraction::subtract;

// The refusal of the first set, or else of the second.
fn check_two(n: usize, a: &[u8], b: &[u8]) -> Result<(), Refusal>
    ensures { Checks n a.now b.now (number_in result) }
{
    check(n, a)?;
    check(n, b)
}

// The same, with the basic sets of both counted.
fn check_two_counting(n: usize, a: &[u8], b: &[u8]) -> Result<usize, Refusal>
    ensures { ChecksCounting n a.now b.now result }
{
    let first = check_counting(n, a)?;
    let second = check_counting(n, b)?;
    Ok(first + second)
}

// The bytes of two sets that have n basic sets together.
fn append(a: &[u8], b: &[u8], n: usize, out: &mut [u8]) -> Done
    requires { Sets a.now b.now × (n ≡ length (set_from a.now 0) + length (set_from b.now 0)) }
    ensures { Made (union_fits keeps (set_from a.now 0) (set_from b.now 0)) (C.union (set_from a.now 0) (set_from b.now 0)) out.old result out.new }
{
    if limit::BASIC_SETS < n {
        return Done {
            at: 0,
            count: n,
            fits: false,
        };
    }
    let m = copy_bytes(a, out, 0);
    let e = copy_bytes(b, out, m);
    Done {
        at: e,
        count: n,
        fits: true,
    }
}

pub fn union(n: usize, a: &[u8], b: &[u8], out: &mut [u8]) -> Result<usize, Refusal>
    ensures { Result (length out.old) (union_bytes n (length out.old) a.now b.now) (outcome_is result) out.new }
{
    match check_two_counting(n, a, b) {
        Ok(basics) => {
            let d = append(a, b, basics, out);
            finish(d, out)
        },
        Err(refusal) => refuse(refusal, out),
    }
}

pub fn intersection(n: usize, a: &[u8], b: &[u8], out: &mut [u8]) -> Result<usize, Refusal>
    ensures { Result (length out.old) (intersection_bytes n (length out.old) a.now b.now) (outcome_is result) out.new }
{
    match check_two(n, a, b) {
        Ok(()) => {
            let d = intersect(a, b, out);
            finish(d, out)
        },
        Err(refusal) => refuse(refusal, out),
    }
}

pub fn difference(n: usize, a: &[u8], b: &[u8], out: &mut [u8]) -> Result<usize, Refusal>
    ensures { Result (length out.old) (difference_bytes n (length out.old) a.now b.now) (outcome_is result) out.new }
{
    match check_two(n, a, b) {
        Ok(()) => {
            let d = subtract(a, b, out);
            finish(d, out)
        },
        Err(refusal) => refuse(refusal, out),
    }
}

// The difference of the rule-less basic set and the set.
pub fn complement(n: usize, a: &[u8], out: &mut [u8]) -> Result<usize, Refusal>
    ensures { Result (length out.old) (complement_bytes n (length out.old) a.now) (outcome_is result) out.new }
{
    match check(n, a) {
        Ok(()) => {
            let whole = [codec::OPENS];
            let d = subtract(&whole, a, out);
            finish(d, out)
        },
        Err(refusal) => refuse(refusal, out),
    }
}
