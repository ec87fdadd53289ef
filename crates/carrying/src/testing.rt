// The test for fractions of a basic set, at two word sizes.
ghost use Rattle.std.specs.Prelude.{◌≤◌, ◌≡◌, length};
ghost use Rattle.model.specs.Values.{basic_set_of};
ghost use Rattle.feasibility.specs.Tableau.{rows_built};
ghost use Rattle.simplex.specs.Table.{Valid};
ghost use Rattle.carrying.specs.Answers.{Tests, test_bytes, tested_of};

use crate::both::run_both;
use model::{BasicSet, Refusal, limit};
use simplex::fill::fill;
use simplex::{Counted, Ended};

// The answer for a decoded basic set and the number of rows built for it, worked out in lent tables: nothing large is made for a
// test.
pub fn test_counted(
    b: BasicSet,
    rows: &mut [[i64; 18]],
    place: &mut [usize],
    kinds: &mut [u8],
) -> Counted
    requires valid { Valid b }
    requires in_bounds { 64 ≤ length rows.old }
    requires in_bounds_2 { 80 ≤ length place.old }
    requires in_bounds_3 { 80 ≤ length kinds.old }
    ensures { Tests (basic_set_of b) result.ended × (result.built ≡ rows_built (basic_set_of b)) }
{
    let k = b.divs;
    let cons = b.cons;
    let m = 2 * k + cons;
    let n = limit::AXES + k + m;
    fill(b, rows, place, kinds);
    run_both(&mut rows[..m], k + 10, &mut place[..n], &kinds[..n])
}

// The answer alone.
pub fn test_basic(
    b: BasicSet,
    rows: &mut [[i64; 18]],
    place: &mut [usize],
    kinds: &mut [u8],
) -> Ended
    requires valid { Valid b }
    requires in_bounds { 64 ≤ length rows.old }
    requires in_bounds_2 { 80 ≤ length place.old }
    requires in_bounds_3 { 80 ≤ length kinds.old }
    ensures { Tests (basic_set_of b) result }
{
    test_counted(b, rows, place, kinds).ended
}

// The same in tables of its own.
fn test_alone(b: BasicSet) -> Ended
    requires { Valid b }
    ensures { Tests (basic_set_of b) result }
{
    let mut rows = [[0i64; 18]; 64];
    let mut place = [0usize; 80];
    let mut kinds = [0u8; 80];
    test_basic(b, &mut rows, &mut place, &mut kinds)
}

// The test for fractions of basic set number k, from 1, of a set's bytes; `tested_of` says what each answer means, None that there is
// no such basic set.
pub fn test(n: usize, set: &[u8], k: usize) -> Result<Option<Ended>, Refusal>
    ensures { tested_of result ≡ test_bytes n set.now k }
{
    codec::check(n, set)?;
    if k == 0 {
        return Ok(None);
    }
    let at = codec::start_of(set, k - 1);
    if set.len() <= at {
        return Ok(None);
    }
    let basic = records::decode_basic(set, at + 1);
    Ok(Some(test_alone(basic)))
}
