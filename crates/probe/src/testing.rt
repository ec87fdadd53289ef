// The test for fractions: its answer, its pivots, the rows that it built, and many tests of one basic set in a row.
ghost use Rattle.std.specs.Prelude.{◌≡◌, ◌*◌, ◌%◌, ◌^◌, ◌≤◌, length};
ghost use Rattle.model.specs.Values.{basic_set_of};
ghost use Rattle.feasibility.specs.Tableau.{pivots_made, rows_built};
ghost use Rattle.simplex.specs.Table.{Valid};
ghost use Rattle.carrying.specs.Answers.{test_bytes, built_bytes};
ghost use Rattle.probe.specs.Numbers.{test_number, pivots_number};

use crate::numbers::{pivots_number, test_number};

// carrying::test: 0 point, 1 dropped, 2 long, 3 wide, 4 no such basic set, 100 and the number of a refusal.
#[unsafe(no_mangle)]
pub extern "C" fn probe_test(n: usize, set: &[u8], k: usize) -> u64
    ensures { result ≡ test_number (test_bytes n set.now k) }
{
    test_number(carrying::test(n, set, k))
}

// The pivots that the test made.
#[unsafe(no_mangle)]
pub extern "C" fn probe_pivots(n: usize, set: &[u8], k: usize) -> usize
    ensures { result ≡ pivots_number (test_bytes n set.now k) }
{
    pivots_number(carrying::test(n, set, k))
}

// The rows that its exchanges built.
fn built_alone(b: model::BasicSet) -> usize
    requires { Valid b }
    ensures { result ≡ rows_built (basic_set_of b) }
{
    let mut rows = [[0i64; 18]; 64];
    let mut place = [0usize; 80];
    let mut kinds = [0u8; 80];
    carrying::test_counted(b, &mut rows, &mut place, &mut kinds).built
}

// The same of basic set number k of a set's bytes; 0 where there is none or the bytes are refused.
#[unsafe(no_mangle)]
pub extern "C" fn probe_built(n: usize, set: &[u8], k: usize) -> usize
    ensures { result ≡ built_bytes n set.now k }
{
    if codec::check(n, set).is_err() {
        return 0;
    }
    if k == 0 {
        return 0;
    }
    let at = codec::start_of(set, k - 1);
    if set.len() <= at {
        return 0;
    }
    built_alone(records::decode_basic(set, at + 1))
}

// carrying::test_basic, so many times: the pivots of all.
fn tests(
    b: model::BasicSet,
    times: usize,
    rows: &mut [[i64; 18]],
    place: &mut [usize],
    kinds: &mut [u8],
) -> usize
    requires valid { Valid b }
    requires in_bounds { 64 ≤ length rows.old }
    requires in_bounds_2 { 80 ≤ length place.old }
    requires in_bounds_3 { 80 ≤ length kinds.old }
    ensures { result ≡ (times * pivots_made (basic_set_of b)) % 2 ^ 64 }
{
    let mut pivots: usize = 0;
    for _i in 0..times {
        let ended = carrying::test_basic(b, rows, place, kinds);
        pivots = pivots.wrapping_add(ended.pivots);
    }
    pivots
}

// The same of the first basic set of a set's bytes; 0 where there is none or the bytes are refused.
#[unsafe(no_mangle)]
pub extern "C" fn probe_tests(n: usize, set: &[u8], times: usize) -> usize
    ensures { result ≡ (times * pivots_number (test_bytes n set.now 1)) % 2 ^ 64 }
{
    if codec::check(n, set).is_err() {
        return 0;
    }
    let at = codec::start_of(set, 0);
    if set.len() <= at {
        return 0;
    }
    let b = records::decode_basic(set, at + 1);
    let mut rows = [[0i64; 18]; 64];
    let mut place = [0usize; 80];
    let mut kinds = [0u8; 80];
    tests(b, times, &mut rows, &mut place, &mut kinds)
}
